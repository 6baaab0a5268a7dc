//! What a run is given, read from lines of text: its turns, start scope and record, and a host by rows.
#![tactic(auto, using(rhai_base::specs::Reading::kinds, crate::proofs::HostRows::steps))]

ghost use Rattle.std.specs.Prelude.{◌≡◌, length, IfOk, option_map};
ghost use Rattle.rhai_base.specs.Reading.{value_of};
ghost use Rattle.run_host.specs.Host.{answer_meant};
ghost use Rattle.theory_meaning.specs.Host.{module_in};
ghost use Rattle.tests_of_scripts.specs.HostRows as spec;

use rhai_base::{Dynamic, ImmutableString, OutOfMemory, Scope, Seq};
use rhai_run::{EngineInfo, Host, HostAnswer, HostCall};
use std::alloc::Global;
use tests_reader::{AnswerRow, Said, read_answer, read_binding, split};

/// Answers by the first row that fits, and unit where none does.
#[derive(Drop)]
pub struct RowsHost {
    answers: Seq<AnswerRow>,
    modules: Seq<(ImmutableString, Dynamic)>,
    paths: Seq<(ImmutableString, ImmutableString)>,
}

impl Host for RowsHost {
    ghost use Rattle.tests_of_scripts.specs.HostRows.{answer_among, modules_by};

    ghost answers = { λ h past c. answer_among h.answers (length past) c.name };

    ghost modules = { λ h. modules_by h.modules h.paths };

    fn answer(
        &self,
        _alloc: Global,
        past: &[HostCall],
        call: &HostCall,
    ) -> Result<HostAnswer, OutOfMemory> {
        for row in self.answers.as_slice() {
            if fits(row, past.len(), call.name.as_str()) {
                return answered(row);
            }
        }
        Ok(HostAnswer::Value {
            value: Dynamic::Unit,
            receiver: None,
        })
    }

    fn module_value(
        &self,
        _alloc: Global,
        qualified: &str,
    ) -> Result<Option<Dynamic>, OutOfMemory> {
        for module in self.modules.as_slice() {
            if module.0.as_str() == qualified {
                return Ok(Some(module.1.clone()?));
            }
        }
        Ok(None)
    }

    fn module(&self, _alloc: Global, path: &str) -> Result<Option<ImmutableString>, OutOfMemory> {
        known_module(self.paths.as_slice(), path)
    }
}

/// The module of the first path that is this one.
fn known_module(
    paths: &[(ImmutableString, ImmutableString)],
    path: &str,
) -> Result<Option<ImmutableString>, OutOfMemory>
    ensures { IfOk result (λ m. m ≡ module_in (spec.paths_of paths.now) path.now) }
{
    for known in paths {
        if known.0.as_str() == path {
            return Ok(Some(known.1.clone()?));
        }
    }
    Ok(None)
}

/// Whether a row is for a call of this name after so many others.
fn fits(row: &AnswerRow, past: usize, called: &str) -> bool
    ensures { result ≡ spec.fits row.now past called.now }
{
    is_after(row.past, past) && is_named(&row.name, called)
}

fn is_after(row: Option<usize>, past: usize) -> bool
    ensures { result ≡ spec.is_after row past }
{
    match row {
        Some(calls) => calls == past,
        None => true,
    }
}

fn is_named(row: &Option<ImmutableString>, called: &str) -> bool
    ensures { result ≡ spec.is_named row.now called.now }
{
    match row {
        Some(name) => name.as_str() == called,
        None => true,
    }
}

fn answered(row: &AnswerRow) -> Result<HostAnswer, OutOfMemory>
    ensures { IfOk result (λ a. answer_meant a ≡ spec.answered row.now) }
{
    let value = row.value.clone()?;
    if row.is_thrown {
        return Ok(HostAnswer::Throw(value));
    }
    let receiver = copied(&row.receiver)?;
    Ok(HostAnswer::Value { value, receiver })
}

fn copied(value: &Option<Dynamic>) -> Result<Option<Dynamic>, OutOfMemory>
    ensures { IfOk result (λ v. option_map value_of v ≡ option_map value_of value.now) }
{
    match value {
        Some(value) => Ok(Some(value.clone()?)),
        None => Ok(None),
    }
}

/// What a run is given.
#[derive(Drop)]
pub struct Given {
    pub info: EngineInfo,
    pub host: RowsHost,
    /// Whether the program's host answers in place of the rows.
    pub by_program: bool,
    pub scope: Scope,
    pub turns: u64,
}

/// Reads what a run is given, a line each: `turns 3`, of the scope `variable x = 1` and `constant x = 1`, of the
/// record `record x = 1`, `override + i64 i64`, `type i64 as int` and `fast operators`, of the host `module m::x = 1`,
/// `path q = m` and rows as `answer 0 f => 1 then 2`, or `host of the program` in their place. Three turns, where no
/// line says how many.
pub fn read_given(text: &str, said: &Said) -> Given {
    let mut given = Given {
        info: EngineInfo::new(said.alloc),
        host: RowsHost {
            answers: Seq::new(said.alloc),
            modules: Seq::new(said.alloc),
            paths: Seq::new(said.alloc),
        },
        by_program: false,
        scope: Scope::new(said.alloc),
        turns: 3,
    };
    for line in text.lines() {
        read_line(line, &mut given, said);
    }
    given
}

fn read_line(line: &str, given: &mut Given, said: &Said) {
    let (word, rest) = split(line, " ");
    match word {
        "turns" => read_turns(rest, given, said),
        "answer" => read_row(rest, given, said),
        "host" => given.by_program = true,
        "type" => rename(rest, &mut given.info, said),
        "path" => know(rest, &mut given.host, said),
        "override" => override_operator(rest, &mut given.info, said),
        "fast" => given.info.set_fast_operators(true),
        "variable" | "constant" | "record" | "module" => bind(word, rest, given, said),
        _ => said.want("what a run is given"),
    }
}

fn read_turns(text: &str, given: &mut Given, said: &Said) {
    match text.parse::<u64>() {
        Ok(turns) => given.turns = turns,
        Err(_) => said.want("turns"),
    }
}

fn read_row(text: &str, given: &mut Given, said: &Said) {
    if let Some(row) = read_answer(text, said) {
        said.made(given.host.answers.push(row));
    }
}

/// A name and its value.
fn bind(word: &str, text: &str, given: &mut Given, said: &Said) {
    if let Some((name, value)) = read_binding(text, said) {
        said.made(put(word, name, value, given));
    }
}

fn put(
    word: &str,
    name: ImmutableString,
    value: Dynamic,
    given: &mut Given,
) -> Result<(), OutOfMemory> {
    match word {
        "variable" => given.scope.push(name, value),
        "constant" => given.scope.push_constant(name, value),
        "record" => given.info.add_constant(name, value),
        _ => Ok(given.host.modules.push((name, value))?),
    }
}

/// A type and the name that scripts see for it.
fn rename(text: &str, info: &mut EngineInfo, said: &Said) {
    let (from, to) = split(text, " as ");
    if let Some(from) = said.shared(from)
        && let Some(to) = said.shared(to)
    {
        said.made(info.set_type_name(from, to));
    }
}

/// A path and the module that it leads to.
fn know(text: &str, host: &mut RowsHost, said: &Said) {
    let (path, name) = split(text, " = ");
    if let Some(path) = said.shared(path)
        && let Some(name) = said.shared(name)
    {
        said.made(host.paths.push((path, name)));
    }
}

/// An operator with the types of its operands.
fn override_operator(text: &str, info: &mut EngineInfo, said: &Said) {
    let (operator, types) = split(text, " ");
    if let Some(operator) = said.shared(operator) {
        said.made(info.override_operator(operator, said.words(types)));
    }
}
