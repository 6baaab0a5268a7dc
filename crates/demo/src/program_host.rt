//! The program's host.
#![tactic(auto, using(rhai_base::specs::Reading::kinds, crate::proofs::ProgramHosts::known))]

ghost use Rattle.std.specs.Prelude.{◌≡◌, ◌++◌, IfOk, None, map};
ghost use Rattle.std.specs.Option.{option_map};
ghost use Rattle.rhai_base.specs.Reading.{value_of};
ghost use Rattle.rhai_base.specs.Value.{TextV, text_of};
ghost use Rattle.theory_meaning.specs.Act.{Answers};
ghost use Rattle.run_host.specs.Host.{answer_meant};
ghost use Rattle.demo.specs.ProgramHost as spec;

use rhai_base::{Dynamic, ImmutableString, OutOfMemory};
use run_host::{Host, HostAnswer, HostCall};
use std::alloc::Global;

/// What answers the calls that are not built in: `f` answers `true`, `+` joins its two arguments as texts, and the
/// method `push` with one argument appends it to an array. All else answers unit. The path `m` leads to module `m`,
/// whose value `v` is 7.
#[derive(Clone, Copy, Debug, PartialEq, Eq)]
pub struct ProgramHost;

impl Host for ProgramHost {
    ghost use Rattle.demo.specs.ProgramHost.{program_answer, program_modules};

    ghost answers = { λ host past call. program_answer call };

    ghost modules = { λ host. program_modules };

    fn answer(
        &self,
        alloc: Global,
        _past: &[HostCall],
        call: &HostCall,
    ) -> Result<HostAnswer, OutOfMemory> {
        match call.name.as_str() {
            "f" => Ok(value_alone(Dynamic::Bool(true))),
            "+" => joined_texts(alloc, call.args.as_slice()),
            "push" => pushed(call),
            _ => Ok(unit_alone()),
        }
    }

    fn module_value(
        &self,
        _alloc: Global,
        qualified: &str,
    ) -> Result<Option<Dynamic>, OutOfMemory> {
        match qualified {
            "m::v" => Ok(Some(Dynamic::Int(7))),
            _ => Ok(None),
        }
    }

    fn module(&self, alloc: Global, path: &str) -> Result<Option<ImmutableString>, OutOfMemory> {
        match path {
            "m" => Ok(Some(ImmutableString::new(alloc, "m")?)),
            _ => Ok(None),
        }
    }
}

/// A value that leaves the receiver as it is.
fn value_alone(value: Dynamic) -> HostAnswer
    ensures { answer_meant result ≡ Answers (value_of value) None }
{
    HostAnswer::Value {
        value,
        receiver: None,
    }
}

fn unit_alone() -> HostAnswer
    ensures { answer_meant result ≡ spec.unit_alone }
{
    value_alone(Dynamic::Unit)
}

fn joined_texts(alloc: Global, args: &[Dynamic]) -> Result<HostAnswer, OutOfMemory>
    ensures { IfOk result (λ a. answer_meant a ≡ spec.joined_texts (map value_of args.now)) }
{
    match args {
        [first, second] => joined(alloc, first, second),
        _ => Ok(unit_alone()),
    }
}

/// One value and then the other, as a text.
fn joined(alloc: Global, first: &Dynamic, second: &Dynamic) -> Result<HostAnswer, OutOfMemory>
    ensures { IfOk result (λ a.
        answer_meant a ≡ Answers (TextV (text_of (value_of first.now) ++ text_of (value_of second.now))) None) }
{
    let mut text = String::new(alloc);
    first.push_text(&mut text)?;
    second.push_text(&mut text)?;
    let text = ImmutableString::from_string(text)?;
    Ok(value_alone(Dynamic::Str(text)))
}

fn pushed(call: &HostCall) -> Result<HostAnswer, OutOfMemory>
    ensures { IfOk result (λ a.
        answer_meant a ≡ spec.pushed (option_map value_of call.now.receiver) (map value_of call.now.args)) }
{
    let Some(receiver) = &call.receiver else {
        return Ok(unit_alone());
    };
    match call.args.as_slice() {
        [item] => appended(receiver, item),
        _ => Ok(unit_alone()),
    }
}

/// The receiver with the item behind its items, where it is an array.
fn appended(receiver: &Dynamic, item: &Dynamic) -> Result<HostAnswer, OutOfMemory>
    ensures { IfOk result (λ a. answer_meant a ≡ spec.appended (value_of receiver.now) (value_of item.now)) }
{
    match receiver.clone()?.into_array() {
        Ok(mut items) => {
            items.push(item.clone()?)?;
            Ok(HostAnswer::Value {
                value: Dynamic::Unit,
                receiver: Some(Dynamic::Array(items)),
            })
        }
        Err(_) => Ok(unit_alone()),
    }
}
