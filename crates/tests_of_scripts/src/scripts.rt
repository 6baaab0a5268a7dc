//! Questions about scripts: how they are printed, what the optimiser makes of them, and how they run. A script may
//! stand behind a line `----` and what its run is given.

use crate::given::{Given, read_given};
use crate::nodes::{places, places_read};
use crate::{again, functions, long, names, nodes, reads, shown};
use demo::ProgramHost;
use notation_print::push_script;
use rhai_ast::{FnAccess, FnNamespace, Stmt, StmtQueries};
use rhai_base::{Boxed, OutOfMemory};
use rhai_optimizer::{OptimizationLevel, optimize_into_ast};
use rhai_run::{RunReport, plain_run};
use rhai_script::AST;
use run_host::push_report;
use tests_reader::{Said, Script, parting, split};

/// What stands between what a run is given and the script, and between two scripts.
const BETWEEN: &str = "----\n";

/// Questions about two scripts that are joined, by the calls that join them.
const JOINS: [&str; 4] = ["merge", "merge_filtered", "combine", "combine_filtered"];

pub fn answer(question: &str, text: &str, said: &Said) {
    let lines = ended(text, said);
    let lines = lines.as_str();
    let (given, script) = lines.split_once(BETWEEN).unwrap_or(("", lines));
    asked(question, &read_given(given, said), script, said);
}

/// What is read back of a text, whose last line ends.
pub fn read_back(question: &str, text: &str, said: &Said) {
    reads::answer(question, ended(text, said).as_str(), said);
}

/// A text with an end of its last line.
fn ended(text: &str, said: &Said) -> String {
    let mut lines = String::new(said.alloc);
    said.made(lines.push_str(text));
    if !text.is_empty() {
        said.made(lines.push('\n'));
    }
    lines
}

fn asked(question: &str, given: &Given, script: &str, said: &Said) {
    if let Some(level) = level_named(question) {
        return at_level(given, script, level, said);
    }
    if JOINS.contains(&question) {
        return join(question, given, script, said);
    }
    match question {
        "last" => last(given, script, said),
        "run" => run(given, script, said),
        "rewrite" => rewrite(given, script, said),
        "names" => names::answer(given, script, said),
        "again" => again::answer(given, script, said),
        "again_nested" => again::say_nested(given, script, said),
        "builtins_again" => again::say_builtins(said),
        "passes" => functions::say_passes(given, script, OptimizationLevel::Simple, said),
        "passes_none" => functions::say_passes(given, script, OptimizationLevel::None, said),
        "passes_within" => functions::say_passes_within(given, script, said),
        "shared" => functions::say_shared(given, script, said),
        "named" => functions::say_named(given, script, said),
        "literals" => functions::say_literals(given, script, said),
        "merge_optimized" => functions::say_merged(given, script, BETWEEN, said),
        "deep" => long::deep(script, said),
        "long" => long::long(script, said),
        "repeated" => long::repeated(given, script, said),
        "asked" => long::asked(given, script, said),
        "shown" => shown::answer(script, said),
        _ => nodes::answer(question, &given.info, script, said),
    }
}

pub fn level_named(name: &str) -> Option<OptimizationLevel> {
    match name {
        "none" => Some(OptimizationLevel::None),
        "simple" => Some(OptimizationLevel::Simple),
        "full" => Some(OptimizationLevel::Full),
        _ => None,
    }
}

/// The script of a text, at a level.
fn optimized(
    given: &Given,
    text: &str,
    level: OptimizationLevel,
    said: &Said,
) -> Option<Boxed<AST>> {
    made(given, said.script(text)?, level, said)
}

/// What a script is made into at a level, for runs that are given this. Where that does not come back when it is
/// optimised again, it is said.
pub fn made(
    given: &Given,
    script: Script,
    level: OptimizationLevel,
    said: &Said,
) -> Option<Boxed<AST>> {
    let Script {
        statements,
        functions,
    } = script;
    let (info, scope) = (&given.info, Some(&given.scope));
    let script = optimize_into_ast(said.alloc, info, scope, statements, functions, level);
    let script = said.boxed(said.made(script))?;
    again::say_if_other(info, scope, script.get(), level, said);
    Some(script)
}

// ---- what a script becomes

/// A script in print; `as it was`, where it is printed as it was read and its nodes stand where they stood.
fn at_level(given: &Given, text: &str, level: OptimizationLevel, said: &Said) {
    if let Some(script) = optimized(given, text, level, said) {
        say_printed(script.get(), text, said);
    }
}

fn say_printed(script: &AST, text: &str, said: &Said) {
    let printed = printed(script, said);
    if printed.as_str() == text && places(script.statements(), said) == places_read(text, said) {
        said.put("as it was");
    } else {
        said.put(printed.as_str());
    }
}

/// A script in print.
pub fn printed(script: &AST, said: &Said) -> String {
    let mut text = String::new(said.alloc);
    said.made(push_script(script, &mut text));
    text
}

/// The column in which the last statement stands.
fn last(given: &Given, text: &str, said: &Said) {
    if let Some(script) = optimized(given, text, OptimizationLevel::Simple, said) {
        say_last(script.get().statements(), said);
    }
}

fn say_last(statements: &[Stmt], said: &Said) {
    match statements.last() {
        Some(last) => said.display(&last.position().position().unwrap_or(0)),
        None => said.want("a statement"),
    }
}

// ---- how a script runs

/// The report of a run; where the script is not printed as it was read, how it is printed goes before, and where what
/// is printed is not read back, why not.
fn run(given: &Given, text: &str, said: &Said) {
    if let Some(source) = optimized(given, text, OptimizationLevel::None, said)
        && let Some(script) = optimized(given, text, OptimizationLevel::Simple, said)
    {
        let printed = printed(source.get(), said);
        say_if_other(printed.as_str(), text, said);
        reads::say_if_unread(printed.as_str(), said);
        say_runs(given, source.get(), script.get(), said);
    }
}

fn say_if_other(printed: &str, text: &str, said: &Said) {
    if printed != text {
        said.put(printed);
    }
}

/// The report of a script's run. The script that it is optimised to runs too, given the same; where that run does not
/// follow, it is said why, and the script and its report.
pub fn say_runs(given: &Given, source: &AST, script: &AST, said: &Said) {
    let shown = printed(script, said);
    if let Some(before) = said.made(report(given, source, said))
        && let Some(after) = said.made(report(given, script, said))
    {
        say_report(&before, said);
        if let Some(parting) = parting(&before, &after) {
            said.put("but the run of the optimised script has ");
            said.put(parting);
            said.put(":\n");
            said.put(shown.as_str());
            say_report(&after, said);
        }
    }
}

fn say_report(report: &RunReport, said: &Said) {
    let mut told = said.taken();
    let added = push_report(report, &mut told);
    said.put_back(told, added);
}

/// What a script is optimised to with the report of its run. Where the script as it was read is not printed so, or its
/// run has another report, both follow.
fn rewrite(given: &Given, text: &str, said: &Said) {
    let after = outcome(given, text, OptimizationLevel::Simple, said);
    let before = outcome(given, text, OptimizationLevel::None, said);
    said.put(after.as_str());
    match before.as_str().strip_prefix(text) {
        Some(report) if after.as_str().ends_with(report) => {}
        _ => {
            said.put("before:\n");
            said.put(before.as_str());
        }
    }
}

/// A script in print and the report of its run.
fn outcome(given: &Given, text: &str, level: OptimizationLevel, said: &Said) -> String {
    match optimized(given, text, level, said) {
        Some(script) => {
            let mut told = printed(script.get(), said);
            said.made(push_run(given, script.get(), &mut told, said));
            told
        }
        None => String::new(said.alloc),
    }
}

/// Appends the report of a run.
pub fn push_run(
    given: &Given,
    script: &AST,
    told: &mut String,
    said: &Said,
) -> Result<(), OutOfMemory> {
    push_report(&report(given, script, said)?, told)
}

/// The report of a run.
fn report(given: &Given, script: &AST, said: &Said) -> Result<RunReport, OutOfMemory> {
    let Given {
        info,
        host,
        by_program,
        scope,
        turns,
    } = given;
    if *by_program {
        plain_run(said.alloc, script, info, &ProgramHost, scope, *turns)
    } else {
        plain_run(said.alloc, script, info, host, scope, *turns)
    }
}

// ---- two scripts

/// The report of the run of two scripts that are joined.
fn join(question: &str, given: &Given, text: &str, said: &Said) {
    let (first, second) = split(text, BETWEEN);
    if let Some(first) = optimized(given, first, OptimizationLevel::None, said)
        && let Some(second) = optimized(given, second, OptimizationLevel::None, said)
    {
        say_joined(question, given, first.get(), second.get(), said);
    }
}

fn say_joined(question: &str, given: &Given, first: &AST, second: &AST, said: &Said) {
    match question {
        "merge" => say_run(given, first.merge(second), said),
        "merge_filtered" => say_run(given, first.merge_filtered(second, is_error), said),
        _ => say_combined(question, given, first, second, said),
    }
}

fn say_combined(question: &str, given: &Given, first: &AST, second: &AST, said: &Said) {
    if let Some(mut both) = said.made(first.clone())
        && let Some(second) = said.made(second.clone())
    {
        said.made(take_in(question, &mut both, second));
        say_run(given, Ok(both), said);
    }
}

fn take_in(question: &str, both: &mut AST, second: AST) -> Result<(), OutOfMemory> {
    match question {
        "combine" => both.combine(second),
        _ => both.combine_filtered(second, is_error),
    }
}

/// Says the report of a run of a script that was made.
fn say_run(given: &Given, script: Result<AST, OutOfMemory>, said: &Said) {
    if let Some(script) = said.made(script) {
        let mut told = said.taken();
        let added = push_run(given, &script, &mut told, said);
        said.put_back(told, added);
    }
}

/// The filter: functions `error` without parameters.
fn is_error(
    _namespace: FnNamespace,
    _access: FnAccess,
    of_script: bool,
    name: &str,
    params: usize,
) -> bool {
    of_script && name == "error" && params == 0
}
