//! A script at each level of the optimiser, and its runs before and after.

use crate::asked::{ask_optimised, ask_script, read};
use crate::case::{Case, Run};
use crate::scripts;
use demo::ProgramHost;
use rhai_base::{Boxed, OutOfMemory, Scope};
use rhai_optimizer::{OptimizationLevel, optimize_ast, optimize_counted, optimize_into_ast};
use rhai_run::{EngineInfo, RunEnd, RunReport, Stuck, plain_run};
use rhai_script::AST;
use run_host::push_report;
use tests_reader::{Said, Script, parting};

/// How many turns a run has.
const TURNS: u64 = 20;

/// Optimises the script of a text at each level, and runs what comes out.
pub fn ask(case: &Case) {
    let said = Said::new(case.alloc, false);
    if let Some(source) = made(case, OptimizationLevel::None, &said)
        && let Some(report) = said.made(run(case, source.get()))
    {
        ask_script(case, source.get());
        case.want(is_as_wanted(case, &report), "its run");
        ask_print(case, &report, &said);
        scripts::ask(case, source.get());
        for level in [OptimizationLevel::Simple, OptimizationLevel::Full] {
            ask_level(case, level, &report, &said);
        }
    }
    case.want(said.is_whole(), "a script and its run");
}

/// What the script of a case's text is made into at a level.
fn made(case: &Case, level: OptimizationLevel, said: &Said) -> Option<Boxed<AST>> {
    let script = read(case, said)?;
    case.tally.calls(1);
    said.boxed(said.made(optimized(case, script, level)))
}

fn optimized(case: &Case, script: Script, level: OptimizationLevel) -> Result<AST, OutOfMemory> {
    let Script {
        statements,
        functions,
    } = script;
    let info = EngineInfo::new(case.alloc);
    if level == OptimizationLevel::Simple {
        return optimize_into_ast(case.alloc, &info, None, statements, functions, level);
    }
    let has_passes = level != OptimizationLevel::None && !statements.is_empty();
    let (script, passes) = optimize_counted(case.alloc, &info, None, statements, functions, level)?;
    case.want((passes > 0) == has_passes, "how many passes there were");
    Ok(script)
}

/// The report of a script's run with the program's host.
pub fn run(case: &Case, script: &AST) -> Result<RunReport, OutOfMemory> {
    let info = EngineInfo::new(case.alloc);
    let scope = Scope::new(case.alloc);
    case.tally.calls(1);
    plain_run(case.alloc, script, &info, &ProgramHost, &scope, TURNS)
}

fn ask_print(case: &Case, report: &RunReport, said: &Said) {
    let mut text = String::new(said.alloc);
    said.made(push_report(report, &mut text));
    case.want(text.starts_with("end: "), "a report in print");
}

fn is_as_wanted(case: &Case, report: &RunReport) -> bool {
    let is_stuck = matches!(report.run_end, RunEnd::Stuck(Stuck::WrongKind));
    match case.wanted.run {
        Run::Stuck => is_stuck && report.calls.is_empty(),
        Run::Passed => !matches!(report.run_end, RunEnd::Stuck(_)),
        Run::Any => true,
    }
}

/// The script that it becomes at a level: it follows the source, and is sound and plain where that is.
fn ask_level(case: &Case, level: OptimizationLevel, before: &RunReport, said: &Said) {
    if let Some(script) = made(case, level, said)
        && let Some(after) = said.made(run(case, script.get()))
    {
        ask_again(case, script.get().statements().len(), said);
        let parting = parting(before, &after).unwrap_or("");
        case.want(parting.is_empty(), parting);
        ask_optimised(case, script.get());
        scripts::ask(case, script.get());
    }
}

/// The script as it stands becomes as many statements.
fn ask_again(case: &Case, count: usize, said: &Said) {
    if let Some(script) = made(case, OptimizationLevel::None, said) {
        let info = EngineInfo::new(case.alloc);
        let level = OptimizationLevel::Simple;
        let made = said.made(optimize_ast(case.alloc, &info, None, script.into_inner(), level));
        case.want(
            made.is_some_and(|script| script.into_statements().len() == count),
            "the script as it stands",
        );
    }
}
