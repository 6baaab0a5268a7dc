//! Runs, and where they stop.

use crate::request::Answering;
use base_engine::EngineInfo;
use rhai_ast::{Stmt, StmtQueries};
use rhai_base::{OutOfMemory, Position, Scope};
use rhai_run::plain_run;
use rhai_script::AST;
use run_host::{RunEnd, RunReport, UnitHost};
use run_standard::StandardHost;
use std::alloc::Global;
use std::fmt::{self, Display, Write};

/// What is told of each run.
#[derive(Clone, Copy)]
pub(crate) struct Setting<'s> {
    pub(crate) alloc: Global,
    pub(crate) info: &'s EngineInfo,
    pub(crate) answering: Answering,
    pub(crate) turns: u64,
}

impl<'s> Setting<'s> {
    /// The report of a run from an empty scope.
    pub(crate) fn run(&self, script: &AST) -> Result<RunReport, OutOfMemory> {
        let Setting {
            alloc,
            info,
            turns,
            ..
        } = *self;
        let scope = Scope::new(alloc);
        match self.answering {
            Answering::Standard => plain_run(alloc, script, info, &StandardHost, &scope, turns),
            Answering::Unit => plain_run(alloc, script, info, &UnitHost, &scope, turns),
        }
    }
}

/// How a run stops that does not end with a value. What was thrown is in the report, where no text forges a line.
#[derive(Clone, Copy)]
pub(crate) struct Stop<'r> {
    /// How it ended.
    pub(crate) end: &'r RunEnd,
    /// How many turns it had, where these are fewer than it was to have.
    pub(crate) borne: Option<u64>,
}

impl<'r> Display for Stop<'r> {
    fn fmt<W: Write>(&self, f: &mut fmt::Formatter<W>) -> fmt::Result {
        match (self.end, self.borne) {
            (RunEnd::Thrown(_), _) => f.write_str("the run stops: thrown"),
            (RunEnd::OutOfTurns, Some(borne)) => {
                write!(
                    f,
                    "the run stops: out of turns, since the stack bears {borne} calls within calls"
                )
            }
            (end, _) => write!(f, "the run stops: {end}"),
        }
    }
}

/// Whether a run ended with a value.
pub(crate) fn has_value(report: &RunReport) -> bool {
    matches!(report.run_end, RunEnd::Value(_))
}

/// Where the first of a script's own statements stands that a run does not get past. The run of fewer statements is
/// the beginning of that of more; so it is looked for by halves.
pub(crate) fn stopped_at(setting: &Setting<'_>, script: &AST) -> Result<Position, OutOfMemory> {
    let statements = script.statements();
    let (mut passed, mut stopped): (usize, usize) = (0, statements.len());
    for _ in 0..usize::BITS {
        let middle = passed.saturating_add(stopped.saturating_sub(passed) / 2);
        if middle == passed {
            break;
        }
        let begun = beginning(setting.alloc, script, middle)?;
        if has_value(&setting.run(&begun)?) {
            passed = middle;
        } else {
            stopped = middle;
        }
    }
    Ok(match statements.get(passed) {
        Some(statement) => statement.position(),
        None => Position::NONE,
    })
}

/// A script's first statements, with its functions.
fn beginning(alloc: Global, script: &AST, count: usize) -> Result<AST, OutOfMemory> {
    let mut statements: Vec<Stmt> = Vec::new(alloc);
    for statement in script.statements().iter().take(count) {
        statements.push(statement.clone()?)?;
    }
    Ok(AST::new(statements, script.shared_lib().clone()?))
}
