//! Runs of scripts before and after they are optimised.

use crate::usual_host::UsualHost;
use rhai_base::Scope;
use rhai_optimizer::{OptimizationLevel, optimize_ast};
use rhai_run::{EngineInfo, RunEnd, plain_run};
use rhai_script::AST;
use run_host::push_report;
use std::alloc::{AllocError, Global};
use std::fmt::Write;
use syntax_parser::compile;
use tests_reader::{Block, blocks_of};

/// How many turns a run has.
const TURNS: u64 = 500;

/// How many runs are alike, and how many of these are stuck, before the script is optimised and behind.
#[derive(Clone, Copy)]
struct Counts {
    alike: usize,
    stuck: usize,
}

/// Says of each block whose script runs otherwise once it is optimised how it does, and then how many run alike.
pub(crate) fn ask(alloc: Global, rows: &str) -> Result<String, AllocError> {
    let mut said = String::new(alloc);
    let mut counts = Counts { alike: 0, stuck: 0 };
    for block in blocks_of(alloc, rows)? {
        counts = with(alloc, counts, block, &mut said)?;
    }
    let Counts { alike, stuck } = counts;
    writeln!(said, "runs: {alike} alike, {stuck} of them stuck")?;
    Ok(said)
}

fn with(
    alloc: Global,
    counts: Counts,
    block: Block<'_>,
    said: &mut String,
) -> Result<Counts, AllocError> {
    let Counts { alike, stuck } = counts;
    let Ok(script) = compile(alloc, block.text) else {
        return Ok(counts);
    };
    let (before, is_stuck) = report(alloc, &script)?;
    let info = EngineInfo::new(alloc);
    let script = optimize_ast(alloc, &info, None, script, OptimizationLevel::Simple).map_err(
        |_| AllocError,
    )?;
    let (after, _) = report(alloc, &script)?;
    if before.as_str() == after.as_str() {
        return Ok(Counts {
            alike: alike.saturating_add(1),
            stuck: stuck.saturating_add(usize::from(is_stuck)),
        });
    }
    for part in [
        block.head,
        " ran\n",
        before.as_str(),
        "and runs\n",
        after.as_str(),
    ] {
        said.push_str(part)?;
    }
    Ok(counts)
}

/// The report of a run but for the turns that are left, and whether it was stuck.
fn report(alloc: Global, script: &AST) -> Result<(String, bool), AllocError> {
    let info = EngineInfo::new(alloc);
    let report = plain_run(alloc, script, &info, &UsualHost, &Scope::new(alloc), TURNS).map_err(
        |_| AllocError,
    )?;
    let mut text = String::new(alloc);
    push_report(&report, &mut text).map_err(|_| AllocError)?;
    let mut kept = String::new(alloc);
    for line in text.as_str().lines() {
        if !line.starts_with("turns left") {
            kept.push_str(line)?;
            kept.push('\n')?;
        }
    }
    Ok((kept, matches!(&report.run_end, RunEnd::Stuck(_))))
}
