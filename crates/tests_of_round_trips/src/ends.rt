//! Runs of scripts with rhai's standard functions, before and after optimising.

use crate::trips::kept;
use rhai_base::Scope;
use rhai_optimizer::{OptimizationLevel, optimize_ast};
use rhai_run::{EngineInfo, plain_run};
use rhai_script::AST;
use run_host::{RunEnd, RunReport};
use run_standard::StandardHost;
use std::alloc::{AllocError, Global};
use std::fmt::Write;
use syntax_parser::compile;
use tests_reader::{Block, blocks_of, parting};

/// How many turns a run has.
const TURNS: u64 = 5_000;

/// Says how the run of each script ends, and then how many run alike once they are optimised.
pub(crate) fn ask(alloc: Global, rows: &str) -> Result<String, AllocError> {
    let mut said = String::new(alloc);
    let mut alike: usize = 0;
    for block in blocks_of(alloc, rows)? {
        if runs_alike(alloc, block, &mut said)? {
            alike = alike.saturating_add(1);
        }
    }
    writeln!(said, "ends: {alike} run alike once they are optimised")?;
    Ok(said)
}

fn runs_alike(alloc: Global, block: Block<'_>, said: &mut String) -> Result<bool, AllocError> {
    let Ok(script) = compile(alloc, block.text) else {
        writeln!(said, "{}: not read", block.head)?;
        return Ok(false);
    };
    let info = EngineInfo::new(alloc);
    let before = report(alloc, &info, &script)?;
    let optimized = optimize_ast(alloc, &info, None, script, OptimizationLevel::Full);
    let after = report(alloc, &info, &kept(optimized)?)?;
    write!(said, "{}: ", block.head)?;
    push_end(&before.run_end, said)?;
    Ok(parting(&before, &after).is_none())
}

fn report(alloc: Global, info: &EngineInfo, script: &AST) -> Result<RunReport, AllocError> {
    let scope = Scope::new(alloc);
    kept(plain_run(alloc, script, info, &StandardHost, &scope, TURNS))
}

/// Of a value that it is one.
fn push_end(end: &RunEnd, to: &mut String) -> Result<(), AllocError> {
    match end {
        RunEnd::Value(_) => to.push_str("a value\n"),
        end => writeln!(to, "{end}"),
    }
}
