//! Runs scripts with a host of its own: a function that it has by name, and a module.
#![tactic(auto)]

mod shop;

use rhai_lang::{
    AST, EngineInfo, OptimizationLevel, OutOfMemory, Scope, compile, optimize_ast, plain_run,
    push_report,
};
use shop::Shop;
use std::alloc::{AllocError, Global};
use std::{env, fs, io};

/// How many calls and rounds a script may take.
const TURNS: u64 = 1000;

/// What comes of a script: its value or what it throws, what it leaves in scope, and what it asked the shop.
fn push_run(
    alloc: Global,
    info: &EngineInfo,
    script: &AST,
    told: &mut String,
) -> Result<(), OutOfMemory> {
    let report = plain_run(alloc, script, info, &Shop, &Scope::new(alloc), TURNS)?;
    push_report(&report, told)
}

/// What comes of a text, as it is written and optimised.
fn told(alloc: Global, text: &str) -> Result<String, OutOfMemory> {
    let script = match compile(alloc, text) {
        Ok(script) => script,
        Err(error) => return Ok(format!(in alloc; "{error}\n")?),
    };
    let info = EngineInfo::new(alloc);
    let mut told = String::new(alloc);
    push_run(alloc, &info, &script, &mut told)?;
    told.push_str("optimised\n")?;
    let script = optimize_ast(alloc, &info, None, script, OptimizationLevel::Simple)?;
    push_run(alloc, &info, &script, &mut told)?;
    Ok(told)
}

fn main(rt: HostRuntime) -> io::Result<()> {
    for name in env::args(&rt)?.skip(1) {
        let text = fs::read_to_string(&rt, name.as_str())?;
        let told = told(rt.alloc(), text.as_str()).map_err(|_| AllocError)?;
        print!(rt; "{name}\n{told}")?;
    }
    Ok(())
}
