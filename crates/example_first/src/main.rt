//! Reads scripts in rhai's own syntax, prints each before and after it is optimised, and runs it.
#![tactic(auto)]

use rhai_lang::{
    EngineInfo, OptimizationLevel, OutOfMemory, Scope, UnitHost, compile, optimize_ast, plain_run,
    push_report, push_script,
};
use std::alloc::{AllocError, Global};
use std::{env, fs, io};

/// What becomes of a text.
fn told(alloc: Global, text: &str) -> Result<String, OutOfMemory> {
    let script = match compile(alloc, text) {
        Ok(script) => script,
        Err(error) => return Ok(format!(in alloc; "{error}\n")?),
    };
    let mut told = String::new(alloc);
    push_script(&script, &mut told)?;
    told.push_str("becomes\n")?;
    let info = EngineInfo::new(alloc); // overrides no operator
    let script = optimize_ast(alloc, &info, None, script, OptimizationLevel::Simple)?;
    push_script(&script, &mut told)?;
    let report = plain_run(alloc, &script, &info, &UnitHost, &Scope::new(alloc), 100)?;
    push_report(&report, &mut told)?;
    Ok(told)
}

fn main(rt: HostRuntime) -> io::Result<()> {
    for name in env::args(&rt)?.skip(1) {
        let text = fs::read_to_string(&rt, name.as_str())?;
        let told = told(rt.alloc(), text.as_str()).map_err(|_| AllocError)?;
        rt.print(told.as_str())?;
    }
    Ok(())
}
