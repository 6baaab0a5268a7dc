//! Runs of scripts.

use crate::trips::kept;
use demo::ProgramHost;
use rhai_base::{Dynamic, ImmutableString, OutOfMemory, Scope};
use rhai_run::{EngineInfo, plain_run};
use rhai_script::AST;
use run_host::push_report;
use std::alloc::{AllocError, Global};

/// How many turns a run has.
const TURNS: u64 = 300;

/// The names that stand in a run's scope before it begins, each with the value 3.
static GIVEN: [&str; 12] = [
    "list", "items", "obj", "config", "kind", "weight", "gross", "t", "v", "w", "x", "y",
];

/// The report of a run, in which all closures have one name.
pub(crate) fn report(alloc: Global, info: &EngineInfo, script: &AST) -> Result<String, AllocError> {
    let scope = kept(given(alloc))?;
    let report = kept(plain_run(alloc, script, info, &ProgramHost, &scope, TURNS))?;
    let mut text = String::new(alloc);
    kept(push_report(&report, &mut text))?;
    nameless(alloc, text.as_str())
}

fn given(alloc: Global) -> Result<Scope, OutOfMemory> {
    let mut scope = Scope::new(alloc);
    for name in &GIVEN {
        scope.push(ImmutableString::new(alloc, name)?, Dynamic::Int(3))?;
    }
    Ok(scope)
}

/// The text without what stands behind `anon$` in names.
fn nameless(alloc: Global, text: &str) -> Result<String, AllocError> {
    let mut named = text.split("anon$");
    let mut nameless = String::from_str(alloc, named.next().unwrap_or(""))?;
    for part in named {
        nameless.push_str("anon$")?;
        nameless.push_str(part.trim_start_matches(is_of_name))?;
    }
    Ok(nameless)
}

fn is_of_name(letter: char) -> bool {
    letter.is_ascii_alphanumeric() || letter == '_'
}
