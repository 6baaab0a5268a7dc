//! Runs that begin at a function.

use crate::refusal::{Refusal, Why};
use rhai_script::AST;
use std::alloc::Global;
use syntax_parser::compile;

/// A script with the functions of this one, whose only statement calls the one of this name without parameters.
pub fn entered(alloc: Global, script: &AST, name: &str) -> Result<AST, Refusal> {
    if !has_function(script, name) {
        return Err(Refusal::nowhere(Why::NoFunction));
    }
    let call = compile(alloc, format!(in alloc; "{name}();")?.as_str())?;
    let mut entered = script.clone_functions_only()?;
    entered.combine(call)?;
    Ok(entered)
}

/// Whether a script has a function of this name without parameters.
fn has_function(script: &AST, name: &str) -> bool {
    for function in script.shared_lib().iter() {
        if function.name.as_str() == name && function.params.is_empty() {
            return true;
        }
    }
    false
}
