//! What is found in a script.

use crate::finding::{Finding, FindingKind};
use crate::functions::Functions;
use crate::look::{Look, place_of};
use base_engine::EngineInfo;
use rhai_ast::TreeFault;
use rhai_base::OutOfMemory;
use rhai_script::AST;
use std::alloc::Global;

/// What is found in a script under an engine's record, in the order of the text: its first fault, calls of what has no
/// meaning, names that nothing in sight declares or that nothing asks for, calls that give a function another number of
/// parameters, values that go, comparisons that always answer the same, operators that fail, and the first of the
/// statements of a list that never run.
///
/// A function sees its parameters and what it declares; where a call of the script captures, also what the script's own
/// statements declare. It is not in rhai.
pub fn findings(
    alloc: Global,
    script: &AST,
    info: &EngineInfo,
) -> Result<Vec<Finding>, OutOfMemory> {
    let mut found = Vec::new(alloc);
    push_fault(script, &mut found)?;
    for finding in walked(alloc, script, info)? {
        found.push(finding)?;
    }
    found.sort_by_key(|finding| place_of(finding.position))?;
    Ok(found)
}

fn push_fault(script: &AST, found: &mut Vec<Finding>) -> Result<(), OutOfMemory> {
    let Err(error) = script.check() else {
        return Ok(());
    };
    if error.fault == TreeFault::OutOfMemory {
        return Err(OutOfMemory);
    }
    found.push(Finding {
        kind: FindingKind::IllFormed(error.fault),
        position: error.position,
    })?;
    Ok(())
}

/// What a walk over the functions, and then over the statements, finds.
fn walked(alloc: Global, script: &AST, info: &EngineInfo) -> Result<Vec<Finding>, OutOfMemory> {
    let functions = Functions::of(alloc, script)?;
    let mut look = Look::new(alloc, info, functions)?;
    for function in script.shared_lib().iter() {
        look.at_function(function)?;
    }
    look.at_script(script.statements())?;
    for function in script.shared_lib().iter() {
        look.at_idle(function)?;
    }
    Ok(look.into_found())
}
