//! Questions about functions that are optimised, about the literals of what is optimised, and about how many passes
//! are made.

use crate::again;
use crate::given::Given;
use crate::scripts::{made, printed, push_run};
use rhai_ast::ScriptFuncDef;
use rhai_base::{OutOfMemory, Scope};
use rhai_optimizer::{OptimizationLevel, optimize_ast};
use rhai_script::AST;
use script_queries::ScriptQueries;
use std::rc::Rc;
use tests_reader::{Said, split};

/// Says how many passes are made over the statements of a script at a level.
pub fn say_passes(given: &Given, text: &str, level: OptimizationLevel, said: &Said) {
    if let Some(passes) = passes(given, text, level, said) {
        said.display(&passes);
    }
}

/// Says whether there are as many passes as a line before the script allows: at least, and at most.
pub fn say_passes_within(given: &Given, text: &str, said: &Said) {
    let (bounds, text) = split(text, "\n");
    let (least, most) = split(bounds, " ");
    if let Some(passes) = passes(given, text, OptimizationLevel::Simple, said)
        && let Some(least) = said.made(least.parse::<u64>())
        && let Some(most) = said.made(most.parse::<u64>())
    {
        said.display(&(least <= passes && passes <= most));
    }
}

fn passes(given: &Given, text: &str, level: OptimizationLevel, said: &Said) -> Option<u64> {
    let (info, scope) = (&given.info, Some(&given.scope));
    let script = said.script(text)?;
    let (script, passes) = again::counted(info, scope, script, level, said)?;
    again::say_if_other(info, scope, script.get(), level, said);
    Some(passes)
}

/// Says of each function that its reader still holds whether it is the same after the optimiser, or another one.
pub fn say_shared(given: &Given, text: &str, said: &Said) {
    if let Some(script) = said.script(text)
        && let Some(held) = said.made(copies(&script.functions, said))
        && let Some(script) = made(given, script, OptimizationLevel::Simple, said)
    {
        for (function, before) in script.get().shared_lib().iter().zip(held.as_slice()) {
            said.word(function.name.as_str());
            said.word(if Rc::ptr_eq(function, before) {
                "is the same"
            } else {
                "is another"
            });
        }
    }
}

fn copies(
    functions: &Vec<Rc<ScriptFuncDef>>,
    said: &Said,
) -> Result<Vec<Rc<ScriptFuncDef>>, OutOfMemory> {
    let mut held = Vec::new(said.alloc);
    for function in functions {
        held.push(function.clone()?)?;
    }
    Ok(held)
}

/// A script that is optimised, merged with another one as it is: how it is printed, and the report of its run.
pub fn say_merged(given: &Given, text: &str, between: &str, said: &Said) {
    let (first, second) = split(text, between);
    if let Some(first) = said.script(first)
        && let Some(second) = said.script(second)
        && let Some(first) = made(given, first, OptimizationLevel::Simple, said)
        && let Some(second) = made(given, second, OptimizationLevel::None, said)
        && let Some(both) = said.made(first.get().merge(second.get()))
    {
        let mut told = printed(&both, said);
        said.made(push_run(given, &both, &mut told, said));
        said.put(told.as_str());
    }
}

/// A script with a source, a doc and an id of its table, optimised as it is: what it has of these then, and how it is
/// printed.
pub fn say_named(given: &Given, text: &str, said: &Said) {
    if let Some(script) = said.script(text)
        && let Some(script) = made(given, script, OptimizationLevel::None, said)
        && let Some(script) = said.made(optimized_as_it_is(given, script.get(), said))
    {
        said.word(script.source().unwrap_or("no source"));
        said.word(script.doc());
        said.word(script.shared_lib().id().unwrap_or("no id"));
        said.put("\n");
        said.put(printed(&script, said).as_str());
    }
}

fn optimized_as_it_is(given: &Given, script: &AST, said: &Said) -> Result<AST, OutOfMemory> {
    let mut script = script.clone()?;
    script.set_source("file")?;
    script.set_doc("doc")?;
    let (info, scope) = (&given.info, Some(&given.scope));
    let level = OptimizationLevel::Simple;
    let script = optimize_ast(said.alloc, info, scope, script, level)?;
    again::say_if_other(info, scope, &script, level, said);
    Ok(script)
}

/// What stands in a scope into which the literals of an optimised script's constants are pushed, and how many they are.
pub fn say_literals(given: &Given, text: &str, said: &Said) {
    if let Some(script) = said.script(text)
        && let Some(script) = made(given, script, OptimizationLevel::Simple, said)
    {
        let scope = literals(script.get(), said);
        for (name, _, value) in scope.iter() {
            said.word(name);
            said.inner(value);
        }
        said.count("of", scope.len());
    }
}

fn literals(script: &AST, said: &Said) -> Scope {
    let mut scope = Scope::new(said.alloc);
    for constant in script.iter_literal_variables(true, false) {
        if let Some((name, _, value)) = said.made(constant)
            && let Some(name) = said.shared(name)
        {
            said.made(scope.push_constant(name, value));
        }
    }
    scope
}
