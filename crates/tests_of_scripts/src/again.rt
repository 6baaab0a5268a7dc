//! Scripts that are optimised, and then again with the same record and scope: what the optimiser answers comes back as
//! it is, by one pass, which changes nothing.

use crate::given::Given;
use crate::long::numbered_text;
use crate::nodes::places;
use crate::scripts::printed;
use demo::BuiltinScript;
use rhai_ast::ScriptFuncDef;
use rhai_base::{Boxed, OutOfMemory, Scope};
use rhai_optimizer::{OptimizationLevel, optimize_counted};
use rhai_run::EngineInfo;
use rhai_script::AST;
use std::rc::Rc;
use tests_reader::{Said, Script, split};

/// What a script is optimised to, and how many passes are made over its statements.
pub fn counted(
    info: &EngineInfo,
    scope: Option<&Scope>,
    script: Script,
    level: OptimizationLevel,
    said: &Said,
) -> Option<(Boxed<AST>, u64)> {
    let Script {
        statements,
        functions,
    } = script;
    let made = optimize_counted(said.alloc, info, scope, statements, functions, level);
    let (script, passes) = said.made(made)?;
    Some((said.boxed(Some(script))?, passes))
}

// ---- the second call

/// What an optimised script is optimised to, and by how many passes.
fn counted_again(
    info: &EngineInfo,
    scope: Option<&Scope>,
    once: &AST,
    level: OptimizationLevel,
    said: &Said,
) -> Option<(Boxed<AST>, u64)> {
    counted(info, scope, parts(once, said)?, level, said)
}

/// The statements of a script, copied, and its functions, which it holds too.
fn parts(script: &AST, said: &Said) -> Option<Script> {
    let functions = said.made(held(script, said))?;
    let statements = said.made(script.clone())?.into_statements();
    Some(Script {
        statements,
        functions,
    })
}

/// The functions of a script, each held once more.
fn held(script: &AST, said: &Said) -> Result<Vec<Rc<ScriptFuncDef>>, OutOfMemory> {
    let mut held = Vec::new(said.alloc);
    for function in script.shared_lib().iter() {
        held.push(function.clone()?)?;
    }
    Ok(held)
}

/// Whether a script came back: it is printed alike, its nodes stand where they stood, and its functions are the very
/// same, as the optimiser leaves one that others hold where nothing in it changes.
fn came_back(once: &AST, again: &AST, said: &Said) -> bool {
    printed(again, said).as_str() == printed(once, said).as_str()
        && places(again.statements(), said) == places(once.statements(), said)
        && have_same_functions(once, again)
}

/// Whether each function of the one is the very same in the other, as far as both have any.
fn have_same_functions(once: &AST, again: &AST) -> bool {
    let mut are_same = true;
    for (before, after) in once.shared_lib().iter().zip(again.shared_lib().iter()) {
        are_same = are_same && Rc::ptr_eq(before, after);
    }
    are_same
}

/// Whether a script came back by the one pass that changes nothing; by none, where there are no statements.
fn came_back_at_once(once: &AST, again: &AST, passes: u64, said: &Said) -> bool {
    let wanted: u64 = if once.statements().is_empty() { 0 } else { 1 };
    passes == wanted && came_back(once, again, said)
}

// ---- of all scripts that are optimised

/// Says what an optimised script becomes when it is optimised again, where it does not come back at once. At level
/// `None` nothing is optimised.
pub fn say_if_other(
    info: &EngineInfo,
    scope: Option<&Scope>,
    once: &AST,
    level: OptimizationLevel,
    said: &Said,
) {
    if level != OptimizationLevel::None
        && let Some((again, passes)) = counted_again(info, scope, once, level, said)
        && !came_back_at_once(once, again.get(), passes, said)
    {
        said.put("but optimised it is:\n");
        said.put(printed(once, said).as_str());
        say_again(once, again.get(), said);
        said.put("passes: ");
        said.display(&passes);
        said.put("\n");
    }
}

/// How many of the built-in scripts come back at once.
pub fn say_builtins(said: &Said) {
    let mut count: usize = 0;
    for script in BuiltinScript::ALL {
        if comes_back(script, said) {
            count = count.saturating_add(1);
        }
    }
    said.display(&count);
}

/// Whether a built-in script comes back, under a record with nothing set.
fn comes_back(script: BuiltinScript, said: &Said) -> bool {
    let info = EngineInfo::new(said.alloc);
    let level = OptimizationLevel::Simple;
    if let Some(script) = built_in(script, said)
        && let Some((once, _)) = counted(&info, None, script, level, said)
        && let Some((again, passes)) = counted_again(&info, None, once.get(), level, said)
    {
        return came_back_at_once(once.get(), again.get(), passes, said);
    }
    false
}

/// The parts of a built-in script.
fn built_in(script: BuiltinScript, said: &Said) -> Option<Script> {
    let functions = said.made(script.functions(said.alloc))?;
    let statements = said.made(script.statements(said.alloc))?;
    Some(Script {
        statements,
        functions,
    })
}

// ---- the questions

/// What a script is optimised to; whether it comes back when it is optimised again; and the passes that are made over
/// the statements, by the first call and by the second.
pub fn answer(given: &Given, text: &str, said: &Said) {
    if let Some((once, passes)) = optimized(given, text, said) {
        said.put(printed(once.get(), said).as_str());
        say_second(given, once.get(), passes, said);
    }
}

/// The same but for what it is optimised to, of a script with a nest in the place of `_`. Before the script stand the
/// nest's levels, a number and a text in which the next level stands for `_`, and on a line of its own what is within
/// them all.
pub fn say_nested(given: &Given, text: &str, said: &Said) {
    let (levels, rest) = split(text, "\n");
    let (inner, script) = split(rest, "\n");
    let nest = nested(levels, inner, said);
    let script = filled(script, nest.as_str(), said);
    if let Some((once, passes)) = optimized(given, script.as_str(), said) {
        say_second(given, once.get(), passes, said);
    }
}

/// What the script of a text is optimised to with what is given, and by how many passes.
fn optimized(given: &Given, text: &str, said: &Said) -> Option<(Boxed<AST>, u64)> {
    let (info, scope) = (&given.info, Some(&given.scope));
    let script = said.script(text)?;
    counted(info, scope, script, OptimizationLevel::Simple, said)
}

/// Says whether an optimised script comes back, and the passes of both calls.
fn say_second(given: &Given, once: &AST, first: u64, said: &Said) {
    let (info, scope) = (&given.info, Some(&given.scope));
    let level = OptimizationLevel::Simple;
    if let Some((again, second)) = counted_again(info, scope, once, level, said) {
        say_again(once, again.get(), said);
        said.put("passes: ");
        said.display(&first);
        said.put(", ");
        said.display(&second);
    }
}

/// Says what an optimised script is again.
fn say_again(once: &AST, again: &AST, said: &Said) {
    if came_back(once, again, said) {
        said.put("again: the same\n");
    } else {
        said.put("again: another one:\n");
        said.put(printed(again, said).as_str());
    }
}

/// So many levels of a text around an inner one.
fn nested(levels: &str, inner: &str, said: &Said) -> String {
    let (depth, level) = numbered_text(levels, said);
    let mut nest = filled("_", inner, said);
    for _ in 0..depth {
        nest = filled(level, nest.as_str(), said);
    }
    nest
}

/// A text in which an inner one stands in the place of `_`.
fn filled(text: &str, inner: &str, said: &Said) -> String {
    match said.made(text.replace(said.alloc, "_", inner)) {
        Some(text) => text,
        None => String::new(said.alloc),
    }
}
