//! Scripts in print, read again.

use ast_same::same_script;
use notation_print::push_script;
use notation_read::read_script;
use rhai_optimizer::{OptimizationLevel, optimize_ast};
use rhai_run::EngineInfo;
use rhai_script::AST;
use std::alloc::{AllocError, Global};
use syntax_parser::{ParseOptions, compile, compile_with};
use syntax_print::push_spelled;

/// What the text of a tree of the notation is read as, or that the tree is refused, as one or in print.
pub(crate) fn told(alloc: Global, tree: &str) -> Result<String, AllocError> {
    let Ok(script) = read_script(alloc, tree) else {
        return format!(in alloc; "refused");
    };
    let mut text = String::new(alloc);
    if push_spelled(&script, &mut text).is_err() {
        return format!(in alloc; "refused");
    }
    match compile_with(alloc, text.as_str(), unbounded()) {
        Ok(script) => tree_of(alloc, &script),
        Err(error) => format!(in alloc; "no script: {error} of\n{text}"),
    }
}

/// Whether a script is printed and read as the same, and what it is optimised to as what the optimiser makes the same
/// of.
pub(crate) fn told_again(alloc: Global, text: &str) -> Result<String, AllocError> {
    let script = match compile(alloc, text) {
        Ok(script) => script,
        Err(error) => return format!(in alloc; "no script: {error}"),
    };
    let again = match read_again(alloc, &script)? {
        Ok(again) => again,
        Err(why) => return Ok(why),
    };
    if !same_script(&script, &again) {
        return tree_of(alloc, &again);
    }
    told_optimized(alloc, optimized(alloc, script)?)
}

fn told_optimized(alloc: Global, script: AST) -> Result<String, AllocError> {
    let again = match read_again(alloc, &script)? {
        Ok(again) => again,
        Err(why) => return Ok(why),
    };
    let again = optimized(alloc, again)?;
    if same_script(&optimized(alloc, script)?, &again) {
        return format!(in alloc; "the same");
    }
    tree_of(alloc, &again)
}

/// What a script is read as once it is printed, or why it is not.
pub(crate) fn read_again(alloc: Global, script: &AST) -> Result<Result<AST, String>, AllocError> {
    let mut text = String::new(alloc);
    if let Err(error) = push_spelled(script, &mut text) {
        return Ok(Err(format!(in alloc; "no text: {error}")?));
    }
    match compile_with(alloc, text.as_str(), unbounded()) {
        Ok(script) => Ok(Ok(script)),
        Err(error) => Ok(Err(format!(in alloc; "no script: {error} of\n{text}")?)),
    }
}

/// What the optimiser makes of a script.
pub(crate) fn optimized(alloc: Global, script: AST) -> Result<AST, AllocError> {
    let info = EngineInfo::new(alloc);
    optimize_ast(alloc, &info, None, script, OptimizationLevel::Simple).map_err(|_| AllocError)
}

/// No bounds but the parser's own.
pub(crate) fn unbounded() -> ParseOptions {
    ParseOptions {
        max_expr_depth: 0,
        max_function_expr_depth: 0,
        max_string_size: 0,
        first_closure: 1,
    }
}

fn tree_of(alloc: Global, script: &AST) -> Result<String, AllocError> {
    let mut tree = String::new(alloc);
    push_script(script, &mut tree).map_err(|_| AllocError)?;
    Ok(tree)
}
