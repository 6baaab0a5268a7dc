//! The trees of scripts.

use crate::places::line_and_column;
use notation_print::push_script;
use rhai_ast::{FnAccess, ScriptFuncDef};
use rhai_script::AST;
use std::alloc::{AllocError, Global};
use std::fmt::Write;
use std::rc::Rc;
use syntax_parser::{ParseError, ParseOptions, compile, compile_expression, compile_with};

/// What a text becomes.
pub(crate) fn told(alloc: Global, text: &str) -> Result<String, AllocError> {
    told_of(alloc, compile(alloc, text))
}

fn told_of(alloc: Global, read: Result<AST, ParseError>) -> Result<String, AllocError> {
    match read {
        Ok(script) => told_script(alloc, &script),
        Err(error) => told_refusal(alloc, &error),
    }
}

fn told_refusal(alloc: Global, error: &ParseError) -> Result<String, AllocError> {
    let (line, column) = line_and_column(error.position());
    format!(in alloc; "refused: line {line}, column {column}\n")
}

/// What a text of one expression becomes.
pub(crate) fn told_expression(alloc: Global, text: &str) -> Result<String, AllocError> {
    told_of(alloc, compile_expression(alloc, text))
}

/// What a text becomes whose closures are numbered from 7 on.
pub(crate) fn told_numbered(alloc: Global, text: &str) -> Result<String, AllocError> {
    let options = ParseOptions {
        first_closure: 7,
        ..ParseOptions::new()
    };
    told_of(alloc, compile_with(alloc, text, options))
}

/// The tree in the notation, whether it is plain, and what the notation does not show.
fn told_script(alloc: Global, script: &AST) -> Result<String, AllocError> {
    let mut told = String::new(alloc);
    push_tree(script, &mut told)?;
    told.push_str("----\n")?;
    told.push_str(if script.is_plain() {
        "plain\n"
    } else {
        "not plain\n"
    })?;
    if !script.doc().is_empty() {
        told.push_str("doc ")?;
        told.push_str(script.doc())?;
        told.push('\n')?;
    }
    for function in script.shared_lib().iter() {
        tell_function(function, &mut told)?;
    }
    Ok(told)
}

fn push_tree(script: &AST, told: &mut String) -> Result<(), AllocError> {
    push_script(script, told).map_err(|_| AllocError)
}

fn tell_function(function: &Rc<ScriptFuncDef>, told: &mut String) -> Result<(), AllocError> {
    let params = function.params.len();
    let name = function.name.as_str();
    if function.access == FnAccess::Private {
        writeln!(told, "private {name}/{params}")?;
    }
    for comment in function.comments.as_slice() {
        let comment = comment.as_str();
        writeln!(told, "comment {name}/{params} {comment}")?;
    }
    Ok(())
}
