//! Parts that are lent: each of these functions compiles only where what it gives is a part of what it was given, lent
//! for as long, and not a copy. While a part is lent, a change of the whole does not compile.

use crate::scripts::key;
use rhai_ast::{ASTNode, Expr, ScriptFuncDef, Stmt, Walk};
use rhai_base::{Dynamic, OutOfMemory, Scope};
use rhai_script::{AST, FnKey, FnLib};
use script_queries::{ScriptFnMetadata, ScriptQueries};
use std::alloc::Global;
use std::rc::Rc;
use tests_reader::Said;

/// The first expression of a walk: a node outlives the path on which it stood.
fn first_expression<'a>(
    alloc: Global,
    statement: &'a Stmt,
) -> Result<Option<&'a Expr>, OutOfMemory> {
    let mut path = Vec::new(alloc);
    statement.walk(
        &mut path,
        &mut |nodes: &[ASTNode]| matches!(nodes.last(), Some(ASTNode::Stmt(_))),
    )?;
    match path.pop() {
        Some(ASTNode::Expr(expr)) => Ok(Some(expr)),
        _ => Ok(None),
    }
}

/// A definition outlives the iterator.
fn first_definition<'a>(script: &'a AST) -> Option<&'a Rc<ScriptFuncDef>> {
    script.iter_fn_def().next()
}

/// A definition outlives the key that found it.
fn found<'a>(lib: &'a FnLib, key: FnKey) -> Option<&'a Rc<ScriptFuncDef>> {
    lib.get(&key)
}

/// What a function says of itself outlives the iterator.
fn first_metadata<'a>(script: &'a AST) -> Option<ScriptFnMetadata<'a>> {
    script.iter_functions().next()
}

/// So does the name of a variable.
fn first_variable<'a>(script: &'a AST) -> Result<Option<&'a str>, OutOfMemory> {
    match script.iter_literal_variables(true, true).next() {
        Some(found) => Ok(Some(found?.0)),
        None => Ok(None),
    }
}

/// So do the name and the value of a scope's entry.
fn first_entry<'a>(scope: &'a Scope) -> Option<(&'a str, bool, &'a Dynamic)> {
    scope.iter().next()
}

/// Asks all of them of a script without functions, and an empty scope.
pub fn lends(script: &AST, said: &Said) {
    if let Some(key) = key("f", said) {
        let function = found(script.shared_lib(), key);
        said.word_if(function.is_none(), "no function found");
    }
    said.word_if(first_definition(script).is_none(), "no definition");
    said.word_if(first_metadata(script).is_none(), "no metadata");
    say_variable(script, said);
    for statement in script.statements() {
        let expr = said.found(first_expression(said.alloc, statement));
        said.word_if(expr.is_some(), "has an expression");
    }
    let is_empty = first_entry(&Scope::new(said.alloc)).is_none();
    said.word_if(is_empty, "no entry");
}

fn say_variable(script: &AST, said: &Said) {
    let variable = said.found(first_variable(script));
    said.word(variable.unwrap_or("no variable"));
}
