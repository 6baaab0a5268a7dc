//! The pieces of docs/GUIDE.md on scripts.

use crate::guide_trees;
use ast_make as make;
use rhai_ast::{ASTNode, Expr, ScriptFuncDef, Stmt};
use rhai_base::{ASTFlags, Boxed, Dynamic, Ident, ImmutableString, OutOfMemory, Position};
use rhai_script::{AST, FnLib, SharedLib};
use script_queries::ScriptQueries;
use std::alloc::Global;
use std::rc::Rc;
use tests_reader::Said;

/// `fn NAME() {}`, as a parser would build it.
fn function(alloc: Global, name: &str) -> Result<Rc<ScriptFuncDef>, OutOfMemory> {
    let function = make::function(alloc, name, &[], Vec::new(alloc))?;
    Ok(Rc::new(alloc, function)?)
}

/// A table of these functions.
fn table(alloc: Global, names: &[&str]) -> Result<SharedLib, OutOfMemory> {
    let mut functions = Vec::new(alloc);
    for name in names {
        functions.push(function(alloc, name)?)?;
    }
    Ok(Rc::new(alloc, FnLib::from_functions(alloc, functions)?)?)
}

/// A script of these functions.
fn script(alloc: Global, source: &str, names: &[&str]) -> Result<AST, OutOfMemory> {
    AST::new_with_source(Vec::new(alloc), table(alloc, names)?, source)
}

fn merged(base: &AST, own: &AST) -> Result<AST, OutOfMemory> {
    base.merge(own) // a new script; the two stay as they are
}

fn combined(base: &mut AST, own: AST) -> Result<(), OutOfMemory> {
    base.combine(own) // refused, `base` is as it was
}

fn merged_by_choice(base: &AST, own: &AST) -> Result<AST, OutOfMemory> {
    // of the functions of `own` those that are not called `stop`
    base.merge_filtered(own, |_, _, _, name, _| name != "stop")
}

fn retained(script: &mut AST) -> Result<(), OutOfMemory> {
    // of all functions those without parameters that are called `log`
    script.retain_functions(|_, _, name, params| name == "log" && params == 0)
}

/// `const limit = 10`, as a parser would build it.
fn constant(alloc: Global) -> Result<Stmt, OutOfMemory> {
    let name = Ident {
        name: ImmutableString::new(alloc, "limit")?,
        pos: Position::new(1, 7),
    };
    let value = Expr::IntegerConstant(10, Position::new(1, 15));
    let parts = Boxed::new(alloc, (name, value, None))?;
    Ok(Stmt::Var(parts, ASTFlags::CONSTANT, Position::new(1, 1)))
}

/// A script of that constant and two functions without statements.
fn configuration(alloc: Global) -> Result<AST, OutOfMemory> {
    let statements = vec![in alloc; constant(alloc)?]?;
    Ok(AST::new(statements, table(alloc, &["start", "stop"])?))
}

/// How many nodes the longest path has: 2, the declaration and its value; the bodies have no nodes.
fn longest_path(script: &AST) -> Result<usize, OutOfMemory> {
    let mut longest = 0;
    script.walk(&mut |nodes: &[ASTNode]| {
        longest = nodes.len().max(longest);
        true
    })?;
    Ok(longest)
}

/// The names of the functions, each after a blank: ` start stop`.
fn push_names(script: &AST, names: &mut String) -> Result<(), OutOfMemory> {
    for function in script.iter_functions() {
        names.push(' ')?;
        names.push_str(function.name)?;
    }
    Ok(())
}

/// The value of the first constant: 10.
fn first_constant(script: &AST) -> Result<Option<Dynamic>, OutOfMemory> {
    match script.iter_literal_variables(true, false).next() {
        Some(constant) => Ok(Some(constant?.2)), // its name, whether it is a constant, its value
        None => Ok(None),
    }
}

/// Answers what the pieces give.
pub fn answer(question: &str, name: &str, said: &Said) -> bool {
    match question {
        "guide-tree" => guide_trees::answer(name, said),
        "guide-script" => of_configuration(said),
        "guide-scripts" => of_two(said),
        _ => return false,
    }
    true
}

fn of_configuration(said: &Said) {
    if let Some(script) = said.made(configuration(said.alloc)) {
        say_configuration(&script, said);
    }
}

fn say_configuration(script: &AST, said: &Said) {
    let longest = said.made(longest_path(script)).unwrap_or(0);
    said.count("longest path", longest);
    say_names(script, said);
    if let Some(value) = said.found(first_constant(script)) {
        said.value(&value);
    }
}

fn of_two(said: &Said) {
    if let Some(mut base) = said.made(script(said.alloc, "base", &["start", "stop"]))
        && let Some(own) = said.made(script(said.alloc, "own", &["log", "stop"]))
    {
        say_joined(&mut base, &own, said);
    }
}

fn say_joined(base: &mut AST, own: &AST, said: &Said) {
    say_made("merged", merged(base, own), said);
    say_made("by choice", merged_by_choice(base, own), said);
    if let Some(own) = said.made(own.clone()) {
        said.made(combined(base, own));
    }
    say_named("combined", base, said);
    said.made(retained(base));
    say_named("retained", base, said);
}

fn say_made(word: &str, script: Result<AST, OutOfMemory>, said: &Said) {
    if let Some(script) = said.made(script) {
        say_named(word, &script, said);
    }
}

fn say_named(word: &str, script: &AST, said: &Said) {
    said.line(word);
    said.word(script.source().unwrap_or("no source"));
    say_names(script, said);
}

fn say_names(script: &AST, said: &Said) {
    let mut names = String::new(said.alloc);
    said.made(push_names(script, &mut names));
    said.put(names.as_str());
}
