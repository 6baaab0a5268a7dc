//! Walks. One that finds no room leaves the path at the parent of the node at which it found none.

use crate::trees::script;
use crate::tried::Tried;
use rhai_ast::{ASTNode, Expr, Stmt, Walk, walk_statements};
use rhai_base::OutOfMemory;
use script_queries::ScriptQueries;

/// The calls.
pub const CALLS: &str =
    "walk_statements Stmt::walk Stmt::walk/first_growth Expr::walk AST::walk AST::iter_literal_variables";

pub fn make(name: &str, tried: &Tried) -> bool {
    match name {
        "walk_statements" => statements(tried),
        "Stmt::walk" => each_statement(tried),
        "Stmt::walk/first_growth" => first_growth(tried),
        "Expr::walk" => expression(tried),
        "AST::walk" => of_script(tried),
        "AST::iter_literal_variables" => variables(tried),
        _ => return false,
    }
    true
}

/// What is walked over.
#[derive(Clone, Copy)]
enum Walked<'a> {
    List(&'a [Stmt]),
    Statement(&'a Stmt),
    Expression(&'a Expr),
}

fn walk<'a>(
    walked: Walked<'a>,
    path: &mut Vec<ASTNode<'a>>,
    lengths: &mut Vec<usize>,
) -> Result<bool, OutOfMemory> {
    let mut show = |nodes: &[ASTNode]| lengths.push(nodes.len()).is_ok();
    match walked {
        Walked::List(statements) => walk_statements(statements, path, &mut show),
        Walked::Statement(statement) => statement.walk(path, &mut show),
        Walked::Expression(expr) => expr.walk(path, &mut show),
    }
}

/// Room for the lengths of all paths, so that a walk itself grows nothing but its path.
fn room(tried: &Tried) -> Vec<usize> {
    tried
        .said
        .made(Vec::with_capacity(tried.said.alloc, 200))
        .unwrap_or(Vec::new(tried.said.alloc))
}

/// A walk; where it is refused, again, and it is looked at where it was.
fn say_walk(walked: Walked, tried: &Tried) {
    let mut path = Vec::new(tried.said.alloc);
    let mut lengths = room(tried);
    if tried.said.is_whole() && tried.is_refused(&walk(walked, &mut path, &mut lengths)) {
        let (calls, parents) = (lengths.len(), path.len());
        path.clear();
        lengths.clear();
        tried.said.made(walk(walked, &mut path, &mut lengths));
        let next = lengths.get(calls).copied().unwrap_or(0);
        tried.want(next == parents.saturating_add(1), "another path");
    }
    tried.want(path.is_empty(), "a path is left");
    tried.said.count("paths", lengths.len());
    for length in &lengths {
        tried.said.word("");
        tried.said.display(length);
    }
}

fn statements(tried: &Tried) {
    if let Some(script) = script(tried) {
        say_walk(Walked::List(script.statements.as_slice()), tried);
    }
}

fn each_statement(tried: &Tried) {
    if let Some(script) = script(tried) {
        for statement in &script.statements {
            say_walk(Walked::Statement(statement), tried);
        }
    }
}

fn first_growth(tried: &Tried) {
    if let Some(script) = tried.said.script("noop\n")
        && let Some(statement) = script.statements.first()
    {
        say_first(Walked::Statement(statement), tried);
    }
}

/// A walk over one node, whose path grows once, from nothing: refused there, it calls the closure for no node and leaves
/// the path empty.
fn say_first(walked: Walked, tried: &Tried) {
    let mut path = Vec::new(tried.said.alloc);
    let mut lengths = room(tried);
    if tried.said.is_whole() && tried.is_refused(&walk(walked, &mut path, &mut lengths)) {
        tried.want(lengths.is_empty(), "the closure was called");
        tried.want(path.is_empty(), "a path is left");
        tried.said.made(walk(walked, &mut path, &mut lengths));
    }
    tried.said.count("paths", lengths.len());
}

fn expression(tried: &Tried) {
    if let Some(expr) = tried.said.expr("[x, [y, [z, [1, [2, [3]]]]], f(g(x))]") {
        say_walk(Walked::Expression(expr.get()), tried);
    }
}

/// A walk over a whole script has a path of its own; what it shows first is a beginning.
fn of_script(tried: &Tried) {
    if let Some(script) = crate::scripts::source(tried) {
        let mut nodes = 0usize;
        let mut show = |path: &[ASTNode]| {
            nodes = nodes.saturating_add(path.len());
            true
        };
        let finished = tried.answer(script.get().walk(&mut show));
        tried.said.count("nodes", nodes);
        tried.done(finished);
    }
}

/// A refused item stands for its variable; the next is the next one's.
fn variables(tried: &Tried) {
    let Some(script) = tried.said.script(
        "let a = \"abc\"\nlet b = x\nconst c = [1, \"d\"]\nlet d = #{e: \"f\"}\n",
    )
    else {
        return;
    };
    if let Some(script) = crate::scripts::made(script, tried) {
        let mut items = 0usize;
        for variable in script.get().iter_literal_variables(true, true) {
            items = items.saturating_add(1);
            tried.is_refused(&variable);
        }
        tried.said.count("items", items);
    }
}
