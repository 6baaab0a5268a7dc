//! Walks over trees and scripts: the paths to the nodes in turn, walks that are stopped, and what is left of their
//! paths. A path has of each node on it whether it is a statement or an expression, and its column; in lines behind
//! the first the line too.

use rhai_ast::{ASTNode, Expr, NodeQueries, Stmt, Walk, walk_statements};
use rhai_base::Position;
use rhai_script::AST;
use script_queries::ScriptQueries;
use tests_reader::Said;

/// What is walked over.
#[derive(Clone, Copy)]
pub enum Walked<'a> {
    Statement(&'a Stmt),
    List(&'a [Stmt]),
    /// An expression below a node.
    Below(ASTNode<'a>, &'a Expr),
    Script(&'a AST),
}

/// A walk over a statement, or over the value of a declaration, from below the declaration.
pub fn say_walk_of(question: &str, statement: &Stmt, said: &Said) {
    match statement {
        Stmt::Var(parts, _, _) if question == "walk-below" => {
            let start = ASTNode::from(statement);
            say_walk(&Walked::Below(start, &parts.get().1), said);
        }
        _ => say_walk(&Walked::Statement(statement), said),
    }
}

/// Says the paths of a walk, and where a walk that is stopped at one of them does not end there.
pub fn say_walk(walked: &Walked, said: &Said) {
    let whole = shown(walked, usize::MAX, said);
    said.word(whole.as_str());
    let (paths, _) = whole.split_once(" finished").unwrap_or(("", ""));
    for (before, path) in paths.split_whitespace().enumerate() {
        say_stop(walked, before, path, said);
    }
}

/// Says so where a walk that is refused after so many calls does not end at this path, and leave it.
fn say_stop(walked: &Walked, before: usize, path: &str, said: &Said) {
    let shown = shown(walked, before, said);
    let (paths, left) = shown.split_once(" left ").unwrap_or((shown.as_str(), path));
    let is_stopped = left == path && paths.ends_with(path);
    if !is_stopped || paths.split_whitespace().count() != before.saturating_add(1) {
        said.count("but not stopped at", before);
    }
}

/// What a walk shows until the closure was called so often and is called once more.
fn shown(walked: &Walked, before: usize, said: &Said) -> String {
    let shown = Said::new(said.alloc, false);
    walk(walked, before, &shown);
    shown.into_text()
}

/// Walks; writes down the paths, whether the walk came to its end or found no room, and the path that it leaves.
fn walk(walked: &Walked, before: usize, shown: &Said) {
    let mut path = Vec::new(shown.alloc);
    let mut calls = 0usize;
    let mut show = |nodes: &[ASTNode]| {
        say_path(nodes, shown);
        let agrees = calls < before;
        calls = calls.saturating_add(1);
        agrees
    };
    let finished = match *walked {
        Walked::Statement(statement) => statement.walk(&mut path, &mut show),
        Walked::List(statements) => walk_statements(statements, &mut path, &mut show),
        Walked::Below(start, expr) => {
            path = Vec::from_slice(shown.alloc, &[start]).unwrap_or(path);
            expr.walk(&mut path, &mut show)
        }
        Walked::Script(script) => script.walk(&mut show),
    };
    match finished {
        Ok(finished) => shown.word_if(finished, "finished"),
        Err(_) => shown.word("refused"),
    }
    if !path.is_empty() {
        shown.word("left");
        say_path(path.as_slice(), shown);
    }
}

/// Writes a path down.
fn say_path(nodes: &[ASTNode], shown: &Said) {
    shown.word("");
    for node in nodes {
        shown.put(if node.is_stmt() { "s" } else { "e" });
        show_place(node.position(), shown);
    }
}

/// The column of a node, behind its line where that is not the first.
fn show_place(place: Position, shown: &Said) {
    let line = place.line().unwrap_or(1);
    if line > 1 {
        shown.display(&line);
        shown.put(":");
    }
    shown.display(&place.position().unwrap_or(0));
}

/// An assignment and its right side.
pub fn say_nodes(statement: &Stmt, said: &Said) {
    say_node(ASTNode::from(statement), said);
    if let Stmt::Assignment(parts) = statement {
        say_node(ASTNode::from(&parts.get().1.rhs), said);
    }
}

fn say_node(node: ASTNode, said: &Said) {
    said.word_if(node.is_stmt(), "statement");
    said.word_if(node.is_expr(), "expression");
    said.place("at", node.position());
}
