//! Walks over statements: to their end, and stopped at each node in turn.

use crate::case::Case;
use crate::nodes;
use rhai_ast::{ASTNode, NodeQueries, Stmt, walk_statements};
use tests_reader::Said;

/// Walks over statements; asks what can be asked of each node on the way.
pub fn ask(case: &Case, statements: &[Stmt]) {
    let shown = Said::new(case.alloc, false);
    let mut path = Vec::new(case.alloc);
    let mut show = |nodes: &[ASTNode]| {
        say_path(nodes, &shown);
        if let Some(node) = nodes.last() {
            nodes::ask(case, *node);
        }
        true
    };
    let finished = walk_statements(statements, &mut path, &mut show);
    case.want(finished == Ok(true) && path.is_empty(), "a walk to the end");
    let paths = shown.into_text();
    for (before, wanted) in paths.as_str().lines().enumerate() {
        stop(case, statements, before, wanted);
    }
}

/// Walks up to the node before which so many are shown, whose path is wanted.
fn stop(case: &Case, statements: &[Stmt], before: usize, wanted: &str) {
    let mut path = Vec::new(case.alloc);
    let mut calls = 0usize;
    let mut show = |_: &[ASTNode]| {
        let goes_on = calls < before;
        calls = calls.saturating_add(1);
        goes_on
    };
    let finished = walk_statements(statements, &mut path, &mut show);
    let is_stopped = finished == Ok(false) && calls == before.saturating_add(1);
    case.want(
        is_stopped && is_path(case, path.as_slice(), wanted),
        "a walk that is stopped",
    );
}

fn is_path(case: &Case, path: &[ASTNode], wanted: &str) -> bool {
    let shown = Said::new(case.alloc, false);
    say_path(path, &shown);
    shown.into_text().as_str().trim_end() == wanted
}

/// A line of a path: of each node whether it is a statement, and where it stands.
fn say_path(path: &[ASTNode], shown: &Said) {
    for node in path {
        shown.put(if node.is_stmt() { "s" } else { "e" });
        shown.display(&node.position().position().unwrap_or(0));
    }
    shown.put("\n");
}
