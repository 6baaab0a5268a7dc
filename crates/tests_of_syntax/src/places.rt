//! Where the nodes of texts stand.

use rhai_ast::{ASTNode, NodeQueries};
use rhai_base::Position;
use rhai_script::AST;
use script_queries::ScriptQueries;
use std::alloc::{AllocError, Global};
use std::cell::Cell;
use std::fmt::Write;
use syntax_parser::compile;

/// The places of a text's nodes, in the order of a walk.
pub(crate) fn told(alloc: Global, text: &str) -> Result<String, AllocError> {
    match compile(alloc, text) {
        Ok(script) => places(alloc, &script),
        Err(error) => format!(in alloc; " refused: {error}"),
    }
}

fn places(alloc: Global, script: &AST) -> Result<String, AllocError> {
    let places = Cell::new(String::new(alloc));
    script
        .walk(&mut |nodes: &[ASTNode]| {
            note(alloc, &places, nodes);
            true
        })
        .map_err(|_| AllocError)?;
    Ok(places.into_inner())
}

fn note(alloc: Global, places: &Cell<String>, nodes: &[ASTNode]) {
    if let Some(node) = nodes.last() {
        let mut text = places.replace(String::new(alloc));
        let _ = push_place(&mut text, node.position());
        places.set(text);
    }
}

fn push_place(text: &mut String, position: Position) -> Result<(), AllocError> {
    let (line, column) = line_and_column(position);
    write!(text, " {line}:{column}")
}

/// The line and the column, 0 of what stands nowhere.
pub(crate) fn line_and_column(position: Position) -> (usize, usize) {
    let line = position.line().unwrap_or(0);
    let column = position.position().unwrap_or(0);
    (line, column)
}
