//! Lines of scripts, of which those that are expressions are read as the grammar has them.

use rhai_ast::Stmt;
use std::alloc::{AllocError, Global};
use std::fmt::Write;
use syntax_grammar::covers;
use syntax_parser::{ParseErrorType, compile_expression};

/// What a line is.
enum Line {
    Covered,
    Uncovered,
    NotAsRead,
    NoExpression,
}

/// Says each line that was not read as the grammar has it, and then how many lines are expressions.
pub(crate) fn ask(alloc: Global, rows: &str) -> Result<String, AllocError> {
    let mut said = String::new(alloc);
    let mut covered: usize = 0;
    let mut uncovered: usize = 0;
    for line in rows.lines() {
        match told(alloc, line) {
            Line::Covered => covered = covered.saturating_add(1),
            Line::Uncovered => uncovered = uncovered.saturating_add(1),
            Line::NotAsRead => writeln!(said, "not as read: {line}")?,
            Line::NoExpression => {}
        }
    }
    writeln!(
        said,
        "lines: {covered} expressions spell their trees, {uncovered} are not covered"
    )?;
    Ok(said)
}

fn told(alloc: Global, line: &str) -> Line {
    match compile_expression(alloc, line) {
        Ok(script) => read_line(line, script.statements()),
        Err(error) => match error.err_type() {
            ParseErrorType::NotAsRead => Line::NotAsRead,
            _ => Line::NoExpression,
        },
    }
}

/// What a line is that was read as these statements.
fn read_line(line: &str, statements: &[Stmt]) -> Line {
    match statements {
        [Stmt::Expr(expr)] if covers(line, expr.get()) => Line::Covered,
        _ => Line::Uncovered,
    }
}
