//! Texts with trees, which they spell or do not.

use notation_print::push_script;
use notation_read::read_statements;
use rhai_ast::Stmt;
use std::alloc::{AllocError, Global};
use std::fmt::Write;
use syntax_grammar::is_spelled;
use syntax_parser::compile_expression;
use tests_reader::{Block, blocks_of};

/// Says of each tree that is not as its row has it what it is, and then how many are as they have it.
pub(crate) fn ask(alloc: Global, rows: &str) -> Result<String, AllocError> {
    let mut said = String::new(alloc);
    let mut met: usize = 0;
    for block in blocks_of(alloc, rows)? {
        met = met.saturating_add(met_of(alloc, block, &mut said)?);
    }
    writeln!(said, "near misses: {met} trees as they should be")?;
    Ok(said)
}

/// How many trees of a block are as it has them.
fn met_of(alloc: Global, block: Block<'_>, said: &mut String) -> Result<usize, AllocError> {
    let mut met: usize = 0;
    for line in block.wanted.lines() {
        let (wanted, tree) = line.split_once(' ').unwrap_or((line, ""));
        let told = told(alloc, block.text, tree)?;
        if told == wanted {
            met = met.saturating_add(1);
        } else {
            push_row(block.head, told, tree, said)?;
        }
    }
    Ok(met)
}

/// What a tree is to a text: spelled, and if the parser makes it too, yes.
fn told(alloc: Global, text: &str, tree: &str) -> Result<&'static str, AllocError> {
    if !is_tree_of(alloc, text, tree)? {
        Ok("no")
    } else if is_parsed(alloc, text, tree)? {
        Ok("yes")
    } else {
        Ok("spelled")
    }
}

/// Says what a tree is to a text.
pub(crate) fn push_row(
    head: &str,
    told: &str,
    tree: &str,
    said: &mut String,
) -> Result<(), AllocError> {
    said.push_str(head)?;
    said.push_str(": ")?;
    said.push_str(told)?;
    said.push_str(" ")?;
    said.push_str(tree)?;
    said.push_str("\n")
}

/// Whether a text spells a tree.
fn is_tree_of(alloc: Global, text: &str, tree: &str) -> Result<bool, AllocError> {
    let Ok(statements) = read_statements(alloc, tree) else {
        return Ok(false);
    };
    match statements.as_slice() {
        [Stmt::Expr(expr)] => is_spelled(alloc, text, expr.get()),
        _ => Ok(false),
    }
}

/// Whether the parser makes a tree of a text.
fn is_parsed(alloc: Global, text: &str, tree: &str) -> Result<bool, AllocError> {
    let Ok(script) = compile_expression(alloc, text) else {
        return Ok(false);
    };
    let mut printed = String::new(alloc);
    push_script(&script, &mut printed).map_err(|_| AllocError)?;
    Ok(printed.as_str().trim() == tree)
}
