//! Nodes that are made by short ways.

use crate::tried::Tried;
use ast_make::{
    array, assignment, block_expr, block_stmt, call, call_stmt, declaration, expr_stmt, fn_call,
    function, ident, index, integer, operator, text, variable,
};
use rhai_ast::StmtBlock;
use rhai_base::{ASTFlags, Position, Seq, Token};

/// The calls.
pub const CALLS: &str =
    "make::text make::variable make::array make::block_expr make::index make::call make::fn_call make::operator \
    make::ident make::expr_stmt make::block_stmt make::declaration make::assignment make::call_stmt make::function";

pub fn make(name: &str, tried: &Tried) -> bool {
    match name {
        "make::ident" => tried.done(tried.answer(ident(tried.said.alloc, "n", Position::NONE))),
        "make::fn_call" => {
            let args = Seq::new(tried.said.alloc);
            tried.done(tried.answer(fn_call(tried.said.alloc, "f", args, None)));
        }
        "make::function" => {
            let body = tried.said.lines("1");
            tried.done(tried.answer(function(tried.said.alloc, "f", &["x", "y"], body)));
        }
        _ => return of_expression(name, tried) || of_statement(name, tried),
    }
    true
}

fn of_expression(name: &str, tried: &Tried) -> bool {
    let (alloc, pos) = (tried.said.alloc, Position::NONE);
    let (lhs, rhs) = (integer(1, pos), integer(2, pos));
    let made = match name {
        "make::text" => text(alloc, "t", pos),
        "make::variable" => variable(alloc, "n", pos),
        "make::array" => array(alloc, Seq::new(alloc), pos),
        "make::block_expr" => block_expr(alloc, StmtBlock::none(alloc)),
        "make::index" => index(alloc, lhs, rhs, pos),
        "make::call" => call(alloc, "f", Seq::new(alloc), pos),
        "make::operator" => operator(alloc, Token::Plus, lhs, rhs, pos),
        _ => return false,
    };
    tried.done(tried.answer(made));
    true
}

fn of_statement(name: &str, tried: &Tried) -> bool {
    let (alloc, pos) = (tried.said.alloc, Position::NONE);
    let (lhs, rhs) = (integer(1, pos), integer(2, pos));
    let made = match name {
        "make::expr_stmt" => expr_stmt(alloc, lhs),
        "make::block_stmt" => block_stmt(alloc, StmtBlock::none(alloc)),
        "make::assignment" => assignment(alloc, lhs, rhs, pos),
        "make::call_stmt" => call_stmt(alloc, "f", Seq::new(alloc), pos),
        "make::declaration" => match tried.said.made(ident(alloc, "n", pos)) {
            Some(name) => declaration(alloc, ASTFlags::NONE, name, lhs, pos),
            None => return true,
        },
        _ => return false,
    };
    tried.done(tried.answer(made));
    true
}
