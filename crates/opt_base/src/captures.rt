//! Whether calls see the names of their caller.

#![tactic(auto, using(ast_types::specs::Reading::shapes, ast_types::proofs::ItemLists::steps))]

ghost use Rattle.std.specs.Prelude.{◌≡◌};
ghost use Rattle.opt_base.specs.Walks.{listing};
ghost use Rattle.theory_meaning.specs.Walk.{OfExpr, OfStmt};
ghost use Rattle.ast_types.specs.Reading.{expr_of, stmt_of};
ghost use Rattle.theory_rewriting.specs.Scripts as spec;

use ast_types::{Expr, ScriptFuncDef, Stmt};
use rhai_ast::{ASTNode, NodeTest, every_body, every_statement};
use std::rc::Rc;

/// Does no call capture, at any depth of the statements and of the functions' bodies?
pub fn captures_nothing(statements: &[Stmt], functions: &[Rc<ScriptFuncDef>]) -> bool
    ensures { result ≡ spec.captures_nothing (listing statements.now functions.now) }
{
    every_statement(&ApartTest, statements) && every_body(&ApartTest, functions)
}

/// Whether a node is no call that captures.
struct ApartTest;

impl NodeTest for ApartTest {
    ghost use Rattle.opt_base.specs.Walks.{is_apart};

    ghost holds = { λ test n. is_apart n };

    fn holds_at(&self, node: ASTNode) -> bool {
        match node {
            ASTNode::Expr(expr) => !is_capturing_expr(expr),
            ASTNode::Stmt(statement) => !is_capturing_statement(statement),
        }
    }
}

fn is_capturing_expr(expr: &Expr) -> bool
    ensures { result ≡ spec.is_capturing (OfExpr (expr_of expr.now)) }
{
    match expr {
        Expr::FnCall(call, _) => call.get().capture_parent_scope,
        _ => false,
    }
}

fn is_capturing_statement(statement: &Stmt) -> bool
    ensures { result ≡ spec.is_capturing (OfStmt (stmt_of statement.now)) }
{
    match statement {
        Stmt::FnCall(call, _) => call.get().capture_parent_scope,
        _ => false,
    }
}
