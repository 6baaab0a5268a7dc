//! Whether all nodes have a meaning beside their form.

#![tactic(auto, using(ast_types::specs::Reading::shapes, ast_types::proofs::ItemLists::steps))]

ghost use Rattle.std.specs.Prelude.{◌≡◌};
ghost use Rattle.rhai_ast.specs.PlainWalk.{plain_walk};
ghost use Rattle.rhai_ast.specs.Scripts.{functions_of};
ghost use Rattle.theory_meaning.specs.Plain as plain;
ghost use Rattle.theory_meaning.specs.Shape.{is_barred};
ghost use Rattle.theory_meaning.specs.Walk.{over_functions, over_stmts};
ghost use Rattle.base_tokens.specs.Names as names;
ghost use Rattle.ast_types.specs.Reading.{callee_of, expr_of, stmt_of, stmts_of};

use crate::walker::{ASTNode, NodeTest, every_body, every_statement};
use ast_types::{Expr, FnCallExpr, ScriptFuncDef, Stmt};
use base_tokens::is_among;
use std::rc::Rc;

/// The functions that ask for what the optimiser may take away.
const BARRED: [&str; 3] = ["eval", "is_def_var", "is_def_fn"];

/// Whether the nodes of functions' bodies that a walk shows are plain.
pub fn are_plain_functions(functions: &[Rc<ScriptFuncDef>]) -> bool
    ensures { result ≡ over_functions plain_walk (functions_of functions.now) }
{
    every_body(&PlainTest, functions)
}

/// Whether all nodes of statements that a walk shows are plain.
pub fn are_plain(statements: &[Stmt]) -> bool
    ensures { result ≡ over_stmts plain_walk (stmts_of statements.now) }
{
    every_statement(&PlainTest, statements)
}

/// Whether a node is plain, its children not looked at.
struct PlainTest;

impl NodeTest for PlainTest {
    ghost use Rattle.theory_meaning.specs.Plain.{is_plain_node};

    ghost holds = { λ test n. is_plain_node n };

    fn holds_at(&self, node: ASTNode) -> bool {
        match node {
            ASTNode::Expr(expr) => is_plain_expr(expr),
            ASTNode::Stmt(stmt) => is_plain_stmt(stmt),
        }
    }
}

fn is_plain_expr(expr: &Expr) -> bool
    ensures { result ≡ plain.is_plain_expr (expr_of expr.now) }
{
    match expr {
        Expr::MethodCall(call, _) | Expr::FnCall(call, _) => !is_barred_call(call.get()),
        _ => true,
    }
}

fn is_plain_stmt(stmt: &Stmt) -> bool
    ensures { result ≡ plain.is_plain_stmt (stmt_of stmt.now) }
{
    match stmt {
        Stmt::FnCall(call, _) => !is_barred_call(call.get()),
        Stmt::Share(_) => false,
        _ => true,
    }
}

/// Whether a call without a namespace names what the language does not run: `eval`, `is_def_var` or `is_def_fn`.
pub fn is_barred_call(call: &FnCallExpr) -> bool
    ensures { result ≡ is_barred (callee_of call.now) }
{
    call.namespace.is_empty() && is_barred_name(call.name.as_str())
}

fn is_barred_name(name: &str) -> bool
    ensures { result ≡ names.is_among name.now names.barred }
{
    is_among(name, &BARRED)
}
