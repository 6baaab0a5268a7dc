//! Dependence on the list around.

#![tactic(auto, using(ast_types::specs::Reading::shapes, ast_types::proofs::ItemLists::steps))]

ghost use Rattle.std.specs.Prelude.{◌≡◌};
ghost use Rattle.ast_types.specs.Reading.{callee_of, expr_of, stmt_of, stmts_of};
ghost use Rattle.theory_meaning.specs.Queries as queries;

use ast_types::{Expr, FnCallExpr, Stmt};

/// Whether it belongs to the list in which it stands.
#[cycle(dependent)]
pub fn is_block_dependent(stmt: &Stmt) -> bool
    ensures { result ≡ queries.is_block_dependent (stmt_of stmt.now) }
{
    match stmt {
        Stmt::Var(_, _, _) | Stmt::Import(_, _) | Stmt::Export(_, _) => true,
        Stmt::FnCall(call, _) => is_eval(call.get()),
        Stmt::Expr(expr) => is_dependent_expr(expr.get()),
        _ => false,
    }
}

#[cycle(dependent)]
fn is_dependent_expr(expr: &Expr) -> bool
    ensures { result ≡ queries.is_dependent_expr (expr_of expr.now) }
{
    match expr {
        Expr::Stmt(block) => are_all_dependent(block.get().statements()),
        Expr::FnCall(call, _) => is_eval(call.get()),
        _ => false,
    }
}

#[cycle(dependent)]
fn are_all_dependent(statements: &[Stmt]) -> bool
    ensures { result ≡ queries.are_all_dependent (stmts_of statements.now) }
{
    for stmt in statements {
        if !is_block_dependent(stmt) {
            return false;
        }
    }
    true
}

fn is_eval(call: &FnCallExpr) -> bool
    ensures { result ≡ queries.is_eval (callee_of call.now) }
{
    call.namespace.is_empty() && call.name.as_str() == "eval"
}
