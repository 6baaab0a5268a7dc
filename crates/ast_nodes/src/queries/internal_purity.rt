//! Purity but for names that the list around takes away.

#![tactic(auto, using(ast_types::specs::Reading::shapes, ast_types::proofs::ItemLists::steps))]

ghost use Rattle.std.specs.Prelude.{◌≡◌};
ghost use Rattle.ast_types.specs.Reading.{expr_of, stmt_of, stmts_of};
ghost use Rattle.theory_meaning.specs.Queries as queries;

use crate::queries::purity::{is_pure, is_pure_expr};
use ast_types::{Expr, Stmt};

/// Whether it is pure but for a name that its list takes away.
#[cycle(internally_pure)]
pub fn is_internally_pure(stmt: &Stmt) -> bool
    ensures { result ≡ queries.is_internally_pure (stmt_of stmt.now) }
{
    match stmt {
        Stmt::Var(parts, _, _) => is_pure_expr(&parts.get().1),
        Stmt::Expr(expr) => is_internally_pure_expr(expr.get()),
        Stmt::Import(parts, _) => is_pure_expr(&parts.get().0),
        Stmt::Export(_, _) => true,
        _ => is_pure(stmt),
    }
}

#[cycle(internally_pure)]
fn is_internally_pure_expr(expr: &Expr) -> bool
    ensures { result ≡ queries.is_internally_pure_expr (expr_of expr.now) }
{
    match expr {
        Expr::Stmt(block) => are_internally_pure(block.get().statements()),
        _ => is_pure_expr(expr),
    }
}

#[cycle(internally_pure)]
fn are_internally_pure(statements: &[Stmt]) -> bool
    ensures { result ≡ queries.are_internally_pure (stmts_of statements.now) }
{
    for stmt in statements {
        if !is_internally_pure(stmt) {
            return false;
        }
    }
    true
}
