//! Expressions that are left as they are.

#![tactic(auto, using(ast_types::specs::Reading::shapes))]

ghost use Rattle.std.specs.Prelude.{IsTrue};
ghost use Rattle.ast_types.specs.Reading.{expr_of};
ghost use Rattle.opt_reducer.specs.Parts.{StaysAnywhere};

use rhai_ast::Expr;

/// Whether it has no part that may change, and is of no kind that has a rule: a constant, `this`, a property.
#[inline(always)]
pub(crate) fn is_leaf(expr: &Expr) -> bool
    ensures { IsTrue result → StaysAnywhere (expr_of expr.now) }
{
    match expr {
        Expr::InterpolatedString(_, _)
        | Expr::Array(_, _)
        | Expr::Map(_, _)
        | Expr::Variable(_, _, _)
        | Expr::MethodCall(_, _)
        | Expr::Stmt(_)
        | Expr::FnCall(_, _)
        | Expr::Dot(_, _, _)
        | Expr::Index(_, _, _)
        | Expr::And(_, _)
        | Expr::Or(_, _)
        | Expr::Coalesce(_, _) => false,
        _ => true,
    }
}
