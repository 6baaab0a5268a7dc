//! Constants.

#![tactic(auto, using(ast_types::specs::Reading::shapes, ast_types::proofs::ItemLists::steps))]

ghost use Rattle.std.specs.Prelude.{◌≡◌, is_some};
ghost use Rattle.ast_types.specs.Reading.{expr_of, exprs_of, pairs_of};
ghost use Rattle.theory_meaning.specs.Constants as constants;
ghost use Rattle.theory_meaning.specs.Queries as queries;

use crate::queries::floatless::are_floatless;
use ast_types::Expr;
use rhai_base::Ident;

/// Whether it is a constant: one of the constant kinds, or an array, a map or a text all of whose parts are, a text's
/// without a float.
#[cycle(constant)]
pub fn is_constant(expr: &Expr) -> bool
    ensures { result ≡ constants.is_constant (expr_of expr.now) }
{
    match expr {
        Expr::DynamicConstant(_, _)
        | Expr::BoolConstant(_, _)
        | Expr::IntegerConstant(_, _)
        | Expr::FloatConstant(_, _)
        | Expr::CharConstant(_, _)
        | Expr::StringConstant(_, _)
        | Expr::Unit(_) => true,
        Expr::InterpolatedString(parts, _) => {
            let parts = parts.get().as_slice();
            are_floatless(parts) && are_constant(parts)
        }
        Expr::Array(items, _) => are_constant(items.get().as_slice()),
        Expr::Map(map, _) => are_constant_members(map.get().0.as_slice()),
        Expr::Variable(_, _, _)
        | Expr::ThisPtr(_)
        | Expr::Property(_, _)
        | Expr::MethodCall(_, _)
        | Expr::Stmt(_)
        | Expr::FnCall(_, _)
        | Expr::Dot(_, _, _)
        | Expr::Index(_, _, _)
        | Expr::And(_, _)
        | Expr::Or(_, _)
        | Expr::Coalesce(_, _) => false,
    }
}

/// Whether all are constants.
#[cycle(constant)]
pub fn are_constant(exprs: &[Expr]) -> bool
    ensures { result ≡ constants.are_constant (exprs_of exprs.now) }
{
    for expr in exprs {
        if !is_constant(expr) {
            return false;
        }
    }
    true
}

#[cycle(constant)]
fn are_constant_members(members: &[(Ident, Expr)]) -> bool
    ensures { result ≡ is_some (constants.constant_entries (pairs_of members.now)) }
{
    for member in members {
        if !is_constant(&member.1) {
            return false;
        }
    }
    true
}

/// Whether the condition is literally so.
pub(crate) fn is_literally(condition: &Expr, truth: bool) -> bool
    ensures { result ≡ queries.is_literally truth (expr_of condition.now) }
{
    match condition {
        Expr::BoolConstant(b, _) => *b == truth,
        _ => false,
    }
}
