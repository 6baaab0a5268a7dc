//! Constants without a float.

#![tactic(auto, using(ast_types::specs::Reading::shapes, ast_types::proofs::ItemLists::steps))]

ghost use Rattle.std.specs.Prelude.{◌≡◌};
ghost use Rattle.ast_types.specs.Reading.{expr_of, exprs_of, pairs_of};
ghost use Rattle.theory_meaning.specs.Constants as constants;

use ast_types::Expr;
use rhai_base::Ident;

/// Whether a constant is no float and holds none.
#[cycle(floatless)]
pub fn is_floatless(expr: &Expr) -> bool
    ensures { result ≡ constants.is_floatless (expr_of expr.now) }
{
    match expr {
        Expr::DynamicConstant(value, _) => !value.get().holds_float(),
        Expr::FloatConstant(_, _) => false,
        Expr::Array(items, _) => are_floatless(items.get().as_slice()),
        Expr::Map(map, _) => are_floatless_members(map.get().0.as_slice()),
        Expr::BoolConstant(_, _)
        | Expr::IntegerConstant(_, _)
        | Expr::CharConstant(_, _)
        | Expr::StringConstant(_, _)
        | Expr::Unit(_)
        | Expr::InterpolatedString(_, _)
        | Expr::Variable(_, _, _)
        | Expr::ThisPtr(_)
        | Expr::Property(_, _)
        | Expr::MethodCall(_, _)
        | Expr::Stmt(_)
        | Expr::FnCall(_, _)
        | Expr::Dot(_, _, _)
        | Expr::Index(_, _, _)
        | Expr::And(_, _)
        | Expr::Or(_, _)
        | Expr::Coalesce(_, _) => true,
    }
}

/// Whether all are so.
#[cycle(floatless)]
pub fn are_floatless(exprs: &[Expr]) -> bool
    ensures { result ≡ constants.are_floatless (exprs_of exprs.now) }
{
    for expr in exprs {
        if !is_floatless(expr) {
            return false;
        }
    }
    true
}

#[cycle(floatless)]
fn are_floatless_members(members: &[(Ident, Expr)]) -> bool
    ensures { result ≡ constants.pairs_are_floatless (pairs_of members.now) }
{
    for member in members {
        if !is_floatless(&member.1) {
            return false;
        }
    }
    true
}
