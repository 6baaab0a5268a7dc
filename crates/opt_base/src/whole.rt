//! Constants whose parts are reduced: what is constant among the parts stands there as its value, so that one level
//! tells.

#![tactic(auto, using(ast_types::specs::Reading::shapes, ast_types::proofs::ItemLists::steps))]

ghost use Rattle.std.specs.Prelude.{◌≡◌};
ghost use Rattle.ast_types.specs.Reading.{expr_of, exprs_of, pairs_of};
ghost use Rattle.opt_base.specs.Whole as whole;

use ast_nodes::are_floatless;
use rhai_ast::Expr;
use rhai_base::Ident;

/// Whether it is a constant that is no literal of parts.
fn is_whole(expr: &Expr) -> bool
    ensures { result ≡ whole.is_whole (expr_of expr.now) }
{
    match expr {
        Expr::DynamicConstant(_, _)
        | Expr::BoolConstant(_, _)
        | Expr::IntegerConstant(_, _)
        | Expr::FloatConstant(_, _)
        | Expr::CharConstant(_, _)
        | Expr::StringConstant(_, _)
        | Expr::Unit(_) => true,
        Expr::InterpolatedString(_, _)
        | Expr::Array(_, _)
        | Expr::Map(_, _)
        | Expr::Variable(_, _, _)
        | Expr::ThisPtr(_)
        | Expr::Property(_, _)
        | Expr::MethodCall(_, _)
        | Expr::Stmt(_)
        | Expr::FnCall(_, _)
        | Expr::Dot(_, _, _)
        | Expr::Index(_, _, _)
        | Expr::And(_, _)
        | Expr::Or(_, _)
        | Expr::Coalesce(_, _) => false,
    }
}

fn are_whole(exprs: &[Expr]) -> bool
    ensures { result ≡ whole.are_whole (exprs_of exprs.now) }
{
    for expr in exprs {
        if !is_whole(expr) {
            return false;
        }
    }
    true
}

fn are_whole_members(members: &[(Ident, Expr)]) -> bool
    ensures { result ≡ whole.are_whole_members (pairs_of members.now) }
{
    for member in members {
        if !is_whole(&member.1) {
            return false;
        }
    }
    true
}

/// Whether it is a constant, its parts being reduced; a text with a float is none.
pub fn has_whole_parts(expr: &Expr) -> bool
    ensures { result ≡ whole.has_whole_parts (expr_of expr.now) }
{
    match expr {
        Expr::InterpolatedString(parts, _) => {
            let parts = parts.get().as_slice();
            are_floatless(parts) && are_whole(parts)
        }
        Expr::Array(items, _) => are_whole(items.get().as_slice()),
        Expr::Map(map, _) => are_whole_members(map.get().0.as_slice()),
        _ => is_whole(expr),
    }
}
