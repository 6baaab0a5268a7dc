//! What may be a constant, and what a constant condition decides.

#![tactic(auto, using(ast_types::specs::Reading::shapes, rhai_base::specs::Reading::kinds))]

ghost use Rattle.std.specs.Prelude.{◌≡◌, false, None};
ghost use Rattle.rhai_base.specs.Reading.{value_of};
ghost use Rattle.theory_meaning.specs.ActForms as forms;
ghost use Rattle.theory_meaning.specs.Constants as constants;
ghost use Rattle.ast_types.specs.Reading.{expr_of};

use rhai_ast::Expr;
use rhai_base::Dynamic;

/// Whether it may be a constant, by its kind alone.
pub(crate) fn may_be_constant(expr: &Expr) -> bool
    ensures { result ≡ false → constants.constant_value (expr_of expr.now) ≡ None }
{
    match expr {
        Expr::DynamicConstant(_, _)
        | Expr::BoolConstant(_, _)
        | Expr::IntegerConstant(_, _)
        | Expr::FloatConstant(_, _)
        | Expr::CharConstant(_, _)
        | Expr::StringConstant(_, _)
        | Expr::Unit(_)
        | Expr::InterpolatedString(_, _)
        | Expr::Array(_, _)
        | Expr::Map(_, _) => true,
        Expr::Variable(_, _, _)
        | Expr::ThisPtr(_)
        | Expr::Property(_, _)
        | Expr::MethodCall(_, _)
        | Expr::Stmt(_)
        | Expr::FnCall(_, _)
        | Expr::Dot(_, _, _)
        | Expr::Index(_, _, _)
        | Expr::And(_, _)
        | Expr::Or(_, _)
        | Expr::Coalesce(_, _) => false,
    }
}

/// What a constant condition decides.
pub fn constant_bool(expr: &Expr) -> Option<bool>
    ensures { result ≡ constants.constant_bool (expr_of expr.now) }
{
    match expr {
        Expr::BoolConstant(b, _) => Some(*b),
        Expr::DynamicConstant(value, _) => truth(value.get()),
        _ => None,
    }
}

fn truth(value: &Dynamic) -> Option<bool>
    ensures { result ≡ forms.truth (value_of value.now) }
{
    match value {
        Dynamic::Bool(b) => Some(*b),
        Dynamic::Unit
        | Dynamic::Int(_)
        | Dynamic::Float(_)
        | Dynamic::Char(_)
        | Dynamic::Str(_)
        | Dynamic::Array(_)
        | Dynamic::Map(_)
        | Dynamic::FnPtr(_)
        | Dynamic::Range(_, _)
        | Dynamic::RangeInclusive(_, _) => None,
    }
}
