//! Whether a node is like one of which these are the parts, for nodes that hold no others.
#![tactic(auto, using(ast_types::specs::Reading::shapes))]

ghost use Rattle.std.specs.Prelude.{◌≡◌};
ghost use Rattle.rhai_base.specs.Reading.{value_of};
ghost use Rattle.ast_types.specs.Reading.{expr_of, path_of, property_names, shared_names, stmt_of};
ghost use Rattle.theory_meaning.specs.Tree.{BoolConstant, CharConstant, DynamicConstant, Export, FloatConstant, IntegerConstant, Noop, Property, Share, StringConstant, ThisPtr, UnitConstant, Variable};
ghost use Rattle.ast_same.specs.Alike.{alike_expr, alike_stmt};

use crate::names::{alike_path, alike_shared};
use crate::parts::alike_property;
use ast_types::{Expr, Stmt};
use rhai_base::{Dynamic, FloatWrapper, INT, Ident, ImmutableString, Namespace};
use std::num::NonZeroUsize;

pub(crate) fn is_dynamic(value: &Dynamic, second: &Expr) -> bool
    ensures { result ≡ alike_expr (DynamicConstant (value_of value.now)) (expr_of second.now) }
{
    match second {
        Expr::DynamicConstant(other, _) => value.is_equal(other.get()),
        _ => false,
    }
}

pub(crate) fn is_bool(value: bool, second: &Expr) -> bool
    ensures { result ≡ alike_expr (BoolConstant value) (expr_of second.now) }
{
    match second {
        Expr::BoolConstant(other, _) => value == *other,
        _ => false,
    }
}

pub(crate) fn is_integer(value: INT, second: &Expr) -> bool
    ensures { result ≡ alike_expr (IntegerConstant value) (expr_of second.now) }
{
    match second {
        Expr::IntegerConstant(other, _) => value == *other,
        _ => false,
    }
}

pub(crate) fn is_float(value: FloatWrapper, second: &Expr) -> bool
    ensures { result ≡ alike_expr (FloatConstant value.bits) (expr_of second.now) }
{
    match second {
        Expr::FloatConstant(other, _) => value.bits() == other.bits(),
        _ => false,
    }
}

pub(crate) fn is_char(value: char, second: &Expr) -> bool
    ensures { result ≡ alike_expr (CharConstant value) (expr_of second.now) }
{
    match second {
        Expr::CharConstant(other, _) => value == *other,
        _ => false,
    }
}

pub(crate) fn is_string(value: &str, second: &Expr) -> bool
    ensures { result ≡ alike_expr (StringConstant value.now) (expr_of second.now) }
{
    match second {
        Expr::StringConstant(other, _) => value == other.as_str(),
        _ => false,
    }
}

pub(crate) fn is_unit(second: &Expr) -> bool
    ensures { result ≡ alike_expr UnitConstant (expr_of second.now) }
{
    match second {
        Expr::Unit(_) => true,
        _ => false,
    }
}

pub(crate) fn is_variable(
    parts: &(Option<NonZeroUsize>, ImmutableString, Namespace),
    second: &Expr,
) -> bool
    ensures { result ≡ alike_expr (Variable (path_of parts.now.2) parts.now.1) (expr_of second.now) }
{
    match second {
        Expr::Variable(other, _, _) => {
            let other = other.get();
            alike_path(&parts.2, &other.2) && parts.1.as_str() == other.1.as_str()
        }
        _ => false,
    }
}

pub(crate) fn is_this(second: &Expr) -> bool
    ensures { result ≡ alike_expr ThisPtr (expr_of second.now) }
{
    match second {
        Expr::ThisPtr(_) => true,
        _ => false,
    }
}

pub(crate) fn is_property(
    names: &(ImmutableString, ImmutableString, ImmutableString),
    second: &Expr,
) -> bool
    ensures { result ≡ alike_expr (Property (property_names names.now)) (expr_of second.now) }
{
    match second {
        Expr::Property(others, _) => alike_property(names, others.get()),
        _ => false,
    }
}

pub(crate) fn is_noop(second: &Stmt) -> bool
    ensures { result ≡ alike_stmt Noop (stmt_of second.now) }
{
    match second {
        Stmt::Noop(_) => true,
        _ => false,
    }
}

pub(crate) fn is_export(names: &(Ident, Ident), second: &Stmt) -> bool
    ensures { result ≡ alike_stmt (Export names.now.0.name names.now.1.name) (stmt_of second.now) }
{
    match second {
        Stmt::Export(others, _) => {
            let others = others.get();
            names.0.as_str() == others.0.as_str() && names.1.as_str() == others.1.as_str()
        }
        _ => false,
    }
}

pub(crate) fn is_share(names: &[(Ident, Option<NonZeroUsize>)], second: &Stmt) -> bool
    ensures { result ≡ alike_stmt (Share (shared_names names.now)) (stmt_of second.now) }
{
    match second {
        Stmt::Share(others) => alike_shared(names, others.get().as_slice()),
        _ => false,
    }
}
