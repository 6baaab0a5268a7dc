//! What the operators `&&`, `||` and `??` ask of an operand.

#![tactic(auto, using(ast_types::specs::Reading::shapes, rhai_base::specs::Reading::kinds))]

ghost use Rattle.std.specs.Prelude.{◌≡◌};
ghost use Rattle.theory_meaning.specs.Constants as constants;
ghost use Rattle.ast_types.specs.Reading.{expr_of};
ghost use Rattle.theory_rewriting.specs.Answering as answering;
ghost use Rattle.opt_exprs.specs.Operands as spec;

use opt_base::constant_bool;
use rhai_ast::{Expr, ExprQueries};

/// An operator that asks its operands one after another.
#[derive(Clone, Copy)]
pub enum Operation {
    /// `&&`, which goes on where an operand is true.
    And,
    /// `||`, which goes on where one is false.
    Or,
    /// `??`, which goes on where one is unit.
    Coalesce,
}

/// Is it a constant with this bool as its value?
fn is_always(operand: &Expr, truth: bool) -> bool
    ensures { result ≡ answering.is_always truth (expr_of operand.now) }
{
    match constant_bool(operand) {
        Some(decided) => decided == truth,
        None => false,
    }
}

/// Is it a constant that is unit?
fn is_constant_unit(operand: &Expr) -> bool
    ensures { result ≡ spec.is_unit_value (constants.constant_value (expr_of operand.now)) }
{
    match operand {
        Expr::Unit(_) => true,
        Expr::DynamicConstant(value, _) => value.get().is_unit(),
        _ => false,
    }
}

/// Is it a constant that is not unit?
fn is_some_constant(operand: &Expr) -> bool
    ensures { result ≡ answering.is_some_value (constants.constant_value (expr_of operand.now)) }
{
    operand.is_constant() && !is_constant_unit(operand)
}

/// Is an operand a constant after which the operator goes on?
pub(crate) fn goes_on(operation: Operation, operand: &Expr) -> bool
    ensures { result ≡ spec.goes_on operation (expr_of operand.now) }
{
    match operation {
        Operation::And => is_always(operand, true),
        Operation::Or => is_always(operand, false),
        Operation::Coalesce => is_constant_unit(operand),
    }
}

/// Is an operand a constant that decides?
pub(crate) fn decides(operation: Operation, operand: &Expr) -> bool
    ensures { result ≡ spec.decides operation (expr_of operand.now) }
{
    match operation {
        Operation::And => is_always(operand, false),
        Operation::Or => is_always(operand, true),
        Operation::Coalesce => is_some_constant(operand),
    }
}

/// Does an operand go directly before a constant that decides?
pub(crate) fn goes_before(operation: Operation, operand: &Expr) -> bool
    ensures { result ≡ spec.goes_before operation (expr_of operand.now) }
{
    match operation {
        Operation::And | Operation::Or => operand.is_pure(),
        Operation::Coalesce => false,
    }
}
