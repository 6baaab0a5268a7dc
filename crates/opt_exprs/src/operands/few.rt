//! One operand, and none.

#![tactic(auto, using(ast_types::specs::Reading::shapes))]

ghost use Rattle.std.specs.Prelude.{◌≡◌, ◌∷◌, [], MatchOption, true, false};
ghost use Rattle.ast_types.specs.Reading.{expr_of};
ghost use Rattle.opt_base.specs.Places.{place_of};
ghost use Rattle.opt_base.specs.Standing as standing;
ghost use Rattle.opt_exprs.specs.Operands as spec;
ghost use Rattle.opt_exprs.specs.Operands.{Becomes};

use crate::operands::operation::Operation;
use opt_base::{Place, may_be_unit, may_stand};
use rhai_ast::{Expr, Take};
use rhai_base::{Position, Seq};

/// What an operator of no operands is, where that may stand: `&&` is true, `||` is false and `??` is unit. These are
/// `and_of_none`, `or_of_none` and `coalesce_of_none`.
fn of_none(place: Place, operation: Operation, pos: Position) -> Option<Expr>
    ensures { Becomes result (place_of place) operation [] [] }
{
    match operation {
        Operation::And => Some(Expr::BoolConstant(true, pos)),
        Operation::Or => Some(Expr::BoolConstant(false, pos)),
        Operation::Coalesce if may_be_unit(place) => Some(Expr::Unit(pos)),
        Operation::Coalesce => None,
    }
}

/// What an operator of one operand is: that operand, where it may stand. These are `and_of_one`, `or_of_one` and
/// `coalesce_of_one`.
fn of_one(place: Place, operand: &mut Expr) -> Option<Expr>
    ensures { MatchOption result
        ((standing.may_stand (place_of place) (expr_of operand.old) ≡ false) × (operand.new ≡ operand.old))
        (λ e. (standing.may_stand (place_of place) (expr_of operand.old) ≡ true) × (e ≡ operand.old)) }
{
    if may_stand(place, operand) {
        Some(operand.take())
    } else {
        None
    }
}

/// What an operator of so few operands is, where that may stand.
pub(crate) fn of_few(
    place: Place,
    operation: Operation,
    operands: &mut Seq<Expr>,
    pos: Position,
) -> Option<Expr>
    ensures { Becomes result (place_of place) operation operands.old operands.new }
{
    if operands.len() > 1 {
        return None;
    }
    match operands.get_mut(0) {
        Some(operand) => of_one(place, operand),
        None => of_none(place, operation, pos),
    }
}
