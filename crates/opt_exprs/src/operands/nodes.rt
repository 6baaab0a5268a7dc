//! The rules at `&&`, `||` and `??`, in the node's place. A node is taken out only where it is left with one operand
//! or none.

#![tactic(auto, using(ast_types::specs::Reading::shapes))]

ghost use Rattle.std.specs.Prelude.{◌≡◌, true};
ghost use Rattle.theory_meaning.specs.Engine.{Engine};
ghost use Rattle.opt_base.specs.State.{progress};
ghost use Rattle.opt_base.specs.Passes.{PassStep};
ghost use Rattle.ast_types.specs.Reading.{expr_of, exprs_of};
ghost use Rattle.opt_base.specs.Places.{place_of};
ghost use Rattle.opt_exprs.specs.Operands as spec;
ghost use Rattle.opt_exprs.specs.Operands.{ComesOf};

use crate::operands::few::of_few;
use crate::operands::operation::Operation;
use crate::operands::pass::operands_change;
use ast_nodes::put_expr;
use opt_base::{OptimizerState, Place, note_fired};
use rhai_ast::Expr;
use rhai_base::{Position, Seq};

/// What comes of a node with operands.
pub enum Outcome {
    /// No rule fires.
    Kept,
    /// Some of its operands went.
    Fewer,
    /// It is to become this.
    Becomes(Expr),
}

/// What comes of a node with these operands.
fn outcome_of(
    place: Place,
    operation: Operation,
    operands: &mut Seq<Expr>,
    pos: Position,
) -> Outcome
    ensures { ComesOf result (place_of place) (spec.node_of operation (exprs_of operands.old))
        (spec.node_of operation (exprs_of operands.new)) }
{
    if operands_change(operation, operands) {
        return Outcome::Fewer;
    }
    match of_few(place, operation, operands, pos) {
        Some(expr) => Outcome::Becomes(expr),
        None => Outcome::Kept,
    }
}

/// What comes of a node by its operands.
fn node_outcome(place: Place, expr: &mut Expr) -> Outcome
    requires { spec.has_operation (expr_of expr.now) ≡ true }
    ensures { ComesOf result (place_of place) (expr_of expr.old) (expr_of expr.new) }
{
    match expr {
        Expr::And(operands, pos) => outcome_of(place, Operation::And, operands.get_mut(), *pos),
        Expr::Or(operands, pos) => outcome_of(place, Operation::Or, operands.get_mut(), *pos),
        Expr::Coalesce(operands, pos) => {
            outcome_of(place, Operation::Coalesce, operands.get_mut(), *pos)
        }
        _ => Outcome::Kept,
    }
}

/// One step at `&&`, `||` or `??`: a pass over its operands, or what it is with one operand or none. It says whether a
/// rule fired.
pub fn step_operands(state: &mut OptimizerState<'_>, expr: &mut Expr, place: Place) -> bool
    requires { spec.has_operation (expr_of expr.now) ≡ true }
    ensures { (r : Engine)
        → PassStep result r (place_of place) (progress state.old) (progress state.new) (expr_of expr.old)
        (expr_of expr.new) }
{
    match node_outcome(place, expr) {
        Outcome::Kept => return false,
        Outcome::Fewer => {}
        Outcome::Becomes(made) => put_expr(expr, made),
    }
    note_fired(state);
    true
}
