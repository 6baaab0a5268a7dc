//! The rules at an interpolated text and at a map literal, in the node's place.

#![tactic(auto, using(ast_types::specs::Reading::shapes))]

ghost use Rattle.std.specs.Prelude.{◌≡◌, IfOk, true};
ghost use Rattle.theory_meaning.specs.Engine.{Engine};
ghost use Rattle.opt_base.specs.State.{progress};
ghost use Rattle.opt_base.specs.Passes.{PassStep};
ghost use Rattle.ast_types.specs.Reading.{expr_of};
ghost use Rattle.theory_rewriting.specs.Steps.{Place};
ghost use Rattle.opt_base.specs.NodeSteps.{ExprStep};
ghost use Rattle.opt_exprs.specs.Parts as spec;
ghost use Rattle.opt_exprs.specs.Parts.{Folds, NodeChange};

use crate::texts::joining::text_changes;
use opt_base::{OptimizerState, fold_constant, note_fired};
use rhai_ast::Expr;
use rhai_base::OutOfMemory;
use std::alloc::Global;

/// What goes of the parts of an interpolated text; the answer is whether any went. Of any other node none does.
fn change_text(alloc: Global, expr: &mut Expr) -> Result<bool, OutOfMemory>
    ensures { IfOk result (λ b. NodeChange b (expr_of expr.old) (expr_of expr.new)) }
{
    match expr {
        Expr::InterpolatedString(parts, _) => text_changes(alloc, parts.get_mut()),
        _ => Ok(false),
    }
}

/// An interpolated text of constants is its text. It says whether it was one.
fn text_folds(
    alloc: Global,
    state: &mut OptimizerState<'_>,
    expr: &mut Expr,
) -> Result<bool, OutOfMemory>
    requires { spec.is_interpolated (expr_of expr.now) ≡ true }
    ensures { IfOk result (λ b.
        Folds b (progress state.old) (progress state.new) (expr_of expr.old) (expr_of expr.new)) }
{
    fold_constant(alloc, state, expr)
}

/// One step at an interpolated text: its text, or a pass over its parts. It says whether a rule fired.
pub fn step_text(
    alloc: Global,
    state: &mut OptimizerState<'_>,
    expr: &mut Expr,
) -> Result<bool, OutOfMemory>
    requires { spec.is_interpolated (expr_of expr.now) ≡ true }
    ensures { IfOk result (λ fired.
        (r : Engine) (p : Place)
        → PassStep fired r p (progress state.old) (progress state.new) (expr_of expr.old) (expr_of expr.new)) }
{
    if text_folds(alloc, state, expr)? {
        return Ok(true);
    }
    if change_text(alloc, expr)? {
        note_fired(state);
        return Ok(true);
    }
    Ok(false)
}

/// A map literal of constants is its value. It says whether it was one.
fn map_of_constants(
    alloc: Global,
    state: &mut OptimizerState<'_>,
    expr: &mut Expr,
) -> Result<bool, OutOfMemory>
    requires { spec.is_map (expr_of expr.now) ≡ true }
    ensures { IfOk result (λ b.
        Folds b (progress state.old) (progress state.new) (expr_of expr.old) (expr_of expr.new)) }
{
    fold_constant(alloc, state, expr)
}

/// One step at a map literal. It says whether a rule fired.
pub fn step_map(
    alloc: Global,
    state: &mut OptimizerState<'_>,
    expr: &mut Expr,
) -> Result<bool, OutOfMemory>
    requires { spec.is_map (expr_of expr.now) ≡ true }
    ensures { IfOk result (λ fired.
        (r : Engine) (p : Place)
        → ExprStep fired r p (progress state.old) (progress state.new) (expr_of expr.old) (expr_of expr.new)) }
{
    map_of_constants(alloc, state, expr)
}
