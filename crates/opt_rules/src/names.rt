//! The rules at a name that is known as a constant.

#![tactic(auto, using(ast_types::specs::Reading::shapes, rhai_base::specs::Reading::kinds))]

ghost use Rattle.std.specs.Prelude.{◌≡◌, IfOk, true};
ghost use Rattle.std.specs.Option.{option_copied, option_map};
ghost use Rattle.rhai_base.specs.Reading.{value_of};
ghost use Rattle.opt_base.specs.State.{progress};
ghost use Rattle.ast_types.specs.Reading.{expr_of};
ghost use Rattle.theory_meaning.specs.Engine.{Engine};
ghost use Rattle.opt_base.specs.NodeSteps.{ExprStep};
ghost use Rattle.opt_base.specs.Places.{place_of};
ghost use Rattle.opt_rules.specs.Settled as settled;

use opt_base::{OptimizerState, Place, known_value, put_constant};
use rhai_ast::Expr;
use rhai_base::{Dynamic, OutOfMemory};
use std::alloc::Global;

fn unless_unit(value: Option<&Dynamic>) -> Option<&Dynamic>
    ensures { option_map value_of (option_copied result)
        ≡ settled.unless_unit (option_map value_of (option_copied value.entry)) }
{
    match value {
        Some(value) => { if value.is_unit() { None } else { Some(value) } }
        None => None,
    }
}

/// The value that a name may become where it stands, lent: a base stays a place, and no guard becomes a literal unit.
fn known_there<'s>(state: &'s OptimizerState<'_>, expr: &Expr, place: Place) -> Option<&'s Dynamic>
    ensures { option_map value_of (option_copied result)
        ≡ settled.known_there (place_of place) (progress state.now).known (expr_of expr.now) }
{
    match place {
        Place::Anywhere => known_value(state, expr),
        Place::Base => None,
        Place::Guard => unless_unit(known_value(state, expr)),
    }
}

/// A name that is known as a constant is its value, or the call that makes it for a pointer without values, wherever
/// that may stand. These are `known_name` and `known_pointer`; it says whether one fired.
#[inline(never)]
pub(crate) fn step_name(
    alloc: Global,
    state: &mut OptimizerState<'_>,
    expr: &mut Expr,
    place: Place,
) -> Result<bool, OutOfMemory>
    requires { settled.is_variable (expr_of expr.now) ≡ true }
    ensures { IfOk result (λ fired.
        (r : Engine)
        → ExprStep fired r (place_of place) (progress state.old) (progress state.new) (expr_of expr.old)
        (expr_of expr.new)) }
{
    if let Some(value) = known_there(state, expr, place) {
        let value = value.clone()?;
        put_constant(alloc, state, expr, value)?;
        return Ok(true);
    }
    Ok(false)
}
