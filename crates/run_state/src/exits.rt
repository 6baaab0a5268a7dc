//! Ways to leave a list of statements, a loop, a `try`, a function and a run.

#![tactic(auto, using(rhai_base::specs::Reading::kinds))]

ghost use Rattle.std.specs.Prelude.{◌≡◌, OnOk, if◌then◌else◌, ◌<◌, ◌↔◌, IfOk, IsTrue};
ghost use Rattle.std.specs.Option.{option_copied};
ghost use Rattle.rhai_base.specs.Reading.{value_of};
ghost use Rattle.theory_meaning.specs.Desugar.{break_kind, return_kind};
ghost use Rattle.theory_meaning.specs.Meaning.{exit};
ghost use Rattle.run_state.specs.Evaluating.{EndsAs};
ghost use Rattle.run_state.specs.Exits.{body_end, branch_end, function_end, round_of, LeavesBy};
ghost use Rattle.run_state.specs.State.{named_in, store_of};
ghost use Rattle.theory_meaning.specs.Shape as shape;

use crate::entries::EntryKind;
use crate::state::{Interrupt, State};
use rhai_base::{Dynamic, ImmutableString, OutOfMemory};
use run_host::{RunEnd, Stuck};
use std::alloc::AllocError;

/// How a `break` or a `continue` leaves.
pub fn loop_exit(is_break: bool, value: Dynamic) -> Interrupt
    ensures { LeavesBy result (exit (break_kind is_break) (value_of value)) }
{
    if is_break {
        Interrupt::Break(value)
    } else {
        Interrupt::Continue
    }
}

/// How a `return` or a `throw` leaves.
pub fn function_exit(is_throw: bool, value: Dynamic) -> Interrupt
    ensures { LeavesBy result (exit (return_kind is_throw) (value_of value)) }
{
    if is_throw {
        Interrupt::Throw(value)
    } else {
        Interrupt::Return(value)
    }
}

/// What the body of a `try` throws.
pub fn body_ended(ended: Result<Dynamic, Interrupt>) -> Result<Option<Dynamic>, Interrupt>
    ensures { result ≡ body_end ended }
{
    match ended {
        Ok(_) => Ok(None),
        Err(Interrupt::Throw(caught)) => Ok(Some(caught)),
        Err(interrupt) => Err(interrupt),
    }
}

/// How a `try` ends by its branch: one that throws unit throws the caught value.
pub fn branch_ended(
    ended: Result<Dynamic, Interrupt>,
    caught: Dynamic,
) -> Result<Dynamic, Interrupt>
    ensures { result ≡ branch_end ended caught }
{
    match ended {
        Ok(_) => Ok(Dynamic::Unit),
        Err(Interrupt::Throw(thrown)) => Err(Interrupt::Throw(thrown_again(thrown, caught))),
        Err(interrupt) => Err(interrupt),
    }
}

/// What a branch throws: unit stands for the caught value.
fn thrown_again(thrown: Dynamic, caught: Dynamic) -> Dynamic
    ensures { result ≡ (if shape.is_unit (value_of thrown) then caught else thrown) }
{
    if thrown.is_unit() { caught } else { thrown }
}

/// How a round ends by its body: with the loop's value, or `None` where another one follows.
pub fn round_ended(ended: Result<Dynamic, Interrupt>) -> Result<Option<Dynamic>, Interrupt>
    ensures { result ≡ round_of ended }
{
    match ended {
        Ok(_) | Err(Interrupt::Continue) => Ok(None),
        Err(Interrupt::Break(value)) => Ok(Some(value)),
        Err(interrupt) => Err(interrupt),
    }
}

/// How a function ends by its body: a return is its value, and no break leaves it.
#[inline(never)]
pub fn function_ended(ended: Result<Dynamic, Interrupt>) -> Result<Dynamic, Interrupt>
    ensures { result ≡ function_end ended }
{
    match ended {
        Err(Interrupt::Return(value)) => Ok(value),
        Err(Interrupt::Break(_)) | Err(Interrupt::Continue) => {
            Err(Interrupt::Stuck(Stuck::WrongKind))
        }
        other => other,
    }
}

/// The caught value under its name.
pub fn declare_caught(
    state: &mut State,
    name: Option<&ImmutableString>,
    caught: &Dynamic,
) -> Result<(), AllocError>
    ensures store { OnOk result
        (store_of state.new ≡ named_in (option_copied name.entry) (value_of caught.now) (store_of state.old)) }
    ensures turns { OnOk result (state.new.turns ≡ state.old.turns) }
{
    if let Some(name) = name {
        state.declare(name, EntryKind::Variable, caught.clone()?)?;
    }
    Ok(())
}

/// Whether a guard that holds or not ends a loop that goes on as long as it holds, or until it does.
pub fn ends_at(holds: bool, until: bool) -> bool
    ensures { IsTrue result ↔ (holds ≡ until) }
{
    holds == until
}

/// How a whole run ends: a return is its value, and no break leaves it.
pub fn run_end(ended: Result<Dynamic, Interrupt>) -> Result<RunEnd, OutOfMemory>
    ensures { IfOk result (λ e. EndsAs ended e) }
{
    match ended {
        Ok(value) | Err(Interrupt::Return(value)) => Ok(RunEnd::Value(value)),
        Err(Interrupt::Throw(value)) => Ok(RunEnd::Thrown(value)),
        Err(Interrupt::Stuck(stuck)) => Ok(RunEnd::Stuck(stuck)),
        Err(Interrupt::Break(_)) | Err(Interrupt::Continue) => Ok(RunEnd::Stuck(Stuck::WrongKind)),
        Err(Interrupt::OutOfTurns) => Ok(RunEnd::OutOfTurns),
        Err(Interrupt::NoMemory) => Err(OutOfMemory),
    }
}
