//! Pointers to functions.

#![tactic(auto, using(rhai_base::specs::Reading::kinds))]

ghost use Rattle.std.specs.Prelude.{◌≡◌, ◌++◌, Bool, IfOk, OnOk, map};
ghost use Rattle.rhai_base.specs.Value.{Text};
ghost use Rattle.rhai_base.specs.Reading.{value_of};
ghost use Rattle.run_state.specs.declared.state.State.{State};
ghost use Rattle.run_state.specs.Evaluating.{pointed_then};
ghost use Rattle.run_state.specs.Runs.{Acting, Leads, Runs, Setting};
ghost use Rattle.theory_meaning.specs.Calls as calls;

use crate::state::Interrupt;
use rhai_base::{Dynamic, FnPtr, ImmutableString, OutOfMemory, Seq};
use run_host::Stuck;
use std::alloc::{AllocError, Global};

/// `Fn`: a pointer to the function of a name. A text that is no function's name is thrown as a fault.
pub fn pointer_to(alloc: Global, name: &Dynamic) -> Result<Dynamic, Interrupt>
    ensures { (here : Setting) (s : State) → Runs here (Acting (calls.pointer_to (value_of name.now))) s result s }
{
    let Ok(name) = name.as_immutable_string_ref() else {
        return Err(Interrupt::Stuck(Stuck::WrongKind));
    };
    match FnPtr::new(alloc, name.clone()?) {
        Some(pointer) => Ok(Dynamic::FnPtr(pointer)),
        None => {
            let fault = ImmutableString::new(alloc, "function name")?;
            Err(Interrupt::Throw(Dynamic::Str(fault)))
        }
    }
}

/// `curry`: a pointer with values of further parameters.
pub fn curried(pointer: &Dynamic, values: &[Dynamic]) -> Result<Dynamic, Interrupt>
    ensures { (here : Setting) (s : State)
        → Runs here (Acting (calls.curried (value_of pointer.now) (map value_of values.now))) s result s }
{
    match pointer {
        Dynamic::FnPtr(pointer) => Ok(Dynamic::FnPtr(with_values(pointer, values)?)),
        _ => Err(Interrupt::Stuck(Stuck::WrongKind)),
    }
}

fn with_values(pointer: &FnPtr, values: &[Dynamic]) -> Result<FnPtr, OutOfMemory>
    ensures name { IfOk result (λ p. p.name ≡ pointer.now.name) }
    ensures values { IfOk result (λ p. p.curried ≡ pointer.now.curried ++ values.now) }
{
    let mut made = pointer.clone()?;
    for value in values {
        made.add_curry(value.clone()?)?;
    }
    Ok(made)
}

/// The function that the first argument names, with its own values before the other arguments; `None` without
/// arguments.
pub fn pointed(
    alloc: Global,
    args: &[Dynamic],
) -> Result<Option<(ImmutableString, Seq<Dynamic>)>, Interrupt>
    ensures { (here : Setting) (captures : Bool) (f : Text) (s : State)
        → Leads here (Acting (calls.call_word here.world captures f calls.CallFn (map value_of args.now))) s result s
        (λ o. pointed_then here captures f (map value_of args.now) o) }
{
    match args.split_first() {
        Some((pointer, values)) => Ok(Some(pointed_with(alloc, pointer, values)?)),
        None => Ok(None),
    }
}

/// The function that a pointer names, with its own values before these.
pub fn pointed_with(
    alloc: Global,
    pointer: &Dynamic,
    values: &[Dynamic],
) -> Result<(ImmutableString, Seq<Dynamic>), Interrupt>
    ensures { (here : Setting) (captures : Bool) (s : State)
        → Leads here (Acting (calls.call_pointer here.world captures (value_of pointer.now) (map value_of values.now)))
        s result s (λ p. Acting (calls.call_named here.world captures p.0 (map value_of p.1))) }
{
    let Dynamic::FnPtr(pointer) = pointer else {
        return Err(Interrupt::Stuck(Stuck::WrongKind));
    };
    let name = ImmutableString::new(alloc, pointer.fn_name())?;
    Ok((name, all_args(alloc, pointer, values)?))
}

/// A pointer's own values, then these.
fn all_args(alloc: Global, pointer: &FnPtr, values: &[Dynamic]) -> Result<Seq<Dynamic>, AllocError>
    ensures { IfOk result (λ vs. vs ≡ pointer.now.curried ++ values.now) }
{
    let mut args = Seq::new(alloc);
    push_copies(&mut args, pointer.curry())?;
    push_copies(&mut args, values)?;
    Ok(args)
}

fn push_copies(args: &mut Seq<Dynamic>, values: &[Dynamic]) -> Result<(), AllocError>
    ensures { OnOk result (args.new ≡ args.old ++ values.now) }
{
    for value in values {
        args.push(value.clone()?)?;
    }
    Ok(())
}
