//! What is asked of values while a script is run.

#![tactic(auto, using(rhai_base::specs::Reading::kinds))]

ghost use Rattle.std.specs.Prelude.{◌≡◌, IfOk, if◌then◌else◌, map};
ghost use Rattle.theory_meaning.specs.Shape.{is_unit};
ghost use Rattle.rhai_base.specs.Reading.{value_of};
ghost use Rattle.rhai_base.specs.Value.{TextV};
ghost use Rattle.theory_meaning.specs.ActForms.{truth as truth_of};
ghost use Rattle.theory_meaning.specs.Control.{text_in, texts_joined};
ghost use Rattle.run_host.specs.Host.{host_of};
ghost use Rattle.run_state.specs.Evaluating.{or_stuck, IsConstant};

use crate::state::Interrupt;
use rhai_base::{Dynamic, ImmutableString, OutOfMemory, Seq};
use run_host::{Host, Stuck, push_text};
use std::alloc::{AllocError, Global};

/// Whether a condition holds; a value that is no bool is stuck.
pub fn truth(value: Dynamic) -> Result<bool, Interrupt>
    ensures { result ≡ or_stuck (truth_of (value_of value)) }
{
    match truth_of(&value) {
        Some(holds) => Ok(holds),
        None => Err(Interrupt::Stuck(Stuck::WrongKind)),
    }
}

fn truth_of(value: &Dynamic) -> Option<bool>
    ensures { result ≡ truth_of (value_of value.now) }
{
    match value {
        Dynamic::Bool(holds) => Some(*holds),
        _ => None,
    }
}

/// The value of a constant of its own, which never stands for unit.
#[inline(never)]
pub fn constant(value: &Dynamic) -> Result<Dynamic, Interrupt>
    ensures { IsConstant (value_of value.now) result }
{
    if value.is_unit() {
        return Err(Interrupt::Stuck(Stuck::WrongKind));
    }
    Ok(value.clone()?)
}

/// The texts of values, joined, where the host says how a value is written that holds a float.
#[inline(never)]
pub fn joined_text<H: Host>(
    host: &H,
    alloc: Global,
    values: Seq<Dynamic>,
) -> Result<Dynamic, OutOfMemory>
    ensures { IfOk result (λ v. value_of v
        ≡ TextV (texts_joined (text_in (host_of (H.answers host.now) (H.modules host.now))) (map value_of values))) }
{
    let mut text = String::new(alloc);
    for value in values.as_slice() {
        push_text(host, alloc, value, &mut text)?;
    }
    Ok(Dynamic::Str(ImmutableString::from_string(text)?))
}

/// The value, unless it is unit.
pub fn some_value(value: Dynamic) -> Option<Dynamic>
    ensures { result ≡ (if is_unit (value_of value) then None else Some value) }
{
    if value.is_unit() { None } else { Some(value) }
}
