//! What the host answers for what a chain has come to, and where a receiver's new value goes.

#![tactic(auto, using(ast_types::specs::Reading::shapes, rhai_base::specs::Reading::kinds, crate::proofs::Placing::placing))]

ghost use Rattle.std.specs.Prelude.{◌≡◌, map};
ghost use Rattle.std.specs.Option.{option_map};
ghost use Rattle.rhai_base.specs.Reading.{value_of};
ghost use Rattle.rhai_base.specs.Value.{UnitV, same};
ghost use Rattle.run_steps.specs.Setting.{setting};
ghost use Rattle.run_steps.specs.Targets.{Finds};
ghost use Rattle.run_state.specs.Runs.{Acting, Leads, given};
ghost use Rattle.run_state.specs.State.{store_of};
ghost use Rattle.theory_meaning.specs.Chains as chains;
ghost use Rattle.theory_meaning.specs.Places as places;
ghost use Rattle.run_steps.specs.declared.steps.placing.Current.TheVariants as kind;
ghost use Rattle.run_steps.specs.Placing as spec;

use crate::{Current, Found, Machine, Place};
use rhai_base::{Dynamic, ImmutableString, Seq};
use run_host::Host;
use run_places::Part;
use run_state::{Interrupt, State};

/// The value that the host answers for what a chain has come to, whose new value is not kept.
pub fn ask_for<H: Host>(
    machine: &Machine<H>,
    state: &mut State,
    name: ImmutableString,
    current: &Current,
    args: Seq<Dynamic>,
) -> Result<Found, Interrupt>
    ensures { let here = setting H.answers H.modules machine.now in
        let c = spec.current_in here (store_of state.old) current.now in
        Finds here c (λ next. chains.ask_for name c.value (map value_of args) next) state.old result state.new }
{
    let receiver = machine.copied(state, current)?;
    let (value, _) = machine.ask_method(state, name, receiver, args)?;
    Ok(Found::Value(value))
}

/// A host's setter, whose new receiver is put back.
pub fn set_by_host<H: Host>(
    machine: &Machine<H>,
    state: &mut State,
    name: ImmutableString,
    args: Seq<Dynamic>,
    current: &Current,
) -> Result<(), Interrupt>
    ensures { let here = setting H.answers H.modules machine.now in
        Leads here
        (Acting
        (chains.set_by_host name (map value_of args) (spec.current_in here (store_of state.old) current.now)))
        state.old result state.new (λ z. given UnitV) }
{
    let receiver = machine.copied(state, current)?;
    let (_, receiver) = machine.ask_method(state, name, receiver, args)?;
    put_back(machine, state, current, receiver)
}

/// A receiver's new value goes to its place, if any: in a constant's place an equal one changes nothing.
pub fn put_back<H: Host>(
    machine: &Machine<H>,
    state: &mut State,
    current: &Current,
    receiver: Option<Dynamic>,
) -> Result<(), Interrupt>
    ensures { let here = setting H.answers H.modules machine.now in
        Leads here
        (Acting
        (places.put_back (spec.current_in here (store_of state.old) current.now)
        (option_map value_of receiver)))
        state.old result state.new (λ z. given UnitV) }
{
    let Some(receiver) = receiver else {
        return Ok(());
    };
    let Current::At(place) = current else {
        return Ok(());
    };
    let differs = !is_standing(machine, state, place, &receiver);
    machine.write_place(state, differs, place, receiver)
}

/// Whether that value stands at a place.
fn is_standing<H: Host>(machine: &Machine<H>, state: &State, place: &Place, value: &Dynamic) -> bool
    ensures { result
        ≡ same
        (spec.current_in (setting H.answers H.modules machine.now) (store_of state.now) (kind.At place.now)).value
        (value_of value.now) }
{
    match machine.place_part(state, place) {
        Part::Stored(stored) => stored.is_equal(value),
        Part::Missing => Dynamic::Unit.is_equal(value),
    }
}
