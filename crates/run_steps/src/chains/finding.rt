//! Parts of what a chain has come to: properties and indices.

#![tactic(auto, using(ast_types::specs::Reading::shapes, rhai_base::specs::Reading::kinds, crate::proofs::Chaining::chaining))]

ghost use Rattle.std.specs.Prelude.{◌≡◌, [], ◌∷◌, codes, IfOk, Some};
ghost use Rattle.run_steps.specs.Chaining.{StepsOn, names_meant};
ghost use Rattle.run_steps.specs.Setting.{setting};
ghost use Rattle.run_state.specs.Runs.{Leaving, stop_of};
ghost use Rattle.run_state.specs.State.{store_of};
ghost use Rattle.rhai_base.specs.Reading.{value_of};
ghost use Rattle.rhai_base.specs.Value.{TextV};
ghost use Rattle.theory_meaning.specs.Act.{Throws};
ghost use Rattle.run_steps.specs.Targets.{Finds, found_in};
ghost use Rattle.theory_meaning.specs.Chains as chains;
ghost use Rattle.run_steps.specs.Placing as spec;

use crate::receivers::ask_for;
use crate::{Current, Found, Machine, PropertyNames, at_key};
use rhai_base::{Dynamic, ImmutableString, Seq};
use run_host::Host;
use run_places::{Indexed, PlaceKey, index};
use run_state::{Interrupt, State};
use std::alloc::{AllocError, Global};

/// A property: the entry of a map, or what the host's getter answers.
pub fn property_step<'c, H: Host>(
    machine: &Machine<H>,
    state: &mut State,
    names: PropertyNames,
    current: Current<'c>,
) -> Result<Current<'c>, Interrupt>
    ensures { let here = setting H.answers H.modules machine.now in
        let c = spec.current_in here (store_of state.old) current.entry in
        StepsOn here (λ next. chains.property (names_meant names.entry) c c.value next) state.old result state.new }
{
    let found = find_property(machine, state, names, &current)?;
    Ok(found_at(current, found)?)
}

/// Where a property is, or its value.
pub(crate) fn find_property<H: Host>(
    machine: &Machine<H>,
    state: &mut State,
    names: PropertyNames,
    current: &Current,
) -> Result<Found, Interrupt>
    ensures { let here = setting H.answers H.modules machine.now in
        let c = spec.current_in here (store_of state.old) current.now in
        Finds here c (λ next. chains.property (names_meant names.entry) c c.value next) state.old result state.new }
{
    let key = PlaceKey::AtEntry(names.name.clone()?);
    if machine.current_part(state, current).inside(&key).is_some() {
        return Ok(Found::Part(key));
    }
    let args = Seq::new(machine.alloc);
    ask_for(machine, state, names.getter.clone()?, current, args)
}

/// An index: a part in bounds, or what the host answers.
pub fn index_step<'c, H: Host>(
    machine: &Machine<H>,
    state: &mut State,
    current: Current<'c>,
    index_value: Dynamic,
) -> Result<Current<'c>, Interrupt>
    ensures { let here = setting H.answers H.modules machine.now in
        let c = spec.current_in here (store_of state.old) current.entry in
        StepsOn here (λ next. chains.index c c.value (value_of index_value) next) state.old result state.new }
{
    let found = find_index(machine, state, &current, index_value)?;
    Ok(found_at(current, found)?)
}

/// Where an index leads, or its value.
pub(crate) fn find_index<H: Host>(
    machine: &Machine<H>,
    state: &mut State,
    current: &Current,
    index_value: Dynamic,
) -> Result<Found, Interrupt>
    ensures { let here = setting H.answers H.modules machine.now in
        let c = spec.current_in here (store_of state.old) current.now in
        Finds here c (λ next. chains.index c c.value (value_of index_value) next) state.old result state.new }
{
    match index(machine.current_part(state, current), index_value) {
        Indexed::Part(key) => Ok(Found::Part(key)),
        Indexed::Value(value) => Ok(Found::Value(value)),
        Indexed::Throws(text) => Err(thrown(machine.alloc, text)?),
        Indexed::AsksHost(index_value) => ask_index(machine, state, current, index_value),
    }
}

/// What the host answers for an index.
fn ask_index<H: Host>(
    machine: &Machine<H>,
    state: &mut State,
    current: &Current,
    index_value: Dynamic,
) -> Result<Found, Interrupt>
    ensures { let here = setting H.answers H.modules machine.now in
        let c = spec.current_in here (store_of state.old) current.now in
        Finds here c (λ next. chains.ask_for (codes "index$get$") c.value (value_of index_value ∷ []) next) state.old
        result state.new }
{
    let args = Seq::from_array(machine.alloc, [index_value])?;
    let name = ImmutableString::new(machine.alloc, "index$get$")?;
    ask_for(machine, state, name, current, args)
}

/// The value that a step has found.
pub(crate) fn found_value<H: Host>(
    machine: &Machine<H>,
    state: &State,
    current: &Current,
    found: Found,
) -> Result<Dynamic, AllocError>
    ensures { IfOk result (λ v.
        value_of v
        ≡ (found_in (spec.current_in (setting H.answers H.modules machine.now) (store_of state.now) current.now)
        found).value) }
{
    match found {
        Found::Part(key) => match machine.current_part(state, current).inside(&key) {
            Some(part) => part.to_value(),
            None => Ok(Dynamic::Unit),
        },
        Found::Value(value) => Ok(value),
    }
}

/// What a step has found, at its place if it has one.
fn found_at<'a>(current: Current<'a>, found: Found) -> Result<Current<'a>, AllocError>
    ensures { IfOk result (λ c.
        (here : _) (st : _) → spec.current_in here st c ≡ found_in (spec.current_in here st current.entry) found) }
{
    match found {
        Found::Part(key) => at_key(current, key),
        Found::Value(value) => Ok(Current::Loose(value)),
    }
}

/// An error of the language, as its text is thrown.
pub(crate) fn thrown(alloc: Global, text: &str) -> Result<Interrupt, AllocError>
    ensures { IfOk result (λ x. stop_of x ≡ Some (Leaving (Throws (TextV text.now)))) }
{
    Ok(Interrupt::Throw(Dynamic::Str(ImmutableString::new(alloc, text)?)))
}
