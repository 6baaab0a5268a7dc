//! Writes to parts: properties, indices, and where a last step leads.

#![tactic(auto, using(ast_types::specs::Reading::shapes, rhai_base::specs::Reading::kinds, crate::proofs::Chaining::chaining))]

ghost use Rattle.std.specs.Prelude.{[], ◌∷◌, codes};
ghost use Rattle.run_steps.specs.Chaining.{access_meant, names_meant};
ghost use Rattle.run_steps.specs.Setting.{setting};
ghost use Rattle.run_state.specs.Runs.{Acting, Leads, given};
ghost use Rattle.run_state.specs.State.{store_of};
ghost use Rattle.rhai_base.specs.Reading.{value_of};
ghost use Rattle.rhai_base.specs.Value.{UnitV};
ghost use Rattle.theory_meaning.specs.Chains as chains;
ghost use Rattle.run_steps.specs.declared.steps.placing.Current.TheVariants as kind;
ghost use Rattle.run_steps.specs.Placing as spec;

use crate::chains::finding::thrown;
use crate::receivers::set_by_host;
use crate::{Access, Current, Machine, Place, PropertyNames};
use rhai_base::{Dynamic, ImmutableString, Seq};
use run_host::{Host, Stuck};
use run_places::{IndexTarget, PlaceKey, index_target};
use run_state::{Interrupt, State};

/// Writes where a last step leads; what has no place is stuck.
pub fn set_at<H: Host>(
    machine: &Machine<H>,
    state: &mut State,
    access: Access,
    value: Dynamic,
    current: Current,
) -> Result<(), Interrupt>
    ensures { let here = setting H.answers H.modules machine.now in
        let c = spec.current_in here (store_of state.old) current.entry in
        Leads here (Acting (chains.set_at (value_of value) (access_meant access.entry) c c.place)) state.old result
        state.new (λ z. given UnitV) }
{
    match current {
        Current::At(place) => set_at_place(machine, state, access, value, place),
        Current::Loose(_) => Err(Interrupt::Stuck(Stuck::NoPlace)),
    }
}

fn set_at_place<H: Host>(
    machine: &Machine<H>,
    state: &mut State,
    access: Access,
    value: Dynamic,
    place: Place,
) -> Result<(), Interrupt>
    ensures { let here = setting H.answers H.modules machine.now in
        let c = spec.current_in here (store_of state.old) (kind.At place.entry) in
        Leads here (Acting (chains.set_at (value_of value) (access_meant access.entry) c c.place)) state.old result
        state.new (λ z. given UnitV) }
{
    match access {
        Access::Property(names) => set_property(machine, state, names, value, place),
        Access::Index(index) => set_index(machine, state, index, value, place),
        Access::Method(_, _) => Err(Interrupt::Stuck(Stuck::NoPlace)),
    }
}

/// Writes a property of what stands at a place: the entry of a map, or by the host's setter.
fn set_property<H: Host>(
    machine: &Machine<H>,
    state: &mut State,
    names: PropertyNames,
    value: Dynamic,
    place: Place,
) -> Result<(), Interrupt>
    ensures { let here = setting H.answers H.modules machine.now in
        let c = spec.current_in here (store_of state.old) (kind.At place.entry) in
        Leads here
        (Acting
        (chains.set_property (names_meant names.entry) (value_of value) (spec.place_meant place.entry) c
        c.value))
        state.old result state.new (λ z. given UnitV) }
{
    let key = PlaceKey::AtEntry(names.name.clone()?);
    if machine.place_part(state, &place).inside(&key).is_some() {
        return machine.write_under(state, place, key, value);
    }
    set_property_by_host(machine, state, names.setter, value, place)
}

/// Has the host write a property.
fn set_property_by_host<H: Host>(
    machine: &Machine<H>,
    state: &mut State,
    setter: &ImmutableString,
    value: Dynamic,
    place: Place,
) -> Result<(), Interrupt>
    ensures { let here = setting H.answers H.modules machine.now in
        Leads here
        (Acting
        (chains.set_by_host setter.now (value_of value ∷ [])
        (spec.current_in here (store_of state.old) (kind.At place.entry))))
        state.old result state.new (λ z. given UnitV) }
{
    let args = Seq::from_array(machine.alloc, [value])?;
    set_by_host(machine, state, setter.clone()?, args, &Current::At(place))
}

/// Writes at an index of what stands at a place: a part in bounds, or by the host.
fn set_index<H: Host>(
    machine: &Machine<H>,
    state: &mut State,
    index_value: Dynamic,
    value: Dynamic,
    place: Place,
) -> Result<(), Interrupt>
    ensures { let here = setting H.answers H.modules machine.now in
        let c = spec.current_in here (store_of state.old) (kind.At place.entry) in
        Leads here
        (Acting
        (chains.set_index (value_of value) (spec.place_meant place.entry) c c.value (value_of index_value)))
        state.old result state.new (λ z. given UnitV) }
{
    match index_target(machine.place_part(state, &place), index_value) {
        IndexTarget::Part(key) => machine.write_under(state, place, key, value),
        IndexTarget::Throws(text) => Err(thrown(machine.alloc, text)?),
        IndexTarget::AsksHost(index_value) => {
            set_index_by_host(machine, state, index_value, value, place)
        }
    }
}

/// Has the host write at an index.
fn set_index_by_host<H: Host>(
    machine: &Machine<H>,
    state: &mut State,
    index_value: Dynamic,
    value: Dynamic,
    place: Place,
) -> Result<(), Interrupt>
    ensures { let here = setting H.answers H.modules machine.now in
        Leads here
        (Acting
        (chains.set_by_host (codes "index$set$") (value_of index_value ∷ value_of value ∷ [])
        (spec.current_in here (store_of state.old) (kind.At place.entry))))
        state.old result state.new (λ z. given UnitV) }
{
    let args = Seq::from_array(machine.alloc, [index_value, value])?;
    let name = ImmutableString::new(machine.alloc, "index$set$")?;
    set_by_host(machine, state, name, args, &Current::At(place))
}
