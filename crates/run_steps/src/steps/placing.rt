//! Places, and what stands there.

#![tactic(auto, using(rhai_base::specs::Reading::kinds, crate::proofs::Placing::placing))]

ghost use Rattle.std.specs.Prelude.{◌≡◌, IfOk};
ghost use Rattle.rhai_base.specs.Reading.{value_of};
ghost use Rattle.theory_meaning.specs.Act.{OfName, OfGlobal};
ghost use Rattle.theory_meaning.specs.Shape.{is_unit};
ghost use Rattle.run_places.specs.Reading.{key_meant, or_unit, part_value};
ghost use Rattle.run_steps.specs.Setting.{setting};
ghost use Rattle.run_state.specs.Runs.{Acting, Leads};
ghost use Rattle.run_state.specs.State.{store_of};
ghost use Rattle.run_steps.specs.Variables.{root_meant};
ghost use Rattle.theory_meaning.specs.Places as places;
ghost use Rattle.run_steps.specs.declared.steps.placing.Current.TheVariants as kind;
ghost use Rattle.run_steps.specs.Placing as spec;

use crate::nodes::{Root, latest_constant, position};
use crate::steps::machine::Machine;
use rhai_base::{Dynamic, Seq};
use run_host::{Host, Stuck};
use run_places::{Part, PlaceKey, along};
use run_state::{Interrupt, State};
use std::alloc::AllocError;

/// A name, a constant of the script's own list or `this`, and the way on from there.
#[derive(Drop)]
pub struct Place<'a> {
    /// What the way starts from.
    pub root: Root<'a>,
    /// The way on.
    pub keys: Seq<PlaceKey>,
}

/// What a chain has come to: what stands at a place, or a value without a place.
#[derive(Drop)]
pub enum Current<'a> {
    /// At a place.
    At(Place<'a>),
    /// A value of its own.
    Loose(Dynamic),
}

impl<'a, H: Host> Machine<'a, H> {
    /// The value of a name, of a constant of the script's own list or of `this`.
    pub(crate) fn root_value<'s>(
        &'s self,
        state: &'s State,
        root: Root,
    ) -> Result<&'s Dynamic, Stuck>
        ensures { spec.HasRoot (setting H.answers H.modules self.now) (store_of state.now) (root_meant root.entry)
            result }
    {
        match root {
            Root::Name(name) => self.name_value(state, name.as_str()),
            Root::Global(name) => global_value(state, name.as_str()),
            Root::This => match &state.this {
                Some(value) => Ok(value),
                None => Err(Stuck::UnboundThis),
            },
        }
    }

    fn name_value<'s>(&'s self, state: &'s State, name: &str) -> Result<&'s Dynamic, Stuck>
        ensures { spec.HasRoot (setting H.answers H.modules self.now) (store_of state.now) (OfName name.now) result }
    {
        let scope = state.scope.as_slice();
        match position(scope, name) {
            Some(place) => Ok(&scope[place].value),
            None => match self.info.constant_named(name) {
                Some(value) => Ok(value),
                None => Err(Stuck::Unbound),
            },
        }
    }

    /// What stands at a place.
    pub fn standing<'s>(&'s self, state: &'s State, place: &Place) -> Result<Part<'s>, Stuck>
        ensures { spec.HasPart (setting H.answers H.modules self.now) (store_of state.now) (spec.place_meant place.now)
            result }
    {
        let value = self.root_value(state, place.root)?;
        match along(value, place.keys.as_slice()) {
            Some(part) => Ok(part),
            None => Err(Stuck::NoPlace),
        }
    }

    /// What stands at a place; unit where nothing does.
    pub fn place_part<'s>(&'s self, state: &'s State, place: &Place) -> Part<'s>
        ensures { part_value result
            ≡ (spec.current_in (setting H.answers H.modules self.now) (store_of state.now) (kind.At place.now)).value }
    {
        match self.standing(state, place) {
            Ok(part) => part,
            Err(_) => Part::Missing,
        }
    }

    /// A copy of what stands at a place; unit where nothing does.
    pub fn place_value(&self, state: &State, place: &Place) -> Result<Dynamic, AllocError>
        ensures { IfOk result (λ v.
            value_of v
            ≡ (spec.current_in (setting H.answers H.modules self.now) (store_of state.now) (kind.At place.now)).value) }
    {
        self.place_part(state, place).to_value()
    }

    /// What a chain has come to; unit where nothing stands at the place.
    pub fn current_part<'s>(&'s self, state: &'s State, current: &'s Current) -> Part<'s>
        ensures { part_value result
            ≡ (spec.current_in (setting H.answers H.modules self.now) (store_of state.now) current.now).value }
    {
        match current {
            Current::At(place) => self.place_part(state, place),
            Current::Loose(value) => Part::Stored(value),
        }
    }

    /// The value that a chain has come to.
    pub fn current_value(&self, state: &State, current: Current) -> Result<Dynamic, AllocError>
        ensures { IfOk result (λ v.
            value_of v
            ≡ (spec.current_in (setting H.answers H.modules self.now) (store_of state.now) current.entry).value) }
    {
        match current {
            Current::At(place) => self.place_value(state, &place),
            Current::Loose(value) => Ok(value),
        }
    }

    /// A copy of the value that a chain has come to.
    pub fn copied(&self, state: &State, current: &Current) -> Result<Dynamic, AllocError>
        ensures { IfOk result (λ v.
            value_of v
            ≡ (spec.current_in (setting H.answers H.modules self.now) (store_of state.now) current.now).value) }
    {
        match current {
            Current::At(place) => self.place_value(state, place),
            Current::Loose(value) => value.clone(),
        }
    }

    /// Whether the value that a chain has come to is unit.
    pub fn is_unit_at(&self, state: &State, current: &Current) -> bool
        ensures { result
            ≡ is_unit (spec.current_in (setting H.answers H.modules self.now) (store_of state.now) current.now).value }
    {
        match current {
            Current::At(place) => self.place_part(state, place).is_unit(),
            Current::Loose(value) => Part::Stored(value).is_unit(),
        }
    }

    /// Whether a place still leads on, after what was evaluated since.
    pub fn refreshed(&self, state: &State, current: &Current) -> Result<(), Interrupt>
        ensures { let here = setting H.answers H.modules self.now in
            (u : _) (next : _)
            → Leads here (Acting (places.refreshed (spec.made current.now u) next)) state.now result state.now
            (λ z. Acting (next (spec.current_in here (store_of state.now) current.now))) }
    {
        match current {
            Current::At(place) => match self.standing(state, place) {
                Ok(_) => Ok(()),
                Err(stuck) => Err(Interrupt::Stuck(stuck)),
            },
            Current::Loose(_) => Ok(()),
        }
    }
}

/// The value of a constant of the script's own list.
fn global_value<'s>(state: &'s State, name: &str) -> Result<&'s Dynamic, Stuck>
    ensures { (here : _) → spec.HasRoot here (store_of state.now) (OfGlobal name.now) result }
{
    match latest_constant(state.globals.as_slice(), name) {
        Some(value) => Ok(value),
        None => Err(Stuck::Unbound),
    }
}

/// The part at a key of what a chain has come to, unit if there is none.
pub fn at_key<'a>(current: Current<'a>, key: PlaceKey) -> Result<Current<'a>, AllocError>
    ensures { IfOk result (λ c.
        (here : _) (st : _)
        → spec.current_in here st c
        ≡ places.part (spec.current_in here st current.entry) (key_meant key)
        (or_unit (places.inside (spec.current_in here st current.entry).value (key_meant key)))) }
{
    match current {
        Current::At(place) => {
            let Place { root, mut keys } = place;
            keys.push(key)?;
            Ok(Current::At(Place { root, keys }))
        }
        Current::Loose(value) => Ok(Current::Loose(copied_part(&value, &key)?)),
    }
}

fn copied_part(value: &Dynamic, key: &PlaceKey) -> Result<Dynamic, AllocError>
    ensures { IfOk result (λ v. value_of v ≡ or_unit (places.inside (value_of value.now) (key_meant key.now))) }
{
    match Part::Stored(value).inside(key) {
        Some(part) => part.to_value(),
        None => Ok(Dynamic::Unit),
    }
}
