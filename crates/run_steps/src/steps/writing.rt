//! Writes to places.

#![tactic(auto, using(rhai_base::specs::Reading::kinds, crate::proofs::Placing::placing))]

ghost use Rattle.std.specs.Prelude.{◌≡◌, true, map};
ghost use Rattle.rhai_base.specs.Reading.{value_of};
ghost use Rattle.rhai_base.specs.Value.{UnitV, Value};
ghost use Rattle.theory_meaning.specs.Act.{OfName, OfGlobal, OfThis, Write};
ghost use Rattle.run_places.specs.Reading.{key_meant};
ghost use Rattle.run_state.specs.declared.state.State.{State};
ghost use Rattle.run_steps.specs.Setting.{setting};
ghost use Rattle.run_state.specs.Runs.{Acting, Leads, Runs, given};
ghost use Rattle.run_state.specs.Variables.{IsMissing};
ghost use Rattle.theory_meaning.specs.Places as places;
ghost use Rattle.run_steps.specs.Placing as spec;

use crate::nodes::{Root, position};
use crate::steps::machine::Machine;
use crate::steps::placing::Place;
use rhai_base::{Dynamic, ImmutableString};
use run_host::{Host, Stuck};
use run_places::{PlaceKey, along, replace_along};
use run_state::{Interrupt, State};

impl<'a, H: Host> Machine<'a, H> {
    /// Gives a variable another value, in its latest entry. A constant is stuck.
    pub(crate) fn write_name(
        &self,
        state: &mut State,
        name: &str,
        value: Dynamic,
    ) -> Result<(), Interrupt>
        ensures { Leads (setting H.answers H.modules self.now)
            (Acting (Write true (OfName name.now) (value_of value))) state.old result state.new (λ z. given UnitV) }
    {
        let Some(place) = position(state.scope.as_slice(), name) else {
            return self.write_in_constant(true, name, &[]);
        };
        let variable = &mut state.scope[place];
        if variable.kind.is_constant() {
            return Err(Interrupt::Stuck(Stuck::WriteToConstant));
        }
        variable.value = value;
        Ok(())
    }

    /// Gives `this` another value.
    pub(crate) fn write_this(&self, state: &mut State, value: Dynamic) -> Result<(), Interrupt>
        ensures { Leads (setting H.answers H.modules self.now) (Acting (Write true OfThis (value_of value)))
            state.old result state.new (λ z. given UnitV) }
    {
        let Some(this) = &mut state.this else {
            return Err(Interrupt::Stuck(Stuck::UnboundThis));
        };
        *this = value;
        Ok(())
    }

    /// Puts a value at a place, and adds the last entry where it is missing. A constant stays as it is; one that must
    /// be written is stuck.
    pub fn write_place(
        &self,
        state: &mut State,
        must: bool,
        place: &Place,
        value: Dynamic,
    ) -> Result<(), Interrupt>
        ensures { Leads (setting H.answers H.modules self.now)
            (Acting (places.write_place must (spec.place_meant place.now) (value_of value))) state.old result state.new
            (λ z. given UnitV) }
    {
        let keys = place.keys.as_slice();
        match place.root {
            Root::Name(name) => self.write_in_name(state, must, name.as_str(), keys, value),
            Root::Global(name) => self.write_in_global(state, must, name, keys),
            Root::This => self.write_in_this(state, must, keys, value),
        }
    }

    fn write_in_name(
        &self,
        state: &mut State,
        must: bool,
        name: &str,
        keys: &[PlaceKey],
        value: Dynamic,
    ) -> Result<(), Interrupt>
        ensures { Leads (setting H.answers H.modules self.now)
            (Acting
            (places.write_place must (record { root = OfName name.now; keys = map key_meant keys.now })
            (value_of value)))
            state.old result state.new (λ z. given UnitV) }
    {
        let Some(place) = position(state.scope.as_slice(), name) else {
            return self.write_in_constant(must, name, keys);
        };
        let variable = &mut state.scope[place];
        if variable.kind.is_constant() {
            return constant_end(must, &variable.value, keys);
        }
        if replace_along(&mut variable.value, keys, value)? {
            Ok(())
        } else {
            Err(Interrupt::Stuck(Stuck::NoPlace))
        }
    }

    /// A name that is not in scope is a constant of the record or unbound.
    fn write_in_constant(&self, must: bool, name: &str, keys: &[PlaceKey]) -> Result<(), Interrupt>
        ensures { let here = setting H.answers H.modules self.now in
            (s : State) (w : Value) → IsMissing name.now s.scope.items
            → Leads here
            (Acting
            (places.write_place must (record { root = OfName name.now; keys = map key_meant keys.now }) w))
            s result s (λ z. given UnitV) }
    {
        match self.info.constant_named(name) {
            Some(constant) => constant_end(must, constant, keys),
            None => Err(Interrupt::Stuck(Stuck::Unbound)),
        }
    }

    /// A constant of the script's own list is not assigned to.
    pub(crate) fn write_global(
        &self,
        state: &State,
        name: &ImmutableString,
    ) -> Result<Dynamic, Interrupt>
        ensures { (w : Value)
            → Runs (setting H.answers H.modules self.now) (Acting (Write true (OfGlobal name.now) w)) state.now result
            state.now }
    {
        match self.write_in_global(state, true, name, &[]) {
            Ok(()) => Ok(Dynamic::Unit),
            Err(stop) => Err(stop),
        }
    }

    /// A constant of the script's own list stays as it is, in functions too.
    pub(crate) fn write_in_global(
        &self,
        state: &State,
        must: bool,
        name: &ImmutableString,
        keys: &[PlaceKey],
    ) -> Result<(), Interrupt>
        ensures { (w : Value)
            → Leads (setting H.answers H.modules self.now)
            (Acting
            (places.write_place must (record { root = OfGlobal name.now; keys = map key_meant keys.now }) w))
            state.now result state.now (λ z. given UnitV) }
    {
        match self.root_value(state, Root::Global(name)) {
            Ok(constant) => constant_end(must, constant, keys),
            Err(stuck) => Err(Interrupt::Stuck(stuck)),
        }
    }

    fn write_in_this(
        &self,
        state: &mut State,
        must: bool,
        keys: &[PlaceKey],
        value: Dynamic,
    ) -> Result<(), Interrupt>
        ensures { Leads (setting H.answers H.modules self.now)
            (Acting
            (places.write_place must (record { root = OfThis; keys = map key_meant keys.now }) (value_of value)))
            state.old result state.new (λ z. given UnitV) }
    {
        let Some(this) = &mut state.this else {
            return Err(Interrupt::Stuck(Stuck::UnboundThis));
        };
        if replace_along(this, keys, value)? {
            Ok(())
        } else {
            Err(Interrupt::Stuck(Stuck::NoPlace))
        }
    }

    /// Puts a value at a key of a place.
    pub fn write_under(
        &self,
        state: &mut State,
        place: Place,
        key: PlaceKey,
        value: Dynamic,
    ) -> Result<(), Interrupt>
        ensures { Leads (setting H.answers H.modules self.now)
            (Acting
            (places.write_place true (places.under (key_meant key) (spec.place_meant place.entry))
            (value_of value)))
            state.old result state.new (λ z. given UnitV) }
    {
        let Place { root, mut keys } = place;
        keys.push(key)?;
        self.write_place(state, true, &Place { root, keys }, value)
    }
}

/// How a write in a constant ends.
fn constant_end(must: bool, constant: &Dynamic, keys: &[PlaceKey]) -> Result<(), Interrupt>
    ensures { result ≡ spec.constant_end must (places.along (value_of constant.now) (map key_meant keys.now)) }
{
    match along(constant, keys) {
        None => Err(Interrupt::Stuck(Stuck::NoPlace)),
        Some(_) => {
            if must {
                Err(Interrupt::Stuck(Stuck::WriteToConstant))
            } else {
                Ok(())
            }
        }
    }
}
