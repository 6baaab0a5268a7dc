//! What stands at a place.

#![tactic(auto, using(rhai_base::specs::Reading::kinds, crate::proofs::Parts::parts))]

ghost use Rattle.std.specs.Prelude.{◌≡◌, IfOk};
ghost use Rattle.rhai_base.specs.Reading.{value_of};
ghost use Rattle.theory_meaning.specs.Shape as shape;
ghost use Rattle.run_places.specs.Reading.{part_value};

use rhai_base::Dynamic;
use std::alloc::AllocError;

/// What stands at a place: a value, or nothing under a key that a map lacks, which is read as unit.
#[derive(Clone, Copy)]
pub enum Part<'a> {
    /// A value.
    Stored(&'a Dynamic),
    /// Nothing; unit.
    Missing,
}

impl<'a> Part<'a> {
    /// Whether it is unit.
    pub fn is_unit(self) -> bool
        ensures { result ≡ shape.is_unit (part_value self.entry) }
    {
        match self {
            Part::Stored(value) => value.is_unit(),
            Part::Missing => true,
        }
    }

    /// A copy of the value.
    pub fn to_value(self) -> Result<Dynamic, AllocError>
        ensures { IfOk result (λ v. value_of v ≡ part_value self.entry) }
    {
        match self {
            Part::Stored(value) => value.clone(),
            Part::Missing => Ok(Dynamic::Unit),
        }
    }
}
