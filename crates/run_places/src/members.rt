//! Entries of maps.

#![tactic(auto, using(crate::proofs::Parts::parts))]

ghost use Rattle.std.specs.Prelude.{◌≡◌};
ghost use Rattle.rhai_base.specs.Reading.{members_of};
ghost use Rattle.rhai_base.specs.Value.{fields};
ghost use Rattle.theory_meaning.specs.Elements as model;
ghost use Rattle.run_places.specs.Reading.{part_value};

use crate::standing::Part;
use rhai_base::{Dynamic, ImmutableString, StringMap};

/// The value under a key; unit where it is missing.
pub fn entry<'a>(members: &'a StringMap<Dynamic>, key: &ImmutableString) -> Part<'a>
    ensures { part_value result ≡ model.entry (fields (members_of members.now)) key.now }
{
    match members.get(key) {
        Some(member) => Part::Stored(member),
        None => Part::Missing,
    }
}
