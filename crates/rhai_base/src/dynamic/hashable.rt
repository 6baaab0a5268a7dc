//! Which values can be keys of a `switch`.
#![tactic(auto, using(crate::specs::Reading::kinds, crate::proofs::Hashable::steps))]

ghost use Rattle.std.specs.Prelude.{◌≡◌, map};
ghost use Rattle.rhai_base.specs.Value as model;
ghost use Rattle.rhai_base.specs.Reading.{value_of, members_of};

use crate::Dynamic;
use base_lists::Seq;
use base_text::StringMap;

impl Dynamic {
    /// Whether it holds no pointer to a function and no float at any depth, so that it can be a key of a `switch`. In
    /// rhai a float can be one.
    #[cycle(hashable)]
    pub fn is_hashable(&self) -> bool
        ensures { result ≡ model.is_hashable (value_of self.now) }
    {
        match self {
            Dynamic::Array(items) => are_hashable(items),
            Dynamic::Map(members) => have_hashable(members),
            Dynamic::FnPtr(_) | Dynamic::Float(_) => false,
            Dynamic::Unit
            | Dynamic::Bool(_)
            | Dynamic::Int(_)
            | Dynamic::Char(_)
            | Dynamic::Str(_)
            | Dynamic::Range(_, _)
            | Dynamic::RangeInclusive(_, _) => true,
        }
    }
}

#[cycle(hashable)]
fn are_hashable(items: &Seq<Dynamic>) -> bool
    ensures { result ≡ model.are_hashable (model.values (map value_of items.now)) }
{
    for item in items.as_slice() {
        if !item.is_hashable() {
            return false;
        }
    }
    true
}

#[cycle(hashable)]
fn have_hashable(members: &StringMap<Dynamic>) -> bool
    ensures { result ≡ model.fields_hashable (model.fields (members_of members.now)) }
{
    for (_, member) in members.iter() {
        if !member.is_hashable() {
            return false;
        }
    }
    true
}
