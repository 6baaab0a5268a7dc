//! Which values hold a float.
#![tactic(auto, using(crate::specs::Reading::kinds, crate::proofs::Floats::steps))]

ghost use Rattle.std.specs.Prelude.{◌≡◌, map};
ghost use Rattle.rhai_base.specs.Value as model;
ghost use Rattle.rhai_base.specs.Reading.{value_of, members_of};

use crate::Dynamic;
use base_lists::Seq;
use base_text::StringMap;

impl Dynamic {
    /// Whether it is a float, or an array or a map that holds one at any depth. It is not in rhai.
    #[cycle(floats)]
    pub fn holds_float(&self) -> bool
        ensures { result ≡ model.holds_float (value_of self.now) }
    {
        match self {
            Dynamic::Float(_) => true,
            Dynamic::Array(items) => hold_float(items),
            Dynamic::Map(members) => have_float(members),
            Dynamic::Unit
            | Dynamic::Bool(_)
            | Dynamic::Int(_)
            | Dynamic::Char(_)
            | Dynamic::Str(_)
            | Dynamic::FnPtr(_)
            | Dynamic::Range(_, _)
            | Dynamic::RangeInclusive(_, _) => false,
        }
    }
}

#[cycle(floats)]
fn hold_float(items: &Seq<Dynamic>) -> bool
    ensures { result ≡ model.hold_float (model.values (map value_of items.now)) }
{
    for item in items.as_slice() {
        if item.holds_float() {
            return true;
        }
    }
    false
}

#[cycle(floats)]
fn have_float(members: &StringMap<Dynamic>) -> bool
    ensures { result ≡ model.fields_hold_float (model.fields (members_of members.now)) }
{
    for (_, member) in members.iter() {
        if member.holds_float() {
            return true;
        }
    }
    false
}
