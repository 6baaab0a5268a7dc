//! What stands along keys, and its replacement in its place.

#![tactic(auto, using(rhai_base::specs::Reading::kinds, crate::proofs::AlongKeys::along_keys))]

ghost use Rattle.std.specs.Prelude.{◌≡◌, ◌∷◌, false, map, IfOk, Some, None, if◌then◌else◌};
ghost use Rattle.std.specs.BTreeMap.{is_at};
ghost use Rattle.std.specs.Cmp.Lexicographic.{slice_cmp};
ghost use Rattle.std.specs.Map.{lookup};
ghost use Rattle.std.specs.Option.{option_map};
ghost use Rattle.std.specs.Ordering.{nat_cmp};
ghost use Rattle.rhai_base.specs.Reading.{value_of, members_of};
ghost use Rattle.rhai_base.specs.Value.{UnitV, ArrayV, MapV, fields, values};
ghost use Rattle.theory_meaning.specs.Places as model;
ghost use Rattle.run_places.specs.Reading.{key_meant, part_value};

use crate::elements::{element, index_in};
use crate::members::entry;
use crate::standing::Part;
use rhai_base::{Dynamic, INT, ImmutableString, Seq, StringMap};
use std::alloc::AllocError;

/// A step from a value to a part of it.
#[derive(Drop)]
pub enum PlaceKey {
    /// The element of an array at an index, from the end where it is negative.
    AtIndex(INT),
    /// The entry of a map under a key.
    AtEntry(ImmutableString),
}

/// The part at a key, if the value has such parts; a missing entry is unit.
pub fn inside<'a>(value: &'a Dynamic, key: &PlaceKey) -> Option<Part<'a>>
    ensures { option_map part_value result ≡ model.inside (value_of value.now) (key_meant key.now) }
{
    match key {
        PlaceKey::AtIndex(index) => match value {
            Dynamic::Array(items) => Some(Part::Stored(element(items.as_slice(), *index)?)),
            _ => None,
        },
        PlaceKey::AtEntry(key) => match value {
            Dynamic::Map(members) => Some(entry(members, key)),
            _ => None,
        },
    }
}

impl<'a> Part<'a> {
    /// Its part at a key, if it has such parts.
    pub fn inside(self, key: &PlaceKey) -> Option<Part<'a>>
        ensures { option_map part_value result ≡ model.inside (part_value self.entry) (key_meant key.now) }
    {
        match self {
            Part::Stored(value) => inside(value, key),
            Part::Missing => None,
        }
    }
}

/// The part along keys, if they lead on from part to part.
pub fn along<'a>(value: &'a Dynamic, keys: &[PlaceKey]) -> Option<Part<'a>>
    ensures { option_map part_value result ≡ model.along (value_of value.now) (map key_meant keys.now) }
{
    let Some((key, others)) = keys.split_first() else {
        return Some(Part::Stored(value));
    };
    match inside(value, key)? {
        Part::Stored(part) => along(part, others),
        Part::Missing => along_missing(others),
    }
}

/// The part of a missing entry, which has none but itself.
fn along_missing<'a>(keys: &[PlaceKey]) -> Option<Part<'a>>
    ensures { option_map part_value result ≡ model.along UnitV (map key_meant keys.now) }
{
    match keys.split_first() {
        Some(_) => None,
        None => Some(Part::Missing),
    }
}

/// Puts a value in the place of the part along keys, and adds the last entry where it is missing. It answers whether
/// the keys lead on: where they do not, all stays as it was.
#[cycle(replace)]
pub fn replace_along(
    value: &mut Dynamic,
    keys: &[PlaceKey],
    part: Dynamic,
) -> Result<bool, AllocError>
    ensures ok { IfOk result (λ done.
        model.with_along (value_of value.old) (map key_meant keys.now) (value_of part)
        ≡ (if done then Some (value_of value.new) else None)) }
    ensures kept { IfOk result (λ done. done ≡ false → value.new ≡ value.old) }
{
    let Some((key, others)) = keys.split_first() else {
        *value = part;
        return Ok(true);
    };
    match key {
        PlaceKey::AtIndex(index) => match value {
            Dynamic::Array(items) => replace_element(items, *index, others, part),
            _ => Ok(false),
        },
        PlaceKey::AtEntry(key) => match value {
            Dynamic::Map(members) => replace_entry(members, key, others, part),
            _ => Ok(false),
        },
    }
}

#[cycle(replace)]
fn replace_element(
    items: &mut Seq<Dynamic>,
    index: INT,
    others: &[PlaceKey],
    part: Dynamic,
) -> Result<bool, AllocError>
    ensures ok { IfOk result (λ done.
        model.with_along (ArrayV (values (map value_of items.old))) (model.AtIndex index ∷ map key_meant others.now)
        (value_of part)
        ≡ (if done then Some (ArrayV (values (map value_of items.new))) else None)) }
    ensures kept { IfOk result (λ done. done ≡ false → items.new ≡ items.old) }
{
    let Some(place) = index_in(items.len(), index) else {
        return Ok(false);
    };
    match items.get_mut(place) {
        Some(item) => replace_along(item, others, part),
        None => Ok(false),
    }
}

#[cycle(replace)]
fn replace_entry(
    members: &mut StringMap<Dynamic>,
    key: &ImmutableString,
    others: &[PlaceKey],
    part: Dynamic,
) -> Result<bool, AllocError>
    ensures ok { IfOk result (λ done.
        model.with_along (MapV (fields (members_of members.old))) (model.AtEntry key.now ∷ map key_meant others.now)
        (value_of part)
        ≡ (if done then Some (MapV (fields (members_of members.new))) else None)) }
    ensures kept { IfOk result (λ done. done ≡ false → members.new ≡ members.old) }
{
    match members.get_mut(key) {
        Some(member) => replace_along(member, others, part),
        None => add_entry(members, key, others, part),
    }
}

/// Adds a missing entry, if the keys end there.
fn add_entry(
    members: &mut StringMap<Dynamic>,
    key: &ImmutableString,
    others: &[PlaceKey],
    part: Dynamic,
) -> Result<bool, AllocError>
    ensures ok { IfOk result (λ done.
        lookup (is_at (slice_cmp nat_cmp key.now)) members.old ≡ None
        → model.with_along (MapV (fields (members_of members.old)))
        (model.AtEntry key.now ∷ map key_meant others.now) (value_of part)
        ≡ (if done then Some (MapV (fields (members_of members.new))) else None)) }
    ensures kept { IfOk result (λ done. done ≡ false → members.new ≡ members.old) }
{
    if !others.is_empty() {
        return Ok(false);
    }
    members.insert(key.clone()?, part)?;
    Ok(true)
}
