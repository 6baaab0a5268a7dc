//! What an index comes to, at a value that is read and at one that is written.

#![tactic(auto, using(rhai_base::specs::Reading::kinds, crate::proofs::Indexes::indexes))]

ghost use Rattle.rhai_base.specs.Reading.{value_of};
ghost use Rattle.rhai_base.specs.declared.dynamic.Dynamic.TheVariants as kind;
ghost use Rattle.run_places.specs.Indexing.{IsIndexed, IsIndexTarget};
ghost use Rattle.run_places.specs.Reading.{part_value};

use crate::elements::{bit, character, element};
use crate::places::PlaceKey;
use crate::standing::Part;
use rhai_base::{Dynamic, INT};

/// What a value has at an index.
#[derive(Drop)]
pub enum Indexed {
    /// The part at a key.
    Part(PlaceKey),
    /// A value without a place.
    Value(Dynamic),
    /// The text that is thrown.
    Throws(&'static str),
    /// The host is asked for it; the index.
    AsksHost(Dynamic),
}

/// What a value has at an index: an element, a character or a bit in bounds, an entry; the host is asked for all else.
pub fn index(part: Part, index: Dynamic) -> Indexed
    ensures { IsIndexed (part_value part.entry) (value_of index) result }
{
    match part {
        Part::Stored(value) => index_value(value, index),
        Part::Missing => Indexed::AsksHost(index),
    }
}

fn index_value(value: &Dynamic, index: Dynamic) -> Indexed
    ensures { IsIndexed (value_of value.now) (value_of index) result }
{
    match value {
        Dynamic::Array(items) => index_items(items.as_slice(), index),
        Dynamic::Str(text) => index_text(text.as_str(), index),
        Dynamic::Int(number) => index_bits(*number, index),
        Dynamic::Map(_) => index_members(index),
        _ => Indexed::AsksHost(index),
    }
}

fn index_items(items: &[Dynamic], index: Dynamic) -> Indexed
    ensures { IsIndexed (value_of (kind.Array items.now)) (value_of index) result }
{
    match &index {
        Dynamic::Int(place) => match element(items, *place) {
            Some(_) => Indexed::Part(PlaceKey::AtIndex(*place)),
            None => Indexed::Throws("array bounds"),
        },
        _ => Indexed::AsksHost(index),
    }
}

fn index_text(text: &str, index: Dynamic) -> Indexed
    ensures { IsIndexed (value_of (kind.Str text.now)) (value_of index) result }
{
    match &index {
        Dynamic::Int(place) => match character(text, *place) {
            Some(found) => Indexed::Value(Dynamic::Char(found)),
            None => Indexed::Throws("text bounds"),
        },
        _ => Indexed::AsksHost(index),
    }
}

fn index_bits(number: INT, index: Dynamic) -> Indexed
    ensures { IsIndexed (value_of (kind.Int number)) (value_of index) result }
{
    match &index {
        Dynamic::Int(place) => match bit(number, *place) {
            Some(is_set) => Indexed::Value(Dynamic::Bool(is_set)),
            None => Indexed::Throws("bit bounds"),
        },
        _ => Indexed::AsksHost(index),
    }
}

/// The same for every map.
fn index_members(index: Dynamic) -> Indexed
    ensures { (es : _) → IsIndexed (value_of (kind.Map es)) (value_of index) result }
{
    match index.into_immutable_string() {
        Ok(key) => Indexed::Part(PlaceKey::AtEntry(key)),
        Err(index) => Indexed::AsksHost(index),
    }
}

/// Where a write at an index goes.
#[derive(Drop)]
pub enum IndexTarget {
    /// To the part at a key.
    Part(PlaceKey),
    /// Nowhere: the text is thrown.
    Throws(&'static str),
    /// To the host; the index.
    AsksHost(Dynamic),
}

/// Where a write at an index of a value goes: an element in bounds or an entry; the host is asked for all else.
pub fn index_target(part: Part, index: Dynamic) -> IndexTarget
    ensures { IsIndexTarget (part_value part.entry) (value_of index) result }
{
    match part {
        Part::Stored(value) => value_target(value, index),
        Part::Missing => IndexTarget::AsksHost(index),
    }
}

fn value_target(value: &Dynamic, index: Dynamic) -> IndexTarget
    ensures { IsIndexTarget (value_of value.now) (value_of index) result }
{
    match value {
        Dynamic::Array(items) => element_target(items.as_slice(), index),
        Dynamic::Map(_) => entry_target(index),
        _ => IndexTarget::AsksHost(index),
    }
}

fn element_target(items: &[Dynamic], index: Dynamic) -> IndexTarget
    ensures { IsIndexTarget (value_of (kind.Array items.now)) (value_of index) result }
{
    match &index {
        Dynamic::Int(place) => match element(items, *place) {
            Some(_) => IndexTarget::Part(PlaceKey::AtIndex(*place)),
            None => IndexTarget::Throws("array bounds"),
        },
        _ => IndexTarget::AsksHost(index),
    }
}

/// The same for every map.
fn entry_target(index: Dynamic) -> IndexTarget
    ensures { (es : _) → IsIndexTarget (value_of (kind.Map es)) (value_of index) result }
{
    match index.into_immutable_string() {
        Ok(key) => IndexTarget::Part(PlaceKey::AtEntry(key)),
        Err(index) => IndexTarget::AsksHost(index),
    }
}
