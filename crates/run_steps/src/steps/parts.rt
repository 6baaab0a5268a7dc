//! The steps of a chain whose arguments are evaluated, and what they find.

use rhai_base::{Dynamic, ImmutableString, Seq};
use run_places::PlaceKey;

/// A step whose argument is evaluated.
#[derive(Drop)]
pub enum Access<'a> {
    /// A property.
    Property(PropertyNames<'a>),
    /// An index.
    Index(Dynamic),
    /// A method and its arguments.
    Method(&'a ImmutableString, Seq<Dynamic>),
}

/// A property, by its name and those of the host's functions for other values than maps.
#[derive(Clone, Copy)]
pub struct PropertyNames<'a> {
    /// The host's function that reads it.
    pub getter: &'a ImmutableString,
    /// The host's function that writes it.
    pub setter: &'a ImmutableString,
    /// Its name in a map.
    pub name: &'a ImmutableString,
}

/// What a step has found: where it leads, or a value without a place.
#[derive(Drop)]
pub enum Found {
    /// The part at a key.
    Part(PlaceKey),
    /// A value of its own.
    Value(Dynamic),
}
