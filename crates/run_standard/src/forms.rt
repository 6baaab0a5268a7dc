//! What answers are made of.
#![tactic(auto, using(rhai_base::specs::Reading::kinds, crate::proofs::Lists::lists))]

ghost use Rattle.std.specs.Prelude.{◌≡◌, ◌<◌, ◌≤◌, IfOk, length, map, pos};
ghost use Rattle.std.specs.Option.{option_map, IfSome};
ghost use Rattle.rhai_base.specs.Reading.{value_of};
ghost use Rattle.run_host.specs.Host.{answer_meant};
ghost use Rattle.theory_meaning.specs.Elements as model;
ghost use Rattle.run_standard.specs.Forms as spec;

use rhai_base::{Dynamic, INT, ImmutableString, OutOfMemory};
use run_host::HostAnswer;
use std::alloc::Global;

/// A value, and what the function is called on stays.
pub(crate) fn gives(value: Dynamic) -> Option<HostAnswer>
    ensures { option_map answer_meant result ≡ spec.gives (value_of value) }
{
    Some(HostAnswer::Value {
        value,
        receiver: None,
    })
}

/// A value, and the new value of what the function is called on.
pub(crate) fn leaves(value: Dynamic, new: Dynamic) -> Option<HostAnswer>
    ensures { option_map answer_meant result ≡ spec.leaves (value_of value) (value_of new) }
{
    Some(HostAnswer::Value {
        value,
        receiver: Some(new),
    })
}

/// Unit.
pub(crate) fn gives_unit() -> Option<HostAnswer>
    ensures { option_map answer_meant result ≡ spec.gives_unit }
{
    gives(Dynamic::Unit)
}

/// A bool.
pub(crate) fn gives_bool(value: bool) -> Option<HostAnswer>
    ensures { option_map answer_meant result ≡ spec.gives_bool value }
{
    gives(Dynamic::Bool(value))
}

/// An integer.
pub(crate) fn gives_int(value: INT) -> Option<HostAnswer>
    ensures { option_map answer_meant result ≡ spec.gives_int value }
{
    gives(Dynamic::Int(value))
}

/// A range without its end.
pub(crate) fn gives_range(from: INT, to: INT) -> Option<HostAnswer>
    ensures { option_map answer_meant result ≡ spec.gives_range from to }
{
    gives(Dynamic::Range(from, to))
}

/// A text.
pub(crate) fn gives_text(value: ImmutableString) -> Option<HostAnswer>
    ensures { option_map answer_meant result ≡ spec.gives_text value }
{
    gives(Dynamic::Str(value))
}

/// A thrown text.
pub(crate) fn throws(alloc: Global, why: &str) -> Result<Option<HostAnswer>, OutOfMemory>
    ensures { IfOk result (λ a. option_map answer_meant a ≡ spec.throws why.now) }
{
    let why = ImmutableString::new(alloc, why)?;
    Ok(Some(HostAnswer::Throw(Dynamic::Str(why))))
}

/// The integer that an argument is.
pub(crate) fn int_of(value: &Dynamic) -> Option<INT>
    ensures { result ≡ spec.int_of (value_of value.now) }
{
    match value {
        Dynamic::Int(number) => Some(*number),
        Dynamic::Unit
        | Dynamic::Bool(_)
        | Dynamic::Float(_)
        | Dynamic::Char(_)
        | Dynamic::Str(_)
        | Dynamic::Array(_)
        | Dynamic::Map(_)
        | Dynamic::FnPtr(_)
        | Dynamic::Range(_, _)
        | Dynamic::RangeInclusive(_, _) => None,
    }
}

/// How many there are.
pub(crate) fn count(items: &[Dynamic]) -> INT
    ensures { result ≡ pos (length items.now) }
{
    items.len() as INT
}

/// A number of things to keep: none where it is negative.
pub(crate) fn kept(count: INT) -> usize
    ensures { result ≡ spec.kept count }
{
    if count < 0 { 0 } else { count as usize }
}

/// Of so many things the place before which something goes, from the end where the index is negative.
pub(crate) fn place_in(count: usize, index: INT) -> usize
    ensures place { result ≡ spec.place_in count index }
    ensures bound { result ≤ count }
{
    if index < 0 {
        return count.saturating_sub(index.unsigned_abs() as usize);
    }
    let place = index as usize;
    if place < count { place } else { count }
}

/// Of so many things the place of the one at an index, from the end where it is negative.
pub(crate) fn index_in(count: usize, index: INT) -> Option<usize>
    ensures place { result ≡ model.index_in count index }
    ensures bound { IfSome result (λ k. k < count) }
{
    if index < 0 {
        return count.checked_sub(index.unsigned_abs() as usize);
    }
    let place = index as usize;
    if place < count { Some(place) } else { None }
}

/// Does no value hold a float or a pointer?
pub(crate) fn are_comparable(values: &[Dynamic]) -> bool
    ensures { result ≡ spec.are_comparable (map value_of values.now) }
{
    for value in values {
        if !value.is_hashable() {
            return false;
        }
    }
    true
}
