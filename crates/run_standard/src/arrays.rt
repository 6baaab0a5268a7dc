//! What rhai's standard functions answer for an array.
#![tactic(auto, using(rhai_base::specs::Reading::kinds, crate::proofs::Lists::lists))]

ghost use Rattle.std.specs.Prelude.{◌≡◌, ◌<◌, ◌^◌, [], ◌∷◌, ◌++◌, IfOk, length, map, reverse};
ghost use Rattle.std.specs.Option.{option_map, IfSome};
ghost use Rattle.rhai_base.specs.Reading.{value_of};
ghost use Rattle.rhai_base.specs.Value.{UnitV, ArrayV, values};
ghost use Rattle.run_host.specs.Host.{answer_meant};
ghost use Rattle.run_standard.specs.Arrays as spec;
ghost use Rattle.run_standard.specs.Forms as answers;

use crate::forms::{
    are_comparable, count, gives, gives_bool, gives_int, gives_unit, int_of, kept, leaves, place_in,
};
use rhai_base::{Dynamic, INT, OutOfMemory, Seq};
use run_host::HostAnswer;

/// The answer for an array and the arguments after it.
pub(crate) fn on_array(
    name: &str,
    items: &Seq<Dynamic>,
    args: &[Dynamic],
) -> Result<Option<HostAnswer>, OutOfMemory>
    ensures { IfOk result (λ a.
        option_map answer_meant a ≡ spec.on_array name.now (map value_of items.now) (map value_of args.now)) }
{
    match args {
        [] => alone(name, items),
        [value] => with_one(name, items, value),
        [value, other] => with_two(name, items, value, other),
        _ => Ok(None),
    }
}

fn alone(name: &str, items: &Seq<Dynamic>) -> Result<Option<HostAnswer>, OutOfMemory>
    ensures { IfOk result (λ a. option_map answer_meant a ≡ spec.alone name.now (map value_of items.now)) }
{
    match name {
        "len" | "get$len" => Ok(gives_int(count(items.as_slice()))),
        "is_empty" | "get$is_empty" => Ok(gives_bool(items.len() == 0)),
        "pop" => taken(items, -1),
        "shift" => taken(items, 0),
        "clear" => Ok(leaves_items(Dynamic::Unit, items.emptied()?.into_vec())),
        "reverse" => reversed(items),
        _ => Ok(None),
    }
}

fn with_one(
    name: &str,
    items: &Seq<Dynamic>,
    value: &Dynamic,
) -> Result<Option<HostAnswer>, OutOfMemory>
    ensures { IfOk result (λ a.
        option_map answer_meant a ≡ spec.with_one name.now (map value_of items.now) (value_of value.now)) }
{
    match name {
        "push" => pushed(items, value),
        "append" => appended(items, value),
        "+" | "+=" => with_behind(items, value),
        "remove" => removed(items, int_of(value)),
        "truncate" => truncated(items, int_of(value)),
        "contains" => Ok(contains(items, value)),
        "index_of" => Ok(index_of(items, value)),
        _ => Ok(None),
    }
}

fn with_two(
    name: &str,
    items: &Seq<Dynamic>,
    value: &Dynamic,
    other: &Dynamic,
) -> Result<Option<HostAnswer>, OutOfMemory>
    ensures { IfOk result (λ a. option_map answer_meant a
        ≡ spec.with_two name.now (map value_of items.now) (value_of value.now) (value_of other.now)) }
{
    match name {
        "insert" => inserted(items, int_of(value), other),
        _ => Ok(None),
    }
}

/// A value, and the array has these items from now on.
fn leaves_items(value: Dynamic, items: Vec<Dynamic>) -> Option<HostAnswer>
    ensures { option_map answer_meant result ≡ spec.leaves_items (value_of value) (map value_of items.items) }
{
    leaves(value, Dynamic::Array(Seq::from_vec(items)))
}

/// The same items once more.
fn copied(items: &Seq<Dynamic>) -> Result<Vec<Dynamic>, OutOfMemory>
    ensures { IfOk result (λ v. v.items ≡ items.now) }
{
    let mut copies = items.emptied()?;
    for item in items.as_slice() {
        copies.push(item.clone()?)?;
    }
    Ok(copies.into_vec())
}

/// The item at an index is taken away and answered: unit past the end, and the first one before the start.
fn taken(items: &Seq<Dynamic>, index: INT) -> Result<Option<HostAnswer>, OutOfMemory>
    ensures { IfOk result (λ a. option_map answer_meant a ≡ spec.taken (map value_of items.now) index) }
{
    let place = place_in(items.len(), index);
    if place < items.len() {
        taken_at(items, place)
    } else {
        Ok(gives_unit())
    }
}

fn taken_at(items: &Seq<Dynamic>, place: usize) -> Result<Option<HostAnswer>, OutOfMemory>
    requires { place < length items.now }
    ensures { IfOk result (λ a. option_map answer_meant a ≡ spec.taken_at (map value_of items.now) place) }
{
    let mut left = copied(items)?;
    let item = left.remove(place);
    Ok(leaves_items(item, left))
}

fn reversed(items: &Seq<Dynamic>) -> Result<Option<HostAnswer>, OutOfMemory>
    ensures { IfOk result (λ a.
        option_map answer_meant a ≡ spec.leaves_items UnitV (reverse (map value_of items.now))) }
{
    let left = backwards(items)?;
    Ok(leaves_items(Dynamic::Unit, left))
}

/// The same items, the last one first.
fn backwards(items: &Seq<Dynamic>) -> Result<Vec<Dynamic>, OutOfMemory>
    ensures { IfOk result (λ v. v.items ≡ reverse items.now) }
{
    let mut copies = copied(items)?;
    copies.as_mut_slice().reverse();
    Ok(copies)
}

/// An item behind the others.
fn pushed(items: &Seq<Dynamic>, item: &Dynamic) -> Result<Option<HostAnswer>, OutOfMemory>
    ensures { IfOk result (λ a. option_map answer_meant a
        ≡ spec.leaves_items UnitV (map value_of items.now ++ value_of item.now ∷ [])) }
{
    let mut left = copied(items)?;
    left.push(item.clone()?)?;
    Ok(leaves_items(Dynamic::Unit, left))
}

/// The items of another array behind those of this one.
fn appended(items: &Seq<Dynamic>, value: &Dynamic) -> Result<Option<HostAnswer>, OutOfMemory>
    ensures { IfOk result (λ a.
        option_map answer_meant a ≡ spec.appended (map value_of items.now) (value_of value.now)) }
{
    match value {
        Dynamic::Array(more) => Ok(leaves_items(Dynamic::Unit, both(items, more)?)),
        Dynamic::Unit
        | Dynamic::Bool(_)
        | Dynamic::Int(_)
        | Dynamic::Float(_)
        | Dynamic::Char(_)
        | Dynamic::Str(_)
        | Dynamic::Map(_)
        | Dynamic::FnPtr(_)
        | Dynamic::Range(_, _)
        | Dynamic::RangeInclusive(_, _) => Ok(None),
    }
}

/// The items of an array behind those of another.
fn both(items: &Seq<Dynamic>, more: &Seq<Dynamic>) -> Result<Vec<Dynamic>, OutOfMemory>
    ensures { IfOk result (λ v. v.items ≡ items.now ++ more.now) }
{
    let mut all = copied(items)?;
    let mut more = copied(more)?;
    all.append(&mut more)?;
    Ok(all)
}

/// The array with the items of another behind, or with a value that is none.
fn with_behind(items: &Seq<Dynamic>, value: &Dynamic) -> Result<Option<HostAnswer>, OutOfMemory>
    ensures { IfOk result (λ a. option_map answer_meant a
        ≡ answers.gives (ArrayV (values (map value_of items.now ++ spec.behind (value_of value.now))))) }
{
    let all = behind(items, value)?;
    Ok(gives(Dynamic::Array(Seq::from_vec(all))))
}

fn behind(items: &Seq<Dynamic>, value: &Dynamic) -> Result<Vec<Dynamic>, OutOfMemory>
    ensures { IfOk result (λ v.
        map value_of v.items ≡ map value_of items.now ++ spec.behind (value_of value.now)) }
{
    match value {
        Dynamic::Array(more) => both(items, more),
        Dynamic::Unit
        | Dynamic::Bool(_)
        | Dynamic::Int(_)
        | Dynamic::Float(_)
        | Dynamic::Char(_)
        | Dynamic::Str(_)
        | Dynamic::Map(_)
        | Dynamic::FnPtr(_)
        | Dynamic::Range(_, _)
        | Dynamic::RangeInclusive(_, _) => with_item(items, value),
    }
}

fn with_item(items: &Seq<Dynamic>, item: &Dynamic) -> Result<Vec<Dynamic>, OutOfMemory>
    ensures { IfOk result (λ v. v.items ≡ items.now ++ item.now ∷ []) }
{
    let mut all = copied(items)?;
    all.push(item.clone()?)?;
    Ok(all)
}

fn removed(items: &Seq<Dynamic>, index: Option<INT>) -> Result<Option<HostAnswer>, OutOfMemory>
    ensures { IfOk result (λ a. option_map answer_meant a ≡ spec.removed (map value_of items.now) index) }
{
    match index {
        Some(index) => taken(items, index),
        None => Ok(None),
    }
}

fn truncated(items: &Seq<Dynamic>, count: Option<INT>) -> Result<Option<HostAnswer>, OutOfMemory>
    ensures { IfOk result (λ a. option_map answer_meant a ≡ spec.truncated (map value_of items.now) count) }
{
    let Some(count) = count else {
        return Ok(None);
    };
    let mut left = copied(items)?;
    left.truncate(kept(count));
    Ok(leaves_items(Dynamic::Unit, left))
}

/// The place of the first item that is equal.
fn place_of(items: &[Dynamic], value: &Dynamic) -> Option<usize>
    ensures place { result ≡ spec.place_of 0 (map value_of items.now) (value_of value.now) }
    ensures bound { IfSome result (λ i. i < 2 ^ 63) }
{
    for (i, item) in items.iter().enumerate() {
        if item.is_equal(value) {
            return Some(i);
        }
    }
    None
}

fn comparable_with(items: &Seq<Dynamic>, value: &Dynamic) -> bool
    ensures { result ≡ spec.comparable_with (map value_of items.now) (value_of value.now) }
{
    value.is_hashable() && are_comparable(items.as_slice())
}

fn contains(items: &Seq<Dynamic>, value: &Dynamic) -> Option<HostAnswer>
    ensures { option_map answer_meant result ≡ spec.contains (map value_of items.now) (value_of value.now) }
{
    if comparable_with(items, value) {
        gives_bool(place_of(items.as_slice(), value).is_some())
    } else {
        None
    }
}

fn index_of(items: &Seq<Dynamic>, value: &Dynamic) -> Option<HostAnswer>
    ensures { option_map answer_meant result ≡ spec.index_of (map value_of items.now) (value_of value.now) }
{
    if comparable_with(items, value) {
        gives_int(index_at(place_of(items.as_slice(), value)))
    } else {
        None
    }
}

/// -1 for none.
pub(crate) fn index_at(place: Option<usize>) -> INT
    requires { IfSome place (λ i. i < 2 ^ 63) }
    ensures { result ≡ spec.index_at place }
{
    match place {
        Some(place) => place as INT,
        None => -1,
    }
}

/// An item goes before the one at an index, or to the start or the end.
fn inserted(
    items: &Seq<Dynamic>,
    index: Option<INT>,
    item: &Dynamic,
) -> Result<Option<HostAnswer>, OutOfMemory>
    ensures { IfOk result (λ a.
        option_map answer_meant a ≡ spec.inserted (map value_of items.now) index (value_of item.now)) }
{
    let Some(index) = index else {
        return Ok(None);
    };
    let mut left = copied(items)?;
    let place = place_in(left.len(), index);
    left.insert(place, item.clone()?)?;
    Ok(leaves_items(Dynamic::Unit, left))
}
