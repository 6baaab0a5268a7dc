//! What rhai's standard functions answer for a map.
#![tactic(auto, using(rhai_base::specs::Reading::kinds, crate::proofs::Lists::lists, crate::proofs::Entries::entries))]

ghost use Rattle.std.specs.Prelude.{pos, ◌≡◌, ◌==◌, IfOk, OnOk, length, map, if◌then◌else◌};
ghost use Rattle.std.specs.Ordering.{nat_cmp};
ghost use Rattle.std.specs.BTreeMap.{insert_entry};
ghost use Rattle.std.specs.Cmp.Lexicographic.{slice_cmp};
ghost use Rattle.std.specs.Option.{option_map};
ghost use Rattle.rhai_base.specs.Reading.{value_of, members_of};
ghost use Rattle.rhai_base.specs.Value.{fields, same_text};
ghost use Rattle.theory_meaning.specs.Elements as model;
ghost use Rattle.run_host.specs.Host.{answer_meant};
ghost use Rattle.run_standard.specs.Maps as spec;

use crate::forms::{count, gives, gives_bool, gives_int, leaves};
use rhai_base::{Dynamic, INT, ImmutableString, OutOfMemory, Seq, StringMap};
use run_host::HostAnswer;
use std::alloc::Global;

/// The answer for a map and the arguments after it.
pub(crate) fn on_map(
    alloc: Global,
    name: &str,
    members: &StringMap<Dynamic>,
    args: &[Dynamic],
) -> Result<Option<HostAnswer>, OutOfMemory>
    ensures { IfOk result (λ a. option_map answer_meant a
        ≡ spec.on_map name.now (fields (members_of members.now)) (map value_of args.now)) }
{
    match args {
        [] => alone(alloc, name, members),
        [value] => with_one(name, members, value),
        [value, other] => with_two(name, members, value, other),
        _ => Ok(None),
    }
}

fn alone(
    alloc: Global,
    name: &str,
    members: &StringMap<Dynamic>,
) -> Result<Option<HostAnswer>, OutOfMemory>
    ensures { IfOk result (λ a.
        option_map answer_meant a ≡ spec.alone name.now (fields (members_of members.now))) }
{
    match name {
        "len" => Ok(gives_int(entries(alloc, members)?)),
        "is_empty" => Ok(gives_bool(is_empty(members))),
        "keys" => Ok(gives(Dynamic::Array(keys(alloc, members)?))),
        "values" => Ok(gives(Dynamic::Array(values(alloc, members)?))),
        "clear" => Ok(leaves(Dynamic::Unit, Dynamic::Map(members.emptied()?))),
        _ => Ok(None),
    }
}

/// How many entries there are.
fn entries(alloc: Global, members: &StringMap<Dynamic>) -> Result<INT, OutOfMemory>
    ensures { IfOk result (λ n. n ≡ pos (length (spec.keys_in (fields (members_of members.now))))) }
{
    let keys = keys(alloc, members)?;
    Ok(count(keys.as_slice()))
}

fn is_empty(members: &StringMap<Dynamic>) -> bool
    ensures { result ≡ (length (spec.keys_in (fields (members_of members.now))) == 0) }
{
    members.len() == 0
}

/// In their order.
fn keys(alloc: Global, members: &StringMap<Dynamic>) -> Result<Seq<Dynamic>, OutOfMemory>
    ensures { IfOk result (λ ks. map value_of ks ≡ spec.keys_in (fields (members_of members.now))) }
{
    let mut keys = Seq::new(alloc);
    for (key, _) in members.iter() {
        keys.push(Dynamic::Str(key.clone()?))?;
    }
    Ok(keys)
}

/// In the order of their keys.
fn values(alloc: Global, members: &StringMap<Dynamic>) -> Result<Seq<Dynamic>, OutOfMemory>
    ensures { IfOk result (λ vs. map value_of vs ≡ spec.values_in (fields (members_of members.now))) }
{
    let mut values = Seq::new(alloc);
    for (_, value) in members.iter() {
        values.push(value.clone()?)?;
    }
    Ok(values)
}

fn with_one(
    name: &str,
    members: &StringMap<Dynamic>,
    value: &Dynamic,
) -> Result<Option<HostAnswer>, OutOfMemory>
    ensures { IfOk result (λ a. option_map answer_meant a
        ≡ spec.with_one name.now (fields (members_of members.now)) (value_of value.now)) }
{
    match value {
        Dynamic::Str(key) => with_key(name, members, key),
        Dynamic::Map(others) => with_map(name, members, others),
        Dynamic::Unit
        | Dynamic::Bool(_)
        | Dynamic::Int(_)
        | Dynamic::Float(_)
        | Dynamic::Char(_)
        | Dynamic::Array(_)
        | Dynamic::FnPtr(_)
        | Dynamic::Range(_, _)
        | Dynamic::RangeInclusive(_, _) => Ok(None),
    }
}

fn with_key(
    name: &str,
    members: &StringMap<Dynamic>,
    key: &ImmutableString,
) -> Result<Option<HostAnswer>, OutOfMemory>
    ensures { IfOk result (λ a. option_map answer_meant a
        ≡ spec.with_key name.now (fields (members_of members.now)) key.now) }
{
    match name {
        "contains" => Ok(gives_bool(members.get(key).is_some())),
        "get" => Ok(gives(entry(members, key)?)),
        "remove" => removed(members, key),
        _ => Ok(None),
    }
}

/// The value under a key; unit where it is missing.
fn entry(members: &StringMap<Dynamic>, key: &ImmutableString) -> Result<Dynamic, OutOfMemory>
    ensures { IfOk result (λ v. value_of v ≡ model.entry (fields (members_of members.now)) key.now) }
{
    match members.get(key) {
        Some(value) => Ok(value.clone()?),
        None => Ok(Dynamic::Unit),
    }
}

/// The entry is taken away and its value answered; unit where there is none.
fn removed(
    members: &StringMap<Dynamic>,
    key: &ImmutableString,
) -> Result<Option<HostAnswer>, OutOfMemory>
    ensures { IfOk result (λ a. option_map answer_meant a
        ≡ spec.leaves_entries (model.entry (fields (members_of members.now)) key.now)
        (spec.without_entry (fields (members_of members.now)) key.now)) }
{
    let value = entry(members, key)?;
    let left = without(members, key)?;
    Ok(leaves(value, Dynamic::Map(left)))
}

fn without(
    members: &StringMap<Dynamic>,
    key: &ImmutableString,
) -> Result<StringMap<Dynamic>, OutOfMemory>
    ensures { IfOk result (λ m.
        fields (members_of m) ≡ spec.without_entry (fields (members_of members.now)) key.now) }
{
    let mut left = members.emptied()?;
    for (other, value) in members.iter() {
        put_other(key, other, value, &mut left)?;
    }
    Ok(left)
}

/// Adds an entry of another key.
fn put_other(
    key: &ImmutableString,
    other: &ImmutableString,
    value: &Dynamic,
    left: &mut StringMap<Dynamic>,
) -> Result<(), OutOfMemory>
    ensures { OnOk result (left.new
        ≡ (if same_text other.now key.now then left.old else insert_entry (slice_cmp nat_cmp) left.old other.now value.now)) }
{
    if other.as_str() == key.as_str() {
        return Ok(());
    }
    left.insert(other.clone()?, value.clone()?)?;
    Ok(())
}

fn with_map(
    name: &str,
    members: &StringMap<Dynamic>,
    others: &StringMap<Dynamic>,
) -> Result<Option<HostAnswer>, OutOfMemory>
    ensures { IfOk result (λ a. option_map answer_meant a
        ≡ spec.with_map name.now (fields (members_of members.now)) (fields (members_of others.now))) }
{
    match name {
        "mixin" => Ok(leaves(Dynamic::Unit, Dynamic::Map(merged(members, others)?))),
        "+" | "+=" => Ok(gives(Dynamic::Map(merged(members, others)?))),
        _ => Ok(None),
    }
}

/// The entries of the second go over those of the first.
fn merged(
    members: &StringMap<Dynamic>,
    others: &StringMap<Dynamic>,
) -> Result<StringMap<Dynamic>, OutOfMemory>
    ensures { IfOk result (λ m. fields (members_of m)
        ≡ spec.merged (fields (members_of members.now)) (fields (members_of others.now))) }
{
    let mut all = copied(members)?;
    for (key, value) in others.iter() {
        all.insert(key.clone()?, value.clone()?)?;
    }
    Ok(all)
}

/// The same entries once more.
fn copied(members: &StringMap<Dynamic>) -> Result<StringMap<Dynamic>, OutOfMemory>
    ensures { IfOk result (λ m. m ≡ members.now) }
{
    let mut copies = members.emptied()?;
    for (key, value) in members.iter() {
        copies.insert(key.clone()?, value.clone()?)?;
    }
    Ok(copies)
}

fn with_two(
    name: &str,
    members: &StringMap<Dynamic>,
    value: &Dynamic,
    other: &Dynamic,
) -> Result<Option<HostAnswer>, OutOfMemory>
    ensures { IfOk result (λ a. option_map answer_meant a
        ≡ spec.with_two name.now (fields (members_of members.now)) (value_of value.now) (value_of other.now)) }
{
    match value {
        Dynamic::Str(key) => with_entry(name, members, key, other),
        Dynamic::Unit
        | Dynamic::Bool(_)
        | Dynamic::Int(_)
        | Dynamic::Float(_)
        | Dynamic::Char(_)
        | Dynamic::Array(_)
        | Dynamic::Map(_)
        | Dynamic::FnPtr(_)
        | Dynamic::Range(_, _)
        | Dynamic::RangeInclusive(_, _) => Ok(None),
    }
}

fn with_entry(
    name: &str,
    members: &StringMap<Dynamic>,
    key: &ImmutableString,
    value: &Dynamic,
) -> Result<Option<HostAnswer>, OutOfMemory>
    ensures { IfOk result (λ a. option_map answer_meant a
        ≡ spec.with_text name.now (fields (members_of members.now)) key.now (value_of value.now)) }
{
    match name {
        "set" => Ok(leaves(Dynamic::Unit, Dynamic::Map(put(members, key, value)?))),
        _ => Ok(None),
    }
}

fn put(
    members: &StringMap<Dynamic>,
    key: &ImmutableString,
    value: &Dynamic,
) -> Result<StringMap<Dynamic>, OutOfMemory>
    ensures { IfOk result (λ m. fields (members_of m)
        ≡ model.with_entry (fields (members_of members.now)) key.now (value_of value.now)) }
{
    let mut all = copied(members)?;
    all.insert(key.clone()?, value.clone()?)?;
    Ok(all)
}
