//! Values whose pointers have the new names.
#![tactic(auto, using(rhai_base::specs::Reading::kinds))]

ghost use Rattle.std.specs.Prelude.{◌≡◌, ◌++◌, IfOk, map, true};
ghost use Rattle.std.specs.BTreeMap.{insert_entry};
ghost use Rattle.std.specs.Cmp.Lexicographic.{slice_cmp};
ghost use Rattle.std.specs.Ordering.{nat_cmp};
ghost use Rattle.base_tokens.specs.Names.{is_valid_name};
ghost use Rattle.rhai_base.specs.Reading.{members_of, value_of};
ghost use Rattle.rhai_base.specs.Value.{fields, values};
ghost use Rattle.theory_naming.specs.Renaming as new;
ghost use Rattle.script_names.specs.Names.{stands};

use crate::Names;
use crate::steps::{both, pushed};
use rhai_base::{Dynamic, FnPtr, ImmutableString, OutOfMemory, Seq, StringMap};
use std::alloc::Global;

/// A copy of a value in which each pointer, at any depth, has the new name.
#[cycle(values)]
pub fn renamed_value(alloc: Global, names: &Names, value: &Dynamic) -> Result<Dynamic, OutOfMemory>
    ensures { IfOk result (λ v. value_of v ≡ new.renamed_value (stands names.now) (value_of value.now)) }
{
    match value {
        Dynamic::Unit => Ok(Dynamic::Unit),
        Dynamic::Bool(b) => Ok(Dynamic::Bool(*b)),
        Dynamic::Int(n) => Ok(Dynamic::Int(*n)),
        Dynamic::Float(x) => Ok(Dynamic::Float(*x)),
        Dynamic::Char(c) => Ok(Dynamic::Char(*c)),
        Dynamic::Str(text) => Ok(Dynamic::Str(text.clone()?)),
        Dynamic::Array(items) => {
            let items = renamed_items(alloc, names, items.as_slice())?;
            Ok(Dynamic::Array(items))
        }
        Dynamic::Map(members) => Ok(Dynamic::Map(renamed_members(alloc, names, members)?)),
        Dynamic::FnPtr(pointer) => Ok(Dynamic::FnPtr(renamed_pointer(alloc, names, pointer)?)),
        Dynamic::Range(from, to) => Ok(Dynamic::Range(*from, *to)),
        Dynamic::RangeInclusive(from, to) => Ok(Dynamic::RangeInclusive(*from, *to)),
    }
}

#[cycle(values)]
fn renamed_items(
    alloc: Global,
    names: &Names,
    items: &[Dynamic],
) -> Result<Seq<Dynamic>, OutOfMemory>
    ensures { IfOk result (λ vs.
        values (map value_of vs) ≡ new.renamed_values (stands names.now) (values (map value_of items.now))) }
{
    let mut copies = Seq::with_capacity(alloc, items.len())?;
    for item in items {
        let (made, copy) = both(copies, renamed_value(alloc, names, item))?;
        copies = pushed(made, copy)?;
    }
    Ok(copies)
}

#[cycle(values)]
fn renamed_members(
    alloc: Global,
    names: &Names,
    members: &StringMap<Dynamic>,
) -> Result<StringMap<Dynamic>, OutOfMemory>
    ensures { IfOk result (λ ms.
        fields (members_of ms) ≡ new.renamed_fields (stands names.now) (fields (members_of members.now))) }
{
    let mut copies = StringMap::new(alloc);
    for (key, member) in members.iter() {
        let (made, copy) = both(copies, renamed_value(alloc, names, member))?;
        copies = with_member(made, key, copy)?;
    }
    Ok(copies)
}

#[cycle(values)]
fn renamed_pointer(alloc: Global, names: &Names, pointer: &FnPtr) -> Result<FnPtr, OutOfMemory>
    ensures name { IfOk result (λ p. p.name ≡ stands names.now pointer.now.name) }
    ensures curried { IfOk result (λ p.
        values (map value_of p.curried)
        ≡ new.renamed_values (stands names.now) (values (map value_of pointer.now.curried))) }
{
    let values = renamed_items(alloc, names, pointer.curry())?;
    let (values, name) = both(values, new_name(alloc, names, pointer))?;
    match FnPtr::new(alloc, name) {
        Some(made) => with_values(made, values),
        None => Ok(pointer.clone()?),
    }
}

/// The new name of a pointer.
fn new_name(alloc: Global, names: &Names, pointer: &FnPtr) -> Result<ImmutableString, OutOfMemory>
    ensures name { IfOk result (λ name. name ≡ stands names.now pointer.now.name) }
    ensures valid { IfOk result (λ name. is_valid_name name ≡ true) }
{
    let name = ImmutableString::new(alloc, pointer.fn_name())?;
    names.name_for(alloc, &name)
}

/// A pointer with these values behind its own.
fn with_values(mut pointer: FnPtr, values: Seq<Dynamic>) -> Result<FnPtr, OutOfMemory>
    ensures name { IfOk result (λ p. p.name ≡ pointer.name) }
    ensures curried { IfOk result (λ p. p.curried ≡ pointer.curried ++ values) }
{
    for value in values.into_vec() {
        pointer.add_curry(value)?;
    }
    Ok(pointer)
}

/// A map with one more member.
fn with_member(
    mut members: StringMap<Dynamic>,
    key: &ImmutableString,
    member: Dynamic,
) -> Result<StringMap<Dynamic>, OutOfMemory>
    ensures { IfOk result (λ ms. ms ≡ insert_entry (slice_cmp nat_cmp) members key.now member) }
{
    members.insert(key.clone()?, member)?;
    Ok(members)
}
