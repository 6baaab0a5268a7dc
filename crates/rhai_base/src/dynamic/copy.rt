//! Copies of values.
ghost use Rattle.std.specs.Prelude.{◌≡◌, IfOk};

use crate::{Dynamic, FnPtr};
use base_lists::Seq;
use base_text::StringMap;
use std::alloc::AllocError;

#[cycle(copy)]
pub(super) fn copy(value: &Dynamic) -> Result<Dynamic, AllocError>
    ensures { IfOk result (λ v. v ≡ value.now) }
{
    match value {
        Dynamic::Unit => Ok(Dynamic::Unit),
        Dynamic::Bool(b) => Ok(Dynamic::Bool(*b)),
        Dynamic::Int(n) => Ok(Dynamic::Int(*n)),
        Dynamic::Float(x) => Ok(Dynamic::Float(*x)),
        Dynamic::Char(c) => Ok(Dynamic::Char(*c)),
        Dynamic::Str(text) => Ok(Dynamic::Str(text.clone()?)),
        Dynamic::Array(items) => Ok(Dynamic::Array(copy_items(items)?)),
        Dynamic::Map(members) => Ok(Dynamic::Map(copy_members(members)?)),
        Dynamic::FnPtr(pointer) => Ok(Dynamic::FnPtr(copy_pointer(pointer)?)),
        Dynamic::Range(from, to) => Ok(Dynamic::Range(*from, *to)),
        Dynamic::RangeInclusive(from, to) => Ok(Dynamic::RangeInclusive(*from, *to)),
    }
}

#[cycle(copy)]
pub(super) fn copy_pointer(pointer: &FnPtr) -> Result<FnPtr, AllocError>
    ensures { IfOk result (λ p. p ≡ pointer.now) }
{
    let name = pointer.name.clone()?;
    let curried = copy_items(&pointer.curried)?;
    Ok(FnPtr { name, curried })
}

#[cycle(copy)]
fn copy_items(items: &Seq<Dynamic>) -> Result<Seq<Dynamic>, AllocError>
    ensures { IfOk result (λ v. v ≡ items.now) }
{
    let mut copies = items.emptied()?;
    for item in items.as_slice() {
        copies.push(copy(item)?)?;
    }
    Ok(copies)
}

#[cycle(copy)]
fn copy_members(members: &StringMap<Dynamic>) -> Result<StringMap<Dynamic>, AllocError>
    ensures { IfOk result (λ m. m ≡ members.now) }
{
    let mut copies = members.emptied()?;
    for (key, member) in members.iter() {
        copies.insert(key.clone()?, copy(member)?)?;
    }
    Ok(copies)
}
