//! Values in print: texts and letters as literals, and of pointers the names and values. A refused call can leave a part
//! of what it appends.
#![tactic(auto, using(rhai_base::specs::Reading::kinds, crate::proofs::Printing::steps), unfolding(crate::specs::Literals::literal))]

ghost use Rattle.std.specs.Prelude.{◌≡◌, ◌++◌, [], OnOk, codes, map, string_bytes};
ghost use Rattle.std.specs.Fmt.{signed_decimal};
ghost use Rattle.rhai_base.specs.Reading.{members_of, value_of};
ghost use Rattle.rhai_base.specs.Value.{ArrayV, MapV, PointerV, fields, values};
ghost use Rattle.tool_report.specs.Literals.{escape, literal, literals, member_text, members, quoted};

use crate::letters::{push_escaped, push_letter};
use rhai_base::{Dynamic, FnPtr, INT, ImmutableString, StringMap};
use std::alloc::AllocError;
use std::fmt::Write;

/// Appends a value. A refused call can leave a part of it.
#[cycle(literal)]
pub fn push_literal(value: &Dynamic, to: &mut String) -> Result<(), AllocError>
    ensures { OnOk result (string_bytes to.new ≡ string_bytes to.old ++ literal (value_of value.now)) }
{
    match value {
        Dynamic::Unit => to.push_str("()"),
        Dynamic::Bool(true) => to.push_str("true"),
        Dynamic::Bool(false) => to.push_str("false"),
        Dynamic::Int(number) => write!(to, "{number}"),
        Dynamic::Float(float) => write!(to, "{float}"),
        Dynamic::Char(letter) => push_char(*letter, to),
        Dynamic::Str(text) => push_quoted(text.as_str(), to),
        Dynamic::Array(items) => push_array(items.as_slice(), to),
        Dynamic::Map(members) => push_map(members, to),
        Dynamic::FnPtr(pointer) => push_pointer(pointer, to),
        Dynamic::Range(from, before) => push_range(*from, "..", *before, to),
        Dynamic::RangeInclusive(from, last) => push_range(*from, "..=", *last, to),
    }
}

fn push_range(from: INT, sign: &str, last: INT, to: &mut String) -> Result<(), AllocError>
    ensures { OnOk result
        (string_bytes to.new
        ≡ string_bytes to.old ++ (signed_decimal from ++ sign.now ++ signed_decimal last)) }
{
    write!(to, "{from}")?;
    to.push_str(sign)?;
    write!(to, "{last}")
}

fn push_char(letter: char, to: &mut String) -> Result<(), AllocError>
    ensures { OnOk result (string_bytes to.new ≡ string_bytes to.old ++ (codes "'" ++ escape letter ++ codes "'")) }
{
    to.push_str("'")?;
    push_letter(letter, to)?;
    to.push_str("'")
}

/// Appends a text in quotes.
fn push_quoted(text: &str, to: &mut String) -> Result<(), AllocError>
    ensures { OnOk result (string_bytes to.new ≡ string_bytes to.old ++ quoted text.now) }
{
    to.push_str("\"")?;
    push_escaped(text, to)?;
    to.push_str("\"")
}

#[cycle(literal)]
fn push_array(items: &[Dynamic], to: &mut String) -> Result<(), AllocError>
    ensures { OnOk result
        (string_bytes to.new ≡ string_bytes to.old ++ literal (ArrayV (values (map value_of items.now)))) }
{
    to.push_str("[")?;
    push_values("", items, to)?;
    to.push_str("]")
}

/// Appends a pointer: the function's name and the values of its first parameters.
#[cycle(literal)]
fn push_pointer(pointer: &FnPtr, to: &mut String) -> Result<(), AllocError>
    ensures { OnOk result
        (string_bytes to.new
        ≡ string_bytes to.old ++ literal (PointerV pointer.now.name (values (map value_of pointer.now.curried)))) }
{
    to.push_str("Fn(")?;
    push_quoted(pointer.fn_name(), to)?;
    push_values(", ", pointer.curry(), to)?;
    to.push_str(")")
}

/// Appends values with commas between them, and this before the first.
#[cycle(literal)]
fn push_values(before: &str, items: &[Dynamic], to: &mut String) -> Result<(), AllocError>
    ensures { OnOk result
        (string_bytes to.new ≡ string_bytes to.old ++ literals before.now (values (map value_of items.now))) }
{
    let mut separator = before;
    for value in items {
        to.push_str(separator)?;
        push_literal(value, to)?;
        separator = ", ";
    }
    Ok(())
}

#[cycle(literal)]
fn push_map(members: &StringMap<Dynamic>, to: &mut String) -> Result<(), AllocError>
    ensures { OnOk result
        (string_bytes to.new ≡ string_bytes to.old ++ literal (MapV (fields (members_of members.now)))) }
{
    to.push_str("#{")?;
    push_members(members, to)?;
    to.push_str("}")
}

/// Appends members with commas between them.
#[cycle(literal)]
fn push_members(pairs: &StringMap<Dynamic>, to: &mut String) -> Result<(), AllocError>
    ensures { OnOk result
        (string_bytes to.new ≡ string_bytes to.old ++ members [] (fields (members_of pairs.now))) }
{
    let mut separator = "";
    for (key, member) in pairs.iter() {
        push_member(separator, key, member, to)?;
        separator = ", ";
    }
    Ok(())
}

#[cycle(literal)]
fn push_member(
    separator: &str,
    key: &ImmutableString,
    member: &Dynamic,
    to: &mut String,
) -> Result<(), AllocError>
    ensures { OnOk result
        (string_bytes to.new ≡ string_bytes to.old ++ member_text separator.now key.now (value_of member.now)) }
{
    to.push_str(separator)?;
    push_quoted(key.as_str(), to)?;
    to.push_str(": ")?;
    push_literal(member, to)
}
