//! Values as text.
#![tactic(auto, using(crate::specs::Reading::kinds), unfolding(crate::specs::Value::form, crate::specs::Value::text_of))]

ghost use Rattle.std.specs.Prelude.{◌≡◌, map, true, Some};
ghost use Rattle.std.specs.Fmt.{WritesOnOk};
ghost use Rattle.rhai_base.specs.Value.{form, text_of, written, values, fields, ArrayV, MapV, PointerV};
ghost use Rattle.rhai_base.specs.Value as model;
ghost use Rattle.rhai_base.specs.Reading.{value_of, members_of};

use crate::{Dynamic, FnPtr};
use base_lists::Seq;
use base_text::StringMap;
use std::fmt;

/// The value without quotes, and nothing for unit.
impl fmt::Display for Dynamic {
    ghost output = { λ v. Some (text_of (value_of v)) };

    fn fmt<W: fmt::Write>(&self, f: &mut fmt::Formatter<W>) -> fmt::Result {
        match self {
            Dynamic::Unit => Ok(()),
            Dynamic::Char(c) => f.write_char(*c),
            Dynamic::Str(text) => f.write_str(text.as_str()),
            Dynamic::Bool(_) => write_form(self, false, f),
            Dynamic::Int(_) => write_form(self, false, f),
            Dynamic::Float(_) => write_form(self, false, f),
            Dynamic::Array(_) => write_form(self, false, f),
            Dynamic::Map(_) => write_form(self, false, f),
            Dynamic::FnPtr(_) => write_form(self, false, f),
            Dynamic::Range(_, _) => write_form(self, false, f),
            Dynamic::RangeInclusive(_, _) => write_form(self, false, f),
        }
    }
}

/// The value as it is written inside an array, texts and characters in quotes with nothing escaped; and of pointers
/// the names and values.
impl fmt::Debug for Dynamic {
    ghost debug_output = { λ v. Some (written (value_of v)) };

    fn fmt<W: fmt::Write>(&self, f: &mut fmt::Formatter<W>) -> fmt::Result {
        write_form(self, true, f)
    }
}

#[cycle(form)]
fn write_form<W: fmt::Write>(value: &Dynamic, full: bool, f: &mut fmt::Formatter<W>) -> fmt::Result
    ensures { WritesOnOk W.write_str_gives f.old result (form full (value_of value.now)) f.new }
{
    match value {
        Dynamic::Unit => f.write_str("()"),
        Dynamic::Bool(true) => f.write_str("true"),
        Dynamic::Bool(false) => f.write_str("false"),
        Dynamic::Int(n) => write!(f, "{n}"),
        Dynamic::Float(x) => write!(f, "{x}"),
        Dynamic::Char(c) => write!(f, "'{c}'"),
        Dynamic::Str(text) => write!(f, "\"{}\"", text.as_str()),
        Dynamic::Array(items) => write_items(items, full, f),
        Dynamic::Map(members) => write_members(members, full, f),
        Dynamic::FnPtr(pointer) if full => write_pointer(pointer, f),
        Dynamic::FnPtr(pointer) => write!(f, "Fn({})", shown(pointer.fn_name())),
        Dynamic::Range(from, to) => write!(f, "{from}..{to}"),
        Dynamic::RangeInclusive(from, to) => write!(f, "{from}..={to}"),
    }
}

#[cycle(form)]
fn write_items<W: fmt::Write>(
    items: &Seq<Dynamic>,
    full: bool,
    f: &mut fmt::Formatter<W>,
) -> fmt::Result
    ensures { WritesOnOk W.write_str_gives f.old result (form full (ArrayV (values (map value_of items.now)))) f.new }
{
    f.write_str("[")?;
    let mut separator = "";
    for item in items.as_slice() {
        f.write_str(separator)?;
        write_form(item, full, f)?;
        separator = ", ";
    }
    f.write_str("]")
}

#[cycle(form)]
fn write_members<W: fmt::Write>(
    members: &StringMap<Dynamic>,
    full: bool,
    f: &mut fmt::Formatter<W>,
) -> fmt::Result
    ensures { WritesOnOk W.write_str_gives f.old result (form full (MapV (fields (members_of members.now)))) f.new }
{
    f.write_str("#{")?;
    let mut before = "";
    for (key, member) in members.iter() {
        write!(f, "{before}\"{}\": ", key.as_str())?;
        write_form(member, full, f)?;
        before = ", ";
    }
    f.write_str("}")
}

/// A pointer in full: the function's name and the values of its first parameters.
#[cycle(form)]
fn write_pointer<W: fmt::Write>(pointer: &FnPtr, f: &mut fmt::Formatter<W>) -> fmt::Result
    ensures { WritesOnOk W.write_str_gives f.old result
        (form true (PointerV pointer.now.name (values (map value_of pointer.now.curried)))) f.new }
{
    write!(f, "Fn({}", pointer.fn_name())?;
    for value in pointer.curry() {
        f.write_str(", ")?;
        write_form(value, true, f)?;
    }
    f.write_str(")")
}

/// A function's name as texts have it: without a name of its own it has no number either.
fn shown(name: &str) -> &str
    ensures { result.now ≡ model.shown name.now }
{
    match name.strip_prefix("anon$") {
        Some(_) => "anon$",
        None => name,
    }
}
