//! What rhai's standard functions answer for a text.
#![tactic(auto, using(rhai_base::specs::Reading::kinds, crate::proofs::Lists::lists))]

ghost use Rattle.std.specs.Prelude.{pos, ◌≡◌, ◌<◌, ◌++◌, IfOk, vec_len, slice_set, length, map, option_map, Some, encode_utf8_all};
ghost use Rattle.std.specs.Option.{IfSome};
ghost use Rattle.std.specs.Str.{chars};
ghost use Rattle.std.specs.StrCase.Upper.{str_to_uppercase};
ghost use Rattle.std.specs.StrCase.Lower.{str_to_lowercase};
ghost use Rattle.rhai_base.specs.Value.{UnitV, text_of};
ghost use Rattle.theory_meaning.specs.Elements as model;
ghost use Rattle.rhai_base.specs.Reading.{value_of};
ghost use Rattle.run_host.specs.Host.{answer_meant};
ghost use Rattle.run_standard.specs.Texts as spec;

use crate::arrays::index_at;
use crate::forms::{
    gives, gives_bool, gives_int, gives_text, index_in, int_of, kept, leaves, place_in, throws,
};
use crate::numbers::fitting;
use crate::parts::{characters, part_of, pieces, place_of_part, replaced_in, spelled};
use crate::reading::number_read;
use rhai_base::{Dynamic, INT, ImmutableString, OutOfMemory};
use run_host::HostAnswer;
use std::alloc::Global;

/// The answer for a text and the arguments after it.
pub(crate) fn on_text(
    alloc: Global,
    name: &str,
    text: &str,
    args: &[Dynamic],
) -> Result<Option<HostAnswer>, OutOfMemory>
    ensures { IfOk result (λ a. option_map answer_meant a ≡ spec.on_text name.now text.now (map value_of args.now)) }
{
    match args {
        [] => alone(alloc, name, text),
        [value] => with_one(alloc, name, text, value),
        [value, other] => with_two(alloc, name, text, value, other),
        _ => Ok(None),
    }
}

fn alone(alloc: Global, name: &str, text: &str) -> Result<Option<HostAnswer>, OutOfMemory>
    ensures { IfOk result (λ a. option_map answer_meant a ≡ spec.alone name.now text.now) }
{
    match name {
        "len" | "get$len" => Ok(gives_int(count_characters(text))),
        "bytes" | "get$bytes" => Ok(gives_int(text.len() as INT)),
        "is_empty" | "get$is_empty" => Ok(gives_bool(text.len() == 0)),
        "parse_int" => fitting(alloc, number_read(text)),
        "clear" => leaves_text(alloc, Dynamic::Unit, ""),
        "pop" => popped(alloc, text),
        "trim" => leaves_text(alloc, Dynamic::Unit, text.trim()),
        "to_upper" => Ok(gives_text(upper(alloc, text)?)),
        "to_lower" => Ok(gives_text(lower(alloc, text)?)),
        "make_upper" => Ok(leaves(Dynamic::Unit, Dynamic::Str(upper(alloc, text)?))),
        "make_lower" => Ok(leaves(Dynamic::Unit, Dynamic::Str(lower(alloc, text)?))),
        _ => Ok(None),
    }
}

fn count_characters(text: &str) -> INT
    ensures { result ≡ pos (length (chars text.now)) }
{
    text.chars().count() as INT
}

/// A value, and the text is this one from now on.
fn leaves_text(alloc: Global, value: Dynamic, text: &str) -> Result<Option<HostAnswer>, OutOfMemory>
    ensures { IfOk result (λ a. option_map answer_meant a ≡ spec.leaves_text (value_of value) text.now) }
{
    let text = ImmutableString::new(alloc, text)?;
    Ok(leaves(value, Dynamic::Str(text)))
}

/// The same by its characters.
fn leaves_chars(
    alloc: Global,
    value: Dynamic,
    chars: &[char],
) -> Result<Option<HostAnswer>, OutOfMemory>
    ensures { IfOk result (λ a.
        option_map answer_meant a ≡ spec.leaves_text (value_of value) (encode_utf8_all chars.now)) }
{
    Ok(leaves(value, Dynamic::Str(spelled(alloc, chars)?)))
}

fn upper(alloc: Global, text: &str) -> Result<ImmutableString, OutOfMemory>
    ensures { IfOk result (λ t. t ≡ str_to_uppercase text.now) }
{
    Ok(ImmutableString::from_string(text.to_uppercase(alloc)?)?)
}

fn lower(alloc: Global, text: &str) -> Result<ImmutableString, OutOfMemory>
    ensures { IfOk result (λ t. t ≡ str_to_lowercase text.now) }
{
    Ok(ImmutableString::from_string(text.to_lowercase(alloc)?)?)
}

/// The text's last character is taken away and answered; unit of none.
fn popped(alloc: Global, text: &str) -> Result<Option<HostAnswer>, OutOfMemory>
    ensures { IfOk result (λ a. option_map answer_meant a ≡ spec.popped (chars text.now)) }
{
    let mut left = characters(alloc, text)?;
    let last = char_or_unit(left.as_slice().last().copied());
    left.pop();
    leaves_chars(alloc, last, left.as_slice())
}

fn char_or_unit(character: Option<char>) -> Dynamic
    ensures { value_of result ≡ spec.char_or_unit character }
{
    match character {
        Some(character) => Dynamic::Char(character),
        None => Dynamic::Unit,
    }
}

fn with_one(
    alloc: Global,
    name: &str,
    text: &str,
    value: &Dynamic,
) -> Result<Option<HostAnswer>, OutOfMemory>
    ensures { IfOk result (λ a. option_map answer_meant a ≡ spec.with_one name.now text.now (value_of value.now)) }
{
    match name {
        "append" => Ok(leaves(Dynamic::Unit, Dynamic::Str(joined(alloc, text, value)?))),
        "+=" => Ok(gives_text(joined(alloc, text, value)?)),
        "sub_string" => from_place(alloc, text, int_of(value)),
        "truncate" => truncated(alloc, text, int_of(value)),
        "starts_with" => Ok(starts_with(text, value)),
        "ends_with" => Ok(ends_with(text, value)),
        _ => with_part(alloc, name, text, value),
    }
}

/// A text and the text of a value behind it.
fn joined(alloc: Global, text: &str, value: &Dynamic) -> Result<ImmutableString, OutOfMemory>
    ensures { IfOk result (λ t. t ≡ text.now ++ text_of (value_of value.now)) }
{
    let mut all = String::new(alloc);
    all.push_str(text)?;
    value.push_text(&mut all)?;
    Ok(ImmutableString::from_string(all)?)
}

/// The characters from a place on.
fn from_place(
    alloc: Global,
    text: &str,
    place: Option<INT>,
) -> Result<Option<HostAnswer>, OutOfMemory>
    ensures { IfOk result (λ a. option_map answer_meant a ≡ spec.from_place (chars text.now) place) }
{
    let Some(place) = place else {
        return Ok(None);
    };
    let all = characters(alloc, text)?;
    let place = place_in(all.len(), place);
    Ok(gives_text(spelled(alloc, &all[place..])?))
}

fn truncated(
    alloc: Global,
    text: &str,
    count: Option<INT>,
) -> Result<Option<HostAnswer>, OutOfMemory>
    ensures { IfOk result (λ a. option_map answer_meant a ≡ spec.truncated (chars text.now) count) }
{
    let Some(count) = count else {
        return Ok(None);
    };
    let mut left = characters(alloc, text)?;
    left.truncate(kept(count));
    leaves_chars(alloc, Dynamic::Unit, left.as_slice())
}

fn starts_with(text: &str, value: &Dynamic) -> Option<HostAnswer>
    ensures { option_map answer_meant result ≡ spec.starts text.now (value_of value.now) }
{
    match value {
        Dynamic::Str(part) => gives_bool(text_begins_with(part.as_str(), text)),
        Dynamic::Unit
        | Dynamic::Bool(_)
        | Dynamic::Int(_)
        | Dynamic::Float(_)
        | Dynamic::Char(_)
        | Dynamic::Array(_)
        | Dynamic::Map(_)
        | Dynamic::FnPtr(_)
        | Dynamic::Range(_, _)
        | Dynamic::RangeInclusive(_, _) => None,
    }
}

fn text_begins_with(part: &str, text: &str) -> bool
    ensures { result ≡ spec.begins_with part.now text.now }
{
    let (part, text) = (part.as_bytes(), text.as_bytes());
    part.len() <= text.len() && &text[..part.len()] == part
}

fn ends_with(text: &str, value: &Dynamic) -> Option<HostAnswer>
    ensures { option_map answer_meant result ≡ spec.ends text.now (value_of value.now) }
{
    match value {
        Dynamic::Str(part) => gives_bool(text_ends_with(text, part.as_str())),
        Dynamic::Unit
        | Dynamic::Bool(_)
        | Dynamic::Int(_)
        | Dynamic::Float(_)
        | Dynamic::Char(_)
        | Dynamic::Array(_)
        | Dynamic::Map(_)
        | Dynamic::FnPtr(_)
        | Dynamic::Range(_, _)
        | Dynamic::RangeInclusive(_, _) => None,
    }
}

fn text_ends_with(text: &str, part: &str) -> bool
    ensures { result ≡ spec.ends_with text.now part.now }
{
    let (text, part) = (text.as_bytes(), part.as_bytes());
    part.len() <= text.len() && &text[text.len() - part.len()..] == part
}

fn with_part(
    alloc: Global,
    name: &str,
    text: &str,
    value: &Dynamic,
) -> Result<Option<HostAnswer>, OutOfMemory>
    ensures { IfOk result (λ a. option_map answer_meant a
        ≡ spec.with_part name.now (chars text.now) (spec.part_of (value_of value.now))) }
{
    let all = characters(alloc, text)?;
    match part_of(alloc, value)? {
        Some(part) => with_chars(alloc, name, all.as_slice(), part.as_slice()),
        None => Ok(None),
    }
}

fn with_chars(
    alloc: Global,
    name: &str,
    chars: &[char],
    part: &[char],
) -> Result<Option<HostAnswer>, OutOfMemory>
    ensures { IfOk result (λ a. option_map answer_meant a ≡ spec.with_part name.now chars.now (Some part.now)) }
{
    match name {
        "contains" => Ok(gives_bool(place_of_part(chars, part).is_some())),
        "index_of" => Ok(gives_int(index_in_text(chars, part))),
        "remove" => leaves_replaced(alloc, chars, part, &part[..0]),
        "split" => Ok(gives(Dynamic::Array(pieces(alloc, chars, part)?))),
        _ => Ok(None),
    }
}

/// -1 for none, and in an empty text, which holds the empty part too.
fn index_in_text(chars: &[char], part: &[char]) -> INT
    ensures { result ≡ spec.index_in_text chars.now part.now }
{
    if chars.is_empty() {
        -1
    } else {
        index_at(place_of_part(chars, part))
    }
}

/// With others in place of each such part. An empty text stays.
fn leaves_replaced(
    alloc: Global,
    chars: &[char],
    part: &[char],
    others: &[char],
) -> Result<Option<HostAnswer>, OutOfMemory>
    ensures { IfOk result (λ a. option_map answer_meant a
        ≡ spec.leaves_text UnitV (encode_utf8_all (spec.replaced_in chars.now part.now others.now))) }
{
    let left = replaced_in(alloc, chars, part, others)?;
    leaves_chars(alloc, Dynamic::Unit, left.as_slice())
}

fn with_two(
    alloc: Global,
    name: &str,
    text: &str,
    value: &Dynamic,
    other: &Dynamic,
) -> Result<Option<HostAnswer>, OutOfMemory>
    ensures { IfOk result (λ a. option_map answer_meant a
        ≡ spec.with_two name.now text.now (value_of value.now) (value_of other.now)) }
{
    match name {
        "replace" => replaced_by(alloc, text, value, other),
        "sub_string" => between(alloc, text, int_of(value), int_of(other)),
        "index$set$" => written(alloc, text, value, other),
        _ => Ok(None),
    }
}

fn replaced_by(
    alloc: Global,
    text: &str,
    part: &Dynamic,
    others: &Dynamic,
) -> Result<Option<HostAnswer>, OutOfMemory>
    ensures { IfOk result (λ a. option_map answer_meant a
        ≡ spec.replaced_by (chars text.now) (spec.part_of (value_of part.now)) (spec.part_of (value_of others.now))) }
{
    let Some(part) = part_of(alloc, part)? else {
        return Ok(None);
    };
    let Some(others) = part_of(alloc, others)? else {
        return Ok(None);
    };
    let all = characters(alloc, text)?;
    leaves_replaced(alloc, all.as_slice(), part.as_slice(), others.as_slice())
}

/// So many characters from a place on.
fn between(
    alloc: Global,
    text: &str,
    place: Option<INT>,
    count: Option<INT>,
) -> Result<Option<HostAnswer>, OutOfMemory>
    ensures { IfOk result (λ a. option_map answer_meant a ≡ spec.between (chars text.now) place count) }
{
    let Some(place) = place else {
        return Ok(None);
    };
    let Some(count) = count else {
        return Ok(None);
    };
    let all = characters(alloc, text)?;
    let place = place_in(all.len(), place);
    let mut left = Vec::from_slice(alloc, &all[place..])?;
    left.truncate(kept(count));
    Ok(gives_text(spelled(alloc, left.as_slice())?))
}

/// A character in place of another one.
fn written(
    alloc: Global,
    text: &str,
    place: &Dynamic,
    character: &Dynamic,
) -> Result<Option<HostAnswer>, OutOfMemory>
    ensures { IfOk result (λ a. option_map answer_meant a
        ≡ spec.written (chars text.now) (value_of place.now) (value_of character.now)) }
{
    let Some(place) = int_of(place) else {
        return Ok(None);
    };
    let Some(character) = char_of(character) else {
        return Ok(None);
    };
    written_at(alloc, text, place, character)
}

/// The character that an argument is.
fn char_of(value: &Dynamic) -> Option<char>
    ensures { result ≡ spec.char_of (value_of value.now) }
{
    match value {
        Dynamic::Char(character) => Some(*character),
        Dynamic::Unit
        | Dynamic::Bool(_)
        | Dynamic::Int(_)
        | Dynamic::Float(_)
        | Dynamic::Str(_)
        | Dynamic::Array(_)
        | Dynamic::Map(_)
        | Dynamic::FnPtr(_)
        | Dynamic::Range(_, _)
        | Dynamic::RangeInclusive(_, _) => None,
    }
}

fn written_at(
    alloc: Global,
    text: &str,
    place: INT,
    character: char,
) -> Result<Option<HostAnswer>, OutOfMemory>
    ensures { IfOk result (λ a. option_map answer_meant a
        ≡ spec.written_at (chars text.now) character (model.index_in (length (chars text.now)) place)) }
{
    let chars = characters(alloc, text)?;
    let place = index_in(chars.len(), place);
    written_in(alloc, chars, place, character)
}

fn written_in(
    alloc: Global,
    mut chars: Vec<char>,
    place: Option<usize>,
    character: char,
) -> Result<Option<HostAnswer>, OutOfMemory>
    requires { IfSome place (λ k. k < vec_len chars) }
    ensures { IfOk result (λ a. option_map answer_meant a ≡ spec.written_at chars.items character place) }
{
    let Some(place) = place else {
        return throws(alloc, "text bounds");
    };
    set_character(&mut chars, place, character);
    leaves_chars(alloc, Dynamic::Unit, chars.as_slice())
}

fn set_character(chars: &mut Vec<char>, place: usize, character: char)
    requires { place < vec_len chars.old }
    ensures { chars.new.items ≡ slice_set chars.old.items place character }
{
    chars[place] = character;
}
