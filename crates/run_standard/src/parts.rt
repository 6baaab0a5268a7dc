//! Texts as their characters, and the parts of these.
#![tactic(auto, using(rhai_base::specs::Reading::kinds, crate::proofs::Lists::lists, crate::proofs::PartSteps::parts))]

ghost use Rattle.std.specs.Prelude.{◌≡◌, ◌++◌, ◌<◌, ◌^◌, [], IfOk, OnOk, MatchOption, Some, None, length, map, drop, encode_utf8_all};
ghost use Rattle.std.specs.Option.{IfSome};
ghost use Rattle.std.specs.Str.{chars};
ghost use Rattle.rhai_base.specs.Reading.{value_of};
ghost use Rattle.run_standard.specs.Texts as spec;

use rhai_base::{Dynamic, ImmutableString, OutOfMemory, Seq};
use std::alloc::Global;

/// A text's characters.
pub(crate) fn characters(alloc: Global, text: &str) -> Result<Vec<char>, OutOfMemory>
    ensures { IfOk result (λ v. v.items ≡ chars text.now) }
{
    Ok(text.chars().collect(alloc)?)
}

/// The text of characters.
pub(crate) fn spelled(alloc: Global, chars: &[char]) -> Result<ImmutableString, OutOfMemory>
    ensures { IfOk result (λ t. t ≡ encode_utf8_all chars.now) }
{
    let text: String = chars.iter().copied().collect(alloc)?;
    Ok(ImmutableString::from_string(text)?)
}

/// A text or a character, as characters.
pub(crate) fn part_of(alloc: Global, value: &Dynamic) -> Result<Option<Vec<char>>, OutOfMemory>
    ensures { IfOk result (λ r.
        MatchOption r (spec.part_of (value_of value.now) ≡ None) (λ v. spec.part_of (value_of value.now) ≡ Some v.items)) }
{
    match value {
        Dynamic::Str(text) => Ok(Some(characters(alloc, text.as_str())?)),
        Dynamic::Char(character) => Ok(Some(Vec::from_slice(alloc, &[*character])?)),
        Dynamic::Unit
        | Dynamic::Bool(_)
        | Dynamic::Int(_)
        | Dynamic::Float(_)
        | Dynamic::Array(_)
        | Dynamic::Map(_)
        | Dynamic::FnPtr(_)
        | Dynamic::Range(_, _)
        | Dynamic::RangeInclusive(_, _) => Ok(None),
    }
}

/// Do the characters begin with a part?
fn begins_with(part: &[char], chars: &[char]) -> bool
    ensures { result ≡ spec.begins_with part.now chars.now }
{
    part.len() <= chars.len() && &chars[..part.len()] == part
}

/// The place of the first such part.
pub(crate) fn place_of_part(chars: &[char], part: &[char]) -> Option<usize>
    ensures place { result ≡ spec.place_of_part 0 part.now chars.now }
    ensures bound { IfSome result (λ i. i < 2 ^ 63) }
{
    for i in 0..chars.len() {
        if begins_with(part, &chars[i..]) {
            return Some(i);
        }
    }
    if begins_with(part, &chars[chars.len()..]) {
        Some(chars.len())
    } else {
        None
    }
}

/// With others in place of each such part. No characters stay none.
pub(crate) fn replaced_in(
    alloc: Global,
    chars: &[char],
    part: &[char],
    others: &[char],
) -> Result<Vec<char>, OutOfMemory>
    ensures { IfOk result (λ v. v.items ≡ spec.replaced_in chars.now part.now others.now) }
{
    if chars.is_empty() {
        Ok(Vec::new(alloc))
    } else {
        replaced(alloc, chars, part, others)
    }
}

/// The same, where an empty part stands in no characters too.
fn replaced(
    alloc: Global,
    chars: &[char],
    part: &[char],
    others: &[char],
) -> Result<Vec<char>, OutOfMemory>
    ensures { IfOk result (λ v. v.items ≡ spec.replaced part.now others.now 0 chars.now) }
{
    let mut all = Vec::new(alloc);
    let mut skipped = 0;
    for i in 0..chars.len() {
        skipped = push_replaced(&chars[i..], part, others, skipped, &mut all)?;
    }
    push_at_end(part, others, &mut all)?;
    Ok(all)
}

/// Appends what stands for the first character, where so many are still to be left out; answers how many are then.
fn push_replaced(
    chars: &[char],
    part: &[char],
    others: &[char],
    skipped: usize,
    all: &mut Vec<char>,
) -> Result<usize, OutOfMemory>
    requires { 0 < length chars.now }
    ensures { IfOk result (λ k. all.new.items ++ spec.replaced part.now others.now k (drop 1 chars.now)
        ≡ all.old.items ++ spec.replaced part.now others.now skipped chars.now) }
{
    if skipped > 0 {
        return Ok(skipped - 1);
    }
    if !begins_with(part, chars) {
        all.push(chars[0])?;
        return Ok(0);
    }
    all.extend_from_slice(others)?;
    push_kept(part, chars[0], all)?;
    Ok(part.len().saturating_sub(1))
}

/// Appends a character that an empty part stands before.
fn push_kept(part: &[char], character: char, all: &mut Vec<char>) -> Result<(), OutOfMemory>
    ensures { OnOk result (all.new.items ≡ all.old.items ++ spec.kept_behind part.now character) }
{
    if part.is_empty() {
        all.push(character)?;
    }
    Ok(())
}

/// An empty part stands at the end too.
fn push_at_end(part: &[char], others: &[char], all: &mut Vec<char>) -> Result<(), OutOfMemory>
    ensures { OnOk result (all.new.items ≡ all.old.items ++ spec.at_end part.now others.now) }
{
    if part.is_empty() {
        all.extend_from_slice(others)?;
    }
    Ok(())
}

/// What stands between such parts.
pub(crate) fn pieces(
    alloc: Global,
    chars: &[char],
    part: &[char],
) -> Result<Seq<Dynamic>, OutOfMemory>
    ensures { IfOk result (λ s. map value_of s ≡ spec.pieces part.now 0 [] chars.now) }
{
    let mut all = Seq::new(alloc);
    let mut piece = Vec::new(alloc);
    let mut skipped = 0;
    for i in 0..chars.len() {
        skipped = push_piece(alloc, &chars[i..], part, skipped, &mut piece, &mut all)?;
    }
    all.push(Dynamic::Str(spelled(alloc, piece.as_slice())?))?;
    push_behind_last(alloc, part, &mut all)?;
    Ok(all)
}

/// Appends the first character to the piece, or the piece to the pieces, where so many are still to be left out; answers
/// how many are then.
fn push_piece(
    alloc: Global,
    chars: &[char],
    part: &[char],
    skipped: usize,
    piece: &mut Vec<char>,
    all: &mut Seq<Dynamic>,
) -> Result<usize, OutOfMemory>
    requires { 0 < length chars.now }
    ensures { IfOk result (λ k. map value_of all.new ++ spec.pieces part.now k piece.new.items (drop 1 chars.now)
        ≡ map value_of all.old ++ spec.pieces part.now skipped piece.old.items chars.now) }
{
    if skipped > 0 {
        return Ok(skipped - 1);
    }
    if !begins_with(part, chars) {
        piece.push(chars[0])?;
        return Ok(0);
    }
    all.push(Dynamic::Str(spelled(alloc, piece.as_slice())?))?;
    piece.clear();
    push_kept(part, chars[0], piece)?;
    Ok(part.len().saturating_sub(1))
}

/// An empty part stands at the end too, with nothing behind it.
fn push_behind_last(alloc: Global, part: &[char], all: &mut Seq<Dynamic>) -> Result<(), OutOfMemory>
    ensures { OnOk result (map value_of all.new ≡ map value_of all.old ++ spec.behind_last part.now) }
{
    if part.is_empty() {
        all.push(Dynamic::Str(ImmutableString::new(alloc, "")?))?;
    }
    Ok(())
}
