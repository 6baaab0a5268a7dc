//! Elements of arrays, characters of texts and bits of numbers.

#![tactic(auto, using(crate::proofs::Parts::parts))]

ghost use Rattle.std.specs.Prelude.{◌≡◌, length, map, slice_get};
ghost use Rattle.std.specs.Option.{option_copied, option_map};
ghost use Rattle.std.specs.Str.{chars};
ghost use Rattle.rhai_base.specs.Reading.{value_of};
ghost use Rattle.rhai_base.specs.Value.{BoolV, CharV, values};
ghost use Rattle.theory_meaning.specs.Elements as model;

use rhai_base::{Dynamic, INT};

/// Of so many things the place of the one at an index, from the end where it is negative.
pub(crate) fn index_in(count: usize, index: INT) -> Option<usize>
    ensures { result ≡ model.index_in count index }
{
    if index < 0 {
        return count.checked_sub(index.unsigned_abs() as usize);
    }
    let place = index as usize;
    if place < count { Some(place) } else { None }
}

/// The element at an index, from the end where it is negative.
pub fn element(items: &[Dynamic], index: INT) -> Option<&Dynamic>
    ensures { option_map value_of (option_copied result) ≡ model.element (values (map value_of items.now)) index }
{
    let place = index_in(items.len(), index)?;
    items.get(place)
}

/// The character at an index, from the end where it is negative.
pub fn character(text: &str, index: INT) -> Option<char>
    ensures { option_map CharV result ≡ model.character text.now index }
{
    let place = index_in(char_count(text), index)?;
    nth_char(text, place)
}

fn char_count(text: &str) -> usize
    ensures { result ≡ length (chars text.now) }
{
    text.chars().count()
}

fn nth_char(text: &str, place: usize) -> Option<char>
    ensures { result ≡ slice_get (chars text.now) place }
{
    text.chars().nth(place)
}

/// The bit at an index, from the lowest up, or from the highest down where it is negative.
pub fn bit(number: INT, index: INT) -> Option<bool>
    ensures { option_map BoolV result ≡ model.bit number index }
{
    let place = index_in(64, index)?;
    let bits = number.cast_unsigned();
    Some((bits >> place) % 2 == 1)
}
