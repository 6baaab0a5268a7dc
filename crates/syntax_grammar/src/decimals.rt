//! Decimal numbers: which letters they have, and which of them are integers.
#![tactic(auto, using(crate::proofs::NumberSteps::decimal_steps))]

ghost use Rattle.std.specs.Prelude.{◌≡◌, ◌<◌, ◌++◌, IfSome, IsTrue, true, false, nat_lt, drop};
ghost use Rattle.base_tokens.specs.Names.{within};
ghost use Rattle.theory_grammar.specs.Words.{behind_decimal, behind_digits, behind_fraction, behind_power, begins_member, begins_power, goes_on, has_fraction, has_power, is_whole, value_of};

use crate::letters::{behind_one, is_letter, letter_at};
use crate::numbers::{digit_value, is_decimal};

/// Whether the decimal number that begins there is an integer.
pub(crate) fn is_whole(text: &[u8], at: usize) -> bool
    ensures { result ≡ is_whole (drop at text.now) }
{
    let next = past_digits(text, at);
    !has_fraction(text, next) && !has_power(text, next) && is_small(text, at)
}

/// The place behind the decimal number that begins there.
pub(crate) fn past_decimal(text: &[u8], at: usize) -> usize
    ensures { drop result text.now ≡ behind_decimal (drop at text.now) }
{
    past_power(text, past_fraction(text, past_digits(text, at)))
}

fn past_digits(text: &[u8], at: usize) -> usize
    ensures { drop result text.now ≡ behind_digits 10 (drop at text.now) }
{
    let mut place = at;
    while let Some(letter) = letter_at(text, place) {
        if letter != b'_' && digit_value(letter) >= 10 {
            return place;
        }
        place += 1;
    }
    place
}

fn past_fraction(text: &[u8], at: usize) -> usize
    ensures { drop result text.now ≡ behind_fraction (drop at text.now) }
{
    if has_fraction(text, at) {
        past_digits(text, behind_one(text, at))
    } else {
        at
    }
}

fn past_power(text: &[u8], at: usize) -> usize
    ensures { drop result text.now ≡ behind_power (drop at text.now) }
{
    if has_power(text, at) {
        past_digits(text, behind_one(text, behind_one(text, at)))
    } else {
        at
    }
}

/// Whether a `.` stands there and goes on with a number.
fn has_fraction(text: &[u8], at: usize) -> bool
    ensures { result ≡ has_fraction (drop at text.now) }
{
    match letter_at(text, at) {
        Some(letter) => letter == b'.' && !goes_on_as_member(text, at + 1),
        None => false,
    }
}

/// Whether an `e` does.
fn has_power(text: &[u8], at: usize) -> bool
    ensures { result ≡ has_power (drop at text.now) }
{
    match letter_at(text, at) {
        Some(letter) => letter == b'e' && goes_on_as_power(text, at + 1),
        None => false,
    }
}

fn goes_on_as_member(text: &[u8], at: usize) -> bool
    ensures { result ≡ goes_on begins_member (drop at text.now) }
{
    match letter_at(text, at) {
        Some(letter) => is_letter(letter) || letter == b'_' || letter == b'.',
        None => false,
    }
}

fn goes_on_as_power(text: &[u8], at: usize) -> bool
    ensures { result ≡ goes_on begins_power (drop at text.now) }
{
    match letter_at(text, at) {
        Some(letter) => is_decimal(letter) || letter == b'+' || letter == b'-',
        None => false,
    }
}

/// Whether a decimal digit stands there.
pub(crate) fn goes_on_decimal(text: &[u8], at: usize) -> bool
    ensures { result ≡ goes_on (within 48 57) (drop at text.now) }
{
    match letter_at(text, at) {
        Some(letter) => is_decimal(letter),
        None => false,
    }
}

/// Whether the digits there come to no more than the greatest integer.
fn is_small(text: &[u8], at: usize) -> bool
    ensures { result ≡ nat_lt (value_of 10 0 (drop at text.now)) 9223372036854775808 }
{
    let mut place = at;
    let mut value: u128 = 0;
    while let Some(letter) = letter_at(text, place) {
        if value >= 9_223_372_036_854_775_808 {
            return false;
        }
        if letter != b'_' {
            let digit = digit_value(letter);
            if digit >= 10 {
                return true;
            }
            value = value * 10 + u128::from(digit);
        }
        place += 1;
    }
    value < 9_223_372_036_854_775_808
}
