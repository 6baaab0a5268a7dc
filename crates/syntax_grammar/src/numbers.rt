//! Integers.
#![tactic(auto, using(crate::proofs::NumberSteps::number_steps))]

ghost use Rattle.std.specs.Prelude.{◌≡◌, ◌+◌, ◌*◌, ◌==◌, ◌∷◌, IfSome, IsTrue, ℤ, pos, drop};
ghost use Rattle.std.specs.Char.{digit_value};
ghost use Rattle.base_tokens.specs.Names.{within};
ghost use Rattle.theory_grammar.specs.Words.{Next, Number, Stands, as_signed, base_named, behind_digits, has_digit, value_of};

use crate::blanks::behind_blanks;
use crate::decimals::is_whole;
use crate::letters::letter_at;

/// The place behind an integer without a sign that stands next.
pub(crate) fn past_number(text: &[u8], at: usize, value: i64) -> Option<usize>
    ensures { IfSome result (λ next. Next (drop at text.now) (Number value) (drop next text.now)) }
{
    let start = behind_blanks(text, at);
    let first = letter_at(text, start)?;
    if first == b'0' {
        if let Some(next) = based(text, start + 1, value) {
            return Some(next);
        }
    }
    let next = decimal(text, start, value)?;
    Some(next)
}

/// The place behind an integer without a base that begins there.
fn decimal(text: &[u8], at: usize, value: i64) -> Option<usize>
    ensures { IfSome result (λ next. Stands (drop at text.now) (Number value) (drop next text.now)) }
{
    let first = letter_at(text, at)?;
    if is_decimal(first) && is_whole(text, at) {
        let (bits, next) = digits(text, at, 10)?;
        if is_positive(bits, value) {
            return Some(next);
        }
    }
    None
}

/// The place behind an integer with a base, behind its `0`.
fn based(text: &[u8], at: usize, value: i64) -> Option<usize>
    ensures { IfSome result (λ next. Stands (48 ∷ drop at text.now) (Number value) (drop next text.now)) }
{
    let letter = letter_at(text, at)?;
    let base = base_named(letter);
    if base == 0 || !has_digit(text, at + 1, base) {
        return None;
    }
    let (bits, next) = digits(text, at + 1, base)?;
    if signed(bits)? == value {
        Some(next)
    } else {
        None
    }
}

/// Whether an integer is so many.
fn is_positive(bits: u64, value: i64) -> bool
    ensures { IsTrue result → value ≡ pos bits }
{
    match i64::try_from(bits) {
        Ok(number) => number == value,
        Err(_) => false,
    }
}

/// 64 bits as an integer with a sign.
fn signed(bits: u64) -> Option<i64>
    ensures { IfSome result (λ value. value ≡ as_signed bits) }
{
    if bits < 9_223_372_036_854_775_808 {
        return i64::try_from(bits).ok();
    }
    let low = i64::try_from(bits - 9_223_372_036_854_775_808).ok()?;
    low.checked_sub(i64::MAX)?.checked_sub(1)
}

/// Whether a digit stands there, behind any number of `_`.
fn has_digit(text: &[u8], at: usize, base: u64) -> bool
    ensures { result ≡ has_digit base (drop at text.now) }
{
    let mut place = at;
    while let Some(letter) = letter_at(text, place) {
        if letter != b'_' {
            return digit_value(letter) < base;
        }
        place += 1;
    }
    false
}

/// What the digits at a place come to, and the place behind them.
fn digits(text: &[u8], at: usize, base: u64) -> Option<(u64, usize)>
    ensures { IfSome result (λ found. (found.0 ≡ value_of base 0 (drop at text.now))
        × (drop found.1 text.now ≡ behind_digits base (drop at text.now))) }
{
    let mut place = at;
    let mut bits: u64 = 0;
    for _ in 0..=text.len() {
        let Some(letter) = letter_at(text, place) else {
            return Some((bits, place));
        };
        if letter != b'_' {
            let digit = digit_value(letter);
            if digit >= base {
                return Some((bits, place));
            }
            bits = bits.checked_mul(base)?.checked_add(digit)?;
        }
        place += 1;
    }
    None
}

pub(crate) fn is_decimal(letter: u8) -> bool
    ensures { result ≡ within 48 57 letter }
{
    b'0' <= letter && letter <= b'9'
}

fn base_named(letter: u8) -> u64
    ensures { result ≡ base_named letter }
{
    match letter {
        b'x' | b'X' => 16,
        b'o' | b'O' => 8,
        b'b' | b'B' => 2,
        _ => 0,
    }
}

pub(crate) fn digit_value(letter: u8) -> u64
    ensures { result ≡ digit_value letter }
{
    let code = u64::from(letter);
    if code < 48 {
        36
    } else if code < 58 {
        code - 48
    } else if code < 65 {
        36
    } else if code < 91 {
        code - 55
    } else if code < 97 {
        36
    } else if code < 123 {
        code - 87
    } else {
        36
    }
}
