//! Numbers.

use crate::lexeme::{Lexeme, Misread};
use crate::place::{Kind, Place, run_of};
/// The integers of scripts.
type INT = i64;

/// The number that stands next, which begins with a digit.
pub(crate) fn number_at(place: Place<'_>) -> (Lexeme<'_>, Place<'_>) {
    match radix_at(place.rest().as_bytes()) {
        10 => decimal_at(place),
        radix => integer_at(place, radix),
    }
}

/// A number without a base: a float where it is no integer of 64 bits.
fn decimal_at(place: Place<'_>) -> (Lexeme<'_>, Place<'_>) {
    let (text, behind) = place.split(decimal_length(place.rest().as_bytes()));
    match value_of(text.as_bytes(), 10) {
        Some(value) => (Lexeme::Integer(value), behind),
        None => (Lexeme::Float(text), behind),
    }
}

fn decimal_length(bytes: &[u8]) -> usize {
    let whole = run_of(bytes, Kind::Digits);
    let fraction = fraction_length(bytes.get(whole..).unwrap_or(b""));
    let length = whole.saturating_add(fraction);
    length.saturating_add(exponent_length(bytes.get(length..).unwrap_or(b"")))
}

/// How long a `.` and the digits behind it are; nothing, where it begins a property or a range.
fn fraction_length(bytes: &[u8]) -> usize {
    match bytes {
        [b'.', next, ..] if next.is_ascii_alphabetic() || b"_.".contains(next) => 0,
        [b'.', ..] => digits_behind(bytes, 1),
        _ => 0,
    }
}

/// How long an `e` with its sign and the digits behind it are; nothing, where neither follows.
fn exponent_length(bytes: &[u8]) -> usize {
    match bytes {
        [b'e', b'+' | b'-', ..] => digits_behind(bytes, 2),
        [b'e', b'0'..=b'9', ..] => digits_behind(bytes, 1),
        _ => 0,
    }
}

/// So many bytes, and the digits behind them.
fn digits_behind(bytes: &[u8], count: usize) -> usize {
    run_of(bytes.get(count..).unwrap_or(b""), Kind::Digits).saturating_add(count)
}

/// An integer behind its base.
fn integer_at(place: Place<'_>, radix: u64) -> (Lexeme<'_>, Place<'_>) {
    let kind = if radix == 16 {
        Kind::HexDigits
    } else {
        Kind::Digits
    };
    let count = run_of(place.behind(2).rest().as_bytes(), kind);
    let (text, behind) = place.split(count.saturating_add(2));
    let digits = text.as_bytes().get(2..).unwrap_or(b"");
    match value_of(digits, radix) {
        Some(value) => (Lexeme::Integer(value), behind),
        None => (Lexeme::Bad(Misread::MalformedNumber, text), behind),
    }
}

fn radix_at(bytes: &[u8]) -> u64 {
    match bytes {
        [b'0', b'x' | b'X', ..] => 16,
        [b'0', b'o' | b'O', ..] => 8,
        [b'0', b'b' | b'B', ..] => 2,
        _ => 10,
    }
}

/// The integer of digits; with a base one of 64 bits, of which the highest is the sign.
fn value_of(digits: &[u8], radix: u64) -> Option<INT> {
    let bits = bits_of(digits, radix)?;
    match INT::try_from(bits) {
        Ok(value) => Some(value),
        Err(_) if radix == 10 => None,
        Err(_) => Some(signed(bits)),
    }
}

/// These bits as an integer with sign.
fn signed(bits: u64) -> INT {
    INT::from_ne_bytes(bits.to_ne_bytes())
}

/// None where there is no digit, one that the base has not, or more than 64 bits.
fn bits_of(digits: &[u8], radix: u64) -> Option<u64> {
    let mut bits: Option<u64> = None;
    for digit in digits {
        if *digit != b'_' {
            bits = Some(with_digit(bits.unwrap_or(0), *digit, radix)?);
        }
    }
    bits
}

fn with_digit(bits: u64, digit: u8, radix: u64) -> Option<u64> {
    let digit = u64::from(char::from(digit).to_digit(16)?);
    if digit >= radix {
        return None;
    }
    bits.checked_mul(radix)?.checked_add(digit)
}
