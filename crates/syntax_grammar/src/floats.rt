//! Floats.
#![tactic(auto, using(crate::proofs::FloatSteps::float_steps))]

ghost use Rattle.std.specs.Prelude.{◌≡◌, ◌++◌, IfOk, IfSome, IsTrue, drop};
ghost use Rattle.theory_grammar.specs.Words.{Decimal, IsFloat, Next, PastGreatest, unmarked};

use crate::blanks::behind_blanks;
use crate::decimals::{goes_on_decimal, is_whole, past_decimal};
use crate::letters::past_all;
use crate::memory::Memory;
use rhai_base::FloatWrapper;
use std::alloc::{AllocError, Global};

/// The place behind a float without a sign that stands next.
pub(crate) fn past_float(memory: &Memory, text: &[u8], at: usize, bits: u64) -> Option<usize>
    ensures { IfSome result (λ next. Next (drop at text.now) (Decimal bits) (drop next text.now)) }
{
    let start = behind_blanks(text, at);
    if !goes_on_decimal(text, start) || is_whole(text, start) {
        return None;
    }
    let next = past_decimal(text, start);
    let letters = between(text, start, next)?;
    if is_float(memory, letters, bits) {
        Some(next)
    } else {
        None
    }
}

/// The place behind the integer past the greatest one, which stands next.
pub(crate) fn past_greatest(text: &[u8], at: usize) -> Option<usize>
    ensures { IfSome result (λ next. Next (drop at text.now) PastGreatest (drop next text.now)) }
{
    let start = behind_blanks(text, at);
    let next = past_all(text, start, b"9223372036854775808")?;
    if past_decimal(text, start) == next {
        Some(next)
    } else {
        None
    }
}

/// The letters between two places.
fn between(text: &[u8], start: usize, end: usize) -> Option<&[u8]>
    ensures { IfSome result (λ letters. drop start text.now ≡ letters.now ++ drop end text.now) }
{
    if start <= end && end <= text.len() {
        Some(&text[start..end])
    } else {
        None
    }
}

/// Whether letters are the digits of the float with these bits.
fn is_float(memory: &Memory, letters: &[u8], bits: u64) -> bool
    ensures { IsTrue result → IsFloat (unmarked letters.now) bits }
{
    match unmarked(memory.alloc, letters) {
        Ok(digits) => is_value(digits.as_slice(), bits),
        Err(AllocError) => {
            memory.run_out();
            false
        }
    }
}

/// Whether digits are the float's with these bits.
fn is_value(digits: &[u8], bits: u64) -> bool
    ensures { IsTrue result → IsFloat digits.now bits }
{
    match fast_float::parse::<f64, _>(digits) {
        Ok(value) => FloatWrapper::new(value).bits() == bits,
        Err(_) => false,
    }
}

/// Letters without the `_` between them.
fn unmarked(alloc: Global, letters: &[u8]) -> Result<Vec<u8>, AllocError>
    ensures { IfOk result (λ digits. digits.items ≡ unmarked letters.now) }
{
    let mut digits = Vec::new(alloc);
    for letter in letters {
        if *letter != b'_' {
            digits.push(*letter)?;
        }
    }
    Ok(digits)
}
