//! What rhai's standard functions answer for integers and ranges.
#![tactic(auto, using(rhai_base::specs::Reading::kinds, crate::proofs::Lists::lists))]

ghost use Rattle.std.specs.Prelude.{◌≡◌, IfOk, map, true, false};
ghost use Rattle.std.specs.Option.{option_map};
ghost use Rattle.rhai_base.specs.Reading.{value_of};
ghost use Rattle.run_host.specs.Host.{answer_meant};
ghost use Rattle.run_standard.specs.Numbers as spec;
ghost use Rattle.run_standard.specs.Numbers.{number_or_throw};

use crate::bits::{get_bit, with_two};
use crate::forms::{gives_bool, gives_int, gives_range, int_of, throws};
use rhai_base::{Dynamic, INT, OutOfMemory};
use run_host::HostAnswer;
use std::alloc::Global;

/// The answer for an integer and the arguments after it.
pub(crate) fn on_int(
    alloc: Global,
    name: &str,
    number: INT,
    args: &[Dynamic],
) -> Result<Option<HostAnswer>, OutOfMemory>
    ensures { IfOk result (λ a. option_map answer_meant a ≡ spec.on_int name.now number (map value_of args.now)) }
{
    match args {
        [] => alone(alloc, name, number),
        [value] => with_one(alloc, name, number, int_of(value)),
        [index, bit] => with_two(alloc, name, number, index, bit),
        _ => Ok(None),
    }
}

fn alone(alloc: Global, name: &str, number: INT) -> Result<Option<HostAnswer>, OutOfMemory>
    ensures { IfOk result (λ a. option_map answer_meant a ≡ spec.alone name.now number) }
{
    match name {
        "-" => fitting(alloc, number.checked_neg()),
        "+" => Ok(gives_int(number)),
        "abs" => absolute(alloc, number),
        "sign" => Ok(gives_int(number.signum())),
        "is_odd" | "get$is_odd" => Ok(gives_bool(!is_even(number))),
        "is_even" | "get$is_even" => Ok(gives_bool(is_even(number))),
        "is_zero" | "get$is_zero" => Ok(gives_bool(number == 0)),
        _ => Ok(None),
    }
}

/// A number, or the fault where there is none.
pub(crate) fn fitting(alloc: Global, number: Option<INT>) -> Result<Option<HostAnswer>, OutOfMemory>
    ensures { IfOk result (λ a. option_map answer_meant a ≡ number_or_throw number) }
{
    match number {
        Some(number) => Ok(gives_int(number)),
        None => throws(alloc, "arithmetic"),
    }
}

fn absolute(alloc: Global, number: INT) -> Result<Option<HostAnswer>, OutOfMemory>
    ensures { IfOk result (λ a. option_map answer_meant a ≡ spec.absolute number) }
{
    if number < 0 {
        fitting(alloc, number.checked_neg())
    } else {
        Ok(gives_int(number))
    }
}

fn is_even(number: INT) -> bool
    ensures { result ≡ spec.is_even number }
{
    number % 2 == 0
}

fn with_one(
    alloc: Global,
    name: &str,
    number: INT,
    other: Option<INT>,
) -> Result<Option<HostAnswer>, OutOfMemory>
    ensures { IfOk result (λ a. option_map answer_meant a ≡ spec.with_one name.now number other) }
{
    match other {
        Some(other) => with_int(alloc, name, number, other),
        None => Ok(None),
    }
}

fn with_int(
    alloc: Global,
    name: &str,
    number: INT,
    other: INT,
) -> Result<Option<HostAnswer>, OutOfMemory>
    ensures { IfOk result (λ a. option_map answer_meant a ≡ spec.with_int name.now number other) }
{
    match name {
        "min" => Ok(gives_int(number.min(other))),
        "max" => Ok(gives_int(number.max(other))),
        "range" => Ok(gives_range(number, other)),
        "**" => power(alloc, number, other),
        "get_bit" => get_bit(alloc, number, other),
        "<<" => Ok(gives_int(shifted(true, number, other))),
        ">>" => Ok(gives_int(shifted(false, number, other))),
        _ => Ok(None),
    }
}

/// To a power of at most 32 bits that is not negative.
fn power(alloc: Global, number: INT, exponent: INT) -> Result<Option<HostAnswer>, OutOfMemory>
    ensures { IfOk result (λ a. option_map answer_meant a ≡ spec.power number exponent) }
{
    let size = exponent.unsigned_abs();
    if exponent < 0 || size > 0xffff_ffff {
        return throws(alloc, "arithmetic");
    }
    fitting(alloc, number.checked_pow(size as u32))
}

/// Shifts so many bits, the other way where the number of bits is negative; past all of them nothing is left, and but the
/// sign to the right.
fn shifted(to_left: bool, number: INT, by: INT) -> INT
    ensures { result ≡ spec.shifted to_left number by }
{
    let size = by.unsigned_abs();
    if by < 0 {
        shifted_by(!to_left, number, size)
    } else {
        shifted_by(to_left, number, size)
    }
}

fn shifted_by(to_left: bool, number: INT, by: u64) -> INT
    ensures { result ≡ spec.shifted_by to_left number by }
{
    if to_left {
        shifted_left(number, by)
    } else {
        shifted_right(number, by)
    }
}

fn shifted_left(number: INT, by: u64) -> INT
    ensures { result ≡ spec.shifted_by true number by }
{
    if by < 64 { number << by } else { 0 }
}

fn shifted_right(number: INT, by: u64) -> INT
    ensures { result ≡ spec.shifted_by false number by }
{
    if by < 64 { number >> by } else { number >> 63 }
}

/// The answer for a range, with its end or without, and the arguments after it.
pub(crate) fn on_range(
    name: &str,
    inclusive: bool,
    from: INT,
    to: INT,
    args: &[Dynamic],
) -> Option<HostAnswer>
    ensures { option_map answer_meant result ≡ spec.on_range name.now inclusive from to (map value_of args.now) }
{
    match args {
        [] => range_alone(name, inclusive, from, to),
        [value] => range_with_one(name, inclusive, from, to, int_of(value)),
        _ => None,
    }
}

fn range_alone(name: &str, inclusive: bool, from: INT, to: INT) -> Option<HostAnswer>
    ensures { option_map answer_meant result ≡ spec.range_alone name.now inclusive from to }
{
    match name {
        "start" | "get$start" => gives_int(from),
        "end" | "get$end" => gives_int(to),
        "is_inclusive" | "get$is_inclusive" => gives_bool(inclusive),
        "is_exclusive" | "get$is_exclusive" => gives_bool(!inclusive),
        "is_empty" | "get$is_empty" => gives_bool(!is_at_most(inclusive, from, to)),
        _ => None,
    }
}

fn range_with_one(
    name: &str,
    inclusive: bool,
    from: INT,
    to: INT,
    value: Option<INT>,
) -> Option<HostAnswer>
    ensures { option_map answer_meant result ≡ spec.range_with_one name.now inclusive from to value }
{
    let value = value?;
    match name {
        "contains" => gives_bool(from <= value && is_at_most(inclusive, value, to)),
        _ => None,
    }
}

/// Is it below an end, or at one that belongs to the range?
fn is_at_most(inclusive: bool, value: INT, end: INT) -> bool
    ensures { result ≡ spec.is_at_most inclusive value end }
{
    if inclusive { value <= end } else { value < end }
}
