//! The fewest digits that are read as a float.
#![tactic(auto)]

ghost use Rattle.std.specs.Prelude.{◌≡◌, ◌≤◌, ◌<◌, ◌*◌, ◌+◌, ◌^◌};
ghost use Rattle.base_floats.specs.Digits as model;

use std::num::f64_to_bits_with_nan;

/// Digits times a power of ten, which is counted from 10 ^ -400.
#[derive(Clone, Copy)]
pub(crate) struct Decimal {
    pub(crate) digits: u64,
    pub(crate) power: u32,
}

/// The bits of the float that is read from digits and a power of ten.
#[tactic(auto, unfolding(crate::specs::Digits::read_at))]
pub(crate) fn read_at(power: u32, digits: u64) -> u64
    ensures { result ≡ model.read_at power digits }
{
    let float: f64 = fast_float::from_parts(false, digits, i64::from(power) - 400);
    f64_to_bits_with_nan(float)
}

/// The digits of the float with these bits, which is no zero and has no sign.
pub(crate) fn shortest(bits: u64) -> Decimal
    ensures { (result.power, result.digits) ≡ model.shortest bits }
{
    let power = power_below(bits);
    let most = until_read(bits, power, next(bits, power, 0));
    let digits = least(bits, most);
    Decimal {
        digits: digits + (most.digits - digits) / 2,
        power: most.power,
    }
}

/// The greatest power of ten that is not above the float.
fn power_below(bits: u64) -> u32
    ensures { (result ≡ model.power_below bits 708) }
{
    let mut power = 708;
    while power > 0 && read_at(power, 1) > bits {
        power -= 1;
    }
    power
}

/// The digits and one more.
fn next(bits: u64, power: u32, digits: u64) -> u64
    requires { digits < 10 ^ 16 }
    ensures is { result ≡ model.next bits power digits 9 }
    ensures one_more { result < (digits + 1) * 10 }
{
    let mut digit = 9;
    while digit > 0 && read_at(power, digits * 10 + digit) > bits {
        digit -= 1;
    }
    digits * 10 + digit
}

/// More digits, until they are read as the float.
fn until_read(bits: u64, power: u32, digits: u64) -> Decimal
    requires { digits < 10 }
    ensures is { (result.power, result.digits) ≡ model.until_read bits power digits 16 }
    ensures few { result.digits < 10 ^ 17 }
{
    let mut decimal = Decimal { digits, power };
    let mut left: u32 = 16;
    while left > 0 && read_at(decimal.power, decimal.digits) != bits {
        decimal.power = decimal.power.saturating_sub(1);
        decimal.digits = next(bits, decimal.power, decimal.digits);
        left -= 1;
    }
    decimal
}

/// The least digits that are read as the float, down from the greatest.
fn least(bits: u64, most: Decimal) -> u64
    ensures is { result ≡ model.least bits most.power most.digits 9 }
    ensures below { result ≤ most.digits }
{
    let mut digits = most.digits;
    let mut left: u32 = 9;
    while left > 0 && read_at(most.power, digits.saturating_sub(1)) == bits {
        digits = digits.saturating_sub(1);
        left -= 1;
    }
    digits
}
