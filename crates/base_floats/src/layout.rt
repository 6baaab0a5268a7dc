//! Floats as text: digits with their point, or with a power of ten.
#![tactic(auto, unfolding(crate::specs::Digits::size_text))]

ghost use Rattle.std.specs.Prelude.{◌≡◌, ◌++◌, ◌<◌, ◌≤◌, length, replicate, codes, IsAscii};
ghost use Rattle.std.specs.Fmt.{WritesOnOk, decimal};
ghost use Rattle.base_floats.specs.Digits.{float_text};
ghost use Rattle.base_floats.specs.Digits as model;

use crate::digits::{Decimal, read_at, shortest};
use itoa::Buffer;
use std::fmt;

/// The bits of a sign alone.
const SIGN: u64 = 0x8000_0000_0000_0000;

/// The bits of what is infinite; what is no number has more.
const INFINITE: u64 = 0x7ff0_0000_0000_0000;

/// Writes the float with these bits in the fewest digits that are read as it; of those the nearest, of two the lower.
/// From a ten millionth to ten billions it has a point, else a power of ten, as in rhai. A zero keeps its sign. What is
/// infinite, or no number, has no digits and is written by its bits.
#[tactic(auto, unfolding(crate::specs::Digits::float_text))]
pub fn write_float<W: fmt::Write>(bits: u64, f: &mut fmt::Formatter<W>) -> fmt::Result
    ensures { WritesOnOk W.write_str_gives f.old result (float_text bits) f.new }
{
    let size = bits % SIGN;
    if size >= INFINITE {
        return write!(f, "f64({bits})");
    }
    if bits >= SIGN {
        f.write_str("-")?;
    }
    write_size(size, f)
}

/// Writes a float without its sign.
fn write_size<W: fmt::Write>(bits: u64, f: &mut fmt::Formatter<W>) -> fmt::Result
    ensures { WritesOnOk W.write_str_gives f.old result (model.size_text bits) f.new }
{
    if bits == 0 {
        return f.write_str("0.0");
    }
    let decimal = shortest(bits);
    let mut buffer = Buffer::new();
    let digits = buffer.format(decimal.digits);
    if read_at(393, 1) <= bits && bits <= read_at(413, 1) {
        write_plain(decimal.power, digits, f)
    } else {
        write_scientific(decimal.power, digits, f)
    }
}

fn write_plain<W: fmt::Write>(power: u32, digits: &str, f: &mut fmt::Formatter<W>) -> fmt::Result
    requires { IsAscii digits.now }
    ensures { WritesOnOk W.write_str_gives f.old result (model.plain power digits.now) f.new }
{
    if power < 400 {
        return write_fraction((400 - power) as usize, digits, f);
    }
    f.write_str(digits)?;
    write_zeros((power - 400) as usize, f)?;
    f.write_str(".0")
}

/// Digits of which so many stand behind the point.
fn write_fraction<W: fmt::Write>(
    behind: usize,
    digits: &str,
    f: &mut fmt::Formatter<W>,
) -> fmt::Result
    requires { IsAscii digits.now }
    ensures { WritesOnOk W.write_str_gives f.old result (model.with_fraction behind digits.now) f.new }
{
    if behind < digits.len() {
        return write_pointed(digits.len() - behind, digits, f);
    }
    f.write_str("0.")?;
    write_zeros(behind - digits.len(), f)?;
    f.write_str(digits)
}

/// One digit, a point before the others, and the power of ten.
fn write_scientific<W: fmt::Write>(
    power: u32,
    digits: &str,
    f: &mut fmt::Formatter<W>,
) -> fmt::Result
    requires ascii { IsAscii digits.now }
    requires few { length digits.now ≤ 40 }
    ensures { WritesOnOk W.write_str_gives f.old result (model.scientific power digits.now) f.new }
{
    if digits.len() > 1 {
        write_pointed(1, digits, f)?;
    } else {
        f.write_str(digits)?;
    }
    write!(f, "e{}", i64::from(power) + digits.len() as i64 - 401)
}

/// Digits with a point behind the first so many.
fn write_pointed<W: fmt::Write>(
    before: usize,
    digits: &str,
    f: &mut fmt::Formatter<W>,
) -> fmt::Result
    requires ascii { IsAscii digits.now }
    requires within { before ≤ length digits.now }
    ensures { WritesOnOk W.write_str_gives f.old result (model.pointed before digits.now) f.new }
{
    let (whole, fraction) = digits.split_at(before);
    f.write_str(whole)?;
    f.write_str(".")?;
    f.write_str(fraction)
}

fn write_zeros<W: fmt::Write>(count: usize, f: &mut fmt::Formatter<W>) -> fmt::Result
    ensures { WritesOnOk W.write_str_gives f.old result (replicate count 48) f.new }
{
    for _ in 0..count {
        f.write_str("0")?;
    }
    Ok(())
}
