//! The floats of scripts, which are carried and not computed with.
#![tactic(auto)]

ghost use Rattle.std.specs.Prelude.{◌≡◌, Some, to_bits, from_bits};
ghost use Rattle.std.specs.Float.{binary64};
ghost use Rattle.rhai_base.specs.Value.{float_text};

use base_floats::write_float;
use std::fmt;
use std::num::{f64_from_bits_with_nan, f64_to_bits_with_nan};

/// The floats of scripts.
pub type FLOAT = f64;

/// A float, which is equal to those with its bits.
#[derive(Clone, Copy, PartialEq, Eq, Hash)]
pub struct FloatWrapper {
    bits: u64,
}

impl FloatWrapper {
    /// The float; all that is no number is one float here.
    pub fn new(value: FLOAT) -> FloatWrapper
        ensures { result.bits ≡ to_bits binary64 value }
    {
        FloatWrapper {
            bits: f64_to_bits_with_nan(value),
        }
    }

    /// The float of these bits. It is not in rhai.
    pub fn from_bits(bits: u64) -> FloatWrapper
        ensures { result.bits ≡ bits }
    {
        FloatWrapper { bits }
    }

    /// The float's bits. It is not in rhai.
    pub fn bits(self) -> u64
        ensures { result ≡ self.bits }
    {
        self.bits
    }

    /// The float. In rhai the wrapper gives it where it is dereferenced.
    pub fn value(self) -> FLOAT
        ensures { result ≡ from_bits binary64 self.bits }
    {
        f64_from_bits_with_nan(self.bits)
    }
}

/// The fewest digits that are read as the float.
impl fmt::Display for FloatWrapper {
    ghost output = { λ x. Some (float_text x.bits) };

    fn fmt<W: fmt::Write>(&self, f: &mut fmt::Formatter<W>) -> fmt::Result {
        write_float(self.bits, f)
    }
}

/// The same.
impl fmt::Debug for FloatWrapper {
    ghost debug_output = { λ x. Some (float_text x.bits) };

    fn fmt<W: fmt::Write>(&self, f: &mut fmt::Formatter<W>) -> fmt::Result {
        write_float(self.bits, f)
    }
}
