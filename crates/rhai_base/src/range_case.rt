//! The ranges of a `switch`.
#![tactic(auto, using(crate::specs::Reading::kinds))]

ghost use Rattle.std.specs.Prelude.{◌≡◌, ◌<◌, ◌-◌, ◌^◌, [], ◌↔◌, IsTrue, length, pos};
ghost use Rattle.std.specs.Option.{SomeIff};
ghost use Rattle.rhai_base.specs.Floats.{between};
ghost use Rattle.rhai_base.specs.Reading.{value_of};

use crate::FLOAT;
use crate::dynamic::{Dynamic, INT};
use std::alloc::AllocError;
use std::num::nearest_i64_to_f64;
use std::ops::{Range, RangeInclusive};

/// A range of integers that is a case of a `switch`, and the arm that it chooses.
#[derive(Debug, Drop)]
pub enum RangeCase {
    /// without its upper end
    ExclusiveInt(Range<INT>, usize),
    /// with its upper end
    InclusiveInt(RangeInclusive<INT>, usize),
}

impl RangeCase {
    ghost use Rattle.rhai_base.specs.Ranges.{numbers, holds, holds_value, contains_float, is_closed, index_of, numbered};

    /// Is no integer in the range?
    pub fn is_empty(&self) -> bool
        ensures { IsTrue result ↔ (numbers self.now ≡ []) }
    {
        match self {
            RangeCase::ExclusiveInt(range, _) => range.is_empty(),
            RangeCase::InclusiveInt(range, _) => range.is_empty(),
        }
    }

    /// Is the value an integer or a float in the range?
    pub fn contains(&self, value: &Dynamic) -> bool
        ensures { result ≡ holds_value self.now (value_of value.now) }
    {
        match value {
            Dynamic::Int(n) => self.contains_int(*n),
            Dynamic::Float(x) => self.contains_float(x.value()),
            _ => false,
        }
    }

    /// Is the integer in the range?
    pub fn contains_int(&self, n: INT) -> bool
        ensures { result ≡ holds self.now n }
    {
        match self {
            RangeCase::ExclusiveInt(range, _) => range.start <= n && n < range.end,
            RangeCase::InclusiveInt(range, _) => {
                !range.is_empty() && *range.start() <= n && n <= *range.end()
            }
        }
    }

    /// Is the float between the ends, each as the float that is nearest to it? A range without integers holds none.
    pub fn contains_float(&self, n: FLOAT) -> bool
        ensures { result ≡ contains_float self.now n }
    {
        match self {
            RangeCase::ExclusiveInt(range, _) => {
                nearest_i64_to_f64(range.start) <= n && n < nearest_i64_to_f64(range.end)
            }
            RangeCase::InclusiveInt(range, _) => {
                self.contains_int(*range.start()) && is_between(*range.start(), *range.end(), n)
            }
        }
    }

    /// How many integers are in the range; none where this fits no integer. It is not in rhai.
    pub fn checked_len(&self) -> Option<INT>
        ensures { SomeIff result (length (numbers self.now) < 2 ^ 63) (pos (length (numbers self.now))) }
    {
        if self.is_empty() {
            return Some(0);
        }
        match self {
            RangeCase::ExclusiveInt(range, _) => range.end.checked_sub(range.start),
            RangeCase::InclusiveInt(range, _) => {
                match range.end().checked_sub(*range.start()) {
                    Some(steps) => steps.checked_add(1),
                    None => None,
                }
            }
        }
    }

    /// How many integers are in the range, where this fits an integer.
    pub fn len(&self) -> INT
        requires { length (numbers self.now) < 2 ^ 63 }
        ensures { result ≡ pos (length (numbers self.now)) }
    {
        self.checked_len().unwrap()
    }

    /// Has the range its upper end?
    pub fn is_inclusive(&self) -> bool
        ensures { result ≡ is_closed self.now }
    {
        match self {
            RangeCase::ExclusiveInt(_, _) => false,
            RangeCase::InclusiveInt(_, _) => true,
        }
    }

    /// Where the arm stands in the table.
    pub fn index(&self) -> usize
        ensures { result ≡ index_of self.now }
    {
        match self {
            RangeCase::ExclusiveInt(_, index) | RangeCase::InclusiveInt(_, index) => *index,
        }
    }

    /// From now on the range chooses the arm that stands there.
    pub fn set_index(&mut self, index: usize)
        ensures { self.new ≡ numbered self.old index }
    {
        match self {
            RangeCase::ExclusiveInt(_, old) => *old = index,
            RangeCase::InclusiveInt(_, old) => *old = index,
        }
    }
}

/// Is the float no less than the one and no greater than the other?
fn is_between(start: INT, end: INT, n: FLOAT) -> bool
    ensures { result ≡ between start end n }
{
    nearest_i64_to_f64(start) <= n && n <= nearest_i64_to_f64(end)
}

impl Clone for RangeCase {
    ghost is_clone = { λ x y. y ≡ x };

    fn clone(&self) -> Result<RangeCase, AllocError> {
        match self {
            RangeCase::ExclusiveInt(range, index) => {
                Ok(RangeCase::ExclusiveInt(range.clone()?, *index))
            }
            RangeCase::InclusiveInt(range, index) => {
                Ok(RangeCase::InclusiveInt(range.clone()?, *index))
            }
        }
    }
}

/// No arm as yet: the index is `usize::MAX`.
impl From<Range<INT>> for RangeCase {
    ghost use Rattle.rhai_base.specs.declared.range_case.RangeCase.TheVariants.{ExclusiveInt};

    ghost from_gives = { λ range case. case ≡ ExclusiveInt range (2 ^ 64 - 1) };

    fn from(range: Range<INT>) -> RangeCase {
        RangeCase::ExclusiveInt(range, usize::MAX)
    }
}

/// No arm as yet: the index is `usize::MAX`.
impl From<RangeInclusive<INT>> for RangeCase {
    ghost use Rattle.rhai_base.specs.declared.range_case.RangeCase.TheVariants.{InclusiveInt};

    ghost from_gives = { λ range case. case ≡ InclusiveInt range (2 ^ 64 - 1) };

    fn from(range: RangeInclusive<INT>) -> RangeCase {
        RangeCase::InclusiveInt(range, usize::MAX)
    }
}

/// The integers in the range, ascending. rhai's iterator is boxed.
impl IntoIterator for RangeCase {
    ghost use Rattle.rhai_base.specs.Ranges.{AreNumbersOf, left};

    type Item = INT;

    type IntoIter = RangeCaseIter;

    ghost into_iter_gives = { λ case it. AreNumbersOf case (left it) };

    fn into_iter(self) -> RangeCaseIter {
        RangeCaseIter { range: self }
    }
}

/// Goes over the integers in a range, ascending.
#[derive(Debug, Drop)]
pub struct RangeCaseIter {
    range: RangeCase,
}

impl Iterator for RangeCaseIter {
    ghost use Rattle.std.specs.Iterator.{YieldsFirst, item_count};
    ghost use Rattle.rhai_base.specs.Ranges.{left};

    type Item = INT;

    ghost next_gives = { YieldsFirst left };

    ghost remaining = { item_count left };

    fn next(&mut self) -> Option<INT> {
        match &mut self.range {
            RangeCase::ExclusiveInt(range, _) => range.next(),
            RangeCase::InclusiveInt(range, _) => range.next(),
        }
    }
}
