//! Ranges, as the operators `..` and `..=` make them.
#![tactic(auto, using(crate::specs::Reading::kinds, crate::proofs::Ranges::range_row))]

ghost use Rattle.std.specs.Prelude.{◌≡◌};
ghost use Rattle.rhai_base.specs.Operators.{binary};
ghost use Rattle.rhai_base.specs.Builtin.{answered, computed_of, end_or, range_between, range_operator, range_value};
ghost use Rattle.rhai_base.specs.Reading.{value_of};

use crate::dynamic::{Dynamic, INT};
use base_tokens::Fault;

/// What the table holds for `..=` where the end belongs to the range, or else for `..`. One end may be
/// left out, as unit: a missing start is 0, a missing end the greatest integer.
pub(super) fn range_of(inclusive: bool, x: &Dynamic, y: &Dynamic) -> Option<Result<Dynamic, Fault>>
    ensures { computed_of result ≡ binary (range_operator inclusive) (value_of x.now) (value_of y.now) }
{
    match range_between(inclusive, x, y) {
        Some(range) => Some(Ok(range)),
        None => None,
    }
}

fn range_between(inclusive: bool, x: &Dynamic, y: &Dynamic) -> Option<Dynamic>
    ensures { answered result ≡ range_between inclusive (value_of x.now) (value_of y.now) }
{
    if x.is_unit() && y.is_unit() {
        return None;
    }
    let start = end_or(0, x)?;
    let end = end_or(INT::MAX, y)?;
    Some(new_range(inclusive, start, end))
}

fn new_range(inclusive: bool, start: INT, end: INT) -> Dynamic
    ensures { value_of result ≡ range_value inclusive start end }
{
    if inclusive {
        Dynamic::RangeInclusive(start, end)
    } else {
        Dynamic::Range(start, end)
    }
}

/// An end of a range, where unit stands for one that is left out.
fn end_or(missing: INT, value: &Dynamic) -> Option<INT>
    ensures { result ≡ end_or missing (value_of value.now) }
{
    match value {
        Dynamic::Unit => Some(missing),
        Dynamic::Int(n) => Some(*n),
        Dynamic::Bool(_)
        | Dynamic::Float(_)
        | Dynamic::Char(_)
        | Dynamic::Str(_)
        | Dynamic::Array(_)
        | Dynamic::Map(_)
        | Dynamic::FnPtr(_)
        | Dynamic::Range(_, _)
        | Dynamic::RangeInclusive(_, _) => None,
    }
}
