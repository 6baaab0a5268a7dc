//! Tables of two `switch`es.
#![tactic(auto, using(ast_types::specs::Reading::shapes, crate::proofs::Items::tables))]

ghost use Rattle.std.specs.Prelude.{◌≡◌, map};
ghost use Rattle.ast_types.specs.Reading.{case_of, range_of, table_of};
ghost use Rattle.ast_same.specs.Alike.{alike_case, alike_cases, alike_default, alike_range, alike_ranges, alike_table, end_of, is_inclusive, start_of};

use ast_types::SwitchCasesCollection;
use rhai_base::{Cases, INT, RangeCase};

/// Cases, ranges and default.
pub(crate) fn alike_table(first: &SwitchCasesCollection, second: &SwitchCasesCollection) -> bool
    ensures { result ≡ alike_table (table_of first.now) (table_of second.now) }
{
    alike_cases(&first.cases, &second.cases)
        && alike_ranges(first.ranges.as_slice(), second.ranges.as_slice())
        && alike_default(first.def_case, second.def_case)
}

fn alike_cases(first: &Cases, second: &Cases) -> bool
    ensures { result ≡ alike_cases (map case_of first.now) (map case_of second.now) }
{
    let mut rest = second.as_map().iter();
    for (value, arms) in first.as_map() {
        let Some((other, others)) = rest.next() else {
            return false;
        };
        let places = arms.blocks.as_slice() == others.blocks.as_slice();
        if !(value.is_equal(other) && places) {
            return false;
        }
    }
    rest.next().is_none()
}

fn alike_ranges(first: &[RangeCase], second: &[RangeCase]) -> bool
    ensures { result ≡ alike_ranges (map range_of first.now) (map range_of second.now) }
{
    let mut rest = second;
    for range in first {
        let Some((other, others)) = rest.split_first() else {
            return false;
        };
        if !alike_range(range, other) {
            return false;
        }
        rest = others;
    }
    rest.is_empty()
}

/// A range that was iterated over to its end is like any other that holds nothing and ends there.
fn alike_range(first: &RangeCase, second: &RangeCase) -> bool
    ensures { result ≡ alike_range (range_of first.now) (range_of second.now) }
{
    let (is_inclusive, start, end) = ends(first);
    let (other_is_inclusive, other_start, other_end) = ends(second);
    is_inclusive == other_is_inclusive
        && start == other_start
        && end == other_end
        && first.index() == second.index()
}

/// Whether a range has its end, and its ends. One that was iterated over to its end holds nothing.
fn ends(range: &RangeCase) -> (bool, INT, INT)
    ensures inclusive { result.0 ≡ is_inclusive (range_of range.now).range }
    ensures start { result.1 ≡ start_of (range_of range.now).range }
    ensures end { result.2 ≡ end_of (range_of range.now).range }
{
    match range {
        RangeCase::ExclusiveInt(range, _) => (false, range.start, range.end),
        RangeCase::InclusiveInt(range, _) => {
            let (start, end) = (*range.start(), *range.end());
            if *range == (start..=end) {
                (true, start, end)
            } else {
                (false, end, end)
            }
        }
    }
}

/// The places of default arms.
fn alike_default(first: Option<usize>, second: Option<usize>) -> bool
    ensures { result ≡ alike_default first second }
{
    match (first, second) {
        (Some(place), Some(other)) => place == other,
        (None, None) => true,
        _ => false,
    }
}
