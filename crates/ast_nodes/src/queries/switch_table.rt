//! The table of a `switch`: what makes parts no table.

#![tactic(auto, using(ast_types::specs::Reading::shapes, rhai_base::specs::Reading::kinds))]

ghost use Rattle.std.specs.Prelude.{◌≡◌, ◌==◌, nat_lt};
ghost use Rattle.std.specs.List.{list_all, list_any};
ghost use Rattle.theory_meaning.specs.Shape as shape;
ghost use Rattle.ast_nodes.specs.SwitchTables as tables;
ghost use Rattle.ast_types.specs.Reading.{arms_of, expressions_of, table_of};

use crate::queries::constants::is_literally;
use ast_types::{BinaryExpr, SwitchCasesCollection};
use rhai_base::{AstError, Cases, RangeCase};

/// Whether it is a table: what `table_refusal` does not refuse.
pub fn is_table(table: &SwitchCasesCollection) -> bool
    ensures { result ≡ shape.is_table (arms_of (expressions_of table.now)) (table_of table.now) }
{
    let arms = table.expressions.as_slice();
    let ranges = table.ranges.as_slice();
    table_refusal(arms, &table.cases, ranges, table.def_case).is_none()
}

/// Why these parts make no table, in this order: a key that holds a pointer to a function; a place past the table;
/// a default whose condition is not literally `true`; a default that a case or a range names too.
pub fn table_refusal(
    arms: &[BinaryExpr],
    cases: &Cases,
    ranges: &[RangeCase],
    default: Option<usize>,
) -> Option<AstError>
    ensures { result ≡ tables.refusal arms.now cases.now ranges.now default }
{
    if !are_keys(cases) {
        return Some(AstError::SwitchKey);
    }
    if !(are_within(cases, arms.len()) && are_ranges_within(ranges, arms.len())) {
        return Some(AstError::SwitchIndex);
    }
    default_refusal(arms, cases, ranges, default?)
}

/// Why an arm is no default.
fn default_refusal(
    arms: &[BinaryExpr],
    cases: &Cases,
    ranges: &[RangeCase],
    place: usize,
) -> Option<AstError>
    ensures { result ≡ tables.default_refusal arms.now cases.now ranges.now place }
{
    let Some(arm) = arms.get(place) else {
        return Some(AstError::SwitchIndex);
    };
    if !is_literally(&arm.lhs, true) {
        return Some(AstError::SwitchDefaultCondition);
    }
    if cases_name(cases, place) || ranges_name(ranges, place) {
        return Some(AstError::SwitchDefaultShared);
    }
    None
}

fn are_keys(cases: &Cases) -> bool
    ensures { result ≡ tables.are_keys cases.now }
{
    cases.as_map().iter().all(|(key, _)| key.is_hashable())
}

fn are_within(cases: &Cases, len: usize) -> bool
    ensures { result ≡ tables.lists_within len cases.now }
{
    cases
        .as_map()
        .iter()
        .all(|(_, list)| are_below(list.blocks.as_slice(), len))
}

fn cases_name(cases: &Cases, arm: usize) -> bool
    ensures { result ≡ tables.lists_name arm cases.now }
{
    cases
        .as_map()
        .iter()
        .any(|(_, list)| is_among(list.blocks.as_slice(), arm))
}

fn are_below(places: &[usize], len: usize) -> bool
    ensures { result ≡ list_all (λ i. nat_lt i len) places.now }
{
    places.iter().all(|place| *place < len)
}

fn is_among(places: &[usize], arm: usize) -> bool
    ensures { result ≡ list_any (λ i. i == arm) places.now }
{
    places.iter().any(|place| *place == arm)
}

fn are_ranges_within(ranges: &[RangeCase], len: usize) -> bool
    ensures { result ≡ tables.ranges_within len ranges.now }
{
    ranges.iter().all(|range| range.index() < len)
}

fn ranges_name(ranges: &[RangeCase], arm: usize) -> bool
    ensures { result ≡ tables.ranges_name arm ranges.now }
{
    ranges.iter().any(|range| range.index() == arm)
}
