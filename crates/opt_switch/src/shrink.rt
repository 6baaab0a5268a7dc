//! Tables of which something goes whatever the subject is: false arms and ranges, arms behind a true one, and lists
//! that are empty then.

#![tactic(auto, using(ast_types::specs::Reading::shapes))]

ghost use Rattle.std.specs.Prelude.{◌≡◌, map};
ghost use Rattle.std.specs.List.{list_any};
ghost use Rattle.ast_types.specs.Reading.{arms_of, case_of, expressions_of, range_of, table_of};
ghost use Rattle.theory_rewriting.specs.Tables.{left_arms};
ghost use Rattle.theory_rewriting.specs.Shrinking as shrinking;
ghost use Rattle.theory_rewriting.specs.Shrinking.{AreDistinct};

use crate::arms::is_false;
use crate::tried::{end_of, left_len};
use indexmap::IndexMap;
use rhai_ast::{BinaryExpr, CaseBlocksList, SwitchCasesCollection};
use rhai_base::{Cases, Dynamic, RangeCase, Seq};
use std::alloc::Global;
use std::mem::replace;

/// Whether an arm of a list goes.
pub(crate) fn loses_arms(arms: &[BinaryExpr], places: &[usize]) -> bool
    ensures { result ≡ shrinking.loses_arms (arms_of arms.now) places.now }
{
    left_len(arms, places, |place| Some(*place)) < places.len()
}

/// Whether an arm of a list goes, or the list.
fn list_shrinks(arms: &[BinaryExpr], places: &[usize], keeps_empty: bool) -> bool
    ensures { result ≡ shrinking.list_shrinks (arms_of arms.now) keeps_empty places.now }
{
    loses_arms(arms, places) || (!keeps_empty && places.is_empty())
}

fn any_shrinks(arms: &[BinaryExpr], cases: &Cases, keeps_empty: bool) -> bool
    ensures any { result ≡ list_any (λ e. shrinking.list_shrinks (arms_of arms.now) keeps_empty e.1.blocks) cases.now }
    ensures distinct { AreDistinct (map case_of cases.now) }
{
    cases.as_map().iter().any(|(_, list)| list_shrinks(arms, list.blocks.as_slice(), keeps_empty))
}

fn lists_shrink(arms: &[BinaryExpr], cases: &Cases, keeps_empty: bool) -> bool
    ensures shrink { result ≡ shrinking.lists_shrink (arms_of arms.now) keeps_empty (map case_of cases.now) }
    ensures distinct { AreDistinct (map case_of cases.now) }
{
    any_shrinks(arms, cases, keeps_empty)
}

/// Whether there are ranges.
pub(crate) fn has_ranges(ranges: &[RangeCase]) -> bool
    ensures { result ≡ shrinking.has_some (map range_of ranges.now) }
{
    !ranges.is_empty()
}

fn has_false(arms: &[BinaryExpr], ranges: &[RangeCase]) -> bool
    ensures { result ≡ shrinking.has_false (arms_of arms.now) (map range_of ranges.now) }
{
    for range in ranges {
        if is_false(arms, range.index()) {
            return true;
        }
    }
    false
}

/// Whether something goes of a table.
pub(crate) fn shrinks(table: &SwitchCasesCollection) -> bool
    ensures shrinks { result ≡ shrinking.shrinks (arms_of (expressions_of table.now)) (table_of table.now) }
    ensures distinct { AreDistinct (table_of table.now).cases }
{
    let arms = table.expressions.as_slice();
    let ranges = table.ranges.as_slice();
    let lists_shrink = lists_shrink(arms, &table.cases, has_ranges(ranges));
    let has_false = has_false(arms, ranges);
    lists_shrink || has_false
}

/// Keeps of a list the arms that are left.
pub(crate) fn keep_left(alloc: Global, arms: &[BinaryExpr], list: &mut CaseBlocksList)
    ensures { list.new.blocks ≡ left_arms (arms_of arms.now) list.old.blocks }
{
    let mut places = replace(&mut list.blocks, Seq::new(alloc)).into_vec();
    places.truncate(end_of(arms, places.as_slice(), |place| *place));
    places.retain(|place| !is_false(arms, *place));
    list.blocks = Seq::from_vec(places);
}

pub(crate) fn shrink_ranges(alloc: Global, arms: &[BinaryExpr], ranges: &mut Seq<RangeCase>)
    ensures { map range_of ranges.new ≡ shrinking.left_ranges (arms_of arms.now) (map range_of ranges.old) }
{
    let mut left = replace(ranges, Seq::new(alloc)).into_vec();
    left.retain(|range| !is_false(arms, range.index()));
    *ranges = Seq::from_vec(left);
}

pub(crate) fn shrink_cases(alloc: Global, arms: &[BinaryExpr], cases: &mut Cases, keeps_empty: bool)
    ensures { map case_of cases.new ≡ shrinking.left_cases (arms_of arms.now) keeps_empty (map case_of cases.old) }
{
    let mut map = cases.replace_map(IndexMap::new(alloc));
    map.retain(
        |_: &Dynamic, list: &mut CaseBlocksList| -> bool
            ensures { (list.new.blocks ≡ left_arms (arms_of arms.entry.now) list.old.blocks)
                × (result ≡ shrinking.stays keeps_empty list.new.blocks) }
        {
            keep_left(alloc, arms, list);
            keeps_empty || !list.blocks.is_empty()
        },
    );
    cases.replace_map(map);
}
