//! Tables over a constant subject, of which only what stands for it is kept.

#![tactic(auto, using(ast_types::specs::Reading::shapes))]

ghost use Rattle.std.specs.Prelude.{◌≡◌, None, Some, map, not, true};
ghost use Rattle.std.specs.List.{list_any};
ghost use Rattle.rhai_base.specs.Reading.{value_of};
ghost use Rattle.rhai_base.specs.Value.{is_hashable, same};
ghost use Rattle.theory_meaning.specs.Control.{case_for};
ghost use Rattle.ast_types.specs.Reading.{arms_of, case_of, expressions_of, range_of, table_of};
ghost use Rattle.theory_rewriting.specs.Tables.{left_arms};
ghost use Rattle.theory_rewriting.specs.Narrowing as narrowing;

use crate::arms::is_false;
use crate::shrink::{has_ranges, keep_left, loses_arms};
use crate::tried::{end_of, held_place, left_len};
use ast_nodes::case_list;
use indexmap::IndexMap;
use rhai_ast::{BinaryExpr, CaseBlocksList, SwitchCasesCollection};
use rhai_base::{Cases, Dynamic, RangeCase, Seq};
use std::alloc::Global;
use std::mem::replace;

fn stands_for(key: &Dynamic, subject: &Dynamic) -> bool
    ensures { result ≡ same (value_of key.now) (value_of subject.now) }
{
    subject == key
}

fn any_other(cases: &Cases, subject: &Dynamic) -> bool
    ensures { result ≡ list_any (λ e. not (same (value_of e.0) (value_of subject.now))) cases.now }
{
    cases
        .as_map()
        .iter()
        .any(|(key, _)| !stands_for(key, subject))
}

/// Whether a list stands for another value.
fn has_other(cases: &Cases, subject: &Dynamic) -> bool
    ensures { result ≡ narrowing.has_other (value_of subject.now) (map case_of cases.now) }
{
    any_other(cases, subject)
}

/// Whether a range goes.
fn loses_ranges(arms: &[BinaryExpr], ranges: &[RangeCase], subject: &Dynamic) -> bool
    ensures { result ≡ narrowing.loses_ranges (arms_of arms.now) (value_of subject.now) (map range_of ranges.now) }
{
    left_len(arms, ranges, |range| held_place(range, subject)) < ranges.len()
}

/// Whether something goes where a list stands for the subject.
fn list_narrows(table: &SwitchCasesCollection, places: &[usize], subject: &Dynamic) -> bool
    ensures { result
        ≡ narrowing.narrows_by (arms_of (expressions_of table.now)) (table_of table.now) (value_of subject.now)
        (Some places.now) }
{
    if loses_arms(table.expressions.as_slice(), places) {
        return true;
    }
    if has_ranges(table.ranges.as_slice()) {
        return true;
    }
    has_other(&table.cases, subject)
}

/// Whether something goes where none does.
fn ranges_narrow(table: &SwitchCasesCollection, subject: &Dynamic) -> bool
    ensures { result
        ≡ narrowing.narrows_by (arms_of (expressions_of table.now)) (table_of table.now) (value_of subject.now) None }
{
    if !table.cases.as_map().is_empty() {
        return true;
    }
    loses_ranges(
        table.expressions.as_slice(),
        table.ranges.as_slice(),
        subject,
    )
}

/// Whether something goes over this subject.
pub(crate) fn narrows(table: &SwitchCasesCollection, subject: &Dynamic) -> bool
    requires { is_hashable (value_of subject.now) ≡ true }
    ensures { result
        ≡ narrowing.narrows_by (arms_of (expressions_of table.now)) (table_of table.now) (value_of subject.now)
        (case_for (table_of table.now).cases (value_of subject.now)) }
{
    match case_list(table, subject) {
        Some(list) => list_narrows(table, list.blocks.as_slice(), subject),
        None => ranges_narrow(table, subject),
    }
}

/// Keeps the list that stands for the subject, with the arms of it that are left.
pub(crate) fn only_cases(alloc: Global, arms: &[BinaryExpr], cases: &mut Cases, subject: &Dynamic)
    ensures { map case_of cases.new
        ≡ narrowing.only_cases (arms_of arms.now) (value_of subject.now) (map case_of cases.old) }
{
    let mut map = cases.replace_map(IndexMap::new(alloc));
    map.retain(
        |key: &Dynamic, list: &mut CaseBlocksList| -> bool
            ensures { (list.new.blocks ≡ left_arms (arms_of arms.entry.now) list.old.blocks)
                × (result ≡ same (value_of key.now) (value_of subject.entry.now)) }
        {
            keep_left(alloc, arms, list);
            stands_for(key, subject)
        },
    );
    cases.replace_map(map);
}

/// Keeps the ranges that hold the subject, as far as they are tried.
pub(crate) fn only_ranges(
    alloc: Global,
    arms: &[BinaryExpr],
    ranges: &mut Seq<RangeCase>,
    subject: &Dynamic,
)
    ensures { map range_of ranges.new
        ≡ narrowing.only_ranges (arms_of arms.now) (value_of subject.now) (map range_of ranges.old) }
{
    let mut left = replace(ranges, Seq::new(alloc)).into_vec();
    left.retain(|range| range.contains(subject) && !is_false(arms, range.index()));
    left.truncate(end_of(arms, left.as_slice(), |range| range.index()));
    *ranges = Seq::from_vec(left);
}
