//! A table without the arms that it doesn't list.
#![tactic(auto, using(ast_types::specs::Reading::shapes))]

ghost use Rattle.std.specs.Prelude.{◌≡◌, ◌∷◌, [], ◌++◌, IfOk, cond, length, map, true};
ghost use Rattle.std.specs.Option.{option_map};
ghost use Rattle.theory_spelling.specs.Listed.{in_order, kept_arms, listed_arms, listed_table, numbered, numbered_case, numbered_range};
ghost use Rattle.ast_types.specs.Reading.{arms_of, case_of, expressions_of, range_of, table_of};
ghost use Rattle.ast_alike.specs.Gaps.{number_by, numbered_place};

use crate::forms::both;
use crate::marks::{Gaps, gaps_of, marks_of};
use crate::order::put_in_order;
use ast_types::{BinaryExpr, SwitchCasesCollection};
use indexmap::IndexMap;
use rhai_base::{CaseBlocksList, Cases, Dynamic, OutOfMemory, RangeCase, Seq};
use std::alloc::Global;

fn kept_if(
    mut kept: Seq<BinaryExpr>,
    is_listed: bool,
    arm: BinaryExpr,
) -> Result<Seq<BinaryExpr>, OutOfMemory>
    ensures { IfOk result (λ arms. arms ≡ cond is_listed (kept ++ arm ∷ []) kept) }
{
    if is_listed {
        kept.push(arm)?;
    }
    Ok(kept)
}

/// The arms that are marked.
fn kept_arms(
    alloc: Global,
    marks: &[bool],
    arms: Seq<BinaryExpr>,
) -> Result<Seq<BinaryExpr>, OutOfMemory>
    requires { length marks.now ≡ length arms }
    ensures { IfOk result (λ kept. arms_of kept ≡ kept_arms marks.now (arms_of arms)) }
{
    let mut rest = arms.into_rest();
    let mut kept = Seq::new(alloc);
    for is_listed in marks {
        if let Some(arm) = rest.next() {
            kept = kept_if(kept, *is_listed, arm)?;
        }
    }
    Ok(kept)
}

fn number_places(gaps: &Gaps, places: &mut [usize])
    ensures { places.new ≡ map (number_by gaps.now) places.old }
{
    for place in places.iter_mut() {
        *place = gaps.number(*place);
    }
}

fn number_cases(alloc: Global, gaps: &Gaps, cases: &mut Cases)
    ensures { map case_of cases.new ≡ map (numbered_case (number_by gaps.now)) (map case_of cases.old) }
{
    let mut entries = cases.replace_map(IndexMap::new(alloc));
    entries.retain(
        |_: &Dynamic, list: &mut CaseBlocksList| -> bool
            ensures { (list.new.blocks ≡ map (number_by gaps.entry.now) list.old.blocks) × (result ≡ true) }
        {
            number_places(gaps, list.blocks.as_mut_slice());
            true
        },
    );
    cases.replace_map(entries);
}

fn number_ranges(gaps: &Gaps, ranges: &mut [RangeCase])
    ensures { ranges.new ≡ map (numbered_place (number_by gaps.now)) ranges.old }
{
    for range in ranges.iter_mut() {
        let number = gaps.number(range.index());
        range.set_index(number);
    }
}

#[tactic(auto, using(base_lists::proofs::Copies::copies))]
fn copy_ranges(ranges: &Seq<RangeCase>) -> Result<Seq<RangeCase>, OutOfMemory>
    ensures { IfOk result (λ rs. rs ≡ ranges.now) }
{
    Ok(ranges.clone()?)
}

/// The ranges with new numbers for their arms.
fn numbered_ranges(gaps: &Gaps, ranges: &Seq<RangeCase>) -> Result<Seq<RangeCase>, OutOfMemory>
    ensures { IfOk result (λ made.
        map range_of made ≡ map (numbered_range (number_by gaps.now)) (map range_of ranges.now)) }
{
    let mut ranges = copy_ranges(ranges)?;
    number_ranges(gaps, ranges.as_mut_slice());
    Ok(ranges)
}

fn numbered_default(gaps: &Gaps, default: Option<usize>) -> Option<usize>
    ensures { result ≡ option_map (number_by gaps.now) default }
{
    match default {
        Some(place) => Some(gaps.number(place)),
        None => None,
    }
}

/// The cases with new numbers for their arms, in order.
fn numbered_cases(alloc: Global, gaps: &Gaps, cases: &Cases) -> Result<Cases, OutOfMemory>
    ensures { IfOk result (λ made. map case_of made ≡ in_order (map (numbered_case (number_by gaps.now)) (map case_of cases.now))) }
{
    let mut cases = cases.clone()?;
    number_cases(alloc, gaps, &mut cases);
    put_in_order(alloc, &mut cases);
    Ok(cases)
}

/// A table with other arms, and new numbers for them.
fn numbered_table(
    alloc: Global,
    table: &SwitchCasesCollection,
    gaps: &Gaps,
    expressions: Seq<BinaryExpr>,
) -> Result<SwitchCasesCollection, OutOfMemory>
    ensures arms { IfOk result (λ t. expressions_of t ≡ expressions) }
    ensures table { IfOk result (λ t. table_of t ≡ numbered (number_by gaps.now) (table_of table.now)) }
{
    let (expressions, cases) = both(expressions, numbered_cases(alloc, gaps, &table.cases))?;
    let ((expressions, cases), ranges) = both(
        (expressions, cases),
        numbered_ranges(gaps, &table.ranges),
    )?;
    let def_case = numbered_default(gaps, table.def_case);
    Ok(SwitchCasesCollection {
        expressions,
        cases,
        ranges,
        def_case,
    })
}

/// A table with those of these arms that it lists in the place of its own, and with its cases in order.
pub(crate) fn listed_table(
    alloc: Global,
    table: &SwitchCasesCollection,
    arms: Seq<BinaryExpr>,
) -> Result<SwitchCasesCollection, OutOfMemory>
    ensures arms { IfOk result (λ t. arms_of (expressions_of t) ≡ listed_arms (table_of table.now) (arms_of arms)) }
    ensures table { IfOk result (λ t. table_of t ≡ listed_table (table_of table.now) (arms_of arms)) }
{
    let len = arms.len();
    let (arms, marks) = both(arms, marks_of(alloc, table, len))?;
    let (arms, gaps) = both(arms, gaps_of(alloc, marks.as_slice()))?;
    let kept = kept_arms(alloc, marks.as_slice(), arms)?;
    numbered_table(alloc, table, &gaps, kept)
}
