//! Which arms a table lists, and their numbers among those.
#![tactic(auto, using(ast_types::specs::Reading::shapes))]

ghost use Rattle.std.specs.Prelude.{◌≡◌, [], ◌∷◌, IfOk, cond, map, replicate, false};
ghost use Rattle.theory_meaning.specs.Walk.{arms_of_cases, arms_of_ranges, arm_of_default};
ghost use Rattle.theory_spelling.specs.Listed.{marked, marks_of, number_in};
ghost use Rattle.ast_types.specs.Reading.{case_of, range_of, table_of};
ghost use Rattle.ast_alike.specs.Gaps.{number_by};

use ast_types::SwitchCasesCollection;
use rhai_base::{Cases, OutOfMemory, RangeCase};
use std::alloc::Global;

/// A mark for each of so many arms, none of which is set.
fn no_marks(alloc: Global, len: usize) -> Result<Vec<bool>, OutOfMemory>
    ensures { IfOk result (λ m. m.items ≡ replicate len false) }
{
    let mut marks = Vec::with_capacity(alloc, len)?;
    while marks.len() < len {
        marks.push(false)?;
    }
    Ok(marks)
}

fn mark(marks: &mut Vec<bool>, place: usize)
    ensures { marks.new.items ≡ marked marks.old.items (place ∷ []) }
{
    if let Some(mark) = marks.get_mut(place) {
        *mark = true;
    }
}

fn mark_all(marks: &mut Vec<bool>, places: &[usize])
    ensures { marks.new.items ≡ marked marks.old.items places.now }
{
    for place in places {
        mark(marks, *place);
    }
}

fn mark_cases(marks: &mut Vec<bool>, cases: &Cases)
    ensures { marks.new.items ≡ marked marks.old.items (arms_of_cases (map case_of cases.now)) }
{
    for case in cases.as_map() {
        mark_all(marks, case.1.blocks.as_slice());
    }
}

fn mark_ranges(marks: &mut Vec<bool>, ranges: &[RangeCase])
    ensures { marks.new.items ≡ marked marks.old.items (arms_of_ranges (map range_of ranges.now)) }
{
    for range in ranges {
        mark(marks, range.index());
    }
}

fn mark_default(marks: &mut Vec<bool>, default: Option<usize>)
    ensures { marks.new.items ≡ marked marks.old.items (arm_of_default default) }
{
    if let Some(place) = default {
        mark(marks, place);
    }
}

/// For each of so many arms whether the table lists it.
pub(crate) fn marks_of(
    alloc: Global,
    table: &SwitchCasesCollection,
    len: usize,
) -> Result<Vec<bool>, OutOfMemory>
    ensures { IfOk result (λ m. m.items ≡ marks_of (table_of table.now) len) }
{
    let mut marks = no_marks(alloc, len)?;
    mark_cases(&mut marks, &table.cases);
    mark_ranges(&mut marks, table.ranges.as_slice());
    mark_default(&mut marks, table.def_case);
    Ok(marks)
}

/// How many arms that are not marked stand before each arm, and how many there are.
#[derive(Drop)]
pub(crate) struct Gaps {
    before: Vec<usize>,
    all: usize,
}

fn gap_of(is_listed: bool) -> usize
    ensures { result ≡ cond is_listed 0 1 }
{
    if is_listed { 0 } else { 1 }
}

/// The gaps of these marks, by which the marked arms have their numbers.
pub(crate) fn gaps_of(alloc: Global, marks: &[bool]) -> Result<Gaps, OutOfMemory>
    ensures { IfOk result (λ g. number_by g ≡ number_in marks.now) }
{
    let mut before = Vec::with_capacity(alloc, marks.len())?;
    let mut all: usize = 0;
    for is_listed in marks {
        before.push(all)?;
        all += gap_of(*is_listed);
    }
    Ok(Gaps { before, all })
}

impl Gaps {
    /// The number of an arm among those that are marked.
    pub(crate) fn number(&self, place: usize) -> usize
        ensures { result ≡ number_by self.now place }
    {
        match self.before.get(place) {
            Some(gap) => place.saturating_sub(*gap),
            None => place.saturating_sub(self.all),
        }
    }
}
