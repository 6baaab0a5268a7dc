//! Arms that no list names: their answers are never asked for.

#![tactic(auto, using(ast_types::specs::Reading::shapes))]

ghost use Rattle.std.specs.Prelude.{◌≡◌, [], ◌∷◌, IfOk, length, map, replicate, false};
ghost use Rattle.theory_meaning.specs.Walk.{arms_of_cases, arms_of_ranges, arm_of_default, listed};
ghost use Rattle.ast_types.specs.Reading.{arms_of, case_of, expr_of, expressions_of, range_of, table_of};
ghost use Rattle.opt_switch.specs.Forgetting as forgetting;

use ast_nodes::put_expr;
use rhai_ast::{BinaryExpr, Expr, ExprQueries, SwitchCasesCollection};
use rhai_base::{Cases, OutOfMemory, RangeCase, Seq};
use std::alloc::Global;

/// A mark for each of so many arms, none of which is set.
fn no_marks(alloc: Global, len: usize) -> Result<Vec<bool>, OutOfMemory>
    ensures { IfOk result (λ m. m.items ≡ replicate len false) }
{
    let mut marks = Vec::with_capacity(alloc, len)?;
    while marks.len() < len {
        marks.push(false)?;
    }
    Ok(marks)
}

fn mark(marks: &mut Vec<bool>, place: usize)
    ensures { marks.new.items ≡ forgetting.marked marks.old.items (place ∷ []) }
{
    if let Some(mark) = marks.get_mut(place) {
        *mark = true;
    }
}

fn mark_all(marks: &mut Vec<bool>, places: &[usize])
    ensures { marks.new.items ≡ forgetting.marked marks.old.items places.now }
{
    for place in places {
        mark(marks, *place);
    }
}

fn mark_cases(marks: &mut Vec<bool>, cases: &Cases)
    ensures { marks.new.items ≡ forgetting.marked marks.old.items (arms_of_cases (map case_of cases.now)) }
{
    for case in cases.as_map() {
        mark_all(marks, case.1.blocks.as_slice());
    }
}

fn mark_ranges(marks: &mut Vec<bool>, ranges: &[RangeCase])
    ensures { marks.new.items ≡ forgetting.marked marks.old.items (arms_of_ranges (map range_of ranges.now)) }
{
    for range in ranges {
        mark(marks, range.index());
    }
}

fn mark_default(marks: &mut Vec<bool>, default: Option<usize>)
    ensures { marks.new.items ≡ forgetting.marked marks.old.items (arm_of_default default) }
{
    if let Some(place) = default {
        mark(marks, place);
    }
}

/// For each arm whether the table names it.
pub(crate) fn listed_arms(
    alloc: Global,
    table: &SwitchCasesCollection,
) -> Result<Vec<bool>, OutOfMemory>
    ensures { IfOk result (λ m.
        m.items
        ≡ forgetting.marked (replicate (length (expressions_of table.now)) false) (listed (table_of table.now))) }
{
    let mut marks = no_marks(alloc, table.expressions.len())?;
    mark_cases(&mut marks, &table.cases);
    mark_ranges(&mut marks, table.ranges.as_slice());
    mark_default(&mut marks, table.def_case);
    Ok(marks)
}

/// Puts unit in the place of an arm's answer, unless the arm is listed; says whether there was another answer.
fn forget(arm: &mut BinaryExpr, is_listed: bool) -> bool
    ensures condition { expr_of arm.new.lhs ≡ expr_of arm.old.lhs }
    ensures answer { expr_of arm.new.rhs ≡ forgetting.answer_left is_listed (expr_of arm.old.rhs) }
    ensures loses { result ≡ forgetting.loses_answer is_listed (expr_of arm.old.rhs) }
{
    if is_listed || arm.rhs.is_unit() {
        return false;
    }
    let pos = arm.rhs.position();
    put_expr(&mut arm.rhs, Expr::Unit(pos));
    true
}

/// Forgets the answers of arms that are not marked, and says whether there was one.
pub(crate) fn forget_answers(arms: &mut Seq<BinaryExpr>, marks: &[bool]) -> bool
    ensures arms { arms_of arms.new ≡ forgetting.forgets marks.now (arms_of arms.old) }
    ensures loses { result ≡ forgetting.loses_answers marks.now (arms_of arms.old) }
{
    let mut loses = false;
    for (place, is_listed) in marks.iter().enumerate() {
        if let Some(arm) = arms.get_mut(place) {
            loses |= forget(arm, *is_listed);
        }
    }
    loses
}
