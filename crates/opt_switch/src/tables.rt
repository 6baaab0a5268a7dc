//! The rules by which the table of a `switch` gets smaller, in its own memory.

#![tactic(auto, using(ast_types::specs::Reading::shapes))]

ghost use Rattle.std.specs.Prelude.{◌≡◌, IfOk, true};
ghost use Rattle.rhai_base.specs.Reading.{value_of};
ghost use Rattle.rhai_base.specs.Value.{is_hashable};
ghost use Rattle.opt_base.specs.State.{progress};
ghost use Rattle.theory_meaning.specs.Control.{case_for};
ghost use Rattle.ast_types.specs.Reading.{arms_of, expressions_of, stmt_of, table_of};
ghost use Rattle.theory_rewriting.specs.Narrowing as narrowing;
ghost use Rattle.theory_rewriting.specs.Shrinking as shrinking;
ghost use Rattle.opt_switch.specs.Steps as steps;

use crate::forget::{forget_answers, listed_arms};
use crate::narrow::{narrows, only_cases, only_ranges};
use crate::shrink::{has_ranges, shrink_cases, shrink_ranges, shrinks};
use ast_nodes::case_list;
use indexmap::IndexMap;
use opt_base::{OptimizerState, note_fired};
use rhai_ast::{Literals, Stmt, SwitchBlock, SwitchCasesCollection};
use rhai_base::{Cases, Dynamic, OutOfMemory, Seq};
use std::alloc::Global;

fn shrink_table(alloc: Global, table: &mut SwitchCasesCollection)
    ensures arms { expressions_of table.new ≡ expressions_of table.old }
    ensures table { table_of table.new ≡ shrinking.shrunk (arms_of (expressions_of table.old)) (table_of table.old) }
{
    shrink_ranges(alloc, table.expressions.as_slice(), &mut table.ranges);
    let keeps_empty = has_ranges(table.ranges.as_slice());
    shrink_cases(
        alloc,
        table.expressions.as_slice(),
        &mut table.cases,
        keeps_empty,
    );
}

/// Over any subject: false arms and ranges go, arms behind a true one in a list, and empty lists.
fn switch_shrinks(
    alloc: Global,
    state: &mut OptimizerState<'_>,
    table: &mut SwitchCasesCollection,
) -> bool
    ensures arms { expressions_of table.new ≡ expressions_of table.old }
    ensures noted { steps.Noted result (progress state.old) (progress state.new) }
    ensures shrinks { steps.Shrinks result (arms_of (expressions_of table.old)) (table_of table.old)
        (table_of table.new) }
{
    if !shrinks(table) {
        return false;
    }
    note_fired(state);
    shrink_table(alloc, table);
    true
}

fn narrow_table(alloc: Global, table: &mut SwitchCasesCollection, subject: &Dynamic)
    requires { is_hashable (value_of subject.now) ≡ true }
    ensures arms { expressions_of table.new ≡ expressions_of table.old }
    ensures table { table_of table.new
        ≡ narrowing.narrowed_by (arms_of (expressions_of table.old)) (table_of table.old) (value_of subject.now)
        (case_for (table_of table.old).cases (value_of subject.now)) }
{
    if case_list(table, subject).is_some() {
        only_cases(
            alloc,
            table.expressions.as_slice(),
            &mut table.cases,
            subject,
        );
        table.ranges = Seq::new(alloc);
    } else {
        table.cases = Cases::from_map(IndexMap::new(alloc));
        only_ranges(
            alloc,
            table.expressions.as_slice(),
            &mut table.ranges,
            subject,
        );
    }
}

/// Over a constant: of its table what stands for it alone, and of that the arms that are left.
fn switch_narrows(
    alloc: Global,
    state: &mut OptimizerState<'_>,
    table: &mut SwitchCasesCollection,
    subject: &Dynamic,
) -> bool
    ensures arms { expressions_of table.new ≡ expressions_of table.old }
    ensures noted { steps.Noted result (progress state.old) (progress state.new) }
    ensures narrows { steps.Narrows result (arms_of (expressions_of table.old)) (value_of subject.now)
        (table_of table.old) (table_of table.new) }
{
    if !subject.is_hashable() || !narrows(table, subject) {
        return false;
    }
    note_fired(state);
    narrow_table(alloc, table, subject);
    true
}

fn narrow_block(
    alloc: Global,
    state: &mut OptimizerState<'_>,
    switch: &mut SwitchBlock,
) -> Result<bool, OutOfMemory>
    ensures { IfOk result (λ fired.
        steps.TableStep steps.IsNarrow fired (progress state.old) (progress state.new) (steps.switch_of switch.old)
        (steps.switch_of switch.new)) }
{
    match switch.expr.constant_value(alloc)? {
        Some(subject) => Ok(switch_narrows(alloc, state, &mut switch.cases, &subject)),
        None => Ok(false),
    }
}

/// The answers of arms that no list names are unit.
fn switch_forgets(
    alloc: Global,
    state: &mut OptimizerState<'_>,
    table: &mut SwitchCasesCollection,
) -> Result<bool, OutOfMemory>
    ensures { IfOk result (λ fired.
        (table_of table.new ≡ table_of table.old)
        × steps.Forgets fired (progress state.old) (progress state.new) (table_of table.old)
        (arms_of (expressions_of table.old)) (arms_of (expressions_of table.new))) }
{
    let marks = listed_arms(alloc, table)?;
    if !forget_answers(&mut table.expressions, marks.as_slice()) {
        return Ok(false);
    }
    note_fired(state);
    Ok(true)
}

fn step_block(
    alloc: Global,
    state: &mut OptimizerState<'_>,
    switch: &mut SwitchBlock,
) -> Result<bool, OutOfMemory>
    ensures { IfOk result (λ fired.
        steps.TableStep steps.IsSmall fired (progress state.old) (progress state.new) (steps.switch_of switch.old)
        (steps.switch_of switch.new)) }
{
    if narrow_block(alloc, state, switch)? {
        return Ok(true);
    }
    if switch_shrinks(alloc, state, &mut switch.cases) {
        return Ok(true);
    }
    switch_forgets(alloc, state, &mut switch.cases)
}

/// Makes the table of a `switch` smaller by the rule that fires at it, if one does.
pub(crate) fn step_table(
    alloc: Global,
    state: &mut OptimizerState<'_>,
    statement: &mut Stmt,
) -> Result<bool, OutOfMemory>
    ensures { IfOk result (λ fired.
        steps.TableStep steps.IsSmall fired (progress state.old) (progress state.new) (stmt_of statement.old)
        (stmt_of statement.new)) }
{
    match statement {
        Stmt::Switch(switch, _) => step_block(alloc, state, switch.get_mut()),
        _ => Ok(false),
    }
}
