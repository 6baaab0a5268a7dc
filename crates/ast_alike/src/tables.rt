//! The table of a `switch` over arms that are bare.
#![tactic(auto, using(ast_types::specs::Reading::shapes))]

ghost use Rattle.std.specs.Prelude.{◌≡◌, IfOk, OnOk};
ghost use Rattle.theory_spelling.specs.Bare.{has_true_default, with_condition_at, with_default};
ghost use Rattle.theory_spelling.specs.Listed.{listed_arms, listed_table};
ghost use Rattle.theory_meaning.specs.Shape.{condition_at};
ghost use Rattle.ast_types.specs.Reading.{arms_of, expressions_of, table_of};

use crate::forms::{as_condition, is_true};
use crate::listed::listed_table;
use ast_types::{BinaryExpr, SwitchCasesCollection};
use rhai_base::{OutOfMemory, Seq};
use std::alloc::Global;
use std::mem::take;

/// A table with those of these arms that it lists in the place of its own, and with its cases in order. Braces stay
/// around what would make its default literally true.
pub(crate) fn table_with(
    alloc: Global,
    table: &SwitchCasesCollection,
    arms: Seq<BinaryExpr>,
) -> Result<SwitchCasesCollection, OutOfMemory>
    ensures arms { IfOk result (λ t.
        arms_of (expressions_of t)
        ≡ listed_arms (table_of table.now)
        (with_default (has_true_default (arms_of (expressions_of table.now)) (table_of table.now).default) (arms_of arms)
        (table_of table.now).default)) }
    ensures table { IfOk result (λ t.
        table_of t
        ≡ listed_table (table_of table.now)
        (with_default (has_true_default (arms_of (expressions_of table.now)) (table_of table.now).default) (arms_of arms)
        (table_of table.now).default)) }
{
    let had = has_true_default(table);
    let arms = with_default(alloc, had, arms, table.def_case)?;
    listed_table(alloc, table, arms)
}

/// Whether the condition of its default is literally true, or it has none.
fn has_true_default(table: &SwitchCasesCollection) -> bool
    ensures { result ≡ has_true_default (arms_of (expressions_of table.now)) (table_of table.now).default }
{
    match table.def_case {
        None => true,
        Some(at) => condition_at(table.expressions.as_slice(), at),
    }
}

fn condition_at(arms: &[BinaryExpr], at: usize) -> bool
    ensures { result ≡ condition_at (arms_of arms.now) at }
{
    match arms.get(at) {
        Some(arm) => is_true(&arm.lhs),
        None => false,
    }
}

/// Arms whose default was literally true or was not.
fn with_default(
    alloc: Global,
    had: bool,
    mut arms: Seq<BinaryExpr>,
    default: Option<usize>,
) -> Result<Seq<BinaryExpr>, OutOfMemory>
    ensures { IfOk result (λ made. arms_of made ≡ with_default had (arms_of arms) default) }
{
    if let Some(at) = default {
        mend_condition(alloc, had, &mut arms, at)?;
    }
    Ok(arms)
}

fn mend_condition(
    alloc: Global,
    had: bool,
    arms: &mut Seq<BinaryExpr>,
    at: usize,
) -> Result<(), OutOfMemory>
    ensures { OnOk result (arms_of arms.new ≡ with_condition_at had (arms_of arms.old) at) }
{
    if let Some(arm) = arms.get_mut(at) {
        arm.lhs = as_condition(alloc, had, take(&mut arm.lhs))?;
    }
    Ok(())
}
