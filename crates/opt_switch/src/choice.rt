//! Which arms of a `switch` are left to be tried for a value.

#![tactic(auto, using(ast_types::specs::Reading::shapes))]

ghost use Rattle.std.specs.Prelude.{◌≡◌, ℕ, Option};
ghost use Rattle.std.specs.List.{filter_map};
ghost use Rattle.rhai_base.specs.Reading.{value_of};
ghost use Rattle.theory_meaning.specs.Control.{chosen};
ghost use Rattle.ast_types.specs.Reading.{arms_of, expressions_of, table_of};
ghost use Rattle.theory_rewriting.specs.Tables.{left_arms};
ghost use Rattle.opt_switch.specs.Choices as choices;
ghost use Rattle.opt_switch.specs.Places.{Tells};

use crate::arms::decided;
use crate::tried::held_place;
use ast_nodes::case_list;
use rhai_ast::{BinaryExpr, SwitchCasesCollection};
use rhai_base::Dynamic;

/// What is left to be tried.
#[derive(Clone, Copy)]
pub enum Choice {
    /// No arm.
    Nothing,
    /// An arm whose condition is true.
    Answer(usize),
    /// One arm alone, whose condition is open.
    Only(usize),
    /// More than one arm, the first of which is open.
    Several,
}

fn first_of(decided: Option<bool>, place: usize) -> Choice
    ensures { result ≡ choices.first_of decided place }
{
    match decided {
        Some(false) => Choice::Nothing,
        Some(true) => Choice::Answer(place),
        None => Choice::Only(place),
    }
}

fn after_only(decided: Option<bool>, only: usize) -> Choice
    ensures { result ≡ choices.after_only decided only }
{
    match decided {
        Some(false) => Choice::Only(only),
        _ => Choice::Several,
    }
}

/// What is left with an arm more, behind the others.
fn behind(choice: Choice, place: usize, decided: Option<bool>) -> Choice
    ensures { result ≡ choices.behind choice place decided }
{
    match choice {
        Choice::Nothing => first_of(decided, place),
        Choice::Answer(answer) => Choice::Answer(answer),
        Choice::Only(only) => after_only(decided, only),
        Choice::Several => Choice::Several,
    }
}

/// What is left of arms in their order. An entry with no place names none.
fn choice_of<T, F: Fn(&T) -> Option<usize>>(
    arms: &[BinaryExpr],
    entries: &[T],
    place_of: F,
) -> Choice
    requires { F.IsAlwaysCallable place_of }
    ensures { (g : T → Option ℕ)
        → Tells F.Fn place_of g
        → result ≡ choices.choice_of (arms_of arms.now) (left_arms (arms_of arms.now) (filter_map g entries.now)) }
{
    let mut choice = Choice::Nothing;
    for entry in entries {
        if let Some(place) = place_of(entry) {
            choice = behind(choice, place, decided(arms, place));
        }
    }
    choice
}

/// What is left for a subject: of its list, or where it has none of the ranges that hold it.
pub(crate) fn choice_for(table: &SwitchCasesCollection, subject: &Dynamic) -> Choice
    ensures { let as' = arms_of (expressions_of table.now) in
        result ≡ choices.choice_of as' (left_arms as' (chosen (table_of table.now) (value_of subject.now))) }
{
    let arms = table.expressions.as_slice();
    match case_list(table, subject) {
        Some(list) => choice_of(arms, list.blocks.as_slice(), |place| Some(*place)),
        None => choice_of(
            arms,
            table.ranges.as_slice(),
            |range| held_place(range, subject),
        ),
    }
}
