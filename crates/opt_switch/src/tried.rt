//! Arms in the order in which they are tried.

#![tactic(auto, using(ast_types::specs::Reading::shapes))]

ghost use Rattle.std.specs.Prelude.{◌≡◌, ℕ, Option, length, map};
ghost use Rattle.std.specs.List.{filter_map};
ghost use Rattle.rhai_base.specs.Reading.{value_of};
ghost use Rattle.ast_types.specs.Reading.{arms_of};
ghost use Rattle.theory_rewriting.specs.Tables.{left_arms};
ghost use Rattle.opt_switch.specs.Ends.{end_of};
ghost use Rattle.opt_switch.specs.Places.{Tells, held_place};

use crate::arms::decided;
use rhai_ast::BinaryExpr;
use rhai_base::{Dynamic, RangeCase};

/// The place of a range's arm, where the range holds the subject.
pub(crate) fn held_place(range: &RangeCase, subject: &Dynamic) -> Option<usize>
    ensures { result ≡ held_place (value_of subject.now) range.now }
{
    if range.contains(subject) {
        Some(range.index())
    } else {
        None
    }
}

/// How many arms are left: those that are not false, up to one that is true. An entry with no place names none.
pub(crate) fn left_len<T, F: Fn(&T) -> Option<usize>>(
    arms: &[BinaryExpr],
    entries: &[T],
    place_of: F,
) -> usize
    requires { F.IsAlwaysCallable place_of }
    ensures { (g : T → Option ℕ)
        → Tells F.Fn place_of g
        → result ≡ length (left_arms (arms_of arms.now) (filter_map g entries.now)) }
{
    let mut left: usize = 0;
    for entry in entries {
        if let Some(place) = place_of(entry) {
            match decided(arms, place) {
                Some(false) => {}
                Some(true) => return left + 1,
                None => left += 1,
            }
        }
    }
    left
}

/// The place behind the first entry whose arm is true.
pub(crate) fn end_of<T, F: Fn(&T) -> usize>(
    arms: &[BinaryExpr],
    entries: &[T],
    place_of: F,
) -> usize
    requires { F.IsAlwaysCallable place_of }
    ensures { (g : T → ℕ) → Tells F.Fn place_of g → result ≡ end_of (arms_of arms.now) (map g entries.now) }
{
    let mut end: usize = 0;
    for entry in entries {
        end += 1;
        if decided(arms, place_of(entry)) == Some(true) {
            return end;
        }
    }
    end
}
