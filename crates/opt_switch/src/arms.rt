//! The arms of a `switch`: what their conditions decide, and arms that are taken out of their places.

#![tactic(auto, using(ast_types::specs::Reading::shapes))]

ghost use Rattle.std.specs.Prelude.{◌≡◌, ℕ, Some};
ghost use Rattle.std.specs.Option.{option_map};
ghost use Rattle.ast_types.specs.Reading.{arms_of, expr_of, expressions_of, table_of};
ghost use Rattle.theory_rewriting.specs.Tables as tables;
ghost use Rattle.theory_rewriting.specs.Shrinking as shrinking;

use opt_base::constant_bool;
use rhai_ast::{BinaryExpr, Expr, SwitchCasesCollection, Take};
use rhai_base::Seq;

/// What the condition of an arm decides; that of an arm that is not there is false.
pub(crate) fn decided(arms: &[BinaryExpr], place: usize) -> Option<bool>
    ensures { result ≡ tables.arm_decides (tables.arm_of (arms_of arms.now) place) }
{
    match arms.get(place) {
        Some(arm) => constant_bool(&arm.lhs),
        None => Some(false),
    }
}

/// Takes an arm's answer out of its place.
pub(crate) fn take_answer(arms: &mut Seq<BinaryExpr>, place: usize) -> Option<Expr>
    ensures answer { option_map expr_of result ≡ tables.answer_of_arm (tables.arm_of (arms_of arms.old) place) }
    ensures others { (i : ℕ) → (i ≡ place → ⊥)
        → tables.arm_of (arms_of arms.new) i ≡ tables.arm_of (arms_of arms.old) i }
{
    match arms.get_mut(place) {
        Some(arm) => Some(arm.rhs.take()),
        None => None,
    }
}

/// Takes out the answer of a table's default.
pub(crate) fn take_default(table: &mut SwitchCasesCollection) -> Option<Expr>
    ensures answer { option_map expr_of result
        ≡ tables.default_answer (arms_of (expressions_of table.old)) (table_of table.old).default }
    ensures others { (i : ℕ) → ((table_of table.old).default ≡ Some i → ⊥)
        → tables.arm_of (arms_of (expressions_of table.new)) i ≡ tables.arm_of (arms_of (expressions_of table.old)) i }
{
    match table.def_case {
        Some(place) => take_answer(&mut table.expressions, place),
        None => None,
    }
}

/// Takes out an arm's condition and its answer.
pub(crate) fn take_arm(arms: &mut Seq<BinaryExpr>, place: usize) -> Option<(Expr, Expr)>
    ensures { option_map (λ p. (expr_of p.0, expr_of p.1)) result ≡ tables.arm_of (arms_of arms.old) place }
{
    match arms.get_mut(place) {
        Some(arm) => Some((arm.lhs.take(), arm.rhs.take())),
        None => None,
    }
}

/// Whether an arm's condition is false.
pub(crate) fn is_false(arms: &[BinaryExpr], place: usize) -> bool
    ensures { result ≡ shrinking.is_false_arm (arms_of arms.now) place }
{
    decided(arms, place) == Some(false)
}
