//! A list while it is gone over, and the sweep over it when its statements are reduced.

#![tactic(auto, using(ast_types::specs::Reading::shapes))]

ghost use Rattle.std.specs.Prelude.{◌≡◌, ◌||◌};
ghost use Rattle.opt_base.specs.State.{progress};
ghost use Rattle.theory_meaning.specs.Engine.{Engine};
ghost use Rattle.ast_types.specs.Reading.{stmts_of};
ghost use Rattle.theory_rewriting.specs.Steps.{ListPassed, SweepRun};
ghost use Rattle.opt_lists.specs.Marks.{mark_of};

use opt_lists::{ListMark, sweep};
use opt_rules::OptimizerState;
use rhai_ast::Stmt;
use rhai_base::Seq;

/// Notes whether something has changed.
pub(crate) fn note(state: &mut OptimizerState<'_>, has_changed: bool)
    ensures dirty { state.new.is_dirty ≡ has_changed || state.old.is_dirty }
    ensures known { (progress state.new).known ≡ (progress state.old).known }
{
    if has_changed {
        state.set_dirty();
    }
}

/// Sweeps a list from its end. It says whether the last statement is the expression of a `return` now.
pub(crate) fn sweep_list(
    state: &mut OptimizerState<'_>,
    statements: &mut Seq<Stmt>,
    mark: ListMark,
) -> bool
    ensures { SweepRun (mark_of mark) result (progress state.old) (progress state.new) (stmts_of statements.old)
        (stmts_of statements.new) }
{
    let swept = sweep(mark, statements);
    note(state, swept.has_changed);
    swept.is_bared
}

/// Sweeps a script's own list before its statements are gone over, so that the expression of a last `return` is gone
/// over once, as what it becomes.
pub(crate) fn sweep_before(
    state: &mut OptimizerState<'_>,
    statements: &mut Seq<Stmt>,
    mark: ListMark,
)
    ensures { (r : Engine)
        → ListPassed r (mark_of mark) (progress state.old) (progress state.new) (stmts_of statements.old)
        (stmts_of statements.new) }
{
    match mark {
        ListMark::Whole => {
            sweep_list(state, statements, mark);
        }
        ListMark::Inside { is_wanted: _ } => {}
    }
}
