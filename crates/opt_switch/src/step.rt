//! One step at a `switch`, in its place.

#![tactic(auto, using(ast_types::specs::Reading::shapes))]

ghost use Rattle.std.specs.Prelude.{◌≡◌, Bool, IfOk, true};
ghost use Rattle.opt_base.specs.State.{progress};
ghost use Rattle.theory_meaning.specs.Engine.{Engine};
ghost use Rattle.ast_types.specs.Reading.{stmt_of};
ghost use Rattle.opt_base.specs.NodeSteps.{StmtStep};
ghost use Rattle.opt_switch.specs.Steps as steps;

use crate::decide::decide_switch;
use crate::tables::step_table;
use opt_base::{NodeStep, OptimizerState};
use rhai_ast::Stmt;
use rhai_base::OutOfMemory;
use std::alloc::Global;

/// Rewrites a `switch` by the rules that fire at it, if some do. What its subject decides has parts that are to be
/// gone over again.
pub fn step_switch(
    alloc: Global,
    state: &mut OptimizerState<'_>,
    statement: &mut Stmt,
) -> Result<NodeStep, OutOfMemory>
    requires { steps.is_switch (stmt_of statement.now) ≡ true }
    ensures { IfOk result (λ step.
        (r : Engine) (w : Bool)
        → StmtStep step r w (progress state.old) (progress state.new) (stmt_of statement.old)
        (stmt_of statement.new)) }
{
    if decide_switch(alloc, state, statement)? {
        return Ok(NodeStep::Reopened);
    }
    if step_table(alloc, state, statement)? {
        return Ok(NodeStep::Rewritten);
    }
    Ok(NodeStep::Kept)
}
