//! One step at an `if`, in its place.

#![tactic(auto, using(ast_types::specs::Reading::shapes))]

ghost use Rattle.std.specs.Prelude.{◌≡◌, IfOk, not, true};
ghost use Rattle.opt_base.specs.State.{progress};
ghost use Rattle.theory_meaning.specs.Engine.{Engine};
ghost use Rattle.ast_types.specs.Reading.{stmt_of};
ghost use Rattle.opt_stmts.specs.SettledChoices as settled;
ghost use Rattle.opt_stmts.specs.ChoiceSteps.{answer};
ghost use Rattle.opt_base.specs.NodeSteps.{StmtDecided, StmtStep};

use crate::choice::choice::reduced_if;
use crate::choice::nested::join_ifs;
use crate::made::put_made;
use opt_base::{NodeStep, OptimizerState, note_fired};
use rhai_ast::Stmt;
use rhai_base::OutOfMemory;
use std::alloc::Global;

/// Rewrites an `if` by the rule that fires at it, if one does.
pub fn step_if(
    alloc: Global,
    state: &mut OptimizerState<'_>,
    statement: &mut Stmt,
    is_wanted: bool,
) -> Result<NodeStep, OutOfMemory>
    requires { settled.is_if (stmt_of statement.now) ≡ true }
    ensures answer { IfOk result (λ step. step ≡ answer is_wanted (stmt_of statement.old)) }
    ensures step { IfOk result (λ step.
        (r : Engine)
        → StmtStep step r is_wanted (progress state.old) (progress state.new) (stmt_of statement.old)
        (stmt_of statement.new)) }
{
    match statement {
        Stmt::If(flow, pos) => match reduced_if(alloc, flow.get_mut(), *pos, is_wanted)? {
            Some((made, step)) => {
                put_made(state, statement, made);
                Ok(step)
            }
            None => {
                if !join_ifs(alloc, flow.get_mut())? {
                    return Ok(NodeStep::Kept);
                }
                note_fired(state);
                Ok(NodeStep::Rewritten)
            }
        },
        _ => Ok(NodeStep::Kept),
    }
}

/// Rewrites an `if` whose blocks were not gone over, where its condition decides it or both are empty. Whether it did.
pub fn decide_if(
    alloc: Global,
    state: &mut OptimizerState<'_>,
    statement: &mut Stmt,
    is_wanted: bool,
) -> Result<bool, OutOfMemory>
    ensures answer { IfOk result (λ fired. not fired ≡ settled.is_settled (stmt_of statement.old)) }
    ensures step { IfOk result (λ fired.
        (r : Engine)
        → StmtDecided fired r is_wanted (progress state.old) (progress state.new) (stmt_of statement.old)
        (stmt_of statement.new)) }
{
    match statement {
        Stmt::If(flow, pos) => match reduced_if(alloc, flow.get_mut(), *pos, is_wanted)? {
            Some((made, _)) => {
                put_made(state, statement, made);
                Ok(true)
            }
            None => Ok(false),
        },
        _ => Ok(false),
    }
}
