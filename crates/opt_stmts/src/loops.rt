//! The rules at a `while`.

#![tactic(auto, using(ast_types::specs::Reading::shapes))]

ghost use Rattle.std.specs.Prelude.{◌≡◌, true, false, Bool, Some, is_none};
ghost use Rattle.opt_stmts.specs.Firing.{Fires, answer};
ghost use Rattle.opt_base.specs.State.{progress};
ghost use Rattle.theory_meaning.specs.Engine.{Engine};
ghost use Rattle.theory_meaning.specs.Constants as constants;
ghost use Rattle.ast_types.specs.Reading.{expr_of, stmt_of};
ghost use Rattle.opt_stmts.specs.Flows.{loop_of};
ghost use Rattle.opt_stmts.specs.SettledStatements as settled;
ghost use Rattle.opt_base.specs.NodeSteps.{StmtStep};

use opt_base::{NodeStep, OptimizerState, constant_bool, put_nothing, put_unit};
use rhai_ast::{FlowControl, Stmt};

/// A `while` over true is a `loop`.
fn while_true(state: &mut OptimizerState<'_>, flow: &mut FlowControl)
    requires { constants.constant_bool (expr_of flow.now.expr) ≡ Some true }
    ensures { (r : Engine) (w : Bool)
        → Fires r w (progress state.old) (progress state.new) (loop_of flow.old) (loop_of flow.new) }
{
    put_unit(state, &mut flow.expr);
}

/// A `while` over false does nothing.
fn while_false(state: &mut OptimizerState<'_>, statement: &mut Stmt)
    requires { settled.decided_loop (stmt_of statement.now) ≡ Some false }
    ensures { (r : Engine) (w : Bool)
        → Fires r w (progress state.old) (progress state.new) (stmt_of statement.old) (stmt_of statement.new) }
{
    put_nothing(state, statement);
}

/// Rewrites a `while` by the rule that fires at it, if one does.
pub fn step_while(state: &mut OptimizerState<'_>, statement: &mut Stmt) -> NodeStep
    requires { settled.is_while (stmt_of statement.now) ≡ true }
    ensures answer { result ≡ answer (is_none (settled.decided_loop (stmt_of statement.old))) }
    ensures step { (r : Engine) (w : Bool)
        → StmtStep result r w (progress state.old) (progress state.new) (stmt_of statement.old)
        (stmt_of statement.new) }
{
    match statement {
        Stmt::While(flow, _) => match constant_bool(&flow.get().expr) {
            Some(true) => {
                while_true(state, flow.get_mut());
                NodeStep::Rewritten
            }
            Some(false) => {
                while_false(state, statement);
                NodeStep::Rewritten
            }
            None => NodeStep::Kept,
        },
        _ => NodeStep::Kept,
    }
}
