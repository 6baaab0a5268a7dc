//! The rule at a `try`.

#![tactic(auto, using(ast_types::specs::Reading::shapes))]

ghost use Rattle.std.specs.Prelude.{◌≡◌, true, false, Bool};
ghost use Rattle.opt_base.specs.State.{progress};
ghost use Rattle.theory_meaning.specs.Engine.{Engine};
ghost use Rattle.ast_types.specs.Reading.{stmt_of};
ghost use Rattle.opt_stmts.specs.Firing.{Fires, answer};
ghost use Rattle.opt_stmts.specs.SettledStatements as settled;
ghost use Rattle.opt_base.specs.NodeSteps.{StmtStep};

use crate::choice::is_empty;
use opt_base::{NodeStep, OptimizerState, put_nothing};
use rhai_ast::Stmt;

/// A `try` over a body that is pure inside does nothing. Such a body is empty, once it is in normal form: what is in it
/// went with its list.
fn pure_try(state: &mut OptimizerState<'_>, statement: &mut Stmt)
    requires { settled.is_settled_try (stmt_of statement.now) ≡ false }
    ensures { (r : Engine) (w : Bool)
        → Fires r w (progress state.old) (progress state.new) (stmt_of statement.old) (stmt_of statement.new) }
{
    put_nothing(state, statement);
}

/// Rewrites a `try` by the rule that fires at it, if it does.
pub fn step_try(state: &mut OptimizerState<'_>, statement: &mut Stmt) -> NodeStep
    requires { settled.is_try (stmt_of statement.now) ≡ true }
    ensures answer { result ≡ answer (settled.is_settled_try (stmt_of statement.old)) }
    ensures step { (r : Engine) (w : Bool)
        → StmtStep result r w (progress state.old) (progress state.new) (stmt_of statement.old)
        (stmt_of statement.new) }
{
    match statement {
        Stmt::TryCatch(flow, _) => {
            if !is_empty(&flow.get().body) {
                return NodeStep::Kept;
            }
            pure_try(state, statement);
            NodeStep::Rewritten
        }
        _ => NodeStep::Kept,
    }
}
