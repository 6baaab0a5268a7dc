//! The rules at shared names.

#![tactic(auto, using(ast_types::specs::Reading::shapes, crate::proofs::Names::steps))]

ghost use Rattle.std.specs.Prelude.{◌≡◌, ◌&&◌, not, true, Bool, is_some};
ghost use Rattle.opt_base.specs.State.{progress};
ghost use Rattle.theory_meaning.specs.Engine.{Engine};
ghost use Rattle.theory_meaning.specs.Tree.{Share};
ghost use Rattle.ast_types.specs.Reading.{shared_names, stmt_of};
ghost use Rattle.theory_rewriting.specs.Known.{look, unknown};
ghost use Rattle.opt_stmts.specs.Firing.{Fires, answer};
ghost use Rattle.opt_stmts.specs.SettledAssignments as settled;
ghost use Rattle.opt_base.specs.NodeSteps.{StmtStep};

use opt_base::{NodeStep, OptimizerState, note_fired, put_nothing};
use rhai_ast::Stmt;
use rhai_base::{Boxed, Ident, Seq};
use std::alloc::Global;
use std::mem::replace;
use std::num::NonZeroUsize;

/// A shared name, and an index of which nothing is claimed.
type SharedName = (Ident, Option<NonZeroUsize>);

/// Whether a shared name is known as a constant.
fn is_known(state: &OptimizerState<'_>, name: &SharedName) -> bool
    ensures { result ≡ is_some (look (progress state.now).known name.now.0.name) }
{
    state.find_literal_constant(name.0.as_str()).is_some()
}

/// Whether one of these names is.
fn knows_some(state: &OptimizerState<'_>, names: &[SharedName]) -> bool
    ensures { result ≡ settled.knows_some (progress state.now).known (shared_names names.now) }
{
    for name in names {
        if is_known(state, name) {
            return true;
        }
    }
    false
}

/// Names that are known as constants go, in the memory of their list.
fn keep_unknown(alloc: Global, state: &OptimizerState<'_>, names: &mut Seq<SharedName>)
    ensures { shared_names names.new ≡ unknown (progress state.now).known (shared_names names.old) }
{
    let mut left = replace(names, Seq::new(alloc)).into_vec();
    left.retain(|name| !is_known(state, name));
    *names = Seq::from_vec(left);
}

/// Of shared names those that are known go.
fn share_known(state: &mut OptimizerState<'_>, names: &mut Boxed<Seq<SharedName>>)
    requires { settled.knows_some (progress state.now).known (shared_names names.now) ≡ true }
    ensures { (r : Engine) (w : Bool)
        → Fires r w (progress state.old) (progress state.new) (Share (shared_names names.old))
        (Share (shared_names names.new)) }
{
    note_fired(state);
    keep_unknown(names.allocator(), state, names.get_mut());
}

/// Where nothing is shared nothing is left.
fn share_nothing(state: &mut OptimizerState<'_>, statement: &mut Stmt)
    requires { settled.shares_nothing (stmt_of statement.now) ≡ true }
    ensures { (r : Engine) (w : Bool)
        → Fires r w (progress state.old) (progress state.new) (stmt_of statement.old) (stmt_of statement.new) }
{
    put_nothing(state, statement);
}

/// Rewrites shared names by the rule that fires at them, if one does.
pub fn step_share(state: &mut OptimizerState<'_>, statement: &mut Stmt) -> NodeStep
    requires { settled.is_share (stmt_of statement.now) ≡ true }
    ensures answer { result
        ≡ answer
        (not (settled.shares_nothing (stmt_of statement.old))
        && settled.is_settled_share (progress state.old).known (stmt_of statement.old)) }
    ensures step { (r : Engine) (w : Bool)
        → StmtStep result r w (progress state.old) (progress state.new) (stmt_of statement.old)
        (stmt_of statement.new) }
{
    match statement {
        Stmt::Share(names) => {
            if names.get().is_empty() {
                share_nothing(state, statement);
                return NodeStep::Rewritten;
            }
            if !knows_some(state, names.get().as_slice()) {
                return NodeStep::Kept;
            }
            share_known(state, names);
            NodeStep::Rewritten
        }
        _ => NodeStep::Kept,
    }
}
