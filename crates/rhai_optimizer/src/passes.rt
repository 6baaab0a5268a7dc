//! Passes over a script's statements, until one changes nothing.

#![tactic(auto, using(ast_types::specs::Reading::shapes))]

ghost use Rattle.std.specs.Prelude.{◌≡◌, IfOk, false};
ghost use Rattle.opt_base.specs.State.{progress};
ghost use Rattle.rhai_optimizer.specs.Passes.{PassesRun};
ghost use Rattle.ast_types.specs.Reading.{stmts_of};
ghost use Rattle.opt_reducer.specs.Parts.{record_of};

use opt_base::OptimizerState;
use opt_reducer::Optimizer;
use rhai_ast::Stmt;
use rhai_base::{OutOfMemory, Seq};

/// Goes over statements until a pass changes nothing. How many passes were made; none over no statements.
pub(crate) fn make_passes(
    optimizer: &Optimizer<'_>,
    state: &mut OptimizerState<'_>,
    statements: &mut Seq<Stmt>,
) -> Result<u64, OutOfMemory>
    ensures { IfOk result (λ number.
        PassesRun (record_of optimizer.now) number (progress state.old) (progress state.new) (stmts_of statements.old)
        (stmts_of statements.new)) }
{
    let mut number: u64 = 0;
    if statements.is_empty() {
        return Ok(number);
    }
    loop {
        let has_changed = optimizer.pass(state, statements)?;
        number = number.saturating_add(1);
        if !has_changed {
            return Ok(number);
        }
    }
}
