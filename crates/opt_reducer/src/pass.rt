//! One pass over the statements of a script or of a body.

#![tactic(auto, using(ast_types::specs::Reading::shapes))]

ghost use Rattle.std.specs.Prelude.{IfOk};
ghost use Rattle.opt_base.specs.State.{progress};
ghost use Rattle.ast_types.specs.Reading.{stmts_of};
ghost use Rattle.opt_reducer.specs.Parts.{record_of};
ghost use Rattle.opt_reducer.specs.Pass.{PassRun};

use crate::cycle::Optimizer;
use opt_lists::ListMark;
use opt_rules::OptimizerState;
use rhai_ast::Stmt;
use rhai_base::{OutOfMemory, Seq};

impl<'a> Optimizer<'a> {
    /// Goes over the statements of a script or of a body once, with the names that are known. Whether that changed them.
    pub fn pass(
        &self,
        state: &mut OptimizerState<'_>,
        statements: &mut Seq<Stmt>,
    ) -> Result<bool, OutOfMemory>
        ensures { IfOk result (λ set.
            PassRun (record_of self.now) set (progress state.old) (progress state.new) (stmts_of statements.old)
            (stmts_of statements.new)) }
    {
        state.clear_dirty();
        self.stmt_block(state, statements, ListMark::Whole)?;
        Ok(state.is_dirty())
    }
}
