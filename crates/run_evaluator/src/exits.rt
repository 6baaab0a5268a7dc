//! Ways to leave a list of statements, and `try`.

#![tactic(auto, using(ast_types::specs::Reading::shapes, rhai_base::specs::Reading::kinds))]

ghost use Rattle.std.specs.Option.{option_copied};
ghost use Rattle.ast_types.specs.Reading.{breaks, expr_of, is_exported, maybe_of, stmts_of};
ghost use Rattle.rhai_base.specs.Reading.{value_of};
ghost use Rattle.theory_meaning.specs.Desugar.{core_stmt, core_stmts};
ghost use Rattle.run_steps.specs.Setting.{setting};
ghost use Rattle.run_state.specs.Evaluating.{RunsCatch, RunsLine};
ghost use Rattle.theory_meaning.specs.Tree as tree;

use crate::evaluator::Evaluator;
use bitflags::Flags;
use rhai_ast::{Expr, FlowControl, StmtBlock};
use rhai_base::{ASTFlags, Boxed, Dynamic, ImmutableString};
use run_host::{Host, Stuck};
use run_state::{
    Interrupt, State, body_ended, branch_ended, declare_caught, function_exit, loop_exit,
};
use run_steps::catch_name;

impl<'a, H: Host> Evaluator<'a, H> {
    /// `break` and `continue`, which are stuck before their value is run outside a loop of the function.
    #[cycle(evaluate)]
    #[inline(never)]
    pub(crate) fn break_loop(
        &self,
        state: &mut State,
        value: &Option<Boxed<Expr>>,
        options: ASTFlags,
    ) -> Result<Dynamic, Interrupt>
        ensures { RunsLine (setting H.answers H.modules self.now.machine)
            (core_stmt self.now.in_loop (tree.BreakLoop (breaks options) (is_exported options) (maybe_of value.now)))
            state.old result state.new }
    {
        if !self.in_loop {
            return Err(Interrupt::Stuck(Stuck::WrongKind));
        }
        let value = self.optional(state, value)?;
        Err(loop_exit(options.contains(ASTFlags::BREAK), value))
    }

    /// `return` and `throw`.
    #[cycle(evaluate)]
    #[inline(never)]
    pub fn leave(
        &self,
        state: &mut State,
        value: &Option<Boxed<Expr>>,
        options: ASTFlags,
    ) -> Result<Dynamic, Interrupt>
        ensures { RunsLine (setting H.answers H.modules self.now.machine)
            (core_stmt self.now.in_loop (tree.Return (breaks options) (is_exported options) (maybe_of value.now)))
            state.old result state.new }
    {
        let value = self.optional(state, value)?;
        Err(function_exit(options.contains(ASTFlags::BREAK), value))
    }

    /// `try`: what is thrown goes to the branch.
    #[cycle(evaluate)]
    #[inline(never)]
    pub fn try_catch(&self, state: &mut State, flow: &FlowControl) -> Result<Dynamic, Interrupt>
        ensures { RunsLine (setting H.answers H.modules self.now.machine)
            (core_stmt self.now.in_loop
            (tree.TryCatch (expr_of flow.now.expr) (stmts_of flow.now.body.block)
            (stmts_of flow.now.branch.block)))
            state.old result state.new }
    {
        let Some(name) = catch_name(&flow.expr) else {
            return Err(Interrupt::Stuck(Stuck::WrongKind));
        };
        match body_ended(self.block(state, &flow.body))? {
            Some(caught) => self.catch(state, name, caught, &flow.branch),
            None => Ok(Dynamic::Unit),
        }
    }

    /// Runs a branch, with the caught value under its name.
    #[cycle(evaluate)]
    fn catch(
        &self,
        state: &mut State,
        name: Option<&ImmutableString>,
        caught: Dynamic,
        branch: &StmtBlock,
    ) -> Result<Dynamic, Interrupt>
        ensures { RunsCatch (setting H.answers H.modules self.now.machine)
            (core_stmts self.now.in_loop (stmts_of branch.now.block)) (option_copied name.entry) (value_of caught)
            state.old result state.new }
    {
        let mark = state.begin_list();
        declare_caught(state, name, &caught)?;
        let ended = self.statements(state, branch.statements());
        state.end_list(mark);
        branch_ended(ended, caught)
    }
}
