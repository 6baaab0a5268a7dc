//! `while`, `loop` and `do`.

#![tactic(auto, using(ast_types::specs::Reading::shapes, rhai_base::specs::Reading::kinds))]

ghost use Rattle.std.specs.Prelude.{◌<◌, true, IfOk};
ghost use Rattle.ast_types.specs.Reading.{expr_of, is_exported, is_negated, stmts_of};
ghost use Rattle.theory_meaning.specs.Core.{Always, Do, When, While};
ghost use Rattle.theory_meaning.specs.Desugar.{core_expr, core_stmt, core_stmts, guard_by};
ghost use Rattle.run_steps.specs.Setting.{setting};
ghost use Rattle.run_state.specs.Evaluating.{body_of, RunsDeed, RunsLine, RunsRound};
ghost use Rattle.theory_meaning.specs.Tree as tree;

use crate::evaluator::Evaluator;
use bitflags::Flags;
use rhai_ast::{Expr, ExprQueries, FlowControl, StmtBlock};
use rhai_base::{ASTFlags, Dynamic};
use run_host::Host;
use run_state::{Interrupt, State, ends_at, round_ended, truth};

impl<'a, H: Host> Evaluator<'a, H> {
    /// A round that runs a loop's body: the loop's value where it is left, `None` where another round follows.
    #[cycle(evaluate)]
    fn round(&self, state: &mut State, body: &StmtBlock) -> Result<Option<Dynamic>, Interrupt>
        ensures round { let here = setting H.answers H.modules self.now.machine in
            RunsRound here (body_of here (stmts_of body.now.block)) state.old result state.new }
        ensures turns { IfOk result (λ o. state.new.turns < state.old.turns) }
    {
        let inside = self.inside_loop();
        state.take_turn()?;
        round_ended(inside.block(state, body))
    }

    /// `while`; one whose guard is a literal `()` is `loop`.
    #[cycle(evaluate)]
    #[inline(never)]
    pub(crate) fn while_loop(
        &self,
        state: &mut State,
        flow: &FlowControl,
    ) -> Result<Dynamic, Interrupt>
        ensures { let here = setting H.answers H.modules self.now.machine in
            RunsDeed here
            (While (guard_by (expr_of flow.now.expr) (core_expr self.now.in_loop (expr_of flow.now.expr)))
            (core_stmts true (stmts_of flow.now.body.block)))
            state.old result state.new }
    {
        if flow.expr.is_unit() {
            self.endless(state, &flow.body)
        } else {
            self.guarded(state, &flow.expr, &flow.body)
        }
    }

    #[cycle(evaluate)]
    fn endless(&self, state: &mut State, body: &StmtBlock) -> Result<Dynamic, Interrupt>
        ensures { RunsDeed (setting H.answers H.modules self.now.machine)
            (While Always (core_stmts true (stmts_of body.now.block))) state.old result state.new }
    {
        loop {
            if let Some(value) = self.round(state, body)? {
                return Ok(value);
            }
        }
    }

    #[cycle(evaluate)]
    fn guarded(
        &self,
        state: &mut State,
        guard: &Expr,
        body: &StmtBlock,
    ) -> Result<Dynamic, Interrupt>
        ensures { RunsDeed (setting H.answers H.modules self.now.machine)
            (While (When (core_expr self.now.in_loop (expr_of guard.now))) (core_stmts true (stmts_of body.now.block)))
            state.old result state.new }
    {
        let inside = self.inside_loop();
        loop {
            let holds = truth(self.expr(state, guard)?)?;
            if !state.goes_on(holds)? {
                return Ok(Dynamic::Unit);
            }
            if let Some(value) = round_ended(inside.block(state, body))? {
                return Ok(value);
            }
        }
    }

    /// `do`.
    #[cycle(evaluate)]
    #[inline(never)]
    pub(crate) fn do_loop(
        &self,
        state: &mut State,
        flow: &FlowControl,
        options: ASTFlags,
    ) -> Result<Dynamic, Interrupt>
        ensures { RunsLine (setting H.answers H.modules self.now.machine)
            (core_stmt self.now.in_loop
            (tree.Do (is_negated options) (is_exported options) (expr_of flow.now.expr)
            (stmts_of flow.now.body.block)))
            state.old result state.new }
    {
        self.repeated(state, flow, options.contains(ASTFlags::NEGATED))
    }

    /// Rounds as long as the guard is true, or until it is.
    #[cycle(evaluate)]
    fn repeated(
        &self,
        state: &mut State,
        flow: &FlowControl,
        until: bool,
    ) -> Result<Dynamic, Interrupt>
        ensures { RunsDeed (setting H.answers H.modules self.now.machine)
            (Do until (core_expr self.now.in_loop (expr_of flow.now.expr))
            (core_stmts true (stmts_of flow.now.body.block)))
            state.old result state.new }
    {
        loop {
            if let Some(value) = self.round(state, &flow.body)? {
                return Ok(value);
            }
            if ends_at(truth(self.expr(state, &flow.expr)?)?, until) {
                return Ok(Dynamic::Unit);
            }
        }
    }
}
