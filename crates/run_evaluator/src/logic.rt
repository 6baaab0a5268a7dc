//! `&&`, `||` and `??`: operands up to the first that decides.

#![tactic(auto, using(rhai_base::specs::Reading::kinds))]

ghost use Rattle.ast_types.specs.Reading.{exprs_of};
ghost use Rattle.run_steps.specs.Setting.{setting};
ghost use Rattle.run_state.specs.Evaluating.{RunsBoth, RunsEither, RunsFirstSome};

use crate::evaluator::Evaluator;
use rhai_ast::Expr;
use rhai_base::Dynamic;
use run_host::Host;
use run_state::{Interrupt, State, some_value, truth};

impl<'a, H: Host> Evaluator<'a, H> {
    /// `&&`: the operands up to the first that is false.
    #[cycle(evaluate)]
    #[inline(never)]
    pub fn both(&self, state: &mut State, operands: &[Expr]) -> Result<Dynamic, Interrupt>
        ensures { RunsBoth (setting H.answers H.modules self.now.machine) self.now.in_loop (exprs_of operands.now)
            state.old result state.new }
    {
        for operand in operands {
            if !truth(self.expr(state, operand)?)? {
                return Ok(Dynamic::Bool(false));
            }
        }
        Ok(Dynamic::Bool(true))
    }

    /// `||`: the operands up to the first that is true.
    #[cycle(evaluate)]
    #[inline(never)]
    pub fn either(&self, state: &mut State, operands: &[Expr]) -> Result<Dynamic, Interrupt>
        ensures { RunsEither (setting H.answers H.modules self.now.machine) self.now.in_loop (exprs_of operands.now)
            state.old result state.new }
    {
        for operand in operands {
            if truth(self.expr(state, operand)?)? {
                return Ok(Dynamic::Bool(true));
            }
        }
        Ok(Dynamic::Bool(false))
    }

    /// `??`: the operands up to the first that is not unit.
    #[cycle(evaluate)]
    #[inline(never)]
    pub(crate) fn first_some(
        &self,
        state: &mut State,
        operands: &[Expr],
    ) -> Result<Dynamic, Interrupt>
        ensures { RunsFirstSome (setting H.answers H.modules self.now.machine) self.now.in_loop (exprs_of operands.now)
            state.old result state.new }
    {
        for operand in operands {
            if let Some(value) = some_value(self.expr(state, operand)?) {
                return Ok(value);
            }
        }
        Ok(Dynamic::Unit)
    }
}
