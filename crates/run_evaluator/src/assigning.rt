//! Assignments, straight or by an operator.

#![tactic(auto, using(ast_types::specs::Reading::shapes, rhai_base::specs::Reading::kinds))]

ghost use Rattle.std.specs.Prelude.{Some};
ghost use Rattle.rhai_base.specs.Reading.{value_of};
ghost use Rattle.rhai_base.specs.Builtin.{operator_of};
ghost use Rattle.ast_types.specs.Reading.{expr_of};
ghost use Rattle.theory_meaning.specs.Desugar.{core_stmt};
ghost use Rattle.run_steps.specs.Setting.{setting};
ghost use Rattle.run_state.specs.Evaluating.{Runs, RunsLine};
ghost use Rattle.run_state.specs.Runs.{Acting};
ghost use Rattle.run_steps.specs.LeftSides.{side_core};
ghost use Rattle.theory_meaning.specs.Meaning as meaning;
ghost use Rattle.theory_meaning.specs.Tree as tree;

use crate::evaluator::Evaluator;
use rhai_ast::BinaryExpr;
use rhai_base::{Dynamic, OpAssignment};
use run_host::{Host, Stuck};
use run_state::{Interrupt, State};
use run_steps::{LeftSide, left_side};

impl<'a, H: Host> Evaluator<'a, H> {
    /// The right side first, then what stands at the left.
    #[cycle(evaluate)]
    #[inline(never)]
    pub fn assignment(
        &self,
        state: &mut State,
        op: &OpAssignment,
        sides: &BinaryExpr,
    ) -> Result<Dynamic, Interrupt>
        ensures { RunsLine (setting H.answers H.modules self.now.machine)
            (core_stmt self.now.in_loop
            (tree.Assignment (operator_of op.now.op) (expr_of sides.now.lhs) (expr_of sides.now.rhs)))
            state.old result state.new }
    {
        let Some(side) = left_side(&sides.lhs) else {
            return Err(Interrupt::Stuck(Stuck::WrongKind));
        };
        let value = self.expr(state, &sides.rhs)?;
        self.assign(state, op, side, value)
    }

    /// Assigns to a left side.
    #[cycle(evaluate)]
    fn assign(
        &self,
        state: &mut State,
        op: &OpAssignment,
        side: LeftSide,
        value: Dynamic,
    ) -> Result<Dynamic, Interrupt>
        ensures { let here = setting H.answers H.modules self.now.machine in
            Runs here
            (Acting
            (meaning.assign here.world (operator_of op.now.op) (side_core self.now.in_loop side.entry)
            (value_of value)))
            state.old result state.new }
    {
        match side {
            LeftSide::Root(root) => self.machine.assign_root(state, op, root, value),
            LeftSide::Part(base, rest) => {
                self.assign_part(state, op, base, rest, value)?;
                Ok(Dynamic::Unit)
            }
            LeftSide::Nowhere => Err(Interrupt::Stuck(Stuck::NoPlace)),
        }
    }
}
