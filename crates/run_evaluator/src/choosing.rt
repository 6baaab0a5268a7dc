//! `switch`.

#![tactic(auto, using(ast_types::specs::Reading::shapes, rhai_base::specs::Reading::kinds))]

ghost use Rattle.std.specs.Prelude.{[], ◌∷◌, None, map, slice_get};
ghost use Rattle.ast_types.specs.Reading.{arms_of, cases_of, expr_of, expressions_of, range_of, subject_of, table_of};
ghost use Rattle.rhai_base.specs.Reading.{value_of};
ghost use Rattle.theory_meaning.specs.Control.{chosen, default_of, ranges_with, switch_on};
ghost use Rattle.theory_meaning.specs.Desugar.{core_stmt};
ghost use Rattle.run_steps.specs.Setting.{setting};
ghost use Rattle.run_state.specs.Evaluating.{arms_here, Runs, RunsArm, RunsFirstArm, RunsLine};
ghost use Rattle.run_state.specs.Runs.{Acting};
ghost use Rattle.theory_meaning.specs.Tree as tree;

use crate::evaluator::Evaluator;
use ast_nodes::{case_list, is_table};
use rhai_ast::{BinaryExpr, SwitchBlock, SwitchCasesCollection};
use rhai_base::{Dynamic, RangeCase};
use run_host::{Host, Stuck};
use run_state::{Interrupt, State, truth};

impl<'a, H: Host> Evaluator<'a, H> {
    /// The first arm in the subject's list, or else in its ranges, whose condition holds; else the default. One with a
    /// table that no tree has is stuck.
    #[cycle(evaluate)]
    #[inline(never)]
    pub fn switch(&self, state: &mut State, block: &SwitchBlock) -> Result<Dynamic, Interrupt>
        ensures { RunsLine (setting H.answers H.modules self.now.machine)
            (core_stmt self.now.in_loop
            (tree.Switch (expr_of (subject_of block.now)) (arms_of (expressions_of (cases_of block.now)))
            (table_of (cases_of block.now))))
            state.old result state.new }
    {
        if !is_table(&block.cases) {
            return Err(Interrupt::Stuck(Stuck::WrongKind));
        }
        let subject = self.expr(state, &block.expr)?;
        self.choose(state, &block.cases, &subject)
    }

    #[cycle(evaluate)]
    fn choose(
        &self,
        state: &mut State,
        table: &SwitchCasesCollection,
        subject: &Dynamic,
    ) -> Result<Dynamic, Interrupt>
        ensures { let here = setting H.answers H.modules self.now.machine in
            Runs here
            (Acting
            (switch_on (arms_here here self.now.in_loop (arms_of (expressions_of table.now)))
            (table_of table.now) (value_of subject.now)))
            state.old result state.new }
    {
        match self.chosen_arm(state, table, subject)? {
            Some(value) => Ok(value),
            None => self.default_arm(state, table.expressions.as_slice(), table.def_case),
        }
    }

    /// The answer of an arm of the subject's list, or of its ranges where it has no list; `None` where no condition
    /// holds.
    #[cycle(evaluate)]
    fn chosen_arm(
        &self,
        state: &mut State,
        table: &SwitchCasesCollection,
        subject: &Dynamic,
    ) -> Result<Option<Dynamic>, Interrupt>
        ensures { let here = setting H.answers H.modules self.now.machine in
            RunsFirstArm here (arms_here here self.now.in_loop (arms_of (expressions_of table.now)))
            (chosen (table_of table.now) (value_of subject.now)) state.old result state.new }
    {
        let arms = table.expressions.as_slice();
        match case_list(table, subject) {
            Some(list) => self.first_arm(state, arms, list.blocks.as_slice()),
            None => self.first_range(state, arms, table.ranges.as_slice(), subject),
        }
    }

    /// The answer of the first of these arms whose condition holds.
    #[cycle(evaluate)]
    fn first_arm(
        &self,
        state: &mut State,
        arms: &[BinaryExpr],
        places: &[usize],
    ) -> Result<Option<Dynamic>, Interrupt>
        ensures { let here = setting H.answers H.modules self.now.machine in
            RunsFirstArm here (arms_here here self.now.in_loop (arms_of arms.now)) places.now state.old result
            state.new }
    {
        for place in places {
            if let Some(value) = self.arm(state, arms, *place)? {
                return Ok(Some(value));
            }
        }
        Ok(None)
    }

    /// The answer of the first arm of the ranges that hold the subject whose condition holds.
    #[cycle(evaluate)]
    fn first_range(
        &self,
        state: &mut State,
        arms: &[BinaryExpr],
        ranges: &[RangeCase],
        subject: &Dynamic,
    ) -> Result<Option<Dynamic>, Interrupt>
        ensures { let here = setting H.answers H.modules self.now.machine in
            RunsFirstArm here (arms_here here self.now.in_loop (arms_of arms.now))
            (ranges_with (map range_of ranges.now) (value_of subject.now)) state.old result state.new }
    {
        for range in ranges {
            if let Some(value) = self.range_arm(state, arms, range, subject)? {
                return Ok(Some(value));
            }
        }
        Ok(None)
    }

    /// The answer of a range's arm, where the range holds the subject and the arm's condition holds.
    #[cycle(evaluate)]
    fn range_arm(
        &self,
        state: &mut State,
        arms: &[BinaryExpr],
        range: &RangeCase,
        subject: &Dynamic,
    ) -> Result<Option<Dynamic>, Interrupt>
        ensures { let here = setting H.answers H.modules self.now.machine in
            RunsFirstArm here (arms_here here self.now.in_loop (arms_of arms.now))
            (ranges_with (range_of range.now ∷ []) (value_of subject.now)) state.old result state.new }
    {
        if range.contains(subject) {
            self.arm(state, arms, range.index())
        } else {
            Ok(None)
        }
    }

    /// The answer of an arm whose condition holds; `None` where it does not, or where there is no such arm.
    #[cycle(evaluate)]
    fn arm(
        &self,
        state: &mut State,
        arms: &[BinaryExpr],
        place: usize,
    ) -> Result<Option<Dynamic>, Interrupt>
        ensures { let here = setting H.answers H.modules self.now.machine in
            RunsArm here (slice_get (arms_here here self.now.in_loop (arms_of arms.now)) place) state.old result
            state.new }
    {
        let Some(arm) = arms.get(place) else {
            return Ok(None);
        };
        if !truth(self.expr(state, &arm.lhs)?)? {
            return Ok(None);
        }
        Ok(Some(self.expr(state, &arm.rhs)?))
    }

    /// The answer of the default arm, whatever its condition; unit without one.
    #[cycle(evaluate)]
    fn default_arm(
        &self,
        state: &mut State,
        arms: &[BinaryExpr],
        place: Option<usize>,
    ) -> Result<Dynamic, Interrupt>
        ensures { let here = setting H.answers H.modules self.now.machine in
            Runs here (Acting (default_of (arms_here here self.now.in_loop (arms_of arms.now)) place)) state.old result
            state.new }
    {
        let Some(place) = place else {
            return Ok(Dynamic::Unit);
        };
        match arms.get(place) {
            Some(arm) => self.expr(state, &arm.rhs),
            None => Ok(Dynamic::Unit),
        }
    }
}
