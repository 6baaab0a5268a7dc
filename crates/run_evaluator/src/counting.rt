//! `for`.

#![tactic(auto, using(ast_types::specs::Reading::shapes, rhai_base::specs::Reading::kinds))]

ghost use Rattle.std.specs.Prelude.{◌≡◌, true, ◌^◌, ◌≤ℤ◌, ◌+ℤ◌, pos, map};
ghost use Rattle.ast_types.specs.Reading.{counter_of, expr_of, stmts_of};
ghost use Rattle.rhai_base.specs.Reading.{value_of};
ghost use Rattle.theory_meaning.specs.Desugar.{core_expr, core_stmts};
ghost use Rattle.theory_meaning.specs.Act.{IsVariable, Named};
ghost use Rattle.theory_meaning.specs.Control.{counted, for_count, for_each};
ghost use Rattle.theory_meaning.specs.Core.{For};
ghost use Rattle.run_steps.specs.Setting.{setting};
ghost use Rattle.run_state.specs.Evaluating.{body_of, Runs, RunsDeed, RunsList, RunsRound};
ghost use Rattle.run_state.specs.Exits.{count_of};
ghost use Rattle.run_state.specs.Runs.{Acting};

use crate::evaluator::Evaluator;
use rhai_ast::FlowControl;
use rhai_base::{Dynamic, Ident, Seq};
use run_host::{Host, Stuck};
use run_state::{
    EntryKind, Interrupt, State, declare_count, next_count, nth, round_ended, rounds_before,
    rounds_through,
};

impl<'a, H: Host> Evaluator<'a, H> {
    /// `for` over the elements of an array or over a range; anything else is stuck.
    #[cycle(evaluate)]
    #[inline(never)]
    pub fn for_loop(
        &self,
        state: &mut State,
        parts: &(Ident, Option<Ident>, FlowControl),
    ) -> Result<Dynamic, Interrupt>
        ensures { RunsDeed (setting H.answers H.modules self.now.machine)
            (For parts.now.0.name (counter_of parts.now.1) (core_expr self.now.in_loop (expr_of parts.now.2.expr))
            (core_stmts true (stmts_of parts.now.2.body.block)))
            state.old result state.new }
    {
        match self.expr(state, &parts.2.expr)?.into_array() {
            Ok(items) => self.for_each(state, parts, items),
            Err(guard) => match &guard {
                Dynamic::Range(from, to) => {
                    self.for_count(state, parts, *from, rounds_before(*from, *to))
                }
                Dynamic::RangeInclusive(from, to) => {
                    self.for_count(state, parts, *from, rounds_through(*from, *to))
                }
                _ => Err(Interrupt::Stuck(Stuck::WrongKind)),
            },
        }
    }

    #[cycle(evaluate)]
    fn for_each(
        &self,
        state: &mut State,
        parts: &(Ident, Option<Ident>, FlowControl),
        items: Seq<Dynamic>,
    ) -> Result<Dynamic, Interrupt>
        ensures { let here = setting H.answers H.modules self.now.machine in
            Runs here
            (Acting
            (for_each parts.now.0.name (counter_of parts.now.1)
            (body_of here (stmts_of parts.now.2.body.block)) 0 (map value_of items)))
            state.old result state.new }
    {
        let mut count = Some(0);
        let mut rest = items.into_rest();
        while let Some(item) = rest.next() {
            if let Some(value) = self.for_round(state, parts, count, item)? {
                return Ok(value);
            }
            count = next_count(count);
        }
        Ok(Dynamic::Unit)
    }

    /// So many integers, from the first one on.
    #[cycle(evaluate)]
    fn for_count(
        &self,
        state: &mut State,
        parts: &(Ident, Option<Ident>, FlowControl),
        first: i64,
        rounds: u128,
    ) -> Result<Dynamic, Interrupt>
        requires { (first +ℤ pos rounds) ≤ℤ pos (2 ^ 63) }
        ensures { let here = setting H.answers H.modules self.now.machine in
            Runs here
            (Acting
            (for_count parts.now.0.name (counter_of parts.now.1)
            (body_of here (stmts_of parts.now.2.body.block)) 0 first rounds))
            state.old result state.new }
    {
        let mut count = Some(0);
        for index in 0..rounds {
            let item = nth(first, index);
            if let Some(value) = self.for_round(state, parts, count, item)? {
                return Ok(value);
            }
            count = next_count(count);
        }
        Ok(Dynamic::Unit)
    }

    /// A round with its turn, the counter and the value: the loop's value where it is left, `None` where another round
    /// follows.
    #[cycle(evaluate)]
    fn for_round(
        &self,
        state: &mut State,
        parts: &(Ident, Option<Ident>, FlowControl),
        count: Option<i64>,
        item: Dynamic,
    ) -> Result<Option<Dynamic>, Interrupt>
        ensures { let here = setting H.answers H.modules self.now.machine in
            (k : _) → count ≡ count_of k
            → RunsRound here
            (counted (counter_of parts.now.1) k
            (Named parts.now.0.name IsVariable (value_of item)
            (body_of here (stmts_of parts.now.2.body.block))))
            state.old result state.new }
    {
        state.take_turn()?;
        let mark = state.begin_list();
        let ended = self.for_body(state, parts, count, item);
        state.end_list(mark);
        round_ended(ended)
    }

    /// The body under the names of its round, which stay.
    #[cycle(evaluate)]
    fn for_body(
        &self,
        state: &mut State,
        parts: &(Ident, Option<Ident>, FlowControl),
        count: Option<i64>,
        item: Dynamic,
    ) -> Result<Dynamic, Interrupt>
        ensures { let here = setting H.answers H.modules self.now.machine in
            (k : _) → count ≡ count_of k
            → RunsList here
            (counted (counter_of parts.now.1) k
            (Named parts.now.0.name IsVariable (value_of item)
            (body_of here (stmts_of parts.now.2.body.block))))
            state.old result state.new }
    {
        let (name, counter, flow) = parts;
        declare_count(state, counter, count)?;
        state.declare(&name.name, EntryKind::Variable, item)?;
        self.inside_loop().statements(state, flow.body.statements())
    }
}
