//! Assignments to parts of values.

#![tactic(auto, using(ast_types::specs::Reading::shapes, rhai_base::specs::Reading::kinds))]

ghost use Rattle.std.specs.Prelude.{◌≡◌, map, Some};
ghost use Rattle.rhai_base.specs.Reading.{value_of};
ghost use Rattle.rhai_base.specs.Value.{UnitV};
ghost use Rattle.rhai_base.specs.Builtin.{operator_of};
ghost use Rattle.ast_types.specs.Reading.{expr_of};
ghost use Rattle.run_steps.specs.Chaining.{access_meant};
ghost use Rattle.run_steps.specs.Links.{rest_steps};
ghost use Rattle.run_steps.specs.Setting.{setting};
ghost use Rattle.run_steps.specs.Placing.{current_in};
ghost use Rattle.run_state.specs.Runs.{Acting, Leads, given};
ghost use Rattle.run_state.specs.State.{store_of};
ghost use Rattle.run_steps.specs.LeftSides.{part_core};
ghost use Rattle.run_steps.specs.Targets.{Changes};
ghost use Rattle.theory_meaning.specs.Calls as calls;
ghost use Rattle.theory_meaning.specs.Chains as chains;
ghost use Rattle.theory_meaning.specs.Meaning as meaning;

use crate::evaluator::Evaluator;
use bitflags::Flags;
use rhai_ast::Expr;
use rhai_base::{ASTFlags, Dynamic, ImmutableString, OpAssignment, Seq, Token};
use run_host::{Host, Stuck};
use run_state::{Interrupt, State};
use run_steps::{
    Access, Current, Rest, assign_index, assign_place, assign_property, assigning_operator,
    ends_in_call, follow_root, is_chain, root_of, set_at,
};

impl<'a, H: Host> Evaluator<'a, H> {
    /// Assigns to the part that a chain leads to, by its base and what is left of it then. Only a name or `this` has
    /// parts with a place, and the value of a call has none.
    #[cycle(evaluate)]
    pub(crate) fn assign_part(
        &self,
        state: &mut State,
        op: &OpAssignment,
        base: &Expr,
        rest: Rest,
        value: Dynamic,
    ) -> Result<(), Interrupt>
        ensures { let here = setting H.answers H.modules self.now.machine in
            Leads here
            (Acting
            (meaning.assign here.world (operator_of op.now.op)
            (part_core self.now.in_loop (expr_of base.now) rest.entry) (value_of value)))
            state.old result state.new (λ z. given UnitV) }
    {
        if !is_chain(rest.chain, rest.options, rest.right) {
            return Err(Interrupt::Stuck(Stuck::WrongKind));
        }
        let Some(root) = root_of(base) else {
            return Err(Interrupt::Stuck(Stuck::NoPlace));
        };
        if ends_in_call(
            rest.chain,
            rest.options.contains(ASTFlags::BREAK),
            rest.right,
        ) {
            return Err(Interrupt::Stuck(Stuck::NoPlace));
        }
        let (place, left) = follow_root(&self.machine, state, root, rest)?;
        match left {
            Some(rest) => self.assign_steps(state, op, rest, value, Current::At(place)),
            None => assign_place(&self.machine, state, op, place, value),
        }
    }

    /// Assigns to the part that what is left of a chain leads to, from what the chain has come to. A chain that ends
    /// before it is not assigned to.
    #[cycle(evaluate)]
    fn assign_steps(
        &self,
        state: &mut State,
        op: &OpAssignment,
        rest: Rest,
        value: Dynamic,
        current: Current,
    ) -> Result<(), Interrupt>
        ensures { let here = setting H.answers H.modules self.now.machine in
            Leads here
            (Acting
            (meaning.assign_steps here.world (operator_of op.now.op) (value_of value)
            (rest_steps self.now.in_loop rest.entry) (current_in here (store_of state.old) current.entry)))
            state.old result state.new (λ z. given UnitV) }
    {
        let link = rest.link();
        let Some(access) = self.reach(state, rest, &current)? else {
            return Ok(());
        };
        match link.rest {
            Some(rest) => {
                let current = self.applied(state, access, current)?;
                self.assign_steps(state, op, rest, value, current)
            }
            None => self.assign_last(state, op, access, value, current),
        }
    }

    /// The last step of an assignment, which an operator reads first.
    #[cycle(evaluate)]
    fn assign_last(
        &self,
        state: &mut State,
        op: &OpAssignment,
        access: Access,
        value: Dynamic,
        current: Current,
    ) -> Result<(), Interrupt>
        ensures { let here = setting H.answers H.modules self.now.machine in
            Leads here
            (Acting
            (chains.assign_last here.world (operator_of op.now.op) (value_of value) (access_meant access.entry)
            (current_in here (store_of state.old) current.entry)))
            state.old result state.new (λ z. given UnitV) }
    {
        let Some(token) = assigning_operator(op) else {
            return set_at(&self.machine, state, access, value, current);
        };
        match access {
            Access::Property(names) => {
                assign_property(&self.machine, state, token, names, value, current)
            }
            Access::Index(index) => {
                assign_index(&self.machine, state, token, index, value, current)
            }
            Access::Method(name, args) => {
                self.changed_method(state, token, name, args, value, current)?;
                Err(Interrupt::Stuck(Stuck::NoPlace))
            }
        }
    }

    /// What an operator makes of a method's value.
    #[cycle(evaluate)]
    fn changed_method(
        &self,
        state: &mut State,
        op: Token,
        name: &ImmutableString,
        args: Seq<Dynamic>,
        value: Dynamic,
        current: Current,
    ) -> Result<Dynamic, Interrupt>
        ensures { let here = setting H.answers H.modules self.now.machine in
            let c = current_in here (store_of state.old) current.entry in
            (o : _) → operator_of op ≡ Some o
            → Changes here o (value_of value)
            (λ next. chains.method here.world name.now (calls.word name.now) (map value_of args) c next)
            state.old result state.new }
    {
        let read = self.method(state, name, args, current)?;
        let old = self.machine.current_value(state, read)?;
        self.machine.assigned(state, op, old, value)
    }
}
