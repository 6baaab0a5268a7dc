//! Chains: their base, then step after step.

#![tactic(auto, using(ast_types::specs::Reading::shapes, rhai_base::specs::Reading::kinds))]

ghost use Rattle.std.specs.Prelude.{false};
ghost use Rattle.ast_types.specs.Reading.{chain_flags, expr_of};
ghost use Rattle.run_steps.specs.Chaining.{access_meant, StepsOn};
ghost use Rattle.run_steps.specs.Links.{rest_steps, step_core};
ghost use Rattle.run_steps.specs.Setting.{setting};
ghost use Rattle.run_state.specs.Evaluating.{Runs, RunsCore};
ghost use Rattle.run_steps.specs.Placing.{current_in, read_base};
ghost use Rattle.run_steps.specs.Variables.{root_meant};
ghost use Rattle.run_state.specs.Runs.{Acting};
ghost use Rattle.run_state.specs.State.{store_of};
ghost use Rattle.theory_meaning.specs.Chains as chains;
ghost use Rattle.theory_meaning.specs.Meaning as meaning;
ghost use Rattle.run_steps.specs.Chaining as spec;
ghost use Rattle.rhai_ast.specs.Nodes.{is_dot};

use crate::evaluator::Evaluator;
use bitflags::Flags;
use rhai_ast::{BinaryExpr, ChainType, Expr, FnCallExpr};
use rhai_base::{ASTFlags, Dynamic};
use run_host::{Host, Stuck};
use run_state::{Interrupt, State};
use run_steps::{
    Access, Current, PropertyNames, Rest, Root, direct_root, direct_value, follow_root, index_step,
    is_callable, is_chain, property_step, root_of,
};

impl<'a, H: Host> Evaluator<'a, H> {
    /// A chain by its outermost node: its base, then its steps.
    #[cycle(evaluate)]
    #[inline(never)]
    pub fn chain(
        &self,
        state: &mut State,
        sides: &BinaryExpr,
        chain: ChainType,
        options: ASTFlags,
    ) -> Result<Dynamic, Interrupt>
        ensures { RunsCore (setting H.answers H.modules self.now.machine)
            (spec.chain_core self.now.in_loop (is_dot chain) (chain_flags options) (expr_of sides.now.lhs)
            (expr_of sides.now.rhs))
            state.old result state.new }
    {
        if !is_chain(chain, options, &sides.rhs) {
            return Err(Interrupt::Stuck(Stuck::WrongKind));
        }
        let rest = Rest {
            chain,
            options,
            right: &sides.rhs,
        };
        match root_of(&sides.lhs) {
            Some(root) => self.from_root(state, root, rest),
            None => {
                let base = self.expr(state, &sides.lhs)?;
                self.steps(state, rest, Current::Loose(base))
            }
        }
    }

    /// A chain from a name or `this`, followed by reference as far as its steps run nothing.
    #[cycle(evaluate)]
    fn from_root(&self, state: &mut State, root: Root, rest: Rest) -> Result<Dynamic, Interrupt>
        ensures { let here = setting H.answers H.modules self.now.machine in
            Runs here
            (Acting
            (read_base (root_meant root.entry)
            (λ c. meaning.steps here.world (rest_steps self.now.in_loop rest.entry) c)))
            state.old result state.new }
    {
        if let Some(value) = direct_root(&self.machine, state, root, rest)? {
            return Ok(value);
        }
        let (place, left) = follow_root(&self.machine, state, root, rest)?;
        match left {
            Some(rest) => self.steps(state, rest, Current::At(place)),
            None => Ok(self.machine.place_value(state, &place)?),
        }
    }

    /// The value of what is left of a chain, from what it has come to.
    #[cycle(evaluate)]
    fn steps(&self, state: &mut State, rest: Rest, current: Current) -> Result<Dynamic, Interrupt>
        ensures { let here = setting H.answers H.modules self.now.machine in
            Runs here
            (Acting
            (meaning.steps here.world (rest_steps self.now.in_loop rest.entry)
            (current_in here (store_of state.old) current.entry)))
            state.old result state.new }
    {
        let link = rest.link();
        let Some(access) = self.reach(state, rest, &current)? else {
            return Ok(Dynamic::Unit);
        };
        let current = self.applied(state, access, current)?;
        let Some(rest) = link.rest else {
            return Ok(self.machine.current_value(state, current)?);
        };
        match direct_value(&self.machine, state, rest, &current)? {
            Some(value) => Ok(value),
            None => self.steps(state, rest, current),
        }
    }

    /// The first step of what is left, its argument evaluated, at what still stands there then. `None` where the chain
    /// ends before it with unit.
    #[cycle(evaluate)]
    pub fn reach<'e>(
        &self,
        state: &mut State,
        rest: Rest<'e>,
        current: &Current,
    ) -> Result<Option<Access<'e>>, Interrupt>
        ensures { let here = setting H.answers H.modules self.now.machine in
            spec.Reaches here self.now.in_loop rest.entry current.now state.old result state.new }
    {
        if rest.options.contains(ASTFlags::NEGATED) && self.machine.is_unit_at(state, current) {
            return Ok(None);
        }
        let link = rest.link();
        let access = self.access(state, rest.chain, link.argument)?;
        self.machine.refreshed(state, current)?;
        Ok(Some(access))
    }

    /// A step by its argument: a member behind a `.`, or an index.
    #[cycle(evaluate)]
    fn access<'e>(
        &self,
        state: &mut State,
        chain: ChainType,
        argument: &'e Expr,
    ) -> Result<Access<'e>, Interrupt>
        ensures { let here = setting H.answers H.modules self.now.machine in
            spec.HasAccess here (step_core self.now.in_loop (is_dot chain) (expr_of argument.now)) state.old result state.new }
    {
        if !chain.is_dot() {
            return Ok(Access::Index(self.expr(state, argument)?));
        }
        match argument {
            Expr::Property(names, _) => {
                let (getter, setter, name) = names.get();
                Ok(Access::Property(PropertyNames {
                    getter,
                    setter,
                    name,
                }))
            }
            Expr::MethodCall(call, _) => self.method_access(state, call.get()),
            _ => Err(Interrupt::Stuck(Stuck::WrongKind)),
        }
    }

    /// A method, its arguments evaluated. One that has no meaning is stuck before.
    #[cycle(evaluate)]
    fn method_access<'e>(
        &self,
        state: &mut State,
        call: &'e FnCallExpr,
    ) -> Result<Access<'e>, Interrupt>
        ensures { let here = setting H.answers H.modules self.now.machine in
            spec.HasAccess here (spec.method_core self.now.in_loop call.now) state.old result state.new }
    {
        if !is_callable(call) {
            return Err(Interrupt::Stuck(Stuck::WrongKind));
        }
        let args = self.exprs(state, call.args.as_slice())?;
        Ok(Access::Method(&call.name, args))
    }

    /// What a step comes to.
    #[cycle(evaluate)]
    pub fn applied<'c>(
        &self,
        state: &mut State,
        access: Access,
        current: Current<'c>,
    ) -> Result<Current<'c>, Interrupt>
        ensures { let here = setting H.answers H.modules self.now.machine in
            let c = current_in here (store_of state.old) current.entry in
            StepsOn here (λ next. chains.applied here.world (access_meant access.entry) c next) state.old result
            state.new }
    {
        match access {
            Access::Property(names) => property_step(&self.machine, state, names, current),
            Access::Index(index) => index_step(&self.machine, state, current, index),
            Access::Method(name, args) => self.method(state, name, args, current),
        }
    }
}
