//! Calls: operators, the language's own words, script functions, the host.

#![tactic(auto, using(ast_types::specs::Reading::shapes, rhai_base::specs::Reading::kinds))]

ghost use Rattle.std.specs.Prelude.{◌≡◌, [], ◌∷◌, true, length, map, Some, None};
ghost use Rattle.rhai_base.specs.Reading.{value_of};
ghost use Rattle.ast_types.specs.Reading.{callee_of, exprs_of};
ghost use Rattle.rhai_base.specs.Builtin.{operator_of};
ghost use Rattle.run_steps.specs.Operators.{called_operator};
ghost use Rattle.theory_meaning.specs.Desugar.{callee_by, core_exprs};
ghost use Rattle.run_steps.specs.Setting.{setting};
ghost use Rattle.run_state.specs.Evaluating.{Runs, RunsCall, RunsCore};
ghost use Rattle.run_state.specs.Runs.{Acting};
ghost use Rattle.theory_meaning.specs.Calls as calls;
ghost use Rattle.theory_meaning.specs.Core as core;
ghost use Rattle.theory_meaning.specs.Shape as shape;

use crate::evaluator::Evaluator;
use rhai_ast::{Expr, FnCallExpr};
use rhai_base::{Dynamic, ImmutableString, Seq, Token};
use run_host::{Host, Stuck};
use run_state::{Interrupt, State, Word, pointed};
use run_steps::{is_callable, operator_called, qualified, two_operands};

impl<'a, H: Host> Evaluator<'a, H> {
    /// A call: its arguments first, then what its name stands for. One whose name or token no tree has is stuck before.
    #[cycle(evaluate)]
    #[inline(never)]
    pub fn call(&self, state: &mut State, call: &FnCallExpr) -> Result<Dynamic, Interrupt>
        ensures { RunsCall (setting H.answers H.modules self.now.machine) self.now.in_loop (callee_of call.now)
            (exprs_of call.now.args) state.old result state.new }
    {
        if let Some(op) = operator_called(call) {
            return self.operator(state, op, call.args.as_slice());
        }
        if !is_callable(call) {
            return Err(Interrupt::Stuck(Stuck::WrongKind));
        }
        let args = self.exprs(state, call.args.as_slice())?;
        self.called(state, call, args)
    }

    /// An operator over its operands.
    #[cycle(evaluate)]
    fn operator(
        &self,
        state: &mut State,
        op: Token,
        operands: &[Expr],
    ) -> Result<Dynamic, Interrupt>
        ensures { (o : _) → operator_of op ≡ Some o
            → RunsCore (setting H.answers H.modules self.now.machine)
            (core.FnCall (core.OnOperator o) (core_exprs self.now.in_loop (exprs_of operands.now))) state.old
            result state.new }
    {
        match two_operands(operands) {
            Some((x, y)) => self.binary(state, op, x, y),
            None => {
                let args = self.exprs(state, operands)?;
                self.machine.operate(state, op, args)
            }
        }
    }

    /// An operator over two operands, which are put into no list.
    #[cycle(evaluate)]
    fn binary(&self, state: &mut State, op: Token, x: &Expr, y: &Expr) -> Result<Dynamic, Interrupt>
        ensures { (o : _) → operator_of op ≡ Some o
            → RunsCore (setting H.answers H.modules self.now.machine)
            (core.FnCall (core.OnOperator o) (core_exprs self.now.in_loop (exprs_of (x.now ∷ y.now ∷ []))))
            state.old result state.new }
    {
        let left = self.expr(state, x)?;
        let right = self.expr(state, y)?;
        self.machine.operate_two(state, op, left, right)
    }

    /// A call that stands for no operator, over its arguments.
    #[cycle(evaluate)]
    #[inline(never)]
    fn called(
        &self,
        state: &mut State,
        call: &FnCallExpr,
        args: Seq<Dynamic>,
    ) -> Result<Dynamic, Interrupt>
        requires { (shape.is_callable (callee_of call.now) (length call.now.args) ≡ true)
            × (None ≡ called_operator (callee_of call.now) (length call.now.args)) }
        ensures { let here = setting H.answers H.modules self.now.machine in
            Runs here
            (Acting
            (calls.called here.world (callee_by (callee_of call.now) (callee_of call.now).token)
            (map value_of args)))
            state.old result state.new }
    {
        if call.namespace.is_empty() {
            return self.call_word(state, &call.name, call.capture_parent_scope, args);
        }
        let scope = state.scope.as_slice();
        let name = qualified(
            self.machine.alloc,
            scope,
            &call.namespace,
            call.name.as_str(),
        )?;
        let name = ImmutableString::new(self.machine.alloc, name.as_str())?;
        self.machine.ask_host(state, name, args)
    }

    /// One of the language's own words, where it has as many arguments as it takes; else a function of the name.
    #[cycle(evaluate)]
    #[inline(never)]
    fn call_word(
        &self,
        state: &mut State,
        name: &ImmutableString,
        captures: bool,
        args: Seq<Dynamic>,
    ) -> Result<Dynamic, Interrupt>
        ensures { let here = setting H.answers H.modules self.now.machine in
            Runs here (Acting (calls.call_word here.world captures name.now (calls.word name.now) (map value_of args)))
            state.old result state.new }
    {
        let word = Word::of(name.as_str());
        if word.is_to_host() {
            return self.machine.ask_host(state, name.clone()?, args);
        }
        if word.is_call() {
            return self.call_pointed(state, name, captures, args);
        }
        match self.machine.word_value(word, args.as_slice())? {
            Some(value) => Ok(value),
            None => self.call_named(state, name, captures, args),
        }
    }

    /// `call`: the function that a pointer names, with the pointer's values before the others.
    #[cycle(evaluate)]
    #[inline(never)]
    fn call_pointed(
        &self,
        state: &mut State,
        name: &ImmutableString,
        captures: bool,
        args: Seq<Dynamic>,
    ) -> Result<Dynamic, Interrupt>
        ensures { let here = setting H.answers H.modules self.now.machine in
            Runs here (Acting (calls.call_word here.world captures name.now calls.CallFn (map value_of args)))
            state.old result state.new }
    {
        match pointed(self.machine.alloc, args.as_slice())? {
            Some((function, all)) => self.call_named(state, &function, captures, all),
            None => self.call_named(state, name, captures, args),
        }
    }
}
