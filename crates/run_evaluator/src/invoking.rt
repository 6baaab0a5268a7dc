//! Calls of a script's functions.

#![tactic(auto, using(rhai_base::specs::Reading::kinds))]

ghost use Rattle.std.specs.Prelude.{◌≡◌, ◌≤◌, Some, map};
ghost use Rattle.std.specs.Option.{option_map};
ghost use Rattle.rhai_base.specs.Reading.{value_of};
ghost use Rattle.ast_types.specs.Reading.{function_of, stmts_of};
ghost use Rattle.script_tables.specs.FnKey.{definition_key};
ghost use Rattle.script_tables.specs.FnLib.{functions_of};
ghost use Rattle.theory_meaning.specs.Desugar.{core_function};
ghost use Rattle.theory_meaning.specs.Weight.{weight};
ghost use Rattle.run_steps.specs.Setting.{setting};
ghost use Rattle.run_state.specs.Evaluating.{bodies_weight, Runs, RunsInvoke};
ghost use Rattle.run_state.specs.Runs.{Acting};
ghost use Rattle.theory_meaning.specs.Calls as calls;
ghost use Rattle.theory_meaning.specs.Run as run;

use crate::evaluator::Evaluator;
use rhai_ast::ScriptFuncDef;
use rhai_base::{Dynamic, ImmutableString, Seq};
use run_host::Host;
use run_state::{Interrupt, State, function_ended};
use script_tables::FnKey;

impl<'a, H: Host> Evaluator<'a, H> {
    /// A script's function of this name without receiver type, else the host.
    #[cycle(evaluate)]
    #[inline(never)]
    pub fn call_named(
        &self,
        state: &mut State,
        name: &ImmutableString,
        captures: bool,
        args: Seq<Dynamic>,
    ) -> Result<Dynamic, Interrupt>
        ensures { let here = setting H.answers H.modules self.now.machine in
            Runs here (Acting (calls.call_named here.world captures name.now (map value_of args))) state.old result
            state.new }
    {
        let key = FnKey {
            name: name.clone()?,
            params: args.len(),
            this_type: None,
        };
        match self.machine.functions.get(&key) {
            Some(function) => {
                let (value, _) = self.invoke(state, function, captures, None, args)?;
                Ok(value)
            }
            None => self.machine.ask_host(state, name.clone()?, args),
        }
    }

    /// A function's value and its last `this`. It takes a turn.
    #[cycle(evaluate)]
    pub(crate) fn invoke(
        &self,
        state: &mut State,
        function: &ScriptFuncDef,
        captures: bool,
        this: Option<Dynamic>,
        args: Seq<Dynamic>,
    ) -> Result<(Dynamic, Option<Dynamic>), Interrupt>
        requires { weight (stmts_of function.now.body.block) ≤ bodies_weight
            (functions_of self.now.machine.functions.now) }
        ensures { let here = setting H.answers H.modules self.now.machine in
            run.function_of here.functions (definition_key function.now)
            ≡ Some (core_function (function_of function.now))
            → RunsInvoke here
            (record {
              function = definition_key function.now;
              captures = captures;
              this = option_map value_of this;
              arguments = map value_of args;
            })
            state.old result state.new }
    {
        state.take_turn()?;
        let Some(inside) = self.inside_function(state.turns) else {
            return Err(Interrupt::NoMemory);
        };
        let params = function.params.as_slice();
        let mut body = state.enter(self.machine.alloc, captures, params, this, args)?;
        let ended = inside.statements(&mut body, function.body.statements());
        let this = state.resume(body);
        Ok((function_ended(ended)?, this))
    }
}
