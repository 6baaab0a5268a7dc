//! Methods: the language's own words, functions of the script for the value's type, the host.

#![tactic(auto, using(rhai_base::specs::Reading::kinds))]

ghost use Rattle.std.specs.Prelude.{◌≡◌, false, Ok, map};
ghost use Rattle.rhai_base.specs.Reading.{value_of};
ghost use Rattle.run_steps.specs.Chaining.{StepsOn};
ghost use Rattle.run_state.specs.declared.state.State.{State};
ghost use Rattle.run_steps.specs.Setting.{setting};
ghost use Rattle.run_state.specs.Evaluating.{Runs};
ghost use Rattle.run_steps.specs.Placing.{current_in};
ghost use Rattle.run_state.specs.Runs.{Acting};
ghost use Rattle.run_state.specs.State.{store_of};
ghost use Rattle.theory_meaning.specs.Calls as calls;
ghost use Rattle.theory_meaning.specs.Chains as chains;
ghost use Rattle.run_steps.specs.Chaining as spec;

use crate::evaluator::Evaluator;
use rhai_base::{Dynamic, ImmutableString, Seq};
use run_host::Host;
use run_state::{Interrupt, State, Word, pointed_with};
use run_steps::{Current, put_back};

impl<'a, H: Host> Evaluator<'a, H> {
    /// A method's value: that of a word, or of a function whose new receiver is put back.
    #[cycle(evaluate)]
    pub fn method<'c>(
        &self,
        state: &mut State,
        name: &ImmutableString,
        args: Seq<Dynamic>,
        current: Current<'c>,
    ) -> Result<Current<'c>, Interrupt>
        ensures { let here = setting H.answers H.modules self.now.machine in
            let c = current_in here (store_of state.old) current.entry in
            StepsOn here (λ next. chains.method here.world name.now (calls.word name.now) (map value_of args) c next)
            state.old result state.new }
    {
        let receiver = self.machine.copied(state, &current)?;
        let word = Word::of(name.as_str());
        if word.is_call() {
            let value = self.call_receiver(state, &receiver, args.as_slice())?;
            return Ok(Current::Loose(value));
        }
        match self.machine.word_method(word, &receiver, args.as_slice())? {
            Some(value) => Ok(Current::Loose(value)),
            None => self.to_method(state, name, receiver, args, current),
        }
    }

    /// `call`: the function that the receiver names.
    #[cycle(evaluate)]
    fn call_receiver(
        &self,
        state: &mut State,
        receiver: &Dynamic,
        args: &[Dynamic],
    ) -> Result<Dynamic, Interrupt>
        ensures { let here = setting H.answers H.modules self.now.machine in
            Runs here (Acting (calls.call_pointer here.world false (value_of receiver.now) (map value_of args.now)))
            state.old result state.new }
    {
        let (name, args) = pointed_with(self.machine.alloc, receiver, args)?;
        self.call_named(state, &name, false, args)
    }

    /// A script's function for the receiver's type, or one without receiver type, else the host.
    #[cycle(evaluate)]
    fn to_method<'c>(
        &self,
        state: &mut State,
        name: &ImmutableString,
        receiver: Dynamic,
        args: Seq<Dynamic>,
        current: Current<'c>,
    ) -> Result<Current<'c>, Interrupt>
        ensures { let here = setting H.answers H.modules self.now.machine in
            let c = current_in here (store_of state.old) current.entry in
            value_of receiver ≡ c.value
            → StepsOn here
            (λ next.
            chains.to_method name.now (map value_of args) c
            (chains.method_key here.world name.now (map value_of args) c.value) next)
            state.old result state.new }
    {
        let (value, receiver) = self.call_method(state, name, receiver, args)?;
        put_back(&self.machine, state, &current, receiver)?;
        Ok(Current::Loose(value))
    }

    /// A method's value and the receiver's new one, if any.
    #[cycle(evaluate)]
    fn call_method(
        &self,
        state: &mut State,
        name: &ImmutableString,
        receiver: Dynamic,
        args: Seq<Dynamic>,
    ) -> Result<(Dynamic, Option<Dynamic>), Interrupt>
        ensures { spec.CallsMethod (setting H.answers H.modules self.now.machine) name.now (value_of receiver)
            (map value_of args) state.old result state.new }
    {
        match self
            .machine
            .method_function(name, receiver.type_name(), args.len())?
        {
            Some(function) => self.invoke(state, function, false, Some(receiver), args),
            None => self
                .machine
                .ask_method(state, name.clone()?, receiver, args),
        }
    }
}
