//! Operators over values, and the host.

ghost use Rattle.std.specs.Prelude.{◌≡◌, [], ◌∷◌, Some, map};
ghost use Rattle.std.specs.Option.{option_map};
ghost use Rattle.rhai_base.specs.Reading.{value_of};
ghost use Rattle.rhai_base.specs.Builtin.{operator_of};
ghost use Rattle.theory_meaning.specs.ActForms.{ask_host, ask_method};
ghost use Rattle.theory_meaning.specs.Calls.{operate};
ghost use Rattle.run_steps.specs.Setting.{setting};
ghost use Rattle.run_state.specs.Evaluating.{Runs};
ghost use Rattle.run_state.specs.Runs.{Acting, Leads};

use crate::nodes::{builtin, fault_text};
use crate::steps::machine::Machine;
use rhai_base::{Dynamic, ImmutableString, Seq, Token};
use run_host::{Host, HostAnswer, HostCall, ask};
use run_state::{Interrupt, State};

impl<'a, H: Host> Machine<'a, H> {
    /// An operator over values: built in, or else the host's.
    #[inline(never)]
    pub fn operate(
        &self,
        state: &mut State,
        op: Token,
        args: Seq<Dynamic>,
    ) -> Result<Dynamic, Interrupt>
        ensures { let here = setting H.answers H.modules self.now in
            (o : _) → operator_of op ≡ Some o
            → Runs here (Acting (operate here.world o (map value_of args))) state.old result state.new }
    {
        match builtin(self.alloc, self.info, op, args.as_slice())? {
            Some(Ok(value)) => Ok(value),
            Some(Err(fault)) => Err(Interrupt::Throw(fault_text(self.alloc, fault)?)),
            None => {
                let name = ImmutableString::new(self.alloc, op.literal_syntax())?;
                self.ask_host(state, name, args)
            }
        }
    }

    /// An operator over two values, which are put into a list only where the host is asked.
    pub fn operate_two(
        &self,
        state: &mut State,
        op: Token,
        x: Dynamic,
        y: Dynamic,
    ) -> Result<Dynamic, Interrupt>
        ensures { let here = setting H.answers H.modules self.now in
            (o : _) → operator_of op ≡ Some o
            → Runs here (Acting (operate here.world o (value_of x ∷ value_of y ∷ []))) state.old result state.new }
    {
        match self.info.builtin_binary(self.alloc, op, &x, &y)? {
            Some(Ok(value)) => Ok(value),
            Some(Err(error)) => Err(Interrupt::Throw(fault_text(self.alloc, error)?)),
            None => {
                let name = ImmutableString::new(self.alloc, op.literal_syntax())?;
                let args = Seq::from_array(self.alloc, [x, y])?;
                self.ask_host(state, name, args)
            }
        }
    }

    /// The call's value, as the host answers it.
    pub fn ask_host(
        &self,
        state: &mut State,
        name: ImmutableString,
        args: Seq<Dynamic>,
    ) -> Result<Dynamic, Interrupt>
        ensures { Runs (setting H.answers H.modules self.now) (Acting (ask_host name (map value_of args))) state.old
            result state.new }
    {
        let call = HostCall {
            name,
            receiver: None,
            args,
        };
        match ask(self.host, self.alloc, &mut state.calls, call)? {
            HostAnswer::Value { value, receiver: _ } => Ok(value),
            HostAnswer::Throw(value) => Err(Interrupt::Throw(value)),
        }
    }

    /// What the host answers for a receiver: the value, and the receiver's new one if any.
    pub fn ask_method(
        &self,
        state: &mut State,
        name: ImmutableString,
        receiver: Dynamic,
        args: Seq<Dynamic>,
    ) -> Result<(Dynamic, Option<Dynamic>), Interrupt>
        ensures { (next : _)
            → Leads (setting H.answers H.modules self.now)
            (Acting (ask_method name (value_of receiver) (map value_of args) next)) state.old result state.new
            (λ a. Acting (next (value_of a.0) (option_map value_of a.1))) }
    {
        let call = HostCall {
            name,
            receiver: Some(receiver),
            args,
        };
        match ask(self.host, self.alloc, &mut state.calls, call)? {
            HostAnswer::Value { value, receiver } => Ok((value, receiver)),
            HostAnswer::Throw(value) => Err(Interrupt::Throw(value)),
        }
    }
}
