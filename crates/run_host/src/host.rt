//! What a script asks its host.
ghost use Rattle.std.specs.Prelude.{◌≡◌, ◌++◌, ◌∷◌, [], List, map, option_map, IfOk, OnOk, OnErr};
ghost use Rattle.rhai_base.specs.Reading.{value_of};
ghost use Rattle.theory_meaning.specs.Act as act;
ghost use Rattle.theory_meaning.specs.Host.{module_value_of, module_in};
ghost use Rattle.run_host.specs.Host.{Modules, call_meant, answer_meant};

use rhai_base::{Dynamic, ImmutableString, OutOfMemory, Seq};
use std::alloc::Global;

/// A question to the host.
#[derive(Debug, Drop, PartialEq, Eq)]
pub struct HostCall {
    /// The function's name, or the operator's symbol.
    pub name: ImmutableString,
    /// The value that a method is called on.
    pub receiver: Option<Dynamic>,
    /// The arguments.
    pub args: Seq<Dynamic>,
}

/// What the host answers.
#[derive(Debug, Drop, PartialEq, Eq)]
pub enum HostAnswer {
    /// A value.
    Value {
        /// The call's value.
        value: Dynamic,
        /// The receiver's new value; `None` leaves it as it is.
        receiver: Option<Dynamic>,
    },
    /// A thrown value.
    Throw(Dynamic),
}

/// What answers the calls that are neither a script's own nor built in.
pub trait Host {
    /// The answer to a call, by the calls before it and the call.
    ghost answers: { Self → List act.HostCall → act.HostCall → act.Answer };

    /// The values of modules, by their names joined by `::`, and the modules by their paths.
    ghost modules: { Self → Modules };

    /// Answers a call; `past` are the calls of the run before it. The answer hangs on these two alone. `to_string` with
    /// one argument is asked too for the text of a value that holds a float, where a text is interpolated: this is no
    /// call of the run, and `past` is empty.
    fn answer(
        &self,
        alloc: Global,
        past: &[HostCall],
        call: &HostCall,
    ) -> Result<HostAnswer, OutOfMemory>
        ensures { IfOk result (λ a.
            answer_meant a ≡ answers self.now (map call_meant past.now) (call_meant call.now)) };

    /// A module's value, by its names joined by `::`.
    fn module_value(&self, alloc: Global, qualified: &str) -> Result<Option<Dynamic>, OutOfMemory>
        ensures { IfOk result (λ v. option_map value_of v ≡ module_value_of (modules self.now).values qualified.now) };

    /// The name of the module that a path leads to; `None` where there is none. This is no call.
    fn module(&self, alloc: Global, path: &str) -> Result<Option<ImmutableString>, OutOfMemory>
        ensures { IfOk result (λ m. m ≡ module_in (modules self.now).paths path.now) };
}

/// Asks a host. The call goes to the calls of the run; a refused one leaves them as they are.
pub fn ask<H: Host>(
    host: &H,
    alloc: Global,
    calls: &mut Seq<HostCall>,
    call: HostCall,
) -> Result<HostAnswer, OutOfMemory>
    ensures answer { IfOk result (λ a.
        answer_meant a ≡ H.answers host.now (map call_meant calls.old) (call_meant call)) }
    ensures calls { OnOk result (calls.new ≡ calls.old ++ call ∷ []) }
    ensures refused { OnErr result (calls.new ≡ calls.old) }
{
    let answer = host.answer(alloc, calls.as_slice(), &call)?;
    calls.push(call)?;
    Ok(answer)
}
