//! A host that answers what scripts ask most.

ghost use Rattle.std.specs.Prelude.{◌≡◌, None};
ghost use Rattle.rhai_base.specs.Reading.{value_of};
ghost use Rattle.theory_meaning.specs.Act.{Answers};
ghost use Rattle.run_host.specs.Host.{answer_meant};

use demo::ProgramHost;
use rhai_base::{Dynamic, ImmutableString, OutOfMemory};
use run_host::{Host, HostAnswer, HostCall};
use std::alloc::Global;

/// Answers by the name alone that a length is 3, that all is contained, and that what is not built in is neither less
/// nor more; what else is asked as the program's host does.
pub(crate) struct UsualHost;

impl Host for UsualHost {
    ghost use Rattle.tests_of_syntax.specs.UsualHost.{usual_answer};
    ghost use Rattle.demo.specs.ProgramHost.{program_modules};

    ghost answers = { λ host past call. usual_answer call };

    ghost modules = { λ host. program_modules };

    fn answer(
        &self,
        alloc: Global,
        past: &[HostCall],
        call: &HostCall,
    ) -> Result<HostAnswer, OutOfMemory> {
        match call.name.as_str() {
            "len" => Ok(value_alone(Dynamic::Int(3))),
            "contains" => Ok(value_alone(Dynamic::Bool(true))),
            "!" | "<" | "<=" | ">" | ">=" => Ok(value_alone(Dynamic::Bool(false))),
            _ => ProgramHost.answer(alloc, past, call),
        }
    }

    fn module_value(&self, alloc: Global, qualified: &str) -> Result<Option<Dynamic>, OutOfMemory> {
        ProgramHost.module_value(alloc, qualified)
    }

    fn module(&self, alloc: Global, path: &str) -> Result<Option<ImmutableString>, OutOfMemory> {
        ProgramHost.module(alloc, path)
    }
}

/// A value that leaves the receiver as it is.
fn value_alone(value: Dynamic) -> HostAnswer
    ensures { answer_meant result ≡ Answers (value_of value) None }
{
    HostAnswer::Value {
        value,
        receiver: None,
    }
}
