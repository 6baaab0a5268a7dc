//! Texts of values, as a host says where one holds a float.
#![tactic(auto, using(rhai_base::specs::Reading::kinds))]

ghost use Rattle.std.specs.Prelude.{◌≡◌, ◌++◌, IfOk, OnOk, [], string_bytes};
ghost use Rattle.rhai_base.specs.Reading.{value_of};
ghost use Rattle.theory_meaning.specs.Control.{text_in};
ghost use Rattle.run_host.specs.Host.{answer_meant, host_of, to_string, told};

use crate::{Host, HostAnswer, HostCall};
use rhai_base::{Dynamic, ImmutableString, OutOfMemory, Seq};
use std::alloc::Global;

/// Appends the text of a value: of one that holds a float what the host is told to write for it. A refused call can
/// leave a part.
pub fn push_text<H: Host>(
    host: &H,
    alloc: Global,
    value: &Dynamic,
    text: &mut String,
) -> Result<(), OutOfMemory>
    ensures { OnOk result (string_bytes text.new
        ≡ string_bytes text.old ++ text_in (host_of (H.answers host.now) (H.modules host.now)) (value_of value.now)) }
{
    if value.holds_float() {
        let told = told(alloc, value, asked(host, alloc, value)?)?;
        text.push_str(told.as_str())?;
    } else {
        value.push_text(text)?;
    }
    Ok(())
}

/// What the host answers for the text of a value.
fn asked<H: Host>(host: &H, alloc: Global, value: &Dynamic) -> Result<HostAnswer, OutOfMemory>
    ensures { IfOk result (λ a. answer_meant a ≡ H.answers host.now [] (to_string (value_of value.now))) }
{
    let mut args = Seq::new(alloc);
    args.push(value.clone()?)?;
    let call = HostCall {
        name: ImmutableString::new(alloc, "to_string")?,
        receiver: None,
        args,
    };
    host.answer(alloc, &[], &call)
}

/// The text of the answer, or the name of a type in its place.
fn told(alloc: Global, value: &Dynamic, answer: HostAnswer) -> Result<ImmutableString, OutOfMemory>
    ensures { IfOk result (λ t. t ≡ told (value_of value.now) (answer_meant answer)) }
{
    match answer {
        HostAnswer::Value { value: answer, .. } => match answer.into_immutable_string() {
            Ok(text) => Ok(text),
            Err(other) => Ok(ImmutableString::new(alloc, other.type_name())?),
        },
        HostAnswer::Throw(_) => Ok(ImmutableString::new(alloc, value.type_name())?),
    }
}
