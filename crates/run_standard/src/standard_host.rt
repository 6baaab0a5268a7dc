//! The host: which function answers a call.
#![tactic(auto, using(rhai_base::specs::Reading::kinds, crate::proofs::Lists::lists))]

ghost use Rattle.std.specs.Prelude.{◌≡◌, ◌++◌, [], IfOk, OnOk, map, string_bytes};
ghost use Rattle.std.specs.Option.{option_map, option_copied};
ghost use Rattle.rhai_base.specs.Reading.{value_of};
ghost use Rattle.run_host.specs.Host.{answer_meant};
ghost use Rattle.run_standard.specs.Standard as spec;

use crate::arrays::on_array;
use crate::forms::{gives_bool, gives_text, gives_unit};
use crate::maps::on_map;
use crate::numbers::{on_int, on_range};
use crate::texts::on_text;
use rhai_base::{Dynamic, ImmutableString, OutOfMemory};
use run_host::{Host, HostAnswer, HostCall};
use std::alloc::Global;

/// Answers what rhai's standard packages have over integers, texts, arrays, maps and ranges, as far as it calls nothing
/// back, throws at any other call, and has no modules.
#[derive(Clone, Copy, Debug, PartialEq, Eq)]
pub struct StandardHost;

impl Host for StandardHost {
    ghost use Rattle.run_host.specs.Host.{no_modules};
    ghost use Rattle.run_standard.specs.Standard.{standard_answer};

    ghost answers = { λ host past call. standard_answer call };

    ghost modules = { λ host. no_modules };

    fn answer(
        &self,
        alloc: Global,
        _past: &[HostCall],
        call: &HostCall,
    ) -> Result<HostAnswer, OutOfMemory> {
        match found(alloc, call)? {
            Some(answer) => Ok(answer),
            None => not_found(alloc, call),
        }
    }

    fn module_value(
        &self,
        _alloc: Global,
        _qualified: &str,
    ) -> Result<Option<Dynamic>, OutOfMemory> {
        Ok(None)
    }

    fn module(&self, _alloc: Global, _path: &str) -> Result<Option<ImmutableString>, OutOfMemory> {
        Ok(None)
    }
}

/// The answer of the function that fits, if any.
fn found(alloc: Global, call: &HostCall) -> Result<Option<HostAnswer>, OutOfMemory>
    ensures { IfOk result (λ a. option_map answer_meant a
        ≡ spec.found call.now.name (option_map value_of call.now.receiver) (map value_of call.now.args)) }
{
    let (name, args) = (call.name.as_str(), call.args.as_slice());
    match &call.receiver {
        Some(receiver) => on_value(alloc, name, receiver, args),
        None => on_values(alloc, name, args),
    }
}

/// Without a receiver.
fn on_values(alloc: Global, name: &str, args: &[Dynamic]) -> Result<Option<HostAnswer>, OutOfMemory>
    ensures { IfOk result (λ a. option_map answer_meant a ≡ spec.on_values name.now (map value_of args.now)) }
{
    match args.split_first() {
        Some((first, others)) => Ok(value_alone(on_value(alloc, name, first, others)?)),
        None => Ok(on_nothing(name)),
    }
}

/// Without a receiver nothing gets a new value.
fn value_alone(answer: Option<HostAnswer>) -> Option<HostAnswer>
    ensures { option_map answer_meant result ≡ option_map spec.value_alone (option_map answer_meant answer) }
{
    match answer {
        Some(HostAnswer::Value { value, .. }) => Some(HostAnswer::Value {
            value,
            receiver: None,
        }),
        Some(HostAnswer::Throw(value)) => Some(HostAnswer::Throw(value)),
        None => None,
    }
}

fn on_nothing(name: &str) -> Option<HostAnswer>
    ensures { option_map answer_meant result ≡ spec.on_nothing name.now }
{
    match name {
        "print" | "debug" => gives_unit(),
        _ => None,
    }
}

/// For a value and the arguments after it.
fn on_value(
    alloc: Global,
    name: &str,
    value: &Dynamic,
    args: &[Dynamic],
) -> Result<Option<HostAnswer>, OutOfMemory>
    ensures { IfOk result (λ a.
        option_map answer_meant a ≡ spec.on_value name.now (value_of value.now) (map value_of args.now)) }
{
    match on_any(alloc, name, value, args)? {
        Some(answer) => Ok(Some(answer)),
        None => on_kind(alloc, name, value, args),
    }
}

/// A function of values of all kinds.
fn on_any(
    alloc: Global,
    name: &str,
    value: &Dynamic,
    args: &[Dynamic],
) -> Result<Option<HostAnswer>, OutOfMemory>
    ensures { IfOk result (λ a.
        option_map answer_meant a ≡ spec.on_any name.now (value_of value.now) (map value_of args.now)) }
{
    match args {
        [] => alone(alloc, name, value),
        [other] => with_one(alloc, name, value, other),
        _ => Ok(None),
    }
}

fn alone(alloc: Global, name: &str, value: &Dynamic) -> Result<Option<HostAnswer>, OutOfMemory>
    ensures { IfOk result (λ a. option_map answer_meant a ≡ spec.alone name.now (value_of value.now)) }
{
    match name {
        "print" | "debug" => Ok(gives_unit()),
        "to_string" => Ok(gives_text(value.text_of(alloc)?)),
        _ => Ok(None),
    }
}

fn with_one(
    alloc: Global,
    name: &str,
    value: &Dynamic,
    other: &Dynamic,
) -> Result<Option<HostAnswer>, OutOfMemory>
    ensures { IfOk result (λ a.
        option_map answer_meant a ≡ spec.with_one name.now (value_of value.now) (value_of other.now)) }
{
    match name {
        "==" => Ok(equal(value, other)),
        "!=" => Ok(unequal(value, other)),
        "+" => joined(alloc, value, other),
        _ => Ok(None),
    }
}

/// Of values that hold no float and no pointer.
fn equal(value: &Dynamic, other: &Dynamic) -> Option<HostAnswer>
    ensures { option_map answer_meant result ≡ spec.equal (value_of value.now) (value_of other.now) }
{
    if value.is_hashable() && other.is_hashable() {
        gives_bool(value.is_equal(other))
    } else {
        None
    }
}

fn unequal(value: &Dynamic, other: &Dynamic) -> Option<HostAnswer>
    ensures { option_map answer_meant result ≡ spec.unequal (value_of value.now) (value_of other.now) }
{
    if value.is_hashable() && other.is_hashable() {
        gives_bool(!value.is_equal(other))
    } else {
        None
    }
}

/// A text beside any value.
fn joined(
    alloc: Global,
    value: &Dynamic,
    other: &Dynamic,
) -> Result<Option<HostAnswer>, OutOfMemory>
    ensures { IfOk result (λ a.
        option_map answer_meant a ≡ spec.joined (value_of value.now) (value_of other.now)) }
{
    if is_text(value) || is_text(other) {
        let mut text = String::new(alloc);
        value.push_text(&mut text)?;
        other.push_text(&mut text)?;
        Ok(gives_text(ImmutableString::from_string(text)?))
    } else {
        Ok(None)
    }
}

fn is_text(value: &Dynamic) -> bool
    ensures { result ≡ spec.is_text (value_of value.now) }
{
    match value {
        Dynamic::Str(_) => true,
        Dynamic::Unit
        | Dynamic::Bool(_)
        | Dynamic::Int(_)
        | Dynamic::Float(_)
        | Dynamic::Char(_)
        | Dynamic::Array(_)
        | Dynamic::Map(_)
        | Dynamic::FnPtr(_)
        | Dynamic::Range(_, _)
        | Dynamic::RangeInclusive(_, _) => false,
    }
}

/// A function for the kind of the first value.
fn on_kind(
    alloc: Global,
    name: &str,
    value: &Dynamic,
    args: &[Dynamic],
) -> Result<Option<HostAnswer>, OutOfMemory>
    ensures { IfOk result (λ a.
        option_map answer_meant a ≡ spec.on_kind name.now (value_of value.now) (map value_of args.now)) }
{
    match value {
        Dynamic::Int(number) => on_int(alloc, name, *number, args),
        Dynamic::Str(text) => on_text(alloc, name, text.as_str(), args),
        Dynamic::Array(items) => on_array(name, items, args),
        Dynamic::Map(members) => on_map(alloc, name, members, args),
        Dynamic::Range(from, to) => Ok(on_range(name, false, *from, *to, args)),
        Dynamic::RangeInclusive(from, to) => Ok(on_range(name, true, *from, *to, args)),
        Dynamic::Unit
        | Dynamic::Bool(_)
        | Dynamic::Float(_)
        | Dynamic::Char(_)
        | Dynamic::FnPtr(_) => Ok(None),
    }
}

/// What is thrown where no function fits.
fn not_found(alloc: Global, call: &HostCall) -> Result<HostAnswer, OutOfMemory>
    ensures { IfOk result (λ a. answer_meant a
        ≡ spec.not_found call.now.name (option_map value_of call.now.receiver) (map value_of call.now.args)) }
{
    let mut text = String::new(alloc);
    text.push_str("Function not found: ")?;
    text.push_str(call.name.as_str())?;
    text.push_str(" (")?;
    push_operands(call.receiver.as_ref(), call.args.as_slice(), &mut text)?;
    text.push_str(")")?;
    Ok(HostAnswer::Throw(Dynamic::Str(ImmutableString::from_string(text)?)))
}

/// Appends the types of the receiver and the arguments.
fn push_operands(
    receiver: Option<&Dynamic>,
    args: &[Dynamic],
    text: &mut String,
) -> Result<(), OutOfMemory>
    ensures { OnOk result (string_bytes text.new ≡ string_bytes text.old
        ++ spec.operand_kinds (option_map value_of (option_copied receiver.entry)) (map value_of args.now)) }
{
    match receiver {
        Some(receiver) => {
            text.push_str(receiver.type_name())?;
            push_kinds(", ", args, text)
        }
        None => push_kinds("", args, text),
    }
}

/// Appends the types of values, with commas between them and a text before the first.
fn push_kinds(before: &str, values: &[Dynamic], text: &mut String) -> Result<(), OutOfMemory>
    ensures { OnOk result (string_bytes text.new
        ≡ string_bytes text.old ++ spec.kinds_after before.now (map value_of values.now)) }
{
    let mut before = before;
    for value in values {
        text.push_str(before)?;
        text.push_str(value.type_name())?;
        before = ", ";
    }
    Ok(())
}
