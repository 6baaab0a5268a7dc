//! Reports of runs that are stuck, in print, and what the program's host answers.

use crate::record::say_value;
use demo::ProgramHost;
use rhai_base::{Dynamic, Seq};
use rhai_run::{Host, HostAnswer, HostCall, RunEnd, RunReport, Stuck};
use run_host::push_report;
use tests_reader::{Said, split};

pub fn answer(question: &str, text: &str, said: &Said) {
    match question {
        "stuck" => stuck(text, said),
        "why" => why(text, said),
        "thrown" => thrown(text, said),
        "module" => module(text, said),
        "path" => path(text, said),
        _ => host(text, said),
    }
}

/// Reasons by their names.
static REASONS: [(&str, Stuck); 7] = [
    ("Unbound", Stuck::Unbound),
    ("WrongKind", Stuck::WrongKind),
    ("WriteToConstant", Stuck::WriteToConstant),
    ("NoPlace", Stuck::NoPlace),
    ("CounterTooLarge", Stuck::CounterTooLarge),
    ("UnboundThis", Stuck::UnboundThis),
    ("UnknownModule", Stuck::UnknownModule),
];

fn stuck(name: &str, said: &Said) {
    for (known, reason) in &REASONS {
        if *known == name {
            say_stuck(*reason, said);
        }
    }
}

/// A report of nothing but its end, with one turn left.
fn say_stuck(reason: Stuck, said: &Said) {
    let report = RunReport {
        run_end: RunEnd::Stuck(reason),
        variables: Seq::new(said.alloc),
        exports: Seq::new(said.alloc),
        calls: Seq::new(said.alloc),
        turns_left: 1,
    };
    let mut text = said.taken();
    let added = push_report(&report, &mut text);
    said.put_back(text, added);
}

/// A reason alone.
fn why(name: &str, said: &Said) {
    for (known, reason) in &REASONS {
        if *known == name {
            said.display(reason);
        }
    }
}

/// The end of a run that throws a value.
fn thrown(text: &str, said: &Said) {
    if let Some(value) = said.value_of(text) {
        said.display(&RunEnd::Thrown(value));
    }
}

// ---- the program's host

/// Its value of a module.
fn module(name: &str, said: &Said) {
    let value = said.found(ProgramHost.module_value(said.alloc, name));
    say_value(value.as_ref(), said);
}

/// The module that it knows by a path.
fn path(path: &str, said: &Said) {
    match said.found(ProgramHost.module(said.alloc, path)) {
        Some(name) => said.put(name.as_str()),
        None => said.put("none"),
    }
}

/// Its answer to a call: a name, or `''` for none, and its arguments in an array; behind ` on ` its receiver.
fn host(text: &str, said: &Said) {
    let (name, rest) = split(text, " ");
    if let Some(call) = call(name.trim_matches('\''), rest, said)
        && let Some(answered) = said.made(ProgramHost.answer(said.alloc, &[], &call))
    {
        say_answer(&answered, said);
    }
}

fn call(name: &str, text: &str, said: &Said) -> Option<HostCall> {
    let (args, receiver) = split(text, " on ");
    Some(HostCall {
        name: said.shared(name)?,
        receiver: said.value_if_some(receiver),
        args: arguments(args, said),
    })
}

fn arguments(text: &str, said: &Said) -> Seq<Dynamic> {
    if let Some(value) = said.value_of(text)
        && let Ok(arguments) = value.into_array()
    {
        return arguments;
    }
    said.want("arguments");
    Seq::new(said.alloc)
}

fn say_answer(answered: &HostAnswer, said: &Said) {
    match answered {
        HostAnswer::Value { value, receiver } => {
            said.put_inner(value);
            said.put(" then ");
            say_value(receiver.as_ref(), said);
        }
        HostAnswer::Throw(value) => {
            said.put("throw ");
            said.put_inner(value);
        }
    }
}
