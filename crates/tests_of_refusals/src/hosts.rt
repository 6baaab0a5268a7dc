//! What a host answers.

use crate::tried::Tried;
use demo::ProgramHost;
use rhai_base::{ImmutableString, OutOfMemory, Seq};
use run_host::{Host, HostAnswer, HostCall, ask};

/// The calls.
pub const CALLS: &str = "ask ProgramHost::answer ProgramHost::module_value ProgramHost::module";

pub fn make(name: &str, tried: &Tried) -> bool {
    match name {
        "ask" => asked(tried),
        "ProgramHost::answer" => answer(tried),
        "ProgramHost::module_value" | "ProgramHost::module" => module(name, tried),
        _ => return false,
    }
    true
}

/// A refused call leaves the calls as they were.
fn asked(tried: &Tried) {
    let mut calls = Seq::new(tried.said.alloc);
    for count in 0..6usize {
        let refused = ask_plus(&mut calls, tried);
        if tried.is_refused(&refused) {
            tried.want(calls.len() == count, "changed");
            tried.said.made(ask_plus(&mut calls, tried));
        }
    }
    tried.said.count("calls", calls.len());
}

fn ask_plus(calls: &mut Seq<HostCall>, tried: &Tried) -> Result<(), OutOfMemory> {
    if let Some(name) = tried.said.shared("+")
        && let Some(call) = call(name, tried)
    {
        ask(&ProgramHost, tried.said.alloc, calls, call)?;
    }
    Ok(())
}

fn call(name: ImmutableString, tried: &Tried) -> Option<HostCall> {
    let mut args = Seq::new(tried.said.alloc);
    tried.said.made(args.push(tried.said.value_of("\"abc\"")?));
    tried.said.made(args.push(tried.said.value_of("[1, 2]")?));
    Some(HostCall {
        name,
        receiver: None,
        args,
    })
}

/// Two texts joined, and a value pushed to an array.
fn answer(tried: &Tried) {
    for name in ["+", "push"] {
        if let Some(name) = tried.said.shared(name)
            && let Some(mut call) = call(name, tried)
        {
            receive(&mut call, tried);
            let answer = ProgramHost.answer(tried.said.alloc, &[], &call);
            say_answer(tried.answer(answer), tried);
        }
    }
}

/// A method has one argument.
fn receive(call: &mut HostCall, tried: &Tried) {
    if call.name.as_str() == "push" {
        call.args = Seq::from_vec(tried.said.list_of(tried.said.value_of("\"abc\"")));
        call.receiver = tried.said.value_of("[1, \"b\"]");
    }
}

fn say_answer(answer: Option<HostAnswer>, tried: &Tried) {
    if let Some(HostAnswer::Value { value, receiver }) = answer {
        tried.said.inner(&value);
        if let Some(receiver) = receiver {
            tried.said.inner(&receiver);
        }
    }
}

fn module(name: &str, tried: &Tried) {
    let alloc = tried.said.alloc;
    if name == "ProgramHost::module" {
        if let Some(Some(module)) = tried.answer(ProgramHost.module(alloc, "m")) {
            tried.said.word(module.as_str());
        }
    } else if let Some(Some(value)) = tried.answer(ProgramHost.module_value(alloc, "m::v")) {
        tried.said.inner(&value);
    }
}
