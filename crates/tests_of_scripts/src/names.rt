//! The names that a state knows, before the calls that were asked for, a line each: `push_var x = 1`, or `push_var x`
//! for a variable; `push_scope`, which pushes the names of the scope; the other calls by their names. `push_global` and
//! `rewind_globals` make names that stand alone, of which `global` and `globals` ask; the state knows none of them.

use crate::given::Given;
use crate::record::say_value;
use rhai_base::Dynamic;
use rhai_optimizer::{KnownNames, OptimizationLevel, OptimizerState};
use std::borrow::Cow;
use tests_reader::{Said, read_binding, split};

/// A state of the level `Full` over what is given.
pub fn answer(given: &Given, calls: &str, said: &Said) {
    let level = OptimizationLevel::Full;
    let globals = globals_of(calls, said);
    let mut state = OptimizerState::new(said.alloc, &given.info, Some(&given.scope), level);
    for call in calls.lines() {
        take(call, &mut state, &globals, said);
    }
}

/// Names that stand alone.
fn globals_of<'a>(calls: &str, said: &Said) -> KnownNames<'a> {
    let mut globals = KnownNames::new(said.alloc);
    for call in calls.lines() {
        match split(call, " ") {
            ("push_global", binding) => push_global(binding, &mut globals, said),
            ("rewind_globals", len) => rewind_globals(len, &mut globals, said),
            _ => {}
        }
    }
    globals
}

fn push_global(binding: &str, globals: &mut KnownNames<'_>, said: &Said) {
    if let Some((name, value)) = read_binding(binding, said) {
        if let Some(name) = said.shared(name.as_str()) {
            said.made(globals.push(name, Some(Cow::Owned(value))));
        }
    }
}

fn rewind_globals(len: &str, globals: &mut KnownNames<'_>, said: &Said) {
    match len.parse::<usize>() {
        Ok(len) => globals.rewind(len),
        Err(_) => said.want("how many names"),
    }
}

fn take(call: &str, state: &mut OptimizerState<'_>, globals: &KnownNames<'_>, said: &Said) {
    let (name, rest) = split(call, " ");
    match name {
        "push_global" | "rewind_globals" => {}
        "globals" => {
            said.display(&globals.len());
            said.put("\n");
        }
        "global" => {
            say_value(globals.find(rest), said);
            said.put("\n");
        }
        "push_var" => push_var(rest, state, said),
        "push_scope" => push_scope(state, said),
        "rewind_var" => rewind_var(rest, state, said),
        _ => {
            ask(name, rest, state, said);
            said.put("\n");
        }
    }
}

fn push_var(binding: &str, state: &mut OptimizerState<'_>, said: &Said) {
    if !binding.contains(" = ") {
        push(binding, None, state, said);
    } else if let Some((name, value)) = read_binding(binding, said) {
        push(name.as_str(), Some(Cow::Owned(value)), state, said);
    }
}

fn push<'a>(
    name: &str,
    value: Option<Cow<'a, Dynamic>>,
    state: &mut OptimizerState<'a>,
    said: &Said,
) {
    if let Some(name) = said.shared(name) {
        said.made(state.push_var(name, value));
    }
}

/// Pushes the names of the scope; the values of its constants are lent.
fn push_scope(state: &mut OptimizerState<'_>, said: &Said) {
    if let Some(scope) = state.scope() {
        for (name, is_constant, value) in scope.iter() {
            let value = if is_constant {
                Some(Cow::Borrowed(value))
            } else {
                None
            };
            push(name, value, state, said);
        }
    }
}

fn rewind_var(len: &str, state: &mut OptimizerState<'_>, said: &Said) {
    match len.parse::<usize>() {
        Ok(len) => state.rewind_var(len),
        Err(_) => said.want("how many names"),
    }
}

/// What a state answers.
fn ask(name: &str, rest: &str, state: &OptimizerState<'_>, said: &Said) {
    match name {
        "find_literal_constant" => say_value(state.find_literal_constant(rest), said),
        "find_global" => say_value(state.find_global(rest), said),
        "without_names" => say_value(state.without_names(said.alloc).find_global(rest), said),
        "len" => said.display(&state.len()),
        "level" => said.debug(&state.level()),
        "info" => say_value(state.info().constant_named(rest), said),
        "scope" => said.debug(&state.scope().map(|scope| scope.len())),
        _ => said.want("a call of a state"),
    }
}
