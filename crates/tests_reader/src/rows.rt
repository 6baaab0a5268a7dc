//! What a run is given: named values, and what a host answers.

use crate::joined::both;
use crate::said::Said;
use rhai_base::{Dynamic, ImmutableString};

/// What a host answers to a call: to one of this name, or to any; after so many calls, or after any number of them.
#[derive(Drop)]
pub struct AnswerRow {
    /// How many calls came before.
    pub past: Option<usize>,
    /// What is called.
    pub name: Option<ImmutableString>,
    /// The answer.
    pub value: Dynamic,
    /// Whether it is thrown.
    pub is_thrown: bool,
    /// The receiver's new value.
    pub receiver: Option<Dynamic>,
}

/// A name and its value, as `x = 1` or `m::x = [1]`.
pub fn read_binding(text: &str, said: &Said) -> Option<(ImmutableString, Dynamic)> {
    let Some((name, value)) = text.split_once(" = ") else {
        said.want(" = ");
        return None;
    };
    both(said.shared(name), said.value_of(value))
}

/// A row of a host, as `0 f => 1`, `f => throw "a"`, `2 => 3 then 4` or `=> ()`: how many calls came before, what
/// is called, the answer, the receiver's new value.
pub fn read_answer(text: &str, said: &Said) -> Option<AnswerRow> {
    let Some((call, answer)) = text.split_once("=> ") else {
        said.want("=> ");
        return None;
    };
    match answer.strip_prefix("throw ") {
        Some(thrown) => row(call.trim_end(), thrown, true, said),
        None => row(call.trim_end(), answer, false, said),
    }
}

fn row(call: &str, answer: &str, is_thrown: bool, said: &Said) -> Option<AnswerRow> {
    let (past, name) = counted(call);
    let (value, receiver) = answer.split_once(" then ").unwrap_or((answer, ""));
    Some(AnswerRow {
        value: said.value_of(value)?,
        past,
        name: said.shared_if_some(name),
        is_thrown,
        receiver: said.value_if_some(receiver),
    })
}

/// How many calls came before, and what is called.
fn counted(call: &str) -> (Option<usize>, &str) {
    let (first, rest) = call.split_once(' ').unwrap_or((call, ""));
    match first.parse::<usize>() {
        Ok(past) => (Some(past), rest),
        Err(_) => (None, call),
    }
}
