//! What an engine's record answers. The first line is what is asked, the others are lines of the record.

use crate::given::read_given;
use rhai_base::{Dynamic, Token};
use rhai_run::EngineInfo;
use tests_reader::{Said, split};

pub fn answer(question: &str, text: &str, said: &Said) {
    let (asked, lines) = split(text, "\n");
    of_record(question, &read_given(lines, said).info, asked, said);
}

fn of_record(question: &str, info: &EngineInfo, asked: &str, said: &Said) {
    match question {
        "overridden" => overridden(info, asked, said),
        "overridden_anywhere" => say_bool(info.has_any_override(asked), said),
        "constant" => say_value(info.constant_named(asked), said),
        "type_name" => said.put(info.map_type_name(asked)),
        "operator" => operator(info, asked, said),
        _ => say_bool(info.fast_operators(), said),
    }
}

/// Whether the host answers an operator at operands of these types.
fn overridden(info: &EngineInfo, asked: &str, said: &Said) {
    let (operator, names) = split(asked, " ");
    let mut types = Vec::new(said.alloc);
    for name in names.split_whitespace() {
        said.push(&mut types, Some(name));
    }
    say_bool(info.is_overridden(operator, types.as_slice()), said);
}

fn say_bool(truth: bool, said: &Said) {
    said.put(if truth { "true" } else { "false" });
}

pub fn say_value(value: Option<&Dynamic>, said: &Said) {
    match value {
        Some(value) => said.put_inner(value),
        None => said.put("none"),
    }
}

/// What an operator answers at operands that stand in an array.
fn operator(info: &EngineInfo, asked: &str, said: &Said) {
    let (symbol, operands) = split(asked, " ");
    if let Some(operands) = said.value_of(operands) {
        say_operated(info, symbol, &operands, said);
    }
}

fn say_operated(info: &EngineInfo, symbol: &str, operands: &Dynamic, said: &Said) {
    match (Token::lookup_symbol_from_syntax(symbol), operands) {
        (Some(op), Dynamic::Array(operands)) => say_computed(info, op, operands.as_slice(), said),
        _ => said.want("an operator and its operands"),
    }
}

fn say_computed(info: &EngineInfo, op: Token, operands: &[Dynamic], said: &Said) {
    match operands {
        [x, y] => binary(info, op, x, y, said),
        [x] => say_value(info.builtin_unary(op, x).as_ref(), said),
        _ => said.want("one operand or two"),
    }
}

fn binary(info: &EngineInfo, op: Token, x: &Dynamic, y: &Dynamic, said: &Said) {
    match said.found(info.builtin_binary(said.alloc, op, x, y)) {
        Some(Ok(value)) => said.put_inner(&value),
        Some(Err(fault)) => said.debug(&fault),
        None => said.put("none"),
    }
}
