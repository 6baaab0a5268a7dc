//! Values, their constants, operators and ranges, and scopes.

use crate::nodes::say_literal;
use crate::tokens::operator;
use rhai_ast::{Expr, ExprQueries, Literals};
use rhai_base::{
    Dynamic, Fault, FnPtr, Position, RangeCase, Scope, Token, builtin_binary_op, builtin_unary_op,
};
use tests_reader::{Said, split};

/// Questions about a value, and about several in an array.
const OF_VALUES: [&str; 8] = [
    "value", "printed", "taken", "constant", "range", "integers", "equal", "holds",
];

pub fn answer(question: &str, text: &str, said: &Said) -> bool {
    if OF_VALUES.contains(&question) {
        of_read(question, text, said);
        return true;
    }
    match question {
        "operate" => operate(text, said),
        "pointer" => pointer(text, said),
        "scope" => scope(said),
        "ten" => said.inner(&Dynamic::Int(RangeCase::from(0..=9).len())),
        _ => return false,
    }
    true
}

fn of_read(question: &str, text: &str, said: &Said) {
    if let Some(value) = said.value_of(text) {
        of_value(question, &value, said);
    }
}

/// What an operator makes of the values in an array, as `+ [1, 2]`.
fn operate(text: &str, said: &Said) {
    let (symbol, operands) = split(text, " ");
    of_read(symbol, operands, said);
}

fn of_value(question: &str, value: &Dynamic, said: &Said) {
    match question {
        "value" => describe(value, said),
        "printed" => printed(value, said),
        "taken" => taken(value, said),
        "constant" => constant(value, said),
        "range" => measure(&range(value, said), said),
        "integers" => integers(range(value, said), said),
        _ => of_array(question, value, said),
    }
}

fn describe(value: &Dynamic, said: &Said) {
    said.word(value.type_name());
    said.put(": \"");
    if let Some(text) = said.made(value.text_of(said.alloc)) {
        said.put(text.as_str());
    }
    said.put("\" in notation");
    said.inner(value);
    said.word_if(value.is_hashable(), "a key");
    if let Dynamic::FnPtr(pointer) = value {
        say_pointer(pointer, said);
    }
}

/// A value by `{}` and by `{:?}`, and of a text how long it is.
fn printed(value: &Dynamic, said: &Said) {
    said.display(value);
    said.word("is ");
    said.debug(value);
    if let Ok(text) = value.as_immutable_string_ref() {
        said.count("of", text.as_str().len());
    }
}

/// The pointer to a function of this name, where there is one.
fn pointer(name: &str, said: &Said) {
    let Some(name) = said.shared(name) else {
        return;
    };
    match FnPtr::new(said.alloc, name) {
        Some(pointer) => say_pointer(&pointer, said),
        None => said.word("none"),
    }
}

fn say_pointer(pointer: &FnPtr, said: &Said) {
    said.word("to");
    said.word(pointer.fn_name());
    said.word_if(pointer.is_curried(), "with");
    for value in pointer.curry() {
        said.value(value);
    }
    said.word_if(said.is_copied(pointer), "as its copy");
    if let Some(copy) = said.made(pointer.clone()) {
        said.word(copy.into_name().as_str());
    }
}

/// Says what a copy of a value is taken apart into.
fn taken(value: &Dynamic, said: &Said) {
    said.word_if(value.is_unit(), "unit");
    if let Some(copy) = said.made(value.clone()) {
        say_taken(copy, said);
    }
}

fn say_taken(value: Dynamic, said: &Said) {
    match value.into_immutable_string() {
        Ok(text) => said.word(text.as_str()),
        Err(value) => say_array_taken(value, said),
    }
}

fn say_array_taken(value: Dynamic, said: &Said) {
    match value.into_array() {
        Ok(items) => said.count("items", items.len()),
        Err(value) => say_pointer_taken(value, said),
    }
}

fn say_pointer_taken(value: Dynamic, said: &Said) {
    match value.into_fn_ptr() {
        Ok(pointer) => said.word(pointer.fn_name()),
        Err(value) => {
            said.word("given back");
            said.inner(&value);
        }
    }
}

/// Says what the constant for a value is.
fn constant(value: &Dynamic, said: &Said) {
    let Some(copy) = said.made(value.clone()) else {
        return;
    };
    let made = said.made(Expr::from_dynamic(said.alloc, copy, Position::new(2, 5)));
    if let Some(expr) = said.boxed(made) {
        say_constant(expr.get(), said);
    }
}

fn say_constant(expr: &Expr, said: &Said) {
    said.place("at", expr.position());
    match expr {
        Expr::DynamicConstant(_, _) => said.word("of any value"),
        Expr::FnCall(call, _) => say_operands(call.get().args.as_slice(), said),
        _ => {}
    }
    say_literal(expr, said);
}

fn say_operands(operands: &[Expr], said: &Said) {
    if let [Expr::StringConstant(name, pos)] = operands {
        said.word("a call with");
        said.word(name.as_str());
        said.place("at", *pos);
    }
}

/// What is asked of values in an array: whether two are equal, which of them stand in the first, which is a range, and
/// what an operator makes of one or two of them.
fn of_array(question: &str, values: &Dynamic, said: &Said) {
    match (question, values) {
        ("equal", Dynamic::Array(values)) => say_equal(values.as_slice(), said),
        ("holds", Dynamic::Array(values)) => holds(values.as_slice(), said),
        (symbol, Dynamic::Array(values)) => say_operated(symbol, values.as_slice(), said),
        _ => said.want("an array"),
    }
}

fn say_equal(values: &[Dynamic], said: &Said) {
    if let [one, other] = values {
        let is_equal = *one == *other;
        said.word(if is_equal { "equal" } else { "different" });
        said.word_if(one.is_equal(other) != is_equal, "or not");
    }
}

fn say_operated(symbol: &str, operands: &[Dynamic], said: &Said) {
    match (operator(symbol), operands) {
        (Some(op), [x, y]) => say_binary(&op, x, y, said),
        (Some(op), [x]) => say_unary(&op, x, said),
        _ => said.want("an operator"),
    }
}

fn say_binary(op: &Token, x: &Dynamic, y: &Dynamic, said: &Said) {
    match said
        .made(builtin_binary_op(said.alloc, op, x, y))
        .unwrap_or(None)
    {
        Some(Ok(value)) => said.inner(&value),
        Some(Err(Fault::Arithmetic)) => said.word("arithmetic fault"),
        None => said.word("no entry"),
    }
}

fn say_unary(op: &Token, x: &Dynamic, said: &Said) {
    match builtin_unary_op(op, x) {
        Some(value) => said.inner(&value),
        None => said.word("no entry"),
    }
}

/// The range that a value is; an empty one where it is none.
fn range(value: &Dynamic, said: &Said) -> RangeCase {
    match value {
        Dynamic::Range(start, end) => RangeCase::from(*start..*end),
        Dynamic::RangeInclusive(start, end) => RangeCase::from(*start..=*end),
        _ => {
            said.want("a range");
            RangeCase::from(0..0)
        }
    }
}

/// How many integers a range has, and a copy that is given an arm.
fn measure(range: &RangeCase, said: &Said) {
    said.word_if(range.is_empty(), "empty");
    match range.checked_len() {
        Some(length) => said.inner(&Dynamic::Int(length)),
        None => said.word("too long"),
    }
    if let Some(mut copy) = said.made(range.clone()) {
        copy.set_index(4);
        said.word_if(
            copy.checked_len() != range.checked_len(),
            "and its copy not",
        );
        said.count("arm", copy.index());
    }
    said.word_if(range.index() != usize::MAX, "of both");
}

/// Says which of the values behind a range stand in it; of an integer and a float also by its number.
fn holds(values: &[Dynamic], said: &Said) {
    if let [first, others @ ..] = values {
        let range = range(first, said);
        said.word_if(range.is_inclusive(), "inclusive");
        for value in others {
            say_held(&range, value, said);
        }
    }
}

fn say_held(range: &RangeCase, value: &Dynamic, said: &Said) {
    if range.contains(value) {
        said.inner(value);
    }
    if let Dynamic::Int(integer) = value {
        said.word_if(range.contains_int(*integer), "(integer)");
    }
    if let Dynamic::Float(float) = value {
        said.word_if(range.contains_float(float.value()), "(float)");
    }
}

/// The first five integers; past the end a line for each.
fn integers(range: RangeCase, said: &Said) {
    let mut integers = range.into_iter();
    for _ in 0..5 {
        match integers.next() {
            Some(integer) => said.inner(&Dynamic::Int(integer)),
            None => said.word("-"),
        }
    }
}

/// A scope of a variable and a constant.
fn scope(said: &Said) {
    let mut scope = Scope::new(said.alloc);
    if let Some(name) = said.shared("x") {
        said.made(scope.push(name, Dynamic::Int(1)));
    }
    if let Some(name) = said.shared("k") {
        said.made(scope.push_constant(name, Dynamic::Unit));
    }
    say_scope(&scope, said);
}

fn say_scope(scope: &Scope, said: &Said) {
    said.count("names", scope.len());
    for (name, is_constant, value) in scope.iter() {
        said.word_if(is_constant, "const");
        said.word(name);
        said.value(value);
    }
}
