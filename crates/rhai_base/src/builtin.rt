//! The operators that need no engine.
#![tactic(auto, using(crate::specs::Reading::kinds), unfolding(crate::specs::Operators::binary, crate::specs::Operators::on_chars, crate::specs::Value::text_of))]

ghost use Rattle.std.specs.Prelude.{◌≡◌, ◌++◌, IfOk};
ghost use Rattle.rhai_base.specs.Value as model;
ghost use Rattle.rhai_base.specs.Reading.{value_of};
ghost use Rattle.rhai_base.specs.Operators as table;
ghost use Rattle.rhai_base.specs.Builtin.{computed_of, answered, row, binary_at, unary_at, compared, equality_of, number_or_fault, plain_operator, unjoined, has_float, is_float, is_text, joins};

use crate::dynamic::{Dynamic, INT};
use crate::range_operators::range_of;
use base_text::ImmutableString;
use base_tokens::{Fault, OutOfMemory, Token};
use std::alloc::Global;
use std::cmp::Ordering;

/// What the table of built-in operators holds for an operator and two values: `None` where it has no
/// entry. Only a joined text takes memory; rhai answers a function in place of the value.
pub fn builtin_binary_op(
    alloc: Global,
    op: &Token,
    x: &Dynamic,
    y: &Dynamic,
) -> Result<Option<Result<Dynamic, Fault>>, OutOfMemory>
    ensures { IfOk result (λ r. computed_of r ≡ binary_at op.now (value_of x.now) (value_of y.now)) }
{
    if has_float(x, y) {
        return Ok(None);
    }
    if joins(op, x, y) {
        let text = join(alloc, x, y)?;
        return Ok(Some(Ok(Dynamic::Str(text))));
    }
    match op {
        Token::ExclusiveRange => Ok(range_of(false, x, y)),
        Token::InclusiveRange => Ok(range_of(true, x, y)),
        _ => Ok(unjoined(op, x, y)),
    }
}

/// What the table holds for an operator and one value; it is a part of rhai's engine.
pub fn builtin_unary_op(op: &Token, x: &Dynamic) -> Option<Dynamic>
    ensures { answered result ≡ unary_at op.now (value_of x.now) }
{
    match op {
        Token::Bang => negation(x),
        _ => None,
    }
}

fn negation(x: &Dynamic) -> Option<Dynamic>
    ensures { answered result ≡ table.unary table.Not (value_of x.now) }
{
    match x {
        Dynamic::Bool(b) => Some(Dynamic::Bool(!*b)),
        Dynamic::Unit => None,
        Dynamic::Int(_) => None,
        Dynamic::Float(_) => None,
        Dynamic::Char(_) => None,
        Dynamic::Str(_) => None,
        Dynamic::Array(_) => None,
        Dynamic::Map(_) => None,
        Dynamic::FnPtr(_) => None,
        Dynamic::Range(_, _) => None,
        Dynamic::RangeInclusive(_, _) => None,
    }
}

/// The text of one value and then that of the other.
fn join(alloc: Global, x: &Dynamic, y: &Dynamic) -> Result<ImmutableString, OutOfMemory>
    ensures { IfOk result (λ t. t ≡ model.text_of (value_of x.now) ++ model.text_of (value_of y.now)) }
{
    let mut text = String::with_capacity(alloc, room(x).saturating_add(room(y)))?;
    x.push_text(&mut text)?;
    y.push_text(&mut text)?;
    Ok(ImmutableString::from_string(text)?)
}

/// How much room a value takes that is a text. Others find theirs when they are added.
fn room(value: &Dynamic) -> usize {
    match value {
        Dynamic::Str(text) => text.as_str().len(),
        _ => 0,
    }
}

/// All entries but the ranges and those that join texts and characters, for values that are no floats.
fn unjoined(op: &Token, x: &Dynamic, y: &Dynamic) -> Option<Result<Dynamic, Fault>>
    ensures { computed_of result ≡ row (λ o. unjoined o (value_of x.now) (value_of y.now)) (plain_operator op.now) }
{
    match (x, y) {
        (Dynamic::Int(x), Dynamic::Int(y)) => integers(op, *x, *y),
        (Dynamic::Bool(x), Dynamic::Bool(y)) => bools(op, *x, *y),
        (Dynamic::Str(x), Dynamic::Str(y)) => comparison(op, x.cmp(y)),
        (Dynamic::Char(x), Dynamic::Char(y)) => comparison(op, x.cmp(y)),
        (Dynamic::Unit, Dynamic::Unit) => equality(op, true),
        (Dynamic::Float(_), Dynamic::Float(_)) => None,
        (Dynamic::Array(_), Dynamic::Array(_)) => None,
        (Dynamic::Map(_), Dynamic::Map(_)) => None,
        (Dynamic::FnPtr(_), Dynamic::FnPtr(_)) => None,
        (Dynamic::Range(_, _), Dynamic::Range(_, _)) => None,
        (Dynamic::RangeInclusive(_, _), Dynamic::RangeInclusive(_, _)) => None,
        _ => equality(op, false),
    }
}

fn integers(op: &Token, x: INT, y: INT) -> Option<Result<Dynamic, Fault>>
    ensures { computed_of result ≡ row (λ o. table.on_ints o x y) (plain_operator op.now) }
{
    match op {
        Token::Plus => checked(x.checked_add(y)),
        Token::Minus => checked(x.checked_sub(y)),
        Token::Multiply => checked(x.checked_mul(y)),
        Token::Divide => checked(x.checked_div(y)),
        Token::Modulo => checked(x.checked_rem(y)),
        Token::Ampersand => checked(Some(x & y)),
        Token::Pipe => checked(Some(x | y)),
        Token::XOr => checked(Some(x ^ y)),
        _ => comparison(op, x.cmp(&y)),
    }
}

fn bools(op: &Token, x: bool, y: bool) -> Option<Result<Dynamic, Fault>>
    ensures { computed_of result ≡ row (λ o. table.on_bools o x y) (plain_operator op.now) }
{
    match op {
        Token::Ampersand => truth(x & y),
        Token::Pipe => truth(x | y),
        Token::XOr => truth(x ^ y),
        _ => equality(op, x == y),
    }
}

/// What a comparison says of operands that stand in an order.
fn comparison(op: &Token, order: Ordering) -> Option<Result<Dynamic, Fault>>
    ensures { computed_of result ≡ row (λ o. compared o order) (plain_operator op.now) }
{
    match op {
        Token::LessThan => truth(order.is_lt()),
        Token::LessThanEqualsTo => truth(order.is_le()),
        Token::GreaterThan => truth(order.is_gt()),
        Token::GreaterThanEqualsTo => truth(order.is_ge()),
        _ => equality(op, order.is_eq()),
    }
}

/// What `==` and `!=` say of operands that are equal or not.
fn equality(op: &Token, is_equal: bool) -> Option<Result<Dynamic, Fault>>
    ensures { computed_of result ≡ row (λ o. equality_of o is_equal) (plain_operator op.now) }
{
    match op {
        Token::EqualsTo => truth(is_equal),
        Token::NotEqualsTo => truth(!is_equal),
        _ => None,
    }
}

fn truth(holds: bool) -> Option<Result<Dynamic, Fault>>
    ensures { computed_of result ≡ table.is_bool holds }
{
    Some(Ok(Dynamic::Bool(holds)))
}

/// A number, or the fault where there is none.
fn checked(number: Option<INT>) -> Option<Result<Dynamic, Fault>>
    ensures { computed_of result ≡ number_or_fault number }
{
    match number {
        Some(n) => Some(Ok(Dynamic::Int(n))),
        None => Some(Err(Fault::Arithmetic)),
    }
}

/// Does the operator join these values as texts?
fn joins(op: &Token, x: &Dynamic, y: &Dynamic) -> bool
    ensures { result ≡ joins op.now (value_of x.now) (value_of y.now) }
{
    match op {
        Token::Plus => is_text(x) && is_text(y),
        _ => false,
    }
}

/// Is one of them a float?
fn has_float(x: &Dynamic, y: &Dynamic) -> bool
    ensures { result ≡ has_float (value_of x.now) (value_of y.now) }
{
    is_float(x) || is_float(y)
}

/// Is this a float?
fn is_float(value: &Dynamic) -> bool
    ensures { result ≡ is_float (value_of value.now) }
{
    matches!(value, Dynamic::Float(_))
}

/// Is this a text or a character?
fn is_text(value: &Dynamic) -> bool
    ensures { result ≡ is_text (value_of value.now) }
{
    matches!(value, Dynamic::Str(_) | Dynamic::Char(_))
}
