//! Parts of two nodes that hold no other nodes.
#![tactic(auto, using(ast_types::specs::Reading::shapes, crate::proofs::Tokens::numbers))]

ghost use Rattle.std.specs.Prelude.{◌≡◌, ◌==◌};
ghost use Rattle.rhai_base.specs.Builtin.{operator_of};
ghost use Rattle.rhai_base.specs.Value.{same_bool};
ghost use Rattle.ast_types.specs.Reading.{callee_of, chain_flags, has_bits, mark_of, property_names};
ghost use Rattle.ast_same.specs.Alike.{alike_callee, alike_flags, alike_property, operator_number, token_number};

use crate::names::alike_path;
use ast_types::FnCallExpr;
use bitflags::Flags;
use rhai_base::{ASTFlags, ImmutableString, OpAssignment, Token};

/// Whether both have this flag, or neither.
pub(crate) fn alike_at(flag: ASTFlags, first: ASTFlags, second: ASTFlags) -> bool
    ensures { result ≡ same_bool (has_bits flag.0 first) (has_bits flag.0 second) }
{
    first.contains(flag) == second.contains(flag)
}

/// How steps of chains end them.
pub(crate) fn alike_flags(first: ASTFlags, second: ASTFlags) -> bool
    ensures { result ≡ alike_flags (chain_flags first) (chain_flags second) }
{
    alike_at(ASTFlags::NEGATED, first, second)
        && alike_at(ASTFlags::BREAK, first, second)
        && alike_at(ASTFlags::EXPORTED, first, second)
}

/// What is called, without its arguments.
pub(crate) fn alike_callee(first: &FnCallExpr, second: &FnCallExpr) -> bool
    ensures { result ≡ alike_callee (callee_of first.now) (callee_of second.now) }
{
    alike_path(&first.namespace, &second.namespace)
        && first.name.as_str() == second.name.as_str()
        && first.capture_parent_scope == second.capture_parent_scope
        && token_number(&first.op_token) == token_number(&second.op_token)
}

/// The names of properties.
pub(crate) fn alike_property(
    first: &(ImmutableString, ImmutableString, ImmutableString),
    second: &(ImmutableString, ImmutableString, ImmutableString),
) -> bool
    ensures { result ≡ alike_property (property_names first.now) (property_names second.now) }
{
    first.0.as_str() == second.0.as_str()
        && first.1.as_str() == second.1.as_str()
        && first.2.as_str() == second.2.as_str()
}

/// The operators of assignments.
pub(crate) fn alike_operator(first: &OpAssignment, second: &OpAssignment) -> bool
    ensures { result ≡ (operator_number (operator_of first.now.op) == operator_number (operator_of second.now.op)) }
{
    assigned_number(first) == assigned_number(second)
}

fn assigned_number(op: &OpAssignment) -> u8
    ensures { result ≡ operator_number (operator_of op.now.op) }
{
    match op.get_op_assignment_info() {
        Some((_, _, token, _)) => operator_number(*token),
        None => 0,
    }
}

/// A number for each operator that a token stands for, and 0 where it stands for none.
fn operator_number(token: Token) -> u8
    ensures { result ≡ operator_number (operator_of token) }
{
    match token {
        Token::Plus => 1,
        Token::Minus => 2,
        Token::Multiply => 3,
        Token::Divide => 4,
        Token::Modulo => 5,
        Token::PowerOf => 6,
        Token::LeftShift => 7,
        Token::RightShift => 8,
        Token::Ampersand => 9,
        Token::Pipe => 10,
        Token::XOr => 11,
        Token::EqualsTo => 12,
        Token::NotEqualsTo => 13,
        Token::LessThan => 14,
        Token::GreaterThan => 15,
        Token::LessThanEqualsTo => 16,
        Token::GreaterThanEqualsTo => 17,
        Token::ExclusiveRange => 18,
        Token::InclusiveRange => 19,
        Token::Bang => 20,
        Token::UnaryMinus => 21,
        Token::UnaryPlus => 22,
        _ => 0,
    }
}

/// The same for the token of a call, and 23 where there is none.
fn token_number(token: &Option<Token>) -> u8
    ensures { result ≡ token_number (mark_of token.now) }
{
    match token {
        Some(token) => operator_number(*token),
        None => 23,
    }
}
