//! Calls of operators by their tokens.

#![tactic(auto, using(rhai_base::specs::Reading::kinds))]

ghost use Rattle.std.specs.Prelude.{◌≡◌, length};
ghost use Rattle.ast_types.specs.Reading.{callee_of, mark_of};
ghost use Rattle.theory_meaning.specs.Shape.{has_token};
ghost use Rattle.ast_nodes.specs.Operators.{token_arity};

use ast_types::FnCallExpr;
use rhai_base::Token;

/// Whether a call has all that one of the token's operator has: no namespace, the operator's name, as many
/// arguments as it has operands, and no sight of the caller's scope.
pub fn is_call_of(call: &FnCallExpr, op: Token) -> bool
    ensures { result ≡ has_token (callee_of call.now) (length call.now.args) (mark_of (Some op)) }
{
    call.namespace.is_empty()
        && call.name.as_str() == op.literal_syntax()
        && operands(op) == Some(call.args.len())
        && !call.capture_parent_scope
}

/// How many operands the token's operator has; none for a token that is no operator.
pub fn operands(op: Token) -> Option<usize>
    ensures { result ≡ token_arity op }
{
    match op {
        Token::UnaryPlus | Token::UnaryMinus | Token::Bang => Some(1),
        Token::Plus
        | Token::Minus
        | Token::Multiply
        | Token::Divide
        | Token::Modulo
        | Token::PowerOf
        | Token::LeftShift
        | Token::RightShift
        | Token::Ampersand
        | Token::Pipe
        | Token::XOr
        | Token::EqualsTo
        | Token::NotEqualsTo
        | Token::LessThan
        | Token::LessThanEqualsTo
        | Token::GreaterThan
        | Token::GreaterThanEqualsTo
        | Token::ExclusiveRange
        | Token::InclusiveRange => Some(2),
        _ => None,
    }
}
