//! Operators: how tightly they bind, and how they are written.

#![tactic(auto, using(ast_types::specs::Reading::shapes, crate::proofs::ExprSteps::first_steps))]

ghost use Rattle.std.specs.Prelude.{◌≡◌, ◌≤◌, IfSome, IsTrue, Some, drop, false, true};
ghost use Rattle.ast_types.specs.Reading.{callee_of, expr_of};
ghost use Rattle.theory_meaning.specs.Tree.{UnitConstant};
ghost use Rattle.base_tokens.specs.declared.token.Token.TheVariants as tokens;
ghost use Rattle.base_tokens.specs.Symbols.{token_text};
ghost use Rattle.theory_grammar.specs.Words.{Next, Sign, longer};
ghost use Rattle.theory_grammar.specs.Grammar.{Run, first_level, is_number, is_range, joins, least_left, least_right, marked, precedence, run_level, sign_of};

use crate::words::past_sign;
use ast_types::{Expr, FnCallExpr};
use base_tokens::Token;

/// How tightly an operator between operands binds; 0 for any other token.
pub(crate) fn precedence(token: Token) -> u32
    ensures { result ≡ precedence token }
{
    match token {
        Token::Pipe | Token::XOr => 30,
        Token::Ampersand => 60,
        Token::EqualsTo | Token::NotEqualsTo => 90,
        Token::LessThan
        | Token::LessThanEqualsTo
        | Token::GreaterThan
        | Token::GreaterThanEqualsTo => 130,
        Token::ExclusiveRange | Token::InclusiveRange => 140,
        Token::Plus | Token::Minus => 150,
        Token::Multiply | Token::Divide | Token::Modulo => 180,
        Token::PowerOf => 190,
        Token::LeftShift | Token::RightShift => 210,
        _ => 0,
    }
}

/// What binds as tightly as its left operand must.
pub(crate) fn least_left(token: Token) -> u32
    ensures { result ≡ least_left token }
{
    match token {
        Token::PowerOf => 191,
        _ => precedence(token),
    }
}

/// And as its right operand must.
pub(crate) fn least_right(token: Token) -> u32
    ensures { result ≡ least_right token }
{
    match token {
        Token::PowerOf => 190,
        _ => precedence(token).saturating_add(1),
    }
}

/// The sign that an operator over one operand is written as.
pub(crate) fn sign_of(token: Token) -> Option<Token>
    ensures { result ≡ sign_of token }
{
    match token {
        Token::UnaryMinus => Some(Token::Minus),
        Token::UnaryPlus => Some(Token::Plus),
        Token::Bang => Some(Token::Bang),
        _ => None,
    }
}

/// The letters behind which its sign is a longer one.
fn longer_than(token: Token) -> &'static str
    ensures { result.now ≡ longer (token_text token) }
{
    match token {
        Token::Plus | Token::UnaryPlus => "=+",
        Token::Minus | Token::UnaryMinus => "=>-",
        Token::Multiply => "*=)",
        Token::Divide => "=/*",
        Token::LessThan => "=<-|",
        Token::GreaterThan | Token::Equals => "=>",
        Token::Ampersand => "=&",
        Token::Pipe => "=|>",
        Token::Bang => "=.",
        Token::Period => ".",
        Token::ExclusiveRange => "=.",
        Token::DoubleColon => "<",
        Token::LeftParen => ")*",
        Token::Modulo
        | Token::PowerOf
        | Token::LeftShift
        | Token::RightShift
        | Token::XOr
        | Token::EqualsTo
        | Token::NotEqualsTo => "=",
        _ => "",
    }
}

/// The place behind the sign of an operator that stands next.
pub(crate) fn past_operator(text: &[u8], at: usize, token: Token) -> Option<usize>
    ensures { IfSome result (λ next. Next (drop at text.now) (Sign (token_text token)) (drop next text.now)) }
{
    past_sign(text, at, token.literal_syntax(), longer_than(token))
}

/// Whether a call has what one of this token's operator has.
pub(crate) fn is_marked(call: &FnCallExpr, token: Token) -> bool
    ensures { IsTrue result → callee_of call.now ≡ marked token }
{
    call.namespace.is_empty()
        && !call.capture_parent_scope
        && call.name.as_str() == token.literal_syntax()
        && has_token(call, token)
}

/// Whether a call has this token.
fn has_token(call: &FnCallExpr, token: Token) -> bool
    ensures { IsTrue result → call.now.op_token ≡ Some token }
{
    call.op_token == Some(token)
}

/// Whether a sign over an operand is a node of its own: `-` and `+` over a number are not.
pub(crate) fn is_apart(token: Token, operand: &Expr) -> bool
    ensures { IsTrue result → joins token (expr_of operand.now) ≡ false }
{
    match token {
        Token::Bang => true,
        _ => is_no_number(operand),
    }
}

/// Whether a token is that of `!`.
pub(crate) fn is_not(token: Token) -> bool
    ensures { IsTrue result → token ≡ tokens.Bang }
{
    match token {
        Token::Bang => true,
        _ => false,
    }
}

fn is_no_number(expr: &Expr) -> bool
    ensures { IsTrue result → is_number (expr_of expr.now) ≡ false }
{
    match expr {
        Expr::IntegerConstant(..) | Expr::FloatConstant(..) => false,
        _ => true,
    }
}

/// Whether an end of a range may be left out.
pub(crate) fn is_left_out(token: Token, end: &Expr) -> bool
    ensures range { IsTrue result → is_range token ≡ true }
    ensures unit { IsTrue result → expr_of end.now ≡ UnitConstant }
{
    match end {
        Expr::Unit(_) => is_range(token),
        _ => false,
    }
}

fn is_range(token: Token) -> bool
    ensures { result ≡ is_range token }
{
    match token {
        Token::ExclusiveRange | Token::InclusiveRange => true,
        _ => false,
    }
}

/// Whether the first operand of a list binds as tightly as it must, if it does up to a level.
pub(crate) fn is_first(list: u32, level: u32, first: &Expr) -> bool
    ensures { IsTrue result → (k : Run) → list ≡ run_level k → first_level k (expr_of first.now) ≤ level }
{
    if level < list {
        return false;
    }
    match first {
        Expr::FnCall(..) => true,
        _ => list < level,
    }
}
