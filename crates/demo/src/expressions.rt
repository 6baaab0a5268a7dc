//! Expressions that are built by hand, without positions.
#![tactic(auto, using(ast_types::specs::Reading::shapes))]

ghost use Rattle.std.specs.Prelude.{◌≡◌, ◌∷◌, [], IfOk, Ok, None, Some, true};
ghost use Rattle.base_tokens.specs.Symbols.{token_text};
ghost use Rattle.ast_types.specs.Reading.{callee_of, expr_of, exprs_of, mark_of};
ghost use Rattle.theory_meaning.specs.Tree.{ArrayOf, BoolConstant, IntegerConstant, StringConstant};
ghost use Rattle.ast_make.specs.Trees.{called, element, operation, variable};

use ast_make as make;
use rhai_ast::{Expr, FnCallExpr};
use rhai_base::{Boxed, INT, OutOfMemory, Position, Seq, Token};
use std::alloc::Global;

/// What was made before beside what is made next, where that is not refused. Who makes the next one holds nothing
/// meanwhile: to let go of a tree is dear to prove.
pub(crate) fn both<A: Drop, B, E>(first: A, second: Result<B, E>) -> Result<(A, B), E>
    ensures { IfOk result (λ p. (p.0 ≡ first) × (second ≡ Ok p.1)) }
{
    Ok((first, second?))
}

pub(crate) fn integer(value: INT) -> Expr
    ensures { expr_of result ≡ IntegerConstant value }
{
    make::integer(value, Position::NONE)
}

/// `true`
pub(crate) fn certain() -> Expr
    ensures { expr_of result ≡ BoolConstant true }
{
    Expr::BoolConstant(true, Position::NONE)
}

/// A text, as a constant.
pub(crate) fn text(alloc: Global, text: &str) -> Result<Expr, OutOfMemory>
    ensures { IfOk result (λ e. expr_of e ≡ StringConstant text.now) }
{
    make::text(alloc, text, Position::NONE)
}

pub(crate) fn variable(alloc: Global, name: &str) -> Result<Expr, OutOfMemory>
    ensures { IfOk result (λ e. expr_of e ≡ variable name.now) }
{
    make::variable(alloc, name, Position::NONE)
}

pub(crate) fn array(alloc: Global, items: Seq<Expr>) -> Result<Expr, OutOfMemory>
    ensures { IfOk result (λ e. expr_of e ≡ ArrayOf (exprs_of items)) }
{
    make::array(alloc, items, Position::NONE)
}

/// What stands at an index.
pub(crate) fn element(alloc: Global, lhs: Expr, rhs: Expr) -> Result<Expr, OutOfMemory>
    ensures { IfOk result (λ e. expr_of e ≡ element (expr_of lhs) (expr_of rhs)) }
{
    make::index(alloc, lhs, rhs, Position::NONE)
}

/// The call of a function with one argument, as it stands in nodes.
pub(crate) fn call_with(
    alloc: Global,
    name: &str,
    argument: Expr,
) -> Result<Boxed<FnCallExpr>, OutOfMemory>
    ensures callee { IfOk result (λ c. callee_of c ≡ called name.now (mark_of None)) }
    ensures args { IfOk result (λ c. c.args ≡ argument ∷ []) }
{
    make::fn_call(alloc, name, Seq::from_array(alloc, [argument])?, None)
}

/// An operator over two operands.
pub(crate) fn operation(
    alloc: Global,
    token: Token,
    lhs: Expr,
    rhs: Expr,
) -> Result<Expr, OutOfMemory>
    ensures { IfOk result (λ e.
        expr_of e ≡ operation (token_text token) (mark_of (Some token)) (expr_of lhs) (expr_of rhs)) }
{
    make::operator(alloc, token, lhs, rhs, Position::NONE)
}
