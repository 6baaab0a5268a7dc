//! Values that are only computed, and comparisons of which the answer is known.

use crate::finding::FindingKind;
use base_engine::EngineInfo;
use rhai_ast::{Expr, FnCallExpr, Literals, Stmt};
use rhai_base::{Dynamic, Fault, OutOfMemory, Token};
use std::alloc::Global;

/// Whether a statement only computes a value.
pub(crate) fn is_idle_statement(statement: &Stmt) -> bool {
    match statement {
        Stmt::Expr(expr) => is_idle(expr.get()),
        _ => false,
    }
}

/// Whether an expression is a literal, a variable, or an operator over such: nothing that calls a function by its name.
#[cycle(idle)]
fn is_idle(expr: &Expr) -> bool {
    match expr {
        Expr::FnCall(call, _) => is_idle_call(call.get()),
        Expr::And(operands, _) | Expr::Or(operands, _) => are_idle(operands.get().as_slice()),
        _ => is_leaf(expr),
    }
}

#[cycle(idle)]
fn is_idle_call(call: &FnCallExpr) -> bool {
    match call.op_token {
        Some(token) => computes(token) && are_idle(call.args.as_slice()),
        None => false,
    }
}

#[cycle(idle)]
fn are_idle(exprs: &[Expr]) -> bool {
    for expr in exprs {
        if !is_idle(expr) {
            return false;
        }
    }
    true
}

fn is_leaf(expr: &Expr) -> bool {
    match expr {
        Expr::Variable(parts, _, _) => parts.get().2.is_empty(),
        _ => is_literal(expr),
    }
}

fn is_literal(expr: &Expr) -> bool {
    matches!(
        expr,
        Expr::BoolConstant(_, _)
            | Expr::IntegerConstant(_, _)
            | Expr::FloatConstant(_, _)
            | Expr::CharConstant(_, _)
            | Expr::StringConstant(_, _)
    )
}

/// Whether an operator computes or compares. A host may give a shift another sense, as to put something out.
fn computes(token: Token) -> bool {
    compares(token)
        || matches!(
            token,
            Token::Plus
                | Token::UnaryPlus
                | Token::Minus
                | Token::UnaryMinus
                | Token::Multiply
                | Token::Divide
                | Token::Modulo
                | Token::PowerOf
                | Token::Ampersand
                | Token::Pipe
                | Token::XOr
                | Token::Bang
        )
}

fn compares(token: Token) -> bool {
    matches!(
        token,
        Token::EqualsTo
            | Token::NotEqualsTo
            | Token::LessThan
            | Token::LessThanEqualsTo
            | Token::GreaterThan
            | Token::GreaterThanEqualsTo
    )
}

/// What is found at an operator over literals, or over a variable twice.
pub(crate) fn at_operator(
    alloc: Global,
    info: &EngineInfo,
    call: &FnCallExpr,
) -> Result<Option<FindingKind>, OutOfMemory> {
    let Some(token) = call.op_token else {
        return Ok(None);
    };
    let [left, right] = call.args.as_slice() else {
        return Ok(None);
    };
    if is_literal(left) && is_literal(right) {
        return over_literals(alloc, info, token, (left, right));
    }
    match (name_of(left), name_of(right)) {
        (Some(name), Some(other)) if compares(token) && name == other => {
            let name = String::from_str(alloc, name)?;
            Ok(Some(FindingKind::SameSides(name)))
        }
        _ => Ok(None),
    }
}

/// The name of a variable without a namespace.
fn name_of(expr: &Expr) -> Option<&str> {
    match expr {
        Expr::Variable(parts, _, _) if parts.get().2.is_empty() => Some(parts.get().1.as_str()),
        _ => None,
    }
}

fn over_literals(
    alloc: Global,
    info: &EngineInfo,
    token: Token,
    (left, right): (&Expr, &Expr),
) -> Result<Option<FindingKind>, OutOfMemory> {
    let (Some(left), Some(right)) = (left.constant_value(alloc)?, right.constant_value(alloc)?)
    else {
        return Ok(None);
    };
    let answer = info.builtin_binary(alloc, token, &left, &right)?;
    Ok(match &answer {
        Some(Ok(Dynamic::Bool(answer))) if compares(token) => Some(FindingKind::Always(*answer)),
        Some(Err(Fault::Arithmetic)) => Some(FindingKind::ConstantFault),
        _ => None,
    })
}
