//! What is done at a node whose parts are bare: braces stay or go, and flags that say nothing go.
#![tactic(auto, using(ast_types::specs::Reading::shapes))]

ghost use Rattle.std.specs.Prelude.{◌≡◌, ◌++◌, ◌∷◌, [], IfOk, Ok, false};
ghost use Rattle.theory_spelling.specs.Bare.{as_catch, as_condition, as_guard, as_side, bare_flags, bare_text, braced_if, evaluated, has_role, in_braces, is_last, unbraced, with_other};
ghost use Rattle.theory_meaning.specs.Constants.{is_literal_unit};
ghost use Rattle.theory_meaning.specs.Shape.{is_true};
ghost use Rattle.theory_meaning.specs.Tree.{BlockExpr};
ghost use Rattle.ast_types.specs.Reading.{breaks, chain_flags, expr_of, exprs_of, is_exported, is_negated, stmt_of, stmts_of};

use ast_nodes::expression_statement;
use ast_types::{Expr, Stmt, StmtBlock};
use bitflags::Flags;
use rhai_base::{ASTFlags, Boxed, ImmutableString, OutOfMemory, Position, Seq, Span};
use std::alloc::Global;

/// What was made before beside what is made next, where that is not refused.
pub(crate) fn both<A: Drop, B, E: Drop>(first: A, second: Result<B, E>) -> Result<(A, B), E>
    ensures { IfOk result (λ p. (p.0 ≡ first) × (second ≡ Ok p.1)) }
{
    Ok((first, second?))
}

/// The items and one more.
pub(crate) fn pushed<T: Drop>(mut items: Seq<T>, item: T) -> Result<Seq<T>, OutOfMemory>
    ensures { IfOk result (λ longer. longer ≡ items ++ item ∷ []) }
{
    items.push(item)?;
    Ok(items)
}

/// Whether a node around it takes it for more than its value: a place, or a link of a chain.
pub(crate) fn has_role(expr: &Expr) -> bool
    ensures { result ≡ has_role (expr_of expr.now) }
{
    match expr {
        Expr::Variable(_, _, _) | Expr::ThisPtr(_) | Expr::Property(_, _) => true,
        Expr::MethodCall(_, _) | Expr::Dot(_, _, _) | Expr::Index(_, _, _) => true,
        Expr::DynamicConstant(_, _) | Expr::BoolConstant(_, _) | Expr::IntegerConstant(_, _) => {
            false
        }
        Expr::FloatConstant(_, _) | Expr::CharConstant(_, _) => false,
        Expr::StringConstant(_, _) | Expr::Unit(_) => false,
        Expr::InterpolatedString(_, _) | Expr::Array(_, _) | Expr::Map(_, _) => false,
        Expr::Stmt(_) | Expr::FnCall(_, _) => false,
        Expr::And(_, _) | Expr::Or(_, _) | Expr::Coalesce(_, _) => false,
    }
}

/// Whether it is the literal `()`.
pub(crate) fn is_literal_unit(expr: &Expr) -> bool
    ensures { result ≡ is_literal_unit (expr_of expr.now) }
{
    match expr {
        Expr::Unit(_) => true,
        Expr::Variable(_, _, _) | Expr::ThisPtr(_) | Expr::Property(_, _) => false,
        Expr::MethodCall(_, _) | Expr::Dot(_, _, _) | Expr::Index(_, _, _) => false,
        Expr::DynamicConstant(_, _) | Expr::BoolConstant(_, _) | Expr::IntegerConstant(_, _) => {
            false
        }
        Expr::FloatConstant(_, _) | Expr::CharConstant(_, _) => false,
        Expr::StringConstant(_, _) => false,
        Expr::InterpolatedString(_, _) | Expr::Array(_, _) | Expr::Map(_, _) => false,
        Expr::Stmt(_) | Expr::FnCall(_, _) => false,
        Expr::And(_, _) | Expr::Or(_, _) | Expr::Coalesce(_, _) => false,
    }
}

/// Whether it is the literal `true`.
pub(crate) fn is_true(expr: &Expr) -> bool
    ensures { result ≡ is_true (expr_of expr.now) }
{
    match expr {
        Expr::BoolConstant(value, _) => *value,
        Expr::Variable(_, _, _) | Expr::ThisPtr(_) | Expr::Property(_, _) => false,
        Expr::MethodCall(_, _) | Expr::Dot(_, _, _) | Expr::Index(_, _, _) => false,
        Expr::DynamicConstant(_, _) | Expr::IntegerConstant(_, _) | Expr::Unit(_) => false,
        Expr::FloatConstant(_, _) | Expr::CharConstant(_, _) => false,
        Expr::StringConstant(_, _) => false,
        Expr::InterpolatedString(_, _) | Expr::Array(_, _) | Expr::Map(_, _) => false,
        Expr::Stmt(_) | Expr::FnCall(_, _) => false,
        Expr::And(_, _) | Expr::Or(_, _) | Expr::Coalesce(_, _) => false,
    }
}

/// Whether a `Dot` whose right side this is ends its chain.
fn is_last(dot: bool, rhs: &Expr) -> bool
    ensures { result ≡ is_last dot (expr_of rhs.now) }
{
    match rhs {
        Expr::Dot(_, _, _) | Expr::Index(_, _, _) => false,
        Expr::Variable(_, _, _) | Expr::ThisPtr(_) | Expr::Property(_, _) => dot,
        Expr::MethodCall(_, _) | Expr::Stmt(_) | Expr::FnCall(_, _) => dot,
        Expr::DynamicConstant(_, _) | Expr::BoolConstant(_, _) | Expr::IntegerConstant(_, _) => dot,
        Expr::FloatConstant(_, _) | Expr::CharConstant(_, _) => dot,
        Expr::StringConstant(_, _) | Expr::Unit(_) => dot,
        Expr::InterpolatedString(_, _) | Expr::Array(_, _) | Expr::Map(_, _) => dot,
        Expr::And(_, _) | Expr::Or(_, _) | Expr::Coalesce(_, _) => dot,
    }
}

/// These flags and no others.
fn flags(negated: bool, ends: bool) -> ASTFlags
    ensures negated { is_negated result ≡ negated }
    ensures breaks { breaks result ≡ ends }
    ensures exported { is_exported result ≡ false }
{
    match (negated, ends) {
        (false, false) => ASTFlags::NONE,
        (false, true) => ASTFlags::BREAK,
        (true, false) => ASTFlags::NEGATED,
        (true, true) => ASTFlags::from_bits_retain(12),
    }
}

/// The flags of a chain's step before this right side.
pub(crate) fn step_flags(dot: bool, options: ASTFlags, rhs: &Expr) -> ASTFlags
    ensures { chain_flags result ≡ bare_flags dot (chain_flags options) (expr_of rhs.now) }
{
    let ends = !is_last(dot, rhs) && options.contains(ASTFlags::BREAK);
    flags(options.contains(ASTFlags::NEGATED), ends)
}

/// The flags without those that say nothing in a statement.
pub(crate) fn statement_flags(options: ASTFlags) -> ASTFlags
    ensures negated { is_negated result ≡ is_negated options }
    ensures breaks { breaks result ≡ breaks options }
    ensures exported { is_exported result ≡ false }
{
    flags(
        options.contains(ASTFlags::NEGATED),
        options.contains(ASTFlags::BREAK),
    )
}

/// Statements in braces, as an expression.
pub(crate) fn block_expression(alloc: Global, stmts: Seq<Stmt>) -> Result<Expr, OutOfMemory>
    ensures { IfOk result (λ e. expr_of e ≡ BlockExpr (stmts_of stmts)) }
{
    let block = StmtBlock::new_with_span(stmts.into_vec(), Span::NONE);
    Ok(Expr::Stmt(Boxed::new(alloc, block)?))
}

fn in_braces(alloc: Global, expr: Expr) -> Result<Expr, OutOfMemory>
    ensures { IfOk result (λ e. expr_of e ≡ in_braces (expr_of expr)) }
{
    let statement = expression_statement(alloc, expr)?;
    block_expression(alloc, Seq::from_array(alloc, [statement])?)
}

fn braced_if(alloc: Global, wanted: bool, expr: Expr) -> Result<Expr, OutOfMemory>
    ensures { IfOk result (λ e. expr_of e ≡ braced_if wanted (expr_of expr)) }
{
    if wanted {
        in_braces(alloc, expr)
    } else {
        Ok(expr)
    }
}

/// A side that had a role or had none.
pub(crate) fn as_side(alloc: Global, had: bool, expr: Expr) -> Result<Expr, OutOfMemory>
    ensures { IfOk result (λ e. expr_of e ≡ as_side had (expr_of expr)) }
{
    let wanted = !had && has_role(&expr);
    braced_if(alloc, wanted, expr)
}

/// The guard of a loop that was the literal `()` or was not.
pub(crate) fn as_guard(alloc: Global, had: bool, expr: Expr) -> Result<Expr, OutOfMemory>
    ensures { IfOk result (λ e. expr_of e ≡ as_guard had (expr_of expr)) }
{
    let wanted = !had && is_literal_unit(&expr);
    braced_if(alloc, wanted, expr)
}

/// The name in a `catch`.
pub(crate) fn as_catch(
    alloc: Global,
    had: bool,
    had_unit: bool,
    expr: Expr,
) -> Result<Expr, OutOfMemory>
    ensures { IfOk result (λ e. expr_of e ≡ as_catch had had_unit (expr_of expr)) }
{
    as_guard(alloc, had_unit, as_side(alloc, had, expr)?)
}

/// The condition of an arm.
pub(crate) fn as_condition(alloc: Global, had: bool, expr: Expr) -> Result<Expr, OutOfMemory>
    ensures { IfOk result (λ e. expr_of e ≡ as_condition had (expr_of expr)) }
{
    let wanted = !had && is_true(&expr);
    braced_if(alloc, wanted, expr)
}

/// What stands in braces around one expression or one block; else the statements in braces.
pub(crate) fn unbraced(alloc: Global, stmts: Seq<Stmt>) -> Result<Expr, OutOfMemory>
    ensures { IfOk result (λ e. expr_of e ≡ unbraced (stmts_of stmts)) }
{
    if stmts.len() != 1 {
        return block_expression(alloc, stmts);
    }
    match stmts.into_only() {
        Some(only) => unbraced_only(alloc, only),
        None => block_expression(alloc, Seq::new(alloc)),
    }
}

fn unbraced_only(alloc: Global, only: Stmt) -> Result<Expr, OutOfMemory>
    ensures { IfOk result (λ e. expr_of e ≡ unbraced (stmts_of (only ∷ []))) }
{
    match only {
        Stmt::Expr(expr) => Ok(expr.into_inner()),
        Stmt::Block(block) => Ok(Expr::Stmt(block)),
        other => block_expression(alloc, Seq::from_array(alloc, [other])?),
    }
}

/// An expression as a statement.
pub(crate) fn evaluated(alloc: Global, expr: Expr) -> Result<Stmt, OutOfMemory>
    ensures { IfOk result (λ s. stmt_of s ≡ evaluated (expr_of expr)) }
{
    match expr {
        Expr::Stmt(block) => Ok(Stmt::Block(block)),
        other => expression_statement(alloc, other),
    }
}

/// A text of parts.
pub(crate) fn text_of_parts(alloc: Global, parts: Seq<Expr>) -> Result<Expr, OutOfMemory>
    ensures { IfOk result (λ e. expr_of e ≡ bare_text (exprs_of parts)) }
{
    if parts.is_empty() {
        let text = ImmutableString::new(alloc, "")?;
        return Ok(Expr::StringConstant(text, Position::NONE));
    }
    let parts = Boxed::new(alloc, parts)?;
    Ok(Expr::InterpolatedString(parts, Position::NONE))
}

/// Operands, and behind one alone the other that changes nothing.
pub(crate) fn with_other(other: Expr, operands: Seq<Expr>) -> Result<Seq<Expr>, OutOfMemory>
    ensures { IfOk result (λ es. exprs_of es ≡ with_other (expr_of other) (exprs_of operands)) }
{
    if operands.len() != 1 {
        return Ok(operands);
    }
    pushed(operands, other)
}
