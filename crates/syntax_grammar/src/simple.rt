//! Statements without blocks.
#![tactic(auto, using(ast_types::specs::Reading::shapes, crate::proofs::PartSteps::simple_steps))]

ghost use Rattle.std.specs.Prelude.{◌≡◌, IfSome, IsTrue, drop, false};
ghost use Rattle.ast_types.specs.Reading.{breaks, expr_of, is_const, is_exported, maybe_of, stmt_of};
ghost use Rattle.rhai_base.specs.Builtin.{operator_of};
ghost use Rattle.theory_meaning.specs.Tree.{Assignment, BreakLoop, Export, Import, Return, Var};
ghost use Rattle.theory_grammar.specs.Statements.{ReadsCarried, ReadsSimple, ReadsTop, ReadsValue, ReadsVar};

use crate::exprs::whole;
use crate::memory::Memory;
use crate::parts::{is_unit, past_alias, past_assign, past_declaring, past_leaving, past_name};
use crate::words::{past_letters, past_sign};
use ast_types::{BinaryExpr, Expr, Stmt};
use base_lists::Boxed;
use base_tokens::{ASTFlags, Ident, OpAssignment};
use bitflags::Flags;
use std::num::NonZeroUsize;

/// A statement without blocks.
pub(crate) fn simple(memory: &Memory, text: &[u8], at: usize, statement: &Stmt) -> Option<usize>
    ensures { IfSome result (λ next. ReadsSimple (drop at text.now) (stmt_of statement.now) (drop next text.now)) }
{
    match statement {
        Stmt::Expr(expr) => whole(memory, text, at, expr.get(), 0),
        Stmt::Var(parts, flags, _) => declared(memory, text, at, parts.get(), *flags),
        Stmt::Assignment(parts) => assigned(memory, text, at, &parts.get().0, &parts.get().1),
        Stmt::Return(value, flags, _) => left(memory, text, at, value, *flags),
        Stmt::BreakLoop(value, flags, _) => out_of_loop(memory, text, at, value, *flags),
        Stmt::Import(parts, _) => imported(memory, text, at, parts.get()),
        _ => None,
    }
}

/// A declaration that is not exported.
fn declared(
    memory: &Memory,
    text: &[u8],
    at: usize,
    parts: &(Ident, Expr, Option<NonZeroUsize>),
    flags: ASTFlags,
) -> Option<usize>
    ensures { IfSome result (λ next. ReadsSimple (drop at text.now)
        (Var (is_const flags) (is_exported flags) parts.now.0.name (expr_of parts.now.1)) (drop next text.now)) }
{
    if is_seen(flags) {
        return None;
    }
    variable(memory, text, at, parts, is_constant(flags))
}

/// A declaration.
fn variable(
    memory: &Memory,
    text: &[u8],
    at: usize,
    parts: &(Ident, Expr, Option<NonZeroUsize>),
    constant: bool,
) -> Option<usize>
    ensures { IfSome result (λ next. ReadsVar (drop at text.now) constant parts.now.0.name (expr_of parts.now.1) (drop next text.now)) }
{
    let mid = past_declaring(text, at, constant)?;
    let behind = past_name(text, mid, parts.0.as_str())?;
    value(memory, text, behind, &parts.1)
}

/// The value of a declaration.
fn value(memory: &Memory, text: &[u8], at: usize, expr: &Expr) -> Option<usize>
    ensures { IfSome result (λ next. ReadsValue (drop at text.now) (expr_of expr.now) (drop next text.now)) }
{
    if let Some(behind) = past_sign(text, at, "=", "=>") {
        return whole(memory, text, behind, expr, 0);
    }
    if is_unit(expr) { Some(at) } else { None }
}

fn assigned(
    memory: &Memory,
    text: &[u8],
    at: usize,
    sign: &OpAssignment,
    sides: &BinaryExpr,
) -> Option<usize>
    ensures { IfSome result (λ next. ReadsSimple (drop at text.now)
        (Assignment (operator_of sign.now.op) (expr_of sides.now.lhs) (expr_of sides.now.rhs)) (drop next text.now)) }
{
    let mid = whole(memory, text, at, &sides.lhs, 0)?;
    let behind = past_assign(text, mid, sign)?;
    whole(memory, text, behind, &sides.rhs, 0)
}

/// A `return` or a `throw`.
fn left(
    memory: &Memory,
    text: &[u8],
    at: usize,
    value: &Option<Boxed<Expr>>,
    flags: ASTFlags,
) -> Option<usize>
    ensures { IfSome result (λ next. ReadsSimple (drop at text.now)
        (Return (breaks flags) (is_exported flags) (maybe_of value.now)) (drop next text.now)) }
{
    if is_seen(flags) {
        return None;
    }
    let behind = past_leaving(text, at, is_break(flags))?;
    carried(memory, text, behind, value)
}

/// A `break` or a `continue`.
fn out_of_loop(
    memory: &Memory,
    text: &[u8],
    at: usize,
    value: &Option<Boxed<Expr>>,
    flags: ASTFlags,
) -> Option<usize>
    ensures { IfSome result (λ next. ReadsSimple (drop at text.now)
        (BreakLoop (breaks flags) (is_exported flags) (maybe_of value.now)) (drop next text.now)) }
{
    if is_seen(flags) {
        return None;
    }
    if is_break(flags) {
        let behind = past_letters(text, at, "break")?;
        return carried(memory, text, behind, value);
    }
    match value {
        Some(_) => None,
        None => past_letters(text, at, "continue"),
    }
}

/// What a statement carries out.
fn carried(memory: &Memory, text: &[u8], at: usize, value: &Option<Boxed<Expr>>) -> Option<usize>
    ensures { IfSome result (λ next. ReadsCarried (drop at text.now) (maybe_of value.now) (drop next text.now)) }
{
    match value {
        Some(expr) => whole(memory, text, at, expr.get(), 0),
        None => Some(at),
    }
}

fn imported(memory: &Memory, text: &[u8], at: usize, parts: &(Expr, Ident)) -> Option<usize>
    ensures { IfSome result (λ next. ReadsSimple (drop at text.now)
        (Import (expr_of parts.now.0) parts.now.1.name) (drop next text.now)) }
{
    let mid = past_letters(text, at, "import")?;
    let behind = whole(memory, text, mid, &parts.0, 0)?;
    past_alias(text, behind, parts.1.as_str())
}

/// An export.
pub(crate) fn exported(memory: &Memory, text: &[u8], at: usize, statement: &Stmt) -> Option<usize>
    ensures { IfSome result (λ next. ReadsTop (drop at text.now) (stmt_of statement.now) (drop next text.now)) }
{
    match statement {
        Stmt::Var(parts, flags, _) => exported_variable(memory, text, at, parts.get(), *flags),
        Stmt::Export(names, _) => exported_name(text, at, names.get()),
        _ => None,
    }
}

fn exported_variable(
    memory: &Memory,
    text: &[u8],
    at: usize,
    parts: &(Ident, Expr, Option<NonZeroUsize>),
    flags: ASTFlags,
) -> Option<usize>
    ensures { IfSome result (λ next. ReadsTop (drop at text.now)
        (Var (is_const flags) (is_exported flags) parts.now.0.name (expr_of parts.now.1)) (drop next text.now)) }
{
    if !is_seen(flags) {
        return None;
    }
    let behind = past_letters(text, at, "export")?;
    variable(memory, text, behind, parts, is_constant(flags))
}

fn exported_name(text: &[u8], at: usize, names: &(Ident, Ident)) -> Option<usize>
    ensures { IfSome result (λ next. ReadsTop (drop at text.now)
        (Export names.now.0.name names.now.1.name) (drop next text.now)) }
{
    let mid = past_letters(text, at, "export")?;
    let behind = past_name(text, mid, names.0.as_str())?;
    past_alias(text, behind, names.1.as_str())
}

fn is_constant(flags: ASTFlags) -> bool
    ensures { result ≡ is_const flags }
{
    flags.contains(ASTFlags::CONSTANT)
}

/// Whether a statement is seen from outside.
pub(crate) fn is_seen(flags: ASTFlags) -> bool
    ensures { result ≡ is_exported flags }
{
    flags.contains(ASTFlags::EXPORTED)
}

fn is_break(flags: ASTFlags) -> bool
    ensures { result ≡ breaks flags }
{
    flags.contains(ASTFlags::BREAK)
}
