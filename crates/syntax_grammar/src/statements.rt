//! Statements and blocks.
#![tactic(auto, using(ast_types::specs::Reading::shapes, crate::proofs::StatementSteps::statement_steps))]

ghost use Rattle.std.specs.Prelude.{◌≡◌, IfSome, codes, drop, false};
ghost use Rattle.base_text.specs.Text.{Text};
ghost use Rattle.ast_types.specs.Reading.{counter_of, expr_of, is_exported, is_negated, stmt_of, stmts_of};
ghost use Rattle.theory_meaning.specs.Tree.{Do, For, If, Stmts, TryCatch, While};
ghost use Rattle.theory_grammar.specs.Words.{Letters, Next};
ghost use Rattle.theory_grammar.specs.Statements.{ReadsBlock, ReadsElse, ReadsIf, ReadsStmt, ReadsStmts, ReadsTop, ends_by_itself};

use crate::exprs::whole;
use crate::memory::Memory;
use crate::parts::{is_unit, past_caught, past_loop_names, past_repeating, past_semicolons};
use crate::simple::{exported, is_seen, simple};
use crate::words::{past_letters, past_sign};
use ast_types::{Expr, FlowControl, Stmt};
use base_tokens::{ASTFlags, Ident};
use bitflags::Flags;

/// A statement of a script's own.
pub(crate) fn top(memory: &Memory, text: &[u8], at: usize, node: &Stmt) -> Option<usize>
    ensures { IfSome result (λ next. ReadsTop (drop at text.now) (stmt_of node.now) (drop next text.now)) }
{
    if let Some(next) = exported(memory, text, at, node) {
        return Some(next);
    }
    statement(memory, text, at, node)
}

#[cycle(statements)]
fn statement(memory: &Memory, text: &[u8], at: usize, node: &Stmt) -> Option<usize>
    ensures { IfSome result (λ next. ReadsStmt (drop at text.now) (stmt_of node.now) (drop next text.now)) }
{
    match node {
        Stmt::Block(inner) => block(memory, text, at, inner.get().statements()),
        Stmt::If(flow, _) => choice(memory, text, at, flow.get()),
        Stmt::While(flow, _) => repeated(memory, text, at, flow.get()),
        Stmt::Do(flow, flags, _) => do_loop(memory, text, at, flow.get(), *flags),
        Stmt::For(parts, _) => for_loop(memory, text, at, parts.get()),
        Stmt::TryCatch(flow, _) => try_catch(memory, text, at, flow.get()),
        _ => simple(memory, text, at, node),
    }
}

/// Statements in braces.
#[cycle(statements)]
pub(crate) fn block(memory: &Memory, text: &[u8], at: usize, nodes: &[Stmt]) -> Option<usize>
    ensures { IfSome result (λ next. ReadsBlock (drop at text.now) (stmts_of nodes.now) (drop next text.now)) }
{
    let behind = past_sign(text, at, "{", "")?;
    let next = list(memory, text, behind, nodes)?;
    past_sign(text, next, "}", "")
}

/// Statements and what stands between them.
#[cycle(statements)]
fn list(memory: &Memory, text: &[u8], at: usize, nodes: &[Stmt]) -> Option<usize>
    ensures { IfSome result (λ next. ReadsStmts false (drop at text.now) (stmts_of nodes.now) (drop next text.now)) }
{
    let mut place = at;
    let mut owed = false;
    for node in nodes {
        let start = past_semicolons(text, place, owed)?;
        place = statement(memory, text, start, node)?;
        owed = !ends_by_itself(node);
    }
    let next = past_semicolons(text, place, false)?;
    Some(next)
}

#[cycle(statements)]
fn choice(memory: &Memory, text: &[u8], at: usize, flow: &FlowControl) -> Option<usize>
    ensures { IfSome result (λ next. ReadsIf (drop at text.now)
        (If (expr_of flow.now.expr) (stmts_of flow.now.body.block) (stmts_of flow.now.branch.block)) (drop next text.now)) }
{
    let first = past_letters(text, at, "if")?;
    let second = whole(memory, text, first, &flow.expr, 0)?;
    let third = block(memory, text, second, flow.body.statements())?;
    otherwise(memory, text, third, flow.branch.statements())
}

/// What stands behind the block of an `if`.
#[cycle(statements)]
fn otherwise(memory: &Memory, text: &[u8], at: usize, nodes: &[Stmt]) -> Option<usize>
    ensures { IfSome result (λ next. ReadsElse (drop at text.now) (stmts_of nodes.now) (drop next text.now)) }
{
    let Some(behind) = past_letters(text, at, "else") else {
        return if nodes.is_empty() { Some(at) } else { None };
    };
    if let Some(next) = block(memory, text, behind, nodes) {
        return Some(next);
    }
    else_if(memory, text, behind, nodes)
}

/// An `if` behind an `else`.
#[cycle(statements)]
fn else_if(memory: &Memory, text: &[u8], at: usize, nodes: &[Stmt]) -> Option<usize>
    ensures { IfSome result (λ next. (ws : Text) → Next ws (Letters (codes "else")) (drop at text.now)
        → ReadsElse ws (stmts_of nodes.now) (drop next text.now)) }
{
    let [node] = nodes else {
        return None;
    };
    match node {
        Stmt::If(flow, _) => choice(memory, text, at, flow.get()),
        _ => None,
    }
}

/// The place behind a `loop`, or behind a `while` and its guard.
fn past_guard(memory: &Memory, text: &[u8], at: usize, guard: &Expr) -> Option<usize>
    ensures { IfSome result (λ next. (ss : Stmts) (rest : Text) → ReadsBlock (drop next text.now) ss rest
        → ReadsStmt (drop at text.now) (While (expr_of guard.now) ss) rest) }
{
    if is_unit(guard) {
        if let Some(next) = past_letters(text, at, "loop") {
            return Some(next);
        }
    }
    let behind = past_letters(text, at, "while")?;
    whole(memory, text, behind, guard, 0)
}

/// A `while` or a `loop`.
#[cycle(statements)]
fn repeated(memory: &Memory, text: &[u8], at: usize, flow: &FlowControl) -> Option<usize>
    ensures { IfSome result (λ next. ReadsStmt (drop at text.now)
        (While (expr_of flow.now.expr) (stmts_of flow.now.body.block)) (drop next text.now)) }
{
    let start = past_guard(memory, text, at, &flow.expr)?;
    block(memory, text, start, flow.body.statements())
}

#[cycle(statements)]
fn do_loop(
    memory: &Memory,
    text: &[u8],
    at: usize,
    flow: &FlowControl,
    flags: ASTFlags,
) -> Option<usize>
    ensures { IfSome result (λ next. ReadsStmt (drop at text.now)
        (Do (is_negated flags) (is_exported flags) (expr_of flow.now.expr) (stmts_of flow.now.body.block)) (drop next text.now)) }
{
    if is_seen(flags) {
        return None;
    }
    let mid = past_letters(text, at, "do")?;
    let behind = block(memory, text, mid, flow.body.statements())?;
    let last = past_repeating(text, behind, is_until(flags))?;
    whole(memory, text, last, &flow.expr, 0)
}

#[cycle(statements)]
fn for_loop(
    memory: &Memory,
    text: &[u8],
    at: usize,
    parts: &(Ident, Option<Ident>, FlowControl),
) -> Option<usize>
    ensures { IfSome result (λ next. ReadsStmt (drop at text.now)
        (For parts.now.0.name (counter_of parts.now.1) (expr_of parts.now.2.expr) (stmts_of parts.now.2.body.block)) (drop next text.now)) }
{
    let first = past_letters(text, at, "for")?;
    let second = past_loop_names(text, first, &parts.0, &parts.1)?;
    let third = past_letters(text, second, "in")?;
    let last = whole(memory, text, third, &parts.2.expr, 0)?;
    block(memory, text, last, parts.2.body.statements())
}

#[cycle(statements)]
fn try_catch(memory: &Memory, text: &[u8], at: usize, flow: &FlowControl) -> Option<usize>
    ensures { IfSome result (λ next. ReadsStmt (drop at text.now)
        (TryCatch (expr_of flow.now.expr) (stmts_of flow.now.body.block) (stmts_of flow.now.branch.block)) (drop next text.now)) }
{
    let first = past_letters(text, at, "try")?;
    let second = block(memory, text, first, flow.body.statements())?;
    let third = past_letters(text, second, "catch")?;
    let last = past_caught(text, third, &flow.expr)?;
    block(memory, text, last, flow.branch.statements())
}

/// Whether no `;` is owed behind a statement.
pub(crate) fn ends_by_itself(node: &Stmt) -> bool
    ensures { result ≡ ends_by_itself (stmt_of node.now) }
{
    match node {
        Stmt::If(..)
        | Stmt::Switch(..)
        | Stmt::While(..)
        | Stmt::For(..)
        | Stmt::Block(_)
        | Stmt::TryCatch(..) => true,
        Stmt::Noop(_)
        | Stmt::Do(..)
        | Stmt::Var(..)
        | Stmt::Assignment(_)
        | Stmt::FnCall(..)
        | Stmt::Expr(_)
        | Stmt::BreakLoop(..)
        | Stmt::Return(..)
        | Stmt::Import(..)
        | Stmt::Export(..)
        | Stmt::Share(_) => false,
    }
}

fn is_until(flags: ASTFlags) -> bool
    ensures { result ≡ is_negated flags }
{
    flags.contains(ASTFlags::NEGATED)
}
