//! What is covered so far.
#![tactic(auto, using(ast_types::specs::Reading::shapes, ast_types::proofs::ItemLists::steps))]

ghost use Rattle.std.specs.Prelude.{◌≡◌, drop, map};
ghost use Rattle.std.specs.Rc.{rc_value};
ghost use Rattle.ast_types.specs.Reading.{expr_of, exprs_of, function_of, maybe_of, pairs_of, stmt_of, stmts_of};
ghost use Rattle.theory_grammar.specs.Words.{goes_on};
ghost use Rattle.theory_grammar.specs.Covered.{are_covered, carried_is_covered, functions_are_covered, is_covered, is_escaped, is_odd, is_quote, is_simple, pairs_are_covered, statement_is_covered, statements_are_covered};

use crate::letters::letter_at;
use ast_types::{Expr, ScriptFuncDef, Stmt};
use base_lists::Boxed;
use base_tokens::Ident;
use std::rc::Rc;

/// Whether a tree is.
#[cycle(covered)]
pub(crate) fn is_covered(expr: &Expr) -> bool
    ensures { result ≡ is_covered (expr_of expr.now) }
{
    match expr {
        Expr::DynamicConstant(_, _)
        | Expr::CharConstant(_, _)
        | Expr::InterpolatedString(_, _)
        | Expr::Stmt(_) => false,
        Expr::Array(items, _) => are_covered(items.get().as_slice()),
        Expr::Map(map, _) => pairs_are_covered(map.get().0.as_slice()),
        Expr::MethodCall(call, _) | Expr::FnCall(call, _) => {
            are_covered(call.get().args.as_slice())
        }
        Expr::Dot(sides, _, _) | Expr::Index(sides, _, _) => {
            is_covered(&sides.get().lhs) && is_covered(&sides.get().rhs)
        }
        Expr::And(items, _) | Expr::Or(items, _) | Expr::Coalesce(items, _) => {
            are_covered(items.get().as_slice())
        }
        Expr::BoolConstant(_, _)
        | Expr::IntegerConstant(_, _)
        | Expr::FloatConstant(_, _)
        | Expr::StringConstant(_, _)
        | Expr::Unit(_)
        | Expr::Variable(_, _, _)
        | Expr::ThisPtr(_)
        | Expr::Property(_, _) => true,
    }
}

#[cycle(covered)]
fn are_covered(exprs: &[Expr]) -> bool
    ensures { result ≡ are_covered (exprs_of exprs.now) }
{
    for expr in exprs {
        if !is_covered(expr) {
            return false;
        }
    }
    true
}

#[cycle(covered)]
fn pairs_are_covered(pairs: &[(Ident, Expr)]) -> bool
    ensures { result ≡ pairs_are_covered (pairs_of pairs.now) }
{
    for member in pairs {
        if !is_covered(&member.1) {
            return false;
        }
    }
    true
}

/// Whether a statement is.
#[cycle(covered_statements)]
fn is_statement_covered(statement: &Stmt) -> bool
    ensures { result ≡ statement_is_covered (stmt_of statement.now) }
{
    match statement {
        Stmt::Switch(_, _) => false,
        Stmt::If(flow, _) | Stmt::TryCatch(flow, _) => {
            let flow = flow.get();
            is_covered(&flow.expr)
                && are_statements_covered(flow.body.statements())
                && are_statements_covered(flow.branch.statements())
        }
        Stmt::While(flow, _) | Stmt::Do(flow, _, _) => {
            let flow = flow.get();
            is_covered(&flow.expr) && are_statements_covered(flow.body.statements())
        }
        Stmt::For(parts, _) => {
            let flow = &parts.get().2;
            is_covered(&flow.expr) && are_statements_covered(flow.body.statements())
        }
        Stmt::Block(block) => are_statements_covered(block.get().statements()),
        Stmt::Var(parts, _, _) => is_covered(&parts.get().1),
        Stmt::Assignment(parts) => {
            let sides = &parts.get().1;
            is_covered(&sides.lhs) && is_covered(&sides.rhs)
        }
        Stmt::FnCall(call, _) => are_covered(call.get().args.as_slice()),
        Stmt::Expr(expr) => is_covered(expr.get()),
        Stmt::BreakLoop(value, _, _) | Stmt::Return(value, _, _) => is_value_covered(value),
        Stmt::Import(parts, _) => is_covered(&parts.get().0),
        Stmt::Noop(_) | Stmt::Export(_, _) | Stmt::Share(_) => true,
    }
}

fn is_value_covered(value: &Option<Boxed<Expr>>) -> bool
    ensures { result ≡ carried_is_covered (maybe_of value.now) }
{
    match value {
        Some(expr) => is_covered(expr.get()),
        None => true,
    }
}

/// Whether statements are.
#[cycle(covered_statements)]
pub(crate) fn are_statements_covered(statements: &[Stmt]) -> bool
    ensures { result ≡ statements_are_covered (stmts_of statements.now) }
{
    for statement in statements {
        if !is_statement_covered(statement) {
            return false;
        }
    }
    true
}

/// Whether functions are.
pub(crate) fn are_functions_covered(functions: &[Rc<ScriptFuncDef>]) -> bool
    ensures { result ≡ functions_are_covered (map function_of (map rc_value functions.now)) }
{
    for function in functions {
        if !are_statements_covered(function.body.statements()) {
            return false;
        }
    }
    true
}

/// Whether a text is.
#[tactic(auto, using(crate::proofs::LetterSteps::letter_steps))]
pub(crate) fn is_simple(text: &[u8]) -> bool
    ensures { result ≡ is_simple text.now }
{
    let mut at = 0;
    while let Some(letter) = letter_at(text, at) {
        if is_odd(text, letter, at + 1) {
            return false;
        }
        at += 1;
    }
    true
}

/// Whether a text that is not covered may begin with a letter that stands before a place.
fn is_odd(text: &[u8], letter: u8, at: usize) -> bool
    ensures { result ≡ is_odd letter (drop at text.now) }
{
    letter == b'`'
        || (letter == b'#' && goes_on_as_quote(text, at))
        || (letter == b'\\' && !goes_on_as_escaped(text, at))
}

fn goes_on_as_quote(text: &[u8], at: usize) -> bool
    ensures { result ≡ goes_on is_quote (drop at text.now) }
{
    match letter_at(text, at) {
        Some(letter) => letter == b'"',
        None => false,
    }
}

fn goes_on_as_escaped(text: &[u8], at: usize) -> bool
    ensures { result ≡ goes_on is_escaped (drop at text.now) }
{
    match letter_at(text, at) {
        Some(letter) => is_escaped(letter),
        None => false,
    }
}

fn is_escaped(letter: u8) -> bool
    ensures { result ≡ is_escaped letter }
{
    match letter {
        b'n' | b'r' | b't' | b'\\' | b'"' | b'\'' => true,
        _ => false,
    }
}
