//! How a closure takes names from around it: a `share` in a list, and constants in front of one in braces.
#![tactic(auto, using(ast_types::specs::Reading::shapes, ast_types::proofs::ItemLists::steps))]

ghost use Rattle.std.specs.Prelude.{◌≡◌, ◌++◌, ◌∷◌, [], IfOk, MatchOption, cond, is_some, reverse, true};
ghost use Rattle.std.specs.Option.{option_map};
ghost use Rattle.theory_spelling.specs.Captures as captures;
ghost use Rattle.theory_meaning.specs.Tree.{Block, ExprStmt, FnCall, Share};
ghost use Rattle.ast_types.specs.Reading.{callee_of, expr_of, exprs_of, mark_of, pairs_of, shared_names, stmt_of, stmts_of};
ghost use Rattle.ast_alike.specs.Closures.{closure_of};

use crate::forms::{both, pushed};
use ast_make::{block_stmt, expr_stmt};
use ast_types::{Expr, FnCallExpr, Stmt, StmtBlock};
use bitflags::Flags;
use rhai_base::{ASTFlags, Boxed, Ident, OutOfMemory, Position, Seq, Span, Token};
use std::alloc::Global;
use std::num::NonZeroUsize;

/// The names that a closure takes from around it.
type Shared = Seq<(Ident, Option<NonZeroUsize>)>;

// ---- lists

/// The last of a list, behind the others.
fn split_last(stmts: Seq<Stmt>) -> Option<(Seq<Stmt>, Stmt)>
    ensures { MatchOption result (stmts ≡ []) (λ p. stmts ≡ p.0 ++ p.1 ∷ []) }
{
    let mut items = stmts.into_vec();
    match items.pop() {
        Some(last) => Some((Seq::from_vec(items), last)),
        None => None,
    }
}

fn turned(stmts: Seq<Stmt>) -> Seq<Stmt>
    ensures { result ≡ reverse stmts }
{
    let mut items = stmts.into_vec();
    items.as_mut_slice().reverse();
    Seq::from_vec(items)
}

/// Whether it is an integer, or begins with `false &&`.
fn does_nothing(stmt: &Stmt) -> bool
    ensures { result ≡ captures.does_nothing (stmt_of stmt.now) }
{
    match stmt {
        Stmt::Expr(expr) => is_never(expr.get()),
        _ => false,
    }
}

fn is_never(expr: &Expr) -> bool
    ensures { result ≡ captures.does_nothing (ExprStmt (expr_of expr.now)) }
{
    match expr {
        Expr::IntegerConstant(_, _) => true,
        Expr::And(operands, _) => begins_false(operands.get().as_slice()),
        _ => false,
    }
}

fn begins_false(operands: &[Expr]) -> bool
    ensures { result ≡ captures.begins_false (exprs_of operands.now) }
{
    match operands.first() {
        Some(first) => is_false(first),
        None => false,
    }
}

fn is_false(expr: &Expr) -> bool
    ensures { result ≡ captures.is_false (expr_of expr.now) }
{
    match expr {
        Expr::BoolConstant(value, _) => !*value,
        _ => false,
    }
}

/// A closure: the names that it takes, and the statement that hands them over.
fn shared(alloc: Global, names: Shared, stmt: Stmt) -> Result<Stmt, OutOfMemory>
    ensures { IfOk result (λ s. stmt_of s ≡ captures.shared (shared_names names) (stmt_of stmt)) }
{
    let (stmt, names) = both(stmt, Boxed::new(alloc, names))?;
    let list = Seq::from_array(alloc, [Stmt::Share(names), stmt])?;
    block_stmt(alloc, StmtBlock::new_with_span(list.into_vec(), Span::NONE))
}

/// A `share` before those behind it, which stand from the last one on.
fn with_share(alloc: Global, names: Shared, behind: Seq<Stmt>) -> Result<Seq<Stmt>, OutOfMemory>
    ensures { IfOk result (λ made.
        stmts_of (reverse made) ≡ captures.grouped (Share (shared_names names)) (stmts_of (reverse behind))) }
{
    match split_last(behind) {
        Some((others, next)) => {
            let (others, closure) = both(others, shared(alloc, names, next))?;
            pushed(others, closure)
        }
        None => {
            let alone = Stmt::Share(Boxed::new(alloc, names)?);
            Ok(Seq::from_array(alloc, [alone])?)
        }
    }
}

/// A statement before those behind it, which stand from the last one on.
fn grouped(alloc: Global, stmt: Stmt, behind: Seq<Stmt>) -> Result<Seq<Stmt>, OutOfMemory>
    ensures { IfOk result (λ made.
        stmts_of (reverse made) ≡ captures.grouped (stmt_of stmt) (stmts_of (reverse behind))) }
{
    match stmt {
        Stmt::Share(names) => with_share(alloc, names.into_inner(), behind),
        other => {
            if !behind.is_empty() && does_nothing(&other) {
                Ok(behind)
            } else {
                pushed(behind, other)
            }
        }
    }
}

/// A list in which each `share` takes the statement behind it along, and none that does nothing stands before others.
pub(crate) fn all_grouped(alloc: Global, stmts: Seq<Stmt>) -> Result<Seq<Stmt>, OutOfMemory>
    ensures { IfOk result (λ made. stmts_of made ≡ captures.all_grouped (stmts_of stmts)) }
{
    let mut rest = stmts.into_vec();
    let mut behind = Seq::new(alloc);
    while let Some(stmt) = rest.pop() {
        behind = grouped(alloc, stmt, behind)?;
    }
    Ok(turned(behind))
}

// ---- constants in front of a closure

/// Whether it is a range between two integers.
fn is_range(call: &FnCallExpr) -> bool
    ensures { result ≡ captures.is_given (FnCall (callee_of call.now) (exprs_of call.now.args)) }
{
    is_range_sign(call.op_token) && are_two_integers(call.args.as_slice())
}

fn is_range_sign(token: Option<Token>) -> bool
    ensures { result ≡ captures.is_range_sign (mark_of token) }
{
    match token {
        Some(Token::ExclusiveRange) | Some(Token::InclusiveRange) => true,
        _ => false,
    }
}

fn are_two_integers(args: &[Expr]) -> bool
    ensures { result ≡ captures.are_two_integers (exprs_of args.now) }
{
    match args {
        [from, to] => is_integer(from) && is_integer(to),
        _ => false,
    }
}

fn is_integer(expr: &Expr) -> bool
    ensures { result ≡ captures.is_integer (expr_of expr.now) }
{
    match expr {
        Expr::IntegerConstant(_, _) => true,
        _ => false,
    }
}

/// Whether it is a literal or a range, which run nothing.
#[cycle(given)]
fn is_given(expr: &Expr) -> bool
    ensures { result ≡ captures.is_given (expr_of expr.now) }
{
    match expr {
        Expr::DynamicConstant(_, _) | Expr::BoolConstant(_, _) | Expr::IntegerConstant(_, _) => {
            true
        }
        Expr::FloatConstant(_, _) | Expr::CharConstant(_, _) => true,
        Expr::StringConstant(_, _) | Expr::Unit(_) => true,
        Expr::Array(items, _) => are_given(items.get().as_slice()),
        Expr::Map(map, _) => have_given(map.get().0.as_slice()),
        Expr::FnCall(call, _) => is_range(call.get()),
        Expr::InterpolatedString(_, _) | Expr::Stmt(_) => false,
        Expr::Variable(_, _, _) | Expr::ThisPtr(_) | Expr::Property(_, _) => false,
        Expr::MethodCall(_, _) | Expr::Dot(_, _, _) | Expr::Index(_, _, _) => false,
        Expr::And(_, _) | Expr::Or(_, _) | Expr::Coalesce(_, _) => false,
    }
}

#[cycle(given)]
fn are_given(exprs: &[Expr]) -> bool
    ensures { result ≡ captures.are_given (exprs_of exprs.now) }
{
    for expr in exprs {
        if !is_given(expr) {
            return false;
        }
    }
    true
}

#[cycle(given)]
fn have_given(pairs: &[(Ident, Expr)]) -> bool
    ensures { result ≡ captures.have_given (pairs_of pairs.now) }
{
    for pair in pairs {
        if !is_given(&pair.1) {
            return false;
        }
    }
    true
}

/// Whether it declares a constant that is a literal.
fn is_known(stmt: &Stmt) -> bool
    ensures { result ≡ captures.is_known (stmt_of stmt.now) }
{
    match stmt {
        Stmt::Var(parts, options, _) => {
            options.contains(ASTFlags::CONSTANT)
                && !options.contains(ASTFlags::EXPORTED)
                && is_given(&parts.get().1)
        }
        _ => false,
    }
}

fn are_known(stmts: &[Stmt]) -> bool
    ensures { result ≡ captures.are_known (stmts_of stmts.now) }
{
    for stmt in stmts {
        if !is_known(stmt) {
            return false;
        }
    }
    true
}

fn is_closure(stmt: &Stmt) -> bool
    ensures { result ≡ is_some (captures.closure_in (stmt_of stmt.now)) }
{
    match stmt {
        Stmt::Block(block) => are_closure(block.get().statements()),
        _ => false,
    }
}

fn are_closure(stmts: &[Stmt]) -> bool
    ensures { result ≡ is_some (captures.closure_in (Block (stmts_of stmts.now))) }
{
    match stmts {
        [first, _] => is_share(first),
        _ => false,
    }
}

fn is_share(stmt: &Stmt) -> bool
    ensures { result ≡ captures.is_share (stmt_of stmt.now) }
{
    match stmt {
        Stmt::Share(_) => true,
        _ => false,
    }
}

/// Whether these are a closure behind constants that are literals.
fn is_captured(stmts: &[Stmt]) -> bool
    ensures { result ≡ is_some (captures.captured (stmts_of stmts.now)) }
{
    match stmts.split_last() {
        Some((last, front)) => is_closure(last) && are_known(front),
        None => false,
    }
}

fn without(alloc: Global, name: &str, names: Shared) -> Result<Shared, OutOfMemory>
    ensures { IfOk result (λ kept. shared_names kept ≡ captures.without name.now (shared_names names)) }
{
    let mut rest = names.into_rest();
    let mut kept = Seq::new(alloc);
    while let Some(shared) = rest.next() {
        kept = kept_unless(kept, name, shared)?;
    }
    Ok(kept)
}

fn kept_unless(
    mut kept: Shared,
    name: &str,
    shared: (Ident, Option<NonZeroUsize>),
) -> Result<Shared, OutOfMemory>
    ensures { IfOk result (λ names.
        shared_names names ≡ shared_names kept ++ captures.without name.now (shared.0.name ∷ [])) }
{
    if shared.0.name.as_str() == name {
        return Ok(kept);
    }
    kept.push(shared)?;
    Ok(kept)
}

fn is_called(expr: &Expr, name: &str) -> bool
    ensures { result ≡ captures.is_called name.now (expr_of expr.now) }
{
    match expr {
        Expr::Variable(parts, _, _) => {
            let (_, own, namespace) = parts.get();
            namespace.is_empty() && own.as_str() == name
        }
        _ => false,
    }
}

fn put(name: &str, value: &Expr, arg: Expr) -> Result<Expr, OutOfMemory>
    ensures { IfOk result (λ e. expr_of e ≡ captures.put name.now (expr_of value.now) (expr_of arg)) }
{
    if is_called(&arg, name) {
        return Ok(value.clone()?);
    }
    Ok(arg)
}

fn put_each(
    alloc: Global,
    name: &str,
    value: &Expr,
    args: Seq<Expr>,
) -> Result<Seq<Expr>, OutOfMemory>
    ensures { IfOk result (λ es.
        exprs_of es ≡ captures.put_each name.now (expr_of value.now) (exprs_of args)) }
{
    let mut rest = args.into_rest();
    let mut made = Seq::new(alloc);
    while let Some(arg) = rest.next() {
        let (items, item) = both(made, put(name, value, arg))?;
        made = pushed(items, item)?;
    }
    Ok(made)
}

fn put_in_args(
    alloc: Global,
    name: &str,
    value: &Expr,
    call: FnCallExpr,
) -> Result<Expr, OutOfMemory>
    ensures { IfOk result (λ e.
        expr_of e ≡ FnCall (callee_of call) (captures.put_each name.now (expr_of value.now) (exprs_of call.args))) }
{
    let args = put_each(alloc, name, value, call.args)?;
    let call = FnCallExpr {
        namespace: call.namespace,
        name: call.name,
        args,
        capture_parent_scope: call.capture_parent_scope,
        op_token: call.op_token,
    };
    Ok(Expr::FnCall(Boxed::new(alloc, call)?, Position::NONE))
}

fn put_in_call(alloc: Global, name: &str, value: &Expr, stmt: Stmt) -> Result<Stmt, OutOfMemory>
    ensures { IfOk result (λ s.
        stmt_of s ≡ captures.put_in_call name.now (expr_of value.now) (stmt_of stmt)) }
{
    match stmt {
        Stmt::Expr(expr) => put_in_expr(alloc, name, value, expr.into_inner()),
        other => Ok(other),
    }
}

fn put_in_expr(alloc: Global, name: &str, value: &Expr, expr: Expr) -> Result<Stmt, OutOfMemory>
    ensures { IfOk result (λ s.
        stmt_of s ≡ captures.put_in_call name.now (expr_of value.now) (ExprStmt (expr_of expr))) }
{
    match expr {
        Expr::FnCall(call, _) => {
            let call = put_in_args(alloc, name, value, call.into_inner())?;
            expr_stmt(alloc, call)
        }
        other => expr_stmt(alloc, other),
    }
}

/// A closure that takes this constant, if it shares it.
fn with_known(
    alloc: Global,
    known: &Stmt,
    closure: (Shared, Stmt),
) -> Result<(Shared, Stmt), OutOfMemory>
    ensures { IfOk result (λ c. closure_of c ≡ captures.with_known (stmt_of known.now) (closure_of closure)) }
{
    match known {
        Stmt::Var(parts, _, _) => {
            let (names, call) = closure;
            let (name, value, _) = parts.get();
            let (call, names) = both(call, without(alloc, name.as_str(), names))?;
            both(names, put_in_call(alloc, name.as_str(), value, call))
        }
        _ => Ok(closure),
    }
}

fn handed(
    alloc: Global,
    constants: &[Stmt],
    closure: (Shared, Stmt),
) -> Result<(Shared, Stmt), OutOfMemory>
    ensures { IfOk result (λ c. closure_of c ≡ captures.handed (stmts_of constants.now) (closure_of closure)) }
{
    let mut rest = constants;
    let mut closure = closure;
    while let Some((last, others)) = rest.split_last() {
        closure = with_known(alloc, last, closure)?;
        rest = others;
    }
    Ok(closure)
}

fn closure_in(stmt: Stmt) -> Option<(Shared, Stmt)>
    ensures { option_map closure_of result ≡ captures.closure_in (stmt_of stmt) }
{
    match stmt {
        Stmt::Block(block) => closure_among(block.into_inner().into_statements()),
        _ => None,
    }
}

fn closure_among(stmts: Seq<Stmt>) -> Option<(Shared, Stmt)>
    ensures { option_map closure_of result ≡ captures.closure_in (Block (stmts_of stmts)) }
{
    if stmts.len() != 2 {
        return None;
    }
    let mut rest = stmts.into_rest();
    let first = rest.next();
    match (first, rest.next()) {
        (Some(first), Some(second)) => closure_by(first, second),
        _ => None,
    }
}

fn closure_by(first: Stmt, second: Stmt) -> Option<(Shared, Stmt)>
    ensures { option_map closure_of result ≡ captures.closure_in (Block (stmts_of (first ∷ second ∷ []))) }
{
    match first {
        Stmt::Share(names) => Some((names.into_inner(), second)),
        _ => None,
    }
}

/// What stands in braces: constants in front of a closure that takes them are handed to its function.
pub(crate) fn settled(alloc: Global, stmts: Seq<Stmt>) -> Result<Seq<Stmt>, OutOfMemory>
    ensures { IfOk result (λ ss. stmts_of ss ≡ captures.settled (stmts_of stmts)) }
{
    if !is_captured(stmts.as_slice()) {
        return Ok(stmts);
    }
    match split_last(stmts) {
        Some((constants, last)) => settled_by(alloc, constants, last),
        None => Ok(Seq::new(alloc)),
    }
}

fn settled_by(alloc: Global, constants: Seq<Stmt>, last: Stmt) -> Result<Seq<Stmt>, OutOfMemory>
    requires { is_some (captures.captured (stmts_of (constants ++ last ∷ []))) ≡ true }
    ensures { IfOk result (λ ss. stmts_of ss ≡ captures.settled (stmts_of (constants ++ last ∷ []))) }
{
    match closure_in(last) {
        Some(closure) => {
            let (names, call) = handed(alloc, constants.as_slice(), closure)?;
            Ok(Seq::from_array(alloc, [shared(alloc, names, call)?])?)
        }
        // It is one, as is asked by reference before it is taken out.
        None => unreachable!(),
    }
}
