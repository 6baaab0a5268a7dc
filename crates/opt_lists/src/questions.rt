//! What a sweep asks of a statement.

#![tactic(auto, using(ast_types::specs::Reading::shapes))]

ghost use Rattle.std.specs.Prelude.{◌≡◌, false};
ghost use Rattle.ast_types.specs.Reading.{expr_of, stmt_of, stmts_of};
ghost use Rattle.theory_rewriting.specs.Rules as rules;
ghost use Rattle.opt_lists.specs.Marks.{mark_of};
ghost use Rattle.opt_lists.specs.Sweep as spec;

use crate::behind::{Fading, Going};
use crate::mark::ListMark;
use ast_types::{Expr, Stmt, StmtBlock};
use bitflags::Flags;
use opt_base::{exports_nothing, is_surely_unit};
use rhai_ast::StmtQueries;
use rhai_base::ASTFlags;

/// Is it a name alone?
fn is_lone(statement: &Stmt) -> bool
    ensures { result ≡ spec.is_lone (stmt_of statement.now) }
{
    match statement {
        Stmt::Expr(expr) => is_name(expr.get()),
        _ => false,
    }
}

fn is_name(expr: &Expr) -> bool
    ensures { result ≡ spec.is_name (expr_of expr.now) }
{
    match expr {
        Expr::Variable(_, _, _) => true,
        _ => false,
    }
}

/// Has a block no statements?
fn is_nothing(block: &StmtBlock) -> bool
    ensures { result ≡ spec.is_nothing (stmts_of block.now.block) }
{
    block.is_empty()
}

/// Are its lists empty? That of a `while` is not asked, which is pure by its condition alone.
fn holds_nothing(statement: &Stmt) -> bool
    ensures { result ≡ spec.holds_nothing (stmt_of statement.now) }
{
    match statement {
        Stmt::If(flow, _) | Stmt::TryCatch(flow, _) => {
            let flow = flow.get();
            is_nothing(&flow.body) && is_nothing(&flow.branch)
        }
        Stmt::Do(flow, _, _) => is_nothing(&flow.get().body),
        Stmt::For(parts, _) => is_nothing(&parts.get().2.body),
        Stmt::Block(block) => is_nothing(block.get()),
        _ => true,
    }
}

/// Is it pure, as is told without going through a list in it? In normal form, where its value is not wanted, nothing else
/// is pure.
fn is_pure_by_itself(statement: &Stmt) -> bool
    ensures { result ≡ spec.is_pure_by_itself (stmt_of statement.now) }
{
    holds_nothing(statement) && statement.is_pure()
}

/// Is it pure in such a list? A list inside takes away the names that it adds.
fn is_pure_in(mark: ListMark, statement: &Stmt) -> bool
    ensures { result ≡ rules.is_pure_in (mark_of mark) (stmt_of statement.now) }
{
    match mark {
        ListMark::Whole => statement.is_pure(),
        ListMark::Inside { is_wanted: _ } => statement.is_internally_pure(),
    }
}

/// Is it pure inside a list, and does it export nothing?
pub(crate) fn is_quiet(statement: &Stmt) -> bool
    ensures { result ≡ spec.is_quiet (stmt_of statement.now) }
{
    statement.is_internally_pure() && exports_nothing(statement)
}

/// Is it of a kind that may be pure inside a list though it is not pure?
fn differs_inside(statement: &Stmt) -> bool
    ensures { result ≡ spec.differs_inside (stmt_of statement.now) }
{
    match statement {
        Stmt::Var(_, _, _) | Stmt::Import(_, _) | Stmt::Export(_, _) => true,
        Stmt::Expr(expr) => is_in_braces(expr.get()),
        _ => false,
    }
}

fn is_in_braces(expr: &Expr) -> bool
    ensures { result ≡ spec.is_in_braces (expr_of expr.now) }
{
    match expr {
        Expr::Stmt(_) => true,
        _ => false,
    }
}

/// Is one that is not pure by itself so inside a list? Its kind is asked first, so that most are not gone over again.
fn is_pure_inside(statement: &Stmt) -> bool
    requires { spec.is_pure_by_itself (stmt_of statement.now) ≡ false }
    ensures { result ≡ spec.is_inside_by_itself (stmt_of statement.now) }
{
    if !differs_inside(statement) {
        return false;
    }
    statement.is_internally_pure()
}

/// Does one that is not pure by itself go inside a list? The flag: all that follow are quiet.
fn goes_inside(mark: ListMark, are_quiet: bool, statement: &Stmt) -> bool
    requires { spec.is_pure_by_itself (stmt_of statement.now) ≡ false }
    ensures { result ≡ spec.goes_inside (mark_of mark) are_quiet (stmt_of statement.now) }
{
    match mark {
        ListMark::Whole => false,
        ListMark::Inside { is_wanted: _ } => are_quiet && is_pure_inside(statement),
    }
}

/// By which rule does it go where its value is not wanted, if by one? The flag: all that follow are quiet.
pub(crate) fn goes_by(mark: ListMark, are_quiet: bool, statement: &Stmt) -> Option<Going>
    ensures { result ≡ spec.goes_by (mark_of mark) are_quiet (stmt_of statement.now) }
{
    if is_pure_by_itself(statement) {
        return Some(Going::Pure);
    }
    if is_lone(statement) {
        return Some(Going::Lone);
    }
    if goes_inside(mark, are_quiet, statement) {
        Some(Going::PureInside)
    } else {
        None
    }
}

/// Is it a `return e` of a script or a function?
pub(crate) fn returns_value(mark: ListMark, statement: &Stmt) -> bool
    ensures { result ≡ spec.returns_value (mark_of mark) (stmt_of statement.now) }
{
    match mark {
        ListMark::Whole => is_return_of_value(statement),
        ListMark::Inside { is_wanted: _ } => false,
    }
}

fn is_return_of_value(statement: &Stmt) -> bool
    ensures { result ≡ spec.whole_returns_value (stmt_of statement.now) }
{
    match statement {
        Stmt::Return(expr, options, _) => !options.contains(ASTFlags::BREAK) && expr.is_some(),
        _ => false,
    }
}

/// Is it a `return;` of a script or a function?
fn returns_nothing(mark: ListMark, statement: &Stmt) -> bool
    ensures { result ≡ spec.returns_nothing (mark_of mark) (stmt_of statement.now) }
{
    match mark {
        ListMark::Whole => is_return_of_nothing(statement),
        ListMark::Inside { is_wanted: _ } => false,
    }
}

fn is_return_of_nothing(statement: &Stmt) -> bool
    ensures { result ≡ spec.whole_returns_nothing (stmt_of statement.now) }
{
    match statement {
        Stmt::Return(expr, options, _) => !options.contains(ASTFlags::BREAK) && expr.is_none(),
        _ => false,
    }
}

/// Does a `return;` go behind unit as the last one, and else do nothing?
pub(crate) fn return_fades(mark: ListMark, statement: &Stmt) -> Option<Fading>
    ensures { result ≡ spec.return_fades (mark_of mark) (stmt_of statement.now) }
{
    if returns_nothing(mark, statement) {
        Some(Fading::LastReturn)
    } else {
        None
    }
}

/// Is it of a kind that may be surely unit?
fn may_be_unit(statement: &Stmt) -> bool
    ensures { result ≡ spec.may_be_unit (stmt_of statement.now) }
{
    match statement {
        Stmt::Noop(_)
        | Stmt::Var(_, _, _)
        | Stmt::Assignment(_)
        | Stmt::TryCatch(_, _)
        | Stmt::While(_, _)
        | Stmt::Do(_, _, _)
        | Stmt::For(_, _) => true,
        _ => false,
    }
}

/// Is it pure in such a list, as is told without going through a list in it, and surely unit? Its kind is asked first, so
/// that most are not gone over.
fn is_pure_unit(mark: ListMark, statement: &Stmt) -> bool
    ensures { result ≡ spec.is_pure_unit (mark_of mark) (stmt_of statement.now) }
{
    if !may_be_unit(statement) {
        return false;
    }
    holds_nothing(statement) && is_pure_in(mark, statement) && is_surely_unit(statement)
}

/// Does one go behind unit as the last one, and else do nothing, since it is pure and surely unit?
pub(crate) fn unit_fades(mark: ListMark, statement: &Stmt) -> Option<Fading>
    ensures { result ≡ spec.unit_fades (mark_of mark) (stmt_of statement.now) }
{
    if is_pure_unit(mark, statement) {
        Some(Fading::LastUnit)
    } else {
        None
    }
}

/// Does one fade so, though it keeps what is before it from going, since it exports?
pub(crate) fn fades_aloud(mark: ListMark, statement: &Stmt) -> bool
    ensures { result ≡ spec.fades_aloud (mark_of mark) (stmt_of statement.now) }
{
    is_pure_unit(mark, statement) && !is_quiet(statement)
}
