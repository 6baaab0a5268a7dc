//! Purity: whether a run calls nothing, throws nothing and changes nothing.

#![tactic(auto, using(ast_types::specs::Reading::shapes, ast_types::proofs::ItemLists::steps, crate::proofs::Tables::tables))]

ghost use Rattle.std.specs.Prelude.{◌≡◌, ◌&&◌, true, map, slice_get};
ghost use Rattle.ast_nodes.specs.Arms.{has_pure_answer, is_pure_if_any};
ghost use Rattle.ast_types.specs.Reading.{arms_of, case_of, cases_of, expr_of, expressions_of, exprs_of, pairs_of, range_of, stmt_of, stmts_of, subject_of, table_of};
ghost use Rattle.theory_meaning.specs.Queries as queries;
ghost use Rattle.theory_meaning.specs.Walk.{arms_of_cases, arms_of_ranges};

use crate::queries::constants::is_literally;
use ast_types::{BinaryExpr, Expr, FlowControl, Stmt, SwitchBlock, SwitchCasesCollection};
use bitflags::Flags;
use rhai_base::{ASTFlags, Cases, Ident, RangeCase};

/// Whether an expression is pure.
#[cycle(pure)]
pub fn is_pure_expr(expr: &Expr) -> bool
    ensures { result ≡ queries.is_pure_expr (expr_of expr.now) }
{
    match expr {
        Expr::InterpolatedString(list, _)
        | Expr::Array(list, _)
        | Expr::And(list, _)
        | Expr::Or(list, _)
        | Expr::Coalesce(list, _) => are_pure_exprs(list.get().as_slice()),
        Expr::Map(map, _) => are_pure_members(map.get().0.as_slice()),
        Expr::Stmt(block) => are_pure(block.get().statements()),
        Expr::DynamicConstant(_, _)
        | Expr::BoolConstant(_, _)
        | Expr::IntegerConstant(_, _)
        | Expr::FloatConstant(_, _)
        | Expr::CharConstant(_, _)
        | Expr::StringConstant(_, _)
        | Expr::Unit(_) => true,
        Expr::Variable(_, _, _)
        | Expr::ThisPtr(_)
        | Expr::Property(_, _)
        | Expr::MethodCall(_, _)
        | Expr::FnCall(_, _)
        | Expr::Dot(_, _, _)
        | Expr::Index(_, _, _) => false,
    }
}

#[cycle(pure)]
fn are_pure_exprs(exprs: &[Expr]) -> bool
    ensures { result ≡ queries.are_pure_exprs (exprs_of exprs.now) }
{
    for expr in exprs {
        if !is_pure_expr(expr) {
            return false;
        }
    }
    true
}

#[cycle(pure)]
fn are_pure_members(members: &[(Ident, Expr)]) -> bool
    ensures { result ≡ queries.are_pure_pairs (pairs_of members.now) }
{
    for member in members {
        if !is_pure_expr(&member.1) {
            return false;
        }
    }
    true
}

/// Whether a statement is pure.
#[cycle(pure)]
pub fn is_pure(stmt: &Stmt) -> bool
    ensures { result ≡ queries.is_pure (stmt_of stmt.now) }
{
    match stmt {
        Stmt::Noop(_) => true,
        Stmt::Expr(expr) => is_pure_expr(expr.get()),
        Stmt::If(flow, _) | Stmt::TryCatch(flow, _) => is_pure_flow(flow.get()),
        Stmt::Switch(switch, _) => is_pure_switch(switch.get()),
        Stmt::While(flow, _) => is_literally(&flow.get().expr, false),
        Stmt::Do(flow, options, _) => {
            is_literally(&flow.get().expr, options.contains(ASTFlags::NEGATED))
                && are_pure(flow.get().body.statements())
        }
        Stmt::For(parts, _) => is_pure_loop(&parts.get().2),
        Stmt::Block(block) => are_pure(block.get().statements()),
        Stmt::Var(_, _, _)
        | Stmt::Assignment(_)
        | Stmt::FnCall(_, _)
        | Stmt::BreakLoop(_, _, _)
        | Stmt::Return(_, _, _)
        | Stmt::Import(_, _)
        | Stmt::Export(_, _)
        | Stmt::Share(_) => false,
    }
}

#[cycle(pure)]
pub(crate) fn are_pure(statements: &[Stmt]) -> bool
    ensures { result ≡ queries.are_pure (stmts_of statements.now) }
{
    for stmt in statements {
        if !is_pure(stmt) {
            return false;
        }
    }
    true
}

#[cycle(pure)]
fn is_pure_flow(flow: &FlowControl) -> bool
    ensures { result ≡ (queries.is_pure_expr (expr_of flow.now.expr)
        && (queries.are_pure (stmts_of flow.now.body.block) && queries.are_pure (stmts_of flow.now.branch.block))) }
{
    is_pure_expr(&flow.expr)
        && are_pure(flow.body.statements())
        && are_pure(flow.branch.statements())
}

#[cycle(pure)]
fn is_pure_loop(flow: &FlowControl) -> bool
    ensures { result ≡ (queries.is_pure_expr (expr_of flow.now.expr)
        && queries.are_pure (stmts_of flow.now.body.block)) }
{
    is_pure_expr(&flow.expr) && are_pure(flow.body.statements())
}

// ---- the table of a `switch`

#[cycle(pure)]
fn is_pure_switch(switch: &SwitchBlock) -> bool
    ensures { result ≡ (queries.is_pure_expr (expr_of (subject_of switch.now))
        && queries.table_is_pure (queries.arm_purities (arms_of (expressions_of (cases_of switch.now))))
        (table_of (cases_of switch.now))) }
{
    is_pure_expr(&switch.expr) && is_pure_table(&switch.cases)
}

#[cycle(pure)]
fn is_pure_table(table: &SwitchCasesCollection) -> bool
    ensures { result ≡ queries.table_is_pure (queries.arm_purities (arms_of (expressions_of table.now)))
        (table_of table.now) }
{
    let arms = table.expressions.as_slice();
    are_pure_cases(arms, &table.cases)
        && are_pure_ranges(arms, table.ranges.as_slice())
        && is_pure_default(arms, table.def_case)
}

/// Whether the arms are pure that cases name.
#[cycle(pure)]
fn are_pure_cases(arms: &[BinaryExpr], cases: &Cases) -> bool
    ensures { result ≡ queries.listed_arms_are_pure (queries.arm_purities (arms_of arms.now))
        (arms_of_cases (map case_of cases.now)) }
{
    for case in cases.as_map() {
        if !are_pure_arms(arms, case.1.blocks.as_slice()) {
            return false;
        }
    }
    true
}

/// Whether the arms are pure that ranges name.
#[cycle(pure)]
fn are_pure_ranges(arms: &[BinaryExpr], ranges: &[RangeCase]) -> bool
    ensures { result ≡ queries.listed_arms_are_pure (queries.arm_purities (arms_of arms.now))
        (arms_of_ranges (map range_of ranges.now)) }
{
    for range in ranges {
        if !is_pure_at(arms, range.index()) {
            return false;
        }
    }
    true
}

#[cycle(pure)]
fn are_pure_arms(arms: &[BinaryExpr], places: &[usize]) -> bool
    ensures { result ≡ queries.listed_arms_are_pure (queries.arm_purities (arms_of arms.now)) places.now }
{
    for place in places {
        if !is_pure_at(arms, *place) {
            return false;
        }
    }
    true
}

/// Whether condition and answer of an arm are pure; past the table there is none, which asks nothing.
#[cycle(pure)]
fn is_pure_at(arms: &[BinaryExpr], place: usize) -> bool
    ensures { result ≡ is_pure_if_any (slice_get arms.now place) }
{
    match arms.get(place) {
        Some(arm) => is_pure_expr(&arm.lhs) && is_pure_expr(&arm.rhs),
        None => true,
    }
}

/// Whether the default names an arm with a pure answer.
#[cycle(pure)]
fn is_pure_default(arms: &[BinaryExpr], default: Option<usize>) -> bool
    ensures { result ≡ queries.default_is_pure (queries.arm_purities (arms_of arms.now)) default }
{
    match default {
        Some(place) => has_pure_answer_at(arms, place),
        None => false,
    }
}

#[cycle(pure)]
fn has_pure_answer_at(arms: &[BinaryExpr], place: usize) -> bool
    ensures { result ≡ has_pure_answer (slice_get arms.now place) }
{
    match arms.get(place) {
        Some(arm) => is_pure_expr(&arm.rhs),
        None => false,
    }
}
