//! Whether two nodes are alike, by one recursion over both trees. A function `is_..` is given the parts of the first
//! node, and asks whether the second node is like it.
#![tactic(auto, using(ast_types::specs::Reading::shapes, ast_types::proofs::ItemLists::steps))]

ghost use Rattle.std.specs.Prelude.{◌≡◌, ◌&&◌};
ghost use Rattle.rhai_base.specs.Builtin.{operator_of};
ghost use Rattle.ast_types.specs.Reading.{arms_of, breaks, callee_of, cases_of, chain_flags, counter_of, expr_of, expressions_of, exprs_of, is_const, is_exported, is_negated, keys_of, maybe_of, pairs_of, stmt_of, stmts_of, subject_of, table_of};
ghost use Rattle.theory_meaning.specs.Tree.{And, ArrayOf, Assignment, Block, BlockExpr, BreakLoop, Coalesce, Do, Dot, ExprStmt, FnCall, FnCallStmt, For, If, Import, Index, InterpolatedString, MapOf, MethodCall, Or, Return, Switch, TryCatch, Var, While};
ghost use Rattle.ast_same.specs.Alike.{alike_arms, alike_callee, alike_expr, alike_exprs, alike_maybe, alike_pairs, alike_stmt, alike_stmts};

use crate::leaves::{
    is_bool, is_char, is_dynamic, is_export, is_float, is_integer, is_noop, is_property, is_share,
    is_string, is_this, is_unit, is_variable,
};
use crate::names::{alike_counters, alike_keys};
use crate::parts::{alike_at, alike_callee, alike_flags, alike_operator};
use crate::tables::alike_table;
use ast_types::{BinaryExpr, Expr, FlowControl, FnCallExpr, Stmt, StmtBlock, SwitchBlock};
use rhai_base::{ASTFlags, Boxed, Dynamic, Ident, OpAssignment, StringMap};
use std::num::NonZeroUsize;

#[cycle(nodes)]
pub(crate) fn alike_expr(first: &Expr, second: &Expr) -> bool
    ensures { result ≡ alike_expr (expr_of first.now) (expr_of second.now) }
{
    match first {
        Expr::DynamicConstant(value, _) => is_dynamic(value.get(), second),
        Expr::BoolConstant(value, _) => is_bool(*value, second),
        Expr::IntegerConstant(value, _) => is_integer(*value, second),
        Expr::FloatConstant(value, _) => is_float(*value, second),
        Expr::CharConstant(value, _) => is_char(*value, second),
        Expr::StringConstant(value, _) => is_string(value.as_str(), second),
        Expr::InterpolatedString(parts, _) => is_interpolated(parts.get().as_slice(), second),
        Expr::Array(items, _) => is_array(items.get().as_slice(), second),
        Expr::Map(map, _) => is_map(map.get().0.as_slice(), &map.get().1, second),
        Expr::Unit(_) => is_unit(second),
        Expr::Variable(parts, _, _) => is_variable(parts.get(), second),
        Expr::ThisPtr(_) => is_this(second),
        Expr::Property(names, _) => is_property(names.get(), second),
        Expr::MethodCall(call, _) => is_method_call(call.get(), second),
        Expr::Stmt(block) => is_block_expr(block.get(), second),
        Expr::FnCall(call, _) => is_fn_call(call.get(), second),
        Expr::Dot(sides, options, _) => is_dot(sides.get(), *options, second),
        Expr::Index(sides, options, _) => is_index(sides.get(), *options, second),
        Expr::And(operands, _) => is_and(operands.get().as_slice(), second),
        Expr::Or(operands, _) => is_or(operands.get().as_slice(), second),
        Expr::Coalesce(operands, _) => is_coalesce(operands.get().as_slice(), second),
    }
}

#[cycle(nodes)]
pub(crate) fn alike_stmt(first: &Stmt, second: &Stmt) -> bool
    ensures { result ≡ alike_stmt (stmt_of first.now) (stmt_of second.now) }
{
    match first {
        Stmt::Noop(_) => is_noop(second),
        Stmt::If(flow, _) => is_if(flow.get(), second),
        Stmt::Switch(switch, _) => is_switch(switch.get(), second),
        Stmt::While(flow, _) => is_while(flow.get(), second),
        Stmt::Do(flow, options, _) => is_do(flow.get(), *options, second),
        Stmt::For(parts, _) => is_for(parts.get(), second),
        Stmt::Var(parts, options, _) => is_var(parts.get(), *options, second),
        Stmt::Assignment(parts) => is_assignment(parts.get(), second),
        Stmt::FnCall(call, _) => is_called(call.get(), second),
        Stmt::Block(block) => is_block_stmt(block.get(), second),
        Stmt::TryCatch(flow, _) => is_try(flow.get(), second),
        Stmt::Expr(expr) => is_expr_stmt(expr.get(), second),
        Stmt::BreakLoop(value, options, _) => is_break(value, *options, second),
        Stmt::Return(value, options, _) => is_return(value, *options, second),
        Stmt::Import(parts, _) => is_import(parts.get(), second),
        Stmt::Export(names, _) => is_export(names.get(), second),
        Stmt::Share(names) => is_share(names.get().as_slice(), second),
    }
}

#[cycle(nodes)]
fn alike_exprs(first: &[Expr], second: &[Expr]) -> bool
    ensures { result ≡ alike_exprs (exprs_of first.now) (exprs_of second.now) }
{
    let mut rest = second;
    for expr in first {
        let Some((other, others)) = rest.split_first() else {
            return false;
        };
        if !alike_expr(expr, other) {
            return false;
        }
        rest = others;
    }
    rest.is_empty()
}

#[cycle(nodes)]
pub(crate) fn alike_stmts(first: &[Stmt], second: &[Stmt]) -> bool
    ensures { result ≡ alike_stmts (stmts_of first.now) (stmts_of second.now) }
{
    let mut rest = second;
    for statement in first {
        let Some((other, others)) = rest.split_first() else {
            return false;
        };
        if !alike_stmt(statement, other) {
            return false;
        }
        rest = others;
    }
    rest.is_empty()
}

#[cycle(nodes)]
fn alike_pairs(first: &[(Ident, Expr)], second: &[(Ident, Expr)]) -> bool
    ensures { result ≡ alike_pairs (pairs_of first.now) (pairs_of second.now) }
{
    let mut rest = second;
    for pair in first {
        let Some((other, others)) = rest.split_first() else {
            return false;
        };
        if pair.0.as_str() != other.0.as_str() || !alike_expr(&pair.1, &other.1) {
            return false;
        }
        rest = others;
    }
    rest.is_empty()
}

#[cycle(nodes)]
fn alike_arms(first: &[BinaryExpr], second: &[BinaryExpr]) -> bool
    ensures { result ≡ alike_arms (arms_of first.now) (arms_of second.now) }
{
    let mut rest = second;
    for arm in first {
        let Some((other, others)) = rest.split_first() else {
            return false;
        };
        if !alike_sides(arm, other) {
            return false;
        }
        rest = others;
    }
    rest.is_empty()
}

#[cycle(nodes)]
fn alike_maybe(first: &Option<Boxed<Expr>>, second: &Option<Boxed<Expr>>) -> bool
    ensures { result ≡ alike_maybe (maybe_of first.now) (maybe_of second.now) }
{
    match (first, second) {
        (Some(expr), Some(other)) => alike_expr(expr.get(), other.get()),
        (None, None) => true,
        _ => false,
    }
}

#[cycle(nodes)]
fn alike_sides(first: &BinaryExpr, second: &BinaryExpr) -> bool
    ensures { result
        ≡ (alike_expr (expr_of first.now.lhs) (expr_of second.now.lhs)
        && alike_expr (expr_of first.now.rhs) (expr_of second.now.rhs)) }
{
    alike_expr(&first.lhs, &second.lhs) && alike_expr(&first.rhs, &second.rhs)
}

#[cycle(nodes)]
fn alike_call(first: &FnCallExpr, second: &FnCallExpr) -> bool
    ensures { result
        ≡ (alike_callee (callee_of first.now) (callee_of second.now)
        && alike_exprs (exprs_of first.now.args) (exprs_of second.now.args)) }
{
    alike_callee(first, second) && alike_exprs(first.args.as_slice(), second.args.as_slice())
}

#[cycle(nodes)]
fn alike_block(first: &StmtBlock, second: &StmtBlock) -> bool
    ensures { result ≡ alike_stmts (stmts_of first.now.block) (stmts_of second.now.block) }
{
    alike_stmts(first.statements(), second.statements())
}

/// The expression and the main block.
#[cycle(nodes)]
fn alike_loop(first: &FlowControl, second: &FlowControl) -> bool
    ensures { result
        ≡ (alike_expr (expr_of first.now.expr) (expr_of second.now.expr)
        && alike_stmts (stmts_of first.now.body.block) (stmts_of second.now.body.block)) }
{
    alike_expr(&first.expr, &second.expr) && alike_block(&first.body, &second.body)
}

/// The expression and both blocks.
#[cycle(nodes)]
fn alike_branches(first: &FlowControl, second: &FlowControl) -> bool
    ensures { result
        ≡ (alike_expr (expr_of first.now.expr) (expr_of second.now.expr)
        && alike_stmts (stmts_of first.now.body.block) (stmts_of second.now.body.block)
        && alike_stmts (stmts_of first.now.branch.block) (stmts_of second.now.branch.block)) }
{
    alike_loop(first, second) && alike_block(&first.branch, &second.branch)
}

#[cycle(nodes)]
fn is_interpolated(parts: &[Expr], second: &Expr) -> bool
    ensures { result ≡ alike_expr (InterpolatedString (exprs_of parts.now)) (expr_of second.now) }
{
    match second {
        Expr::InterpolatedString(others, _) => alike_exprs(parts, others.get().as_slice()),
        _ => false,
    }
}

#[cycle(nodes)]
fn is_array(items: &[Expr], second: &Expr) -> bool
    ensures { result ≡ alike_expr (ArrayOf (exprs_of items.now)) (expr_of second.now) }
{
    match second {
        Expr::Array(others, _) => alike_exprs(items, others.get().as_slice()),
        _ => false,
    }
}

/// The values of a template say nothing.
#[cycle(nodes)]
fn is_map(pairs: &[(Ident, Expr)], template: &StringMap<Dynamic>, second: &Expr) -> bool
    ensures { result ≡ alike_expr (MapOf (pairs_of pairs.now) (keys_of template.now)) (expr_of second.now) }
{
    match second {
        Expr::Map(other, _) => {
            alike_pairs(pairs, other.get().0.as_slice()) && alike_keys(template, &other.get().1)
        }
        _ => false,
    }
}

#[cycle(nodes)]
fn is_method_call(call: &FnCallExpr, second: &Expr) -> bool
    ensures { result ≡ alike_expr (MethodCall (callee_of call.now) (exprs_of call.now.args)) (expr_of second.now) }
{
    match second {
        Expr::MethodCall(other, _) => alike_call(call, other.get()),
        _ => false,
    }
}

#[cycle(nodes)]
fn is_block_expr(block: &StmtBlock, second: &Expr) -> bool
    ensures { result ≡ alike_expr (BlockExpr (stmts_of block.now.block)) (expr_of second.now) }
{
    match second {
        Expr::Stmt(other) => alike_block(block, other.get()),
        _ => false,
    }
}

#[cycle(nodes)]
fn is_fn_call(call: &FnCallExpr, second: &Expr) -> bool
    ensures { result ≡ alike_expr (FnCall (callee_of call.now) (exprs_of call.now.args)) (expr_of second.now) }
{
    match second {
        Expr::FnCall(other, _) => alike_call(call, other.get()),
        _ => false,
    }
}

#[cycle(nodes)]
fn is_dot(sides: &BinaryExpr, options: ASTFlags, second: &Expr) -> bool
    ensures { result
        ≡ alike_expr (Dot (chain_flags options) (expr_of sides.now.lhs) (expr_of sides.now.rhs)) (expr_of second.now) }
{
    match second {
        Expr::Dot(others, other_options, _) => {
            alike_flags(options, *other_options) && alike_sides(sides, others.get())
        }
        _ => false,
    }
}

#[cycle(nodes)]
fn is_index(sides: &BinaryExpr, options: ASTFlags, second: &Expr) -> bool
    ensures { result
        ≡ alike_expr (Index (chain_flags options) (expr_of sides.now.lhs) (expr_of sides.now.rhs))
        (expr_of second.now) }
{
    match second {
        Expr::Index(others, other_options, _) => {
            alike_flags(options, *other_options) && alike_sides(sides, others.get())
        }
        _ => false,
    }
}

#[cycle(nodes)]
fn is_and(operands: &[Expr], second: &Expr) -> bool
    ensures { result ≡ alike_expr (And (exprs_of operands.now)) (expr_of second.now) }
{
    match second {
        Expr::And(others, _) => alike_exprs(operands, others.get().as_slice()),
        _ => false,
    }
}

#[cycle(nodes)]
fn is_or(operands: &[Expr], second: &Expr) -> bool
    ensures { result ≡ alike_expr (Or (exprs_of operands.now)) (expr_of second.now) }
{
    match second {
        Expr::Or(others, _) => alike_exprs(operands, others.get().as_slice()),
        _ => false,
    }
}

#[cycle(nodes)]
fn is_coalesce(operands: &[Expr], second: &Expr) -> bool
    ensures { result ≡ alike_expr (Coalesce (exprs_of operands.now)) (expr_of second.now) }
{
    match second {
        Expr::Coalesce(others, _) => alike_exprs(operands, others.get().as_slice()),
        _ => false,
    }
}

#[cycle(nodes)]
fn is_if(flow: &FlowControl, second: &Stmt) -> bool
    ensures { result
        ≡ alike_stmt (If (expr_of flow.now.expr) (stmts_of flow.now.body.block) (stmts_of flow.now.branch.block))
        (stmt_of second.now) }
{
    match second {
        Stmt::If(other, _) => alike_branches(flow, other.get()),
        _ => false,
    }
}

#[cycle(nodes)]
fn is_switch(switch: &SwitchBlock, second: &Stmt) -> bool
    ensures { result
        ≡ alike_stmt (Switch (expr_of (subject_of switch.now)) (arms_of (expressions_of (cases_of switch.now)))
        (table_of (cases_of switch.now)))
        (stmt_of second.now) }
{
    match second {
        Stmt::Switch(other, _) => {
            let other = other.get();
            alike_expr(&switch.expr, &other.expr)
                && alike_arms(
                    switch.cases.expressions.as_slice(),
                    other.cases.expressions.as_slice(),
                )
                && alike_table(&switch.cases, &other.cases)
        }
        _ => false,
    }
}

#[cycle(nodes)]
fn is_while(flow: &FlowControl, second: &Stmt) -> bool
    ensures { result ≡ alike_stmt (While (expr_of flow.now.expr) (stmts_of flow.now.body.block)) (stmt_of second.now) }
{
    match second {
        Stmt::While(other, _) => alike_loop(flow, other.get()),
        _ => false,
    }
}

#[cycle(nodes)]
fn is_do(flow: &FlowControl, options: ASTFlags, second: &Stmt) -> bool
    ensures { result
        ≡ alike_stmt (Do (is_negated options) (is_exported options) (expr_of flow.now.expr)
        (stmts_of flow.now.body.block))
        (stmt_of second.now) }
{
    match second {
        Stmt::Do(other, other_options, _) => {
            alike_at(ASTFlags::NEGATED, options, *other_options)
                && alike_at(ASTFlags::EXPORTED, options, *other_options)
                && alike_loop(flow, other.get())
        }
        _ => false,
    }
}

#[cycle(nodes)]
fn is_for(parts: &(Ident, Option<Ident>, FlowControl), second: &Stmt) -> bool
    ensures { result
        ≡ alike_stmt (For parts.now.0.name (counter_of parts.now.1) (expr_of parts.now.2.expr)
        (stmts_of parts.now.2.body.block))
        (stmt_of second.now) }
{
    match second {
        Stmt::For(other, _) => {
            let other = other.get();
            parts.0.as_str() == other.0.as_str()
                && alike_counters(&parts.1, &other.1)
                && alike_loop(&parts.2, &other.2)
        }
        _ => false,
    }
}

#[cycle(nodes)]
fn is_var(parts: &(Ident, Expr, Option<NonZeroUsize>), options: ASTFlags, second: &Stmt) -> bool
    ensures { result
        ≡ alike_stmt (Var (is_const options) (is_exported options) parts.now.0.name (expr_of parts.now.1))
        (stmt_of second.now) }
{
    match second {
        Stmt::Var(other, other_options, _) => {
            let other = other.get();
            alike_at(ASTFlags::CONSTANT, options, *other_options)
                && alike_at(ASTFlags::EXPORTED, options, *other_options)
                && parts.0.as_str() == other.0.as_str()
                && alike_expr(&parts.1, &other.1)
        }
        _ => false,
    }
}

#[cycle(nodes)]
fn is_assignment(parts: &(OpAssignment, BinaryExpr), second: &Stmt) -> bool
    ensures { result
        ≡ alike_stmt (Assignment (operator_of parts.now.0.op) (expr_of parts.now.1.lhs) (expr_of parts.now.1.rhs))
        (stmt_of second.now) }
{
    match second {
        Stmt::Assignment(other) => {
            let other = other.get();
            alike_operator(&parts.0, &other.0) && alike_sides(&parts.1, &other.1)
        }
        _ => false,
    }
}

#[cycle(nodes)]
fn is_called(call: &FnCallExpr, second: &Stmt) -> bool
    ensures { result ≡ alike_stmt (FnCallStmt (callee_of call.now) (exprs_of call.now.args)) (stmt_of second.now) }
{
    match second {
        Stmt::FnCall(other, _) => alike_call(call, other.get()),
        _ => false,
    }
}

#[cycle(nodes)]
fn is_block_stmt(block: &StmtBlock, second: &Stmt) -> bool
    ensures { result ≡ alike_stmt (Block (stmts_of block.now.block)) (stmt_of second.now) }
{
    match second {
        Stmt::Block(other) => alike_block(block, other.get()),
        _ => false,
    }
}

#[cycle(nodes)]
fn is_try(flow: &FlowControl, second: &Stmt) -> bool
    ensures { result
        ≡ alike_stmt (TryCatch (expr_of flow.now.expr) (stmts_of flow.now.body.block) (stmts_of flow.now.branch.block))
        (stmt_of second.now) }
{
    match second {
        Stmt::TryCatch(other, _) => alike_branches(flow, other.get()),
        _ => false,
    }
}

#[cycle(nodes)]
fn is_expr_stmt(expr: &Expr, second: &Stmt) -> bool
    ensures { result ≡ alike_stmt (ExprStmt (expr_of expr.now)) (stmt_of second.now) }
{
    match second {
        Stmt::Expr(other) => alike_expr(expr, other.get()),
        _ => false,
    }
}

#[cycle(nodes)]
fn is_break(value: &Option<Boxed<Expr>>, options: ASTFlags, second: &Stmt) -> bool
    ensures { result
        ≡ alike_stmt (BreakLoop (breaks options) (is_exported options) (maybe_of value.now)) (stmt_of second.now) }
{
    match second {
        Stmt::BreakLoop(other, other_options, _) => {
            alike_at(ASTFlags::BREAK, options, *other_options)
                && alike_at(ASTFlags::EXPORTED, options, *other_options)
                && alike_maybe(value, other)
        }
        _ => false,
    }
}

#[cycle(nodes)]
fn is_return(value: &Option<Boxed<Expr>>, options: ASTFlags, second: &Stmt) -> bool
    ensures { result
        ≡ alike_stmt (Return (breaks options) (is_exported options) (maybe_of value.now)) (stmt_of second.now) }
{
    match second {
        Stmt::Return(other, other_options, _) => {
            alike_at(ASTFlags::BREAK, options, *other_options)
                && alike_at(ASTFlags::EXPORTED, options, *other_options)
                && alike_maybe(value, other)
        }
        _ => false,
    }
}

#[cycle(nodes)]
fn is_import(parts: &(Expr, Ident), second: &Stmt) -> bool
    ensures { result ≡ alike_stmt (Import (expr_of parts.now.0) parts.now.1.name) (stmt_of second.now) }
{
    match second {
        Stmt::Import(other, _) => {
            let other = other.get();
            alike_expr(&parts.0, &other.0) && parts.1.as_str() == other.1.as_str()
        }
        _ => false,
    }
}
