//! The rules at a node whose parts are optimised, in its place, one after another until none fires. A node is taken
//! out only where a rule fires; what stays is not moved and takes no memory.

#![tactic(auto, using(ast_types::specs::Reading::shapes))]

ghost use Rattle.std.specs.Prelude.{◌≡◌, OnOk, IfOk};
ghost use Rattle.opt_base.specs.State.{progress};
ghost use Rattle.theory_meaning.specs.Engine.{Engine};
ghost use Rattle.ast_types.specs.Reading.{expr_of, stmt_of};
ghost use Rattle.base_engine.specs.EngineInfo.{engine_of};
ghost use Rattle.opt_base.specs.Passes.{PassStep};
ghost use Rattle.opt_base.specs.NodeSteps.{StmtDecided, StmtStep};
ghost use Rattle.opt_base.specs.Places.{place_of};
ghost use Rattle.theory_rewriting.specs.Steps.{ExprReduced, StmtReduced};

use crate::expressions::{array_of_constants, step_braces};
use crate::names::step_name;
use base_engine::EngineInfo;
use opt_base::{NodeStep, OptimizerState, Place};
use opt_chains::step_chain;
use opt_exprs::{step_call, step_call_statement, step_map, step_operands, step_text};
use opt_stmts::{
    decide_if, open_braces, step_assignment, step_block, step_expression, step_if, step_share,
    step_try, step_while,
};
use opt_switch::{decide_switch, step_switch};
use rhai_ast::{Expr, Stmt};
use rhai_base::OutOfMemory;
use std::alloc::Global;

/// Rewrites an expression by the rule that fires at it, if one does, and says whether one did. A node at which none
/// can fire is left at once.
#[inline]
fn step_expr(
    alloc: Global,
    info: &EngineInfo,
    state: &mut OptimizerState<'_>,
    expr: &mut Expr,
    place: Place,
) -> Result<bool, OutOfMemory>
    ensures { IfOk result (λ fired.
        PassStep fired (engine_of info.now) (place_of place) (progress state.old) (progress state.new)
        (expr_of expr.old) (expr_of expr.new)) }
{
    match expr {
        Expr::FnCall(_, _) => step_call(alloc, info, state, expr),
        Expr::Variable(_, _, _) => step_name(alloc, state, expr, place),
        Expr::Dot(_, _, _) => step_chain(alloc, info, state, expr, place),
        Expr::Index(_, _, _) => step_chain(alloc, info, state, expr, place),
        Expr::And(_, _) => Ok(step_operands(state, expr, place)),
        Expr::Or(_, _) => Ok(step_operands(state, expr, place)),
        Expr::Coalesce(_, _) => Ok(step_operands(state, expr, place)),
        Expr::Stmt(_) => Ok(step_braces(state, expr, place)),
        Expr::Array(_, _) => array_of_constants(alloc, state, expr),
        Expr::Map(_, _) => step_map(alloc, state, expr),
        Expr::InterpolatedString(_, _) => step_text(alloc, state, expr),
        _ => Ok(false),
    }
}

/// Rewrites an expression by the rules that fire at it, until none does. Each lowers its weight.
#[inline]
pub fn reduce_expr(
    alloc: Global,
    info: &EngineInfo,
    state: &mut OptimizerState<'_>,
    expr: &mut Expr,
    place: Place,
) -> Result<(), OutOfMemory>
    ensures { OnOk result
        (ExprReduced (engine_of info.now) (place_of place) (progress state.old) (progress state.new) (expr_of expr.old)
        (expr_of expr.new)) }
{
    loop {
        if !step_expr(alloc, info, state, expr, place)? {
            return Ok(());
        }
    }
}

/// Rewrites a statement whose parts were not gone over by the rules that need none of them but the one that decides:
/// braces are opened as the block that they become, an `if` that is decided opens one of its blocks, a `switch` no arm
/// that goes. Whether one fired.
pub fn decide_stmt(
    alloc: Global,
    state: &mut OptimizerState<'_>,
    statement: &mut Stmt,
    is_wanted: bool,
) -> Result<bool, OutOfMemory>
    ensures { IfOk result (λ fired.
        (r : Engine)
        → StmtDecided fired r is_wanted (progress state.old) (progress state.new) (stmt_of statement.old)
        (stmt_of statement.new)) }
{
    match statement {
        Stmt::Expr(_) => Ok(open_braces(state, statement)),
        Stmt::If(_, _) => decide_if(alloc, state, statement, is_wanted),
        Stmt::Switch(_, _) => decide_switch(alloc, state, statement),
        _ => Ok(false),
    }
}

/// Rewrites a statement by the rule that fires at it, if one does.
fn step_stmt(
    alloc: Global,
    info: &EngineInfo,
    state: &mut OptimizerState<'_>,
    statement: &mut Stmt,
    is_wanted: bool,
) -> Result<NodeStep, OutOfMemory>
    ensures { IfOk result (λ step.
        StmtStep step (engine_of info.now) is_wanted (progress state.old) (progress state.new) (stmt_of statement.old)
        (stmt_of statement.new)) }
{
    match statement {
        Stmt::Expr(_) => Ok(step_expression(state, statement, is_wanted)),
        Stmt::FnCall(_, _) => step_call_statement(alloc, info, state, statement),
        Stmt::If(_, _) => step_if(alloc, state, statement, is_wanted),
        Stmt::Block(_) => Ok(step_block(state, statement)),
        Stmt::While(_, _) => Ok(step_while(state, statement)),
        Stmt::TryCatch(_, _) => Ok(step_try(state, statement)),
        Stmt::Assignment(_) => Ok(step_assignment(info, state, statement)),
        Stmt::Share(_) => Ok(step_share(state, statement)),
        Stmt::Switch(_, _) => step_switch(alloc, state, statement),
        _ => Ok(NodeStep::Kept),
    }
}

/// Rewrites a statement by the rules that fire at it, until none does, or one makes parts that are to be gone over
/// again: it says whether one did. Each lowers its weight.
pub fn reduce_stmt(
    alloc: Global,
    info: &EngineInfo,
    state: &mut OptimizerState<'_>,
    statement: &mut Stmt,
    is_wanted: bool,
) -> Result<bool, OutOfMemory>
    ensures { IfOk result (λ reopened.
        StmtReduced (engine_of info.now) is_wanted reopened (progress state.old) (progress state.new)
        (stmt_of statement.old) (stmt_of statement.new)) }
{
    loop {
        match step_stmt(alloc, info, state, statement, is_wanted)? {
            NodeStep::Kept => return Ok(false),
            NodeStep::Rewritten => {}
            NodeStep::Reopened => return Ok(true),
        }
    }
}
