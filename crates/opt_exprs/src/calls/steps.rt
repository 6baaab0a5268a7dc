//! The rules at a call, as an expression and as a statement: what it answers over constants takes its place. That is
//! neither a name nor unit, so it may stand wherever the call does.

#![tactic(auto, using(ast_types::specs::Reading::shapes))]

ghost use Rattle.std.specs.Prelude.{◌≡◌, IfOk, Bool, true};
ghost use Rattle.std.specs.Option.{option_map};
ghost use Rattle.rhai_base.specs.Reading.{value_of};
ghost use Rattle.opt_base.specs.State.{progress};
ghost use Rattle.ast_types.specs.Reading.{expr_of, stmt_of};
ghost use Rattle.base_engine.specs.EngineInfo.{engine_of};
ghost use Rattle.theory_rewriting.specs.Steps.{Place};
ghost use Rattle.opt_base.specs.NodeSteps.{ExprStep, StmtStep};
ghost use Rattle.opt_exprs.specs.Words as words;

use crate::calls::calls::call_value;
use crate::calls::putting::{call_statement_folds, hold_value};
use base_engine::EngineInfo;
use opt_base::{NodeStep, OptimizerState};
use rhai_ast::{Expr, Stmt};
use rhai_base::{Dynamic, OutOfMemory};
use std::alloc::Global;

#[inline]
fn expr_value(alloc: Global, info: &EngineInfo, expr: &Expr) -> Result<Option<Dynamic>, OutOfMemory>
    ensures { IfOk result (λ v. option_map value_of v ≡ words.expr_value (engine_of info.now) (expr_of expr.now)) }
{
    match expr {
        Expr::FnCall(call, _) => call_value(alloc, info, call.get()),
        _ => Ok(None),
    }
}

/// Puts the constant that a call answers over constants in its place, if it answers one, and says whether it did.
#[inline]
pub fn step_call(
    alloc: Global,
    info: &EngineInfo,
    state: &mut OptimizerState<'_>,
    expr: &mut Expr,
) -> Result<bool, OutOfMemory>
    requires { words.is_call (expr_of expr.now) ≡ true }
    ensures { IfOk result (λ fired.
        (p : Place)
        → ExprStep fired (engine_of info.now) p (progress state.old) (progress state.new) (expr_of expr.old)
        (expr_of expr.new)) }
{
    if let Some(value) = expr_value(alloc, info, expr)? {
        hold_value(alloc, state, expr, value)?;
        return Ok(true);
    }
    Ok(false)
}

#[inline]
fn statement_value(
    alloc: Global,
    info: &EngineInfo,
    statement: &Stmt,
) -> Result<Option<Dynamic>, OutOfMemory>
    ensures { IfOk result (λ v.
        option_map value_of v ≡ words.statement_value (engine_of info.now) (stmt_of statement.now)) }
{
    match statement {
        Stmt::FnCall(call, _) => call_value(alloc, info, call.get()),
        _ => Ok(None),
    }
}

/// Puts the statement of the constant that a call answers over constants in its place, if it answers one.
#[inline]
pub fn step_call_statement(
    alloc: Global,
    info: &EngineInfo,
    state: &mut OptimizerState<'_>,
    statement: &mut Stmt,
) -> Result<NodeStep, OutOfMemory>
    requires { words.is_call_statement (stmt_of statement.now) ≡ true }
    ensures { IfOk result (λ step.
        (w : Bool)
        → StmtStep step (engine_of info.now) w (progress state.old) (progress state.new) (stmt_of statement.old)
        (stmt_of statement.new)) }
{
    if let Some(value) = statement_value(alloc, info, statement)? {
        call_statement_folds(alloc, state, statement, value)?;
        return Ok(NodeStep::Rewritten);
    }
    Ok(NodeStep::Kept)
}
