//! What operator calls over constants answer without asking the host.

#![tactic(auto, using(ast_types::specs::Reading::shapes, rhai_base::specs::Reading::kinds))]

ghost use Rattle.std.specs.Prelude.{◌≡◌, IfOk, Some, [], ◌∷◌};
ghost use Rattle.std.specs.Option.{option_map};
ghost use Rattle.rhai_base.specs.Reading.{value_of};
ghost use Rattle.rhai_base.specs.Value.{IntV};
ghost use Rattle.ast_types.specs.Reading.{callee_of, expr_of, exprs_of, mark_of};
ghost use Rattle.rhai_base.specs.Builtin.{computed_of};
ghost use Rattle.theory_meaning.specs.Constants as constants;
ghost use Rattle.theory_meaning.specs.Tree.{expr, no_exprs};
ghost use Rattle.base_engine.specs.EngineInfo.{engine_of};
ghost use Rattle.theory_rewriting.specs.Folding as spec;

use crate::constants::may_be_constant;
use base_engine::EngineInfo;
use rhai_ast::{Expr, FnCallExpr, Literals};
use rhai_base::{Dynamic, Fault, INT, OutOfMemory, Token};
use std::alloc::Global;

/// The value of an operator's answer. A fault is left to the run.
#[inline(always)]
fn value_alone(answer: Option<Result<Dynamic, Fault>>) -> Option<Dynamic>
    ensures { option_map value_of result ≡ constants.computed_value (computed_of answer) }
{
    match answer {
        Some(Ok(value)) => Some(value),
        Some(Err(Fault::Arithmetic)) => None,
        None => None,
    }
}

/// The value of an operator call over constants, where it is built in and answers one. A call of a function is left at
/// once, before room is set aside for a value.
#[inline]
pub fn folded(
    alloc: Global,
    info: &EngineInfo,
    call: &FnCallExpr,
) -> Result<Option<Dynamic>, OutOfMemory>
    ensures { IfOk result (λ v.
        option_map value_of v ≡ spec.folded (engine_of info.now) (callee_of call.now) (exprs_of call.now.args)) }
{
    match call.op_token {
        Some(op) => folded_operator(alloc, info, op, call.args.as_slice()),
        None => Ok(None),
    }
}

/// The value of an operator over its operands, where they are constants.
#[inline(never)]
fn folded_operator(
    alloc: Global,
    info: &EngineInfo,
    op: Token,
    operands: &[Expr],
) -> Result<Option<Dynamic>, OutOfMemory>
    ensures { IfOk result (λ v.
        option_map value_of v
        ≡ spec.folded_values (engine_of info.now) (mark_of (Some op))
        (constants.constant_values (exprs_of operands.now))) }
{
    match operands {
        [x] => folded_one(alloc, info, op, x),
        [x, y] => folded_two(alloc, info, op, x, y),
        _ => Ok(None),
    }
}

fn folded_one(
    alloc: Global,
    info: &EngineInfo,
    op: Token,
    x: &Expr,
) -> Result<Option<Dynamic>, OutOfMemory>
    ensures { IfOk result (λ v.
        option_map value_of v
        ≡ spec.folded_values (engine_of info.now) (mark_of (Some op))
        (constants.constant_values (expr (expr_of x.now) no_exprs))) }
{
    if !may_be_constant(x) {
        return Ok(None);
    }
    folded_constant(alloc, info, op, x)
}

#[inline(never)]
fn folded_constant(
    alloc: Global,
    info: &EngineInfo,
    op: Token,
    x: &Expr,
) -> Result<Option<Dynamic>, OutOfMemory>
    ensures { IfOk result (λ v.
        option_map value_of v
        ≡ spec.folded_values (engine_of info.now) (mark_of (Some op))
        (constants.constant_values (expr (expr_of x.now) no_exprs))) }
{
    match x.constant_value(alloc)? {
        Some(x) => Ok(info.builtin_unary(op, &x)),
        None => Ok(None),
    }
}

/// The value of an operator at two values.
#[inline(always)]
fn folded_values(
    alloc: Global,
    info: &EngineInfo,
    op: Token,
    x: &Dynamic,
    y: &Dynamic,
) -> Result<Option<Dynamic>, OutOfMemory>
    ensures { IfOk result (λ v.
        option_map value_of v
        ≡ spec.folded_values (engine_of info.now) (mark_of (Some op))
        (Some (value_of x.now ∷ value_of y.now ∷ []))) }
{
    let answer = info.builtin_binary(alloc, op, x, y)?;
    Ok(value_alone(answer))
}

fn integer(n: INT) -> Dynamic
    ensures { value_of result ≡ IntV n }
{
    Dynamic::Int(n)
}

/// Most operands are integers, which are taken as they stand.
#[inline(never)]
fn folded_integers(
    alloc: Global,
    info: &EngineInfo,
    op: Token,
    x: INT,
    y: INT,
) -> Result<Option<Dynamic>, OutOfMemory>
    ensures { IfOk result (λ v.
        option_map value_of v
        ≡ spec.folded_values (engine_of info.now) (mark_of (Some op)) (Some (IntV x ∷ IntV y ∷ []))) }
{
    folded_values(alloc, info, op, &integer(x), &integer(y))
}

fn folded_two(
    alloc: Global,
    info: &EngineInfo,
    op: Token,
    x: &Expr,
    y: &Expr,
) -> Result<Option<Dynamic>, OutOfMemory>
    ensures { IfOk result (λ v.
        option_map value_of v
        ≡ spec.folded_values (engine_of info.now) (mark_of (Some op))
        (constants.constant_values (expr (expr_of x.now) (expr (expr_of y.now) no_exprs)))) }
{
    match (x, y) {
        (Expr::IntegerConstant(x, _), Expr::IntegerConstant(y, _)) => {
            folded_integers(alloc, info, op, *x, *y)
        }
        _ => folded_others(alloc, info, op, x, y),
    }
}

/// What is no constant is left before room is set aside for values.
fn folded_others(
    alloc: Global,
    info: &EngineInfo,
    op: Token,
    x: &Expr,
    y: &Expr,
) -> Result<Option<Dynamic>, OutOfMemory>
    ensures { IfOk result (λ v.
        option_map value_of v
        ≡ spec.folded_values (engine_of info.now) (mark_of (Some op))
        (constants.constant_values (expr (expr_of x.now) (expr (expr_of y.now) no_exprs)))) }
{
    if !may_be_constant(x) {
        return Ok(None);
    }
    if !may_be_constant(y) {
        return Ok(None);
    }
    folded_constants(alloc, info, op, x, y)
}

#[inline(never)]
fn folded_constants(
    alloc: Global,
    info: &EngineInfo,
    op: Token,
    x: &Expr,
    y: &Expr,
) -> Result<Option<Dynamic>, OutOfMemory>
    ensures { IfOk result (λ v.
        option_map value_of v
        ≡ spec.folded_values (engine_of info.now) (mark_of (Some op))
        (constants.constant_values (expr (expr_of x.now) (expr (expr_of y.now) no_exprs)))) }
{
    match x.constant_value(alloc)? {
        Some(x) => folded_with_constant(alloc, info, op, &x, y),
        None => Ok(None),
    }
}

fn folded_with_constant(
    alloc: Global,
    info: &EngineInfo,
    op: Token,
    x: &Dynamic,
    y: &Expr,
) -> Result<Option<Dynamic>, OutOfMemory>
    ensures { IfOk result (λ v.
        option_map value_of v
        ≡ spec.folded_values (engine_of info.now) (mark_of (Some op))
        (constants.value_and (Some (value_of x.now))
        (constants.constant_values (expr (expr_of y.now) no_exprs)))) }
{
    match y.constant_value(alloc)? {
        Some(y) => folded_values(alloc, info, op, x, &y),
        None => Ok(None),
    }
}
