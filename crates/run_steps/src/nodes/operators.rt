//! Calls of operators, and operators over values.

#![tactic(auto, using(ast_types::specs::Reading::shapes, rhai_base::specs::Reading::kinds))]

ghost use Rattle.std.specs.Prelude.{◌≡◌, ◌≢◌, ◌+◌, ◌≤◌, true, length, map, [], ◌∷◌, IfOk, IfSome, MatchOption, Some, codes};
ghost use Rattle.rhai_base.specs.Reading.{value_of};
ghost use Rattle.ast_types.specs.Reading.{callee_of, expr_of, exprs_of};
ghost use Rattle.rhai_base.specs.Builtin.{answered, computed_of, operator_of};
ghost use Rattle.theory_meaning.specs.Engine.{assigning};
ghost use Rattle.rhai_base.specs.Value.{TextV};
ghost use Rattle.base_engine.specs.EngineInfo.{built_in_at, engine_of};
ghost use Rattle.theory_meaning.specs.Weight.{expr_weight, exprs_weight};
ghost use Rattle.theory_meaning.specs.Shape as shape;
ghost use Rattle.theory_meaning.specs.Engine as engine;
ghost use Rattle.run_steps.specs.Operators as spec;

use ast_nodes::is_call_of;
use base_engine::EngineInfo;
use rhai_ast::{Expr, FnCallExpr, is_barred_call, is_formed};
use rhai_base::{
    Dynamic, Fault, ImmutableString, OpAssignment, OutOfMemory, Token, builtin_binary_op,
};
use std::alloc::{AllocError, Global};

/// Whether a call's name and token may stand in a tree, and the language runs what it names.
pub fn is_callable(call: &FnCallExpr) -> bool
    ensures { result ≡ shape.is_callable (callee_of call.now) (length call.now.args) }
{
    is_formed(call) && !is_barred_call(call)
}

/// The operator of a call that is one over its operands.
pub fn operator_called(call: &FnCallExpr) -> Option<Token>
    ensures { spec.StandsFor result (spec.called_operator (callee_of call.now) (length call.now.args)) }
{
    let op = call.op_token?;
    if is_call_of(call, op) { Some(op) } else { None }
}

/// The operands of a call that has two.
pub fn two_operands(operands: &[Expr]) -> Option<(&Expr, &Expr)>
    ensures operands { MatchOption result (length operands.now ≢ 2) (λ p. operands.now ≡ p.0.now ∷ p.1.now ∷ []) }
    ensures weight { IfSome result (λ p.
        expr_weight (expr_of p.0.now) + expr_weight (expr_of p.1.now) ≤ exprs_weight (exprs_of operands.now)) }
{
    match operands {
        [x, y] => Some((x, y)),
        _ => None,
    }
}

/// What the built-in operator answers; `None` where the host is asked in its place.
pub fn builtin(
    alloc: Global,
    info: &EngineInfo,
    op: Token,
    args: &[Dynamic],
) -> Result<Option<Result<Dynamic, Fault>>, OutOfMemory>
    ensures { IfOk result (λ r. computed_of r ≡ built_in_at (engine_of info.now) op (map value_of args.now)) }
{
    match args {
        [x] => Ok(unfailing(info.builtin_unary(op, x))),
        [x, y] => info.builtin_binary(alloc, op, x, y),
        _ => Ok(None),
    }
}

/// The answer of an operator that has no fault.
fn unfailing(answer: Option<Dynamic>) -> Option<Result<Dynamic, Fault>>
    ensures { computed_of result ≡ answered answer }
{
    match answer {
        Some(value) => Some(Ok(value)),
        None => None,
    }
}

/// What a fault throws.
pub fn fault_text(alloc: Global, fault: Fault) -> Result<Dynamic, AllocError>
    ensures { IfOk result (λ v. value_of v ≡ TextV (codes "arithmetic")) }
{
    match fault {
        Fault::Arithmetic => Ok(Dynamic::Str(ImmutableString::new(alloc, "arithmetic")?)),
    }
}

/// The operator that an assignment applies.
pub fn assigning_operator(op: &OpAssignment) -> Option<Token>
    ensures { spec.StandsFor result (operator_of op.now.op) }
{
    let (_, _, token, _) = op.get_op_assignment_info()?;
    Some(*token)
}

/// How an operator's assignment is written.
pub fn assigning_name(alloc: Global, op: Token) -> Result<ImmutableString, AllocError>
    ensures { IfOk result (λ t. (o : _) → operator_of op ≡ Some o → t ≡ assigning o) }
{
    let mut text = String::new(alloc);
    text.push_str(op.literal_syntax())?;
    text.push_str("=")?;
    ImmutableString::from_string(text)
}

/// Whether an operator's assignment is a host call of its name at these values.
pub fn asks_assigning(
    alloc: Global,
    info: &EngineInfo,
    op: Token,
    old: &Dynamic,
    new: &Dynamic,
) -> Result<bool, OutOfMemory>
    ensures { IfOk result (λ b.
        (o : _) → operator_of op ≡ Some o
        → b ≡ engine.asks_assigning (engine_of info.now) o (value_of old.now ∷ value_of new.now ∷ [])) }
{
    if !info.has_overrides() {
        return Ok(false);
    }
    let name = assigning_name(alloc, op)?;
    if !info.is_overridden(name.as_str(), &[old.type_name(), new.type_name()]) {
        return Ok(false);
    }
    if !info.fast_operators() {
        return Ok(true);
    }
    Ok(builtin_binary_op(alloc, &op, old, new)?.is_none())
}
