//! Constants for values.

#![tactic(auto, using(ast_types::specs::Reading::shapes, rhai_base::specs::Reading::kinds, ast_types::specs::Positions::places, crate::proofs::Pointers::pointers))]

ghost use Rattle.std.specs.Prelude.{◌≡◌, [], IfOk, Some, false, map};
ghost use Rattle.rhai_base.specs.Reading.{value_of};
ghost use Rattle.rhai_base.specs.Value.{PointerV, values};
ghost use Rattle.ast_types.specs.Positions.{AreAt, arguments_of, position_of};
ghost use Rattle.ast_types.specs.Reading.{expr_of};
ghost use Rattle.theory_meaning.specs.Constants as constants;
ghost use Rattle.ast_nodes.specs.Scalars.{is_scalar};
ghost use Rattle.theory_meaning.specs.Tree.{DynamicConstant};

use ast_types::{Expr, FnCallExpr};
use rhai_base::{Boxed, Dynamic, FnPtr, ImmutableString, Namespace, OutOfMemory, Position, Seq};
use std::alloc::Global;

/// The constant for a value.
pub fn constant_for(alloc: Global, value: Dynamic, pos: Position) -> Result<Expr, OutOfMemory>
    ensures value { IfOk result (λ e. expr_of e ≡ constants.constant_for (value_of value)) }
    ensures round_trip { IfOk result (λ e. constants.literal_value (expr_of e) ≡ Some (value_of value)) }
    ensures position { IfOk result (λ e. position_of e ≡ pos) }
    ensures arguments { IfOk result (λ e. AreAt pos (arguments_of e)) }
{
    match &value {
        Dynamic::Unit => Ok(Expr::Unit(pos)),
        Dynamic::Bool(b) => Ok(Expr::BoolConstant(*b, pos)),
        Dynamic::Int(n) => Ok(Expr::IntegerConstant(*n, pos)),
        Dynamic::Float(x) => Ok(Expr::FloatConstant(*x, pos)),
        Dynamic::Char(c) => Ok(Expr::CharConstant(*c, pos)),
        Dynamic::Str(_)
        | Dynamic::Array(_)
        | Dynamic::Map(_)
        | Dynamic::FnPtr(_)
        | Dynamic::Range(_, _)
        | Dynamic::RangeInclusive(_, _) => for_whole(alloc, value, pos),
    }
}

/// The constant for a value that takes more room than a scalar.
fn for_whole(alloc: Global, value: Dynamic, pos: Position) -> Result<Expr, OutOfMemory>
    requires { is_scalar (value_of value) ≡ false }
    ensures value { IfOk result (λ e. expr_of e ≡ constants.constant_for (value_of value)) }
    ensures round_trip { IfOk result (λ e. constants.literal_value (expr_of e) ≡ Some (value_of value)) }
    ensures position { IfOk result (λ e. position_of e ≡ pos) }
    ensures arguments { IfOk result (λ e. AreAt pos (arguments_of e)) }
{
    match value.into_immutable_string() {
        Ok(text) => Ok(Expr::StringConstant(text, pos)),
        Err(value) => match value.into_fn_ptr() {
            Ok(pointer) => for_pointer(alloc, pointer, pos),
            Err(value) => dynamic_constant(alloc, value, pos),
        },
    }
}

fn for_pointer(alloc: Global, pointer: FnPtr, pos: Position) -> Result<Expr, OutOfMemory>
    ensures value { IfOk result (λ e. expr_of e
        ≡ constants.constant_for (PointerV pointer.name (values (map value_of pointer.curried)))) }
    ensures round_trip { IfOk result
        (λ e. constants.literal_value (expr_of e)
        ≡ Some (PointerV pointer.name (values (map value_of pointer.curried)))) }
    ensures position { IfOk result (λ e. position_of e ≡ pos) }
    ensures arguments { IfOk result (λ e. AreAt pos (arguments_of e)) }
{
    if pointer.is_curried() {
        return dynamic_constant(alloc, Dynamic::FnPtr(pointer), pos);
    }
    pointer_call(alloc, pointer.into_name(), pos)
}

/// The constant that holds a value as it is.
pub fn dynamic_constant(alloc: Global, value: Dynamic, pos: Position) -> Result<Expr, OutOfMemory>
    ensures value { IfOk result (λ e. expr_of e ≡ DynamicConstant (value_of value)) }
    ensures position { IfOk result (λ e. position_of e ≡ pos) }
    ensures arguments { IfOk result (λ e. arguments_of e ≡ []) }
{
    let value = Boxed::new(alloc, value)?;
    Ok(Expr::DynamicConstant(value, pos))
}

/// `Fn("name")`
fn pointer_call(alloc: Global, name: ImmutableString, pos: Position) -> Result<Expr, OutOfMemory>
    ensures value { IfOk result (λ e. expr_of e ≡ constants.pointer_call name) }
    ensures position { IfOk result (λ e. position_of e ≡ pos) }
    ensures arguments { IfOk result (λ e. AreAt pos (arguments_of e)) }
{
    let mut args = Seq::new(alloc);
    args.push(Expr::StringConstant(name, pos))?;
    let call = FnCallExpr {
        namespace: Namespace::none(alloc),
        name: ImmutableString::new(alloc, "Fn")?,
        args,
        capture_parent_scope: false,
        op_token: None,
    };
    Ok(Expr::FnCall(Boxed::new(alloc, call)?, pos))
}
