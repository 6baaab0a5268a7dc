//! What calls over constants answer, a rule each. Which call it is, and whether its arguments are constants, is asked
//! by reference.

#![tactic(auto, using(ast_types::specs::Reading::shapes, rhai_base::specs::Reading::kinds))]

ghost use Rattle.std.specs.Prelude.{◌≡◌, IfOk, Some};
ghost use Rattle.std.specs.Cow.{cow_value};
ghost use Rattle.std.specs.Option.{option_map};
ghost use Rattle.rhai_base.specs.Reading.{value_of};
ghost use Rattle.ast_nodes.specs.Lent.{lent_value};
ghost use Rattle.ast_types.specs.Reading.{callee_of, expr_of, exprs_of};
ghost use Rattle.theory_meaning.specs.Constants as constants;
ghost use Rattle.base_engine.specs.EngineInfo.{engine_of};
ghost use Rattle.theory_rewriting.specs.Folding as folding;
ghost use Rattle.opt_exprs.specs.Words as words;

use crate::calls::answers::{is_shared_value, pointer_to_value, type_of_value};
use ast_nodes::{are_constant, owned};
use base_engine::EngineInfo;
use opt_base::folded;
use rhai_ast::{Expr, FnCallExpr, Literals};
use rhai_base::{Dynamic, FnPtr, OutOfMemory};
use std::alloc::Global;
use std::borrow::Cow;

/// A function of the language's own.
#[derive(Clone, Copy)]
enum Word {
    TypeOf,
    IsShared,
    Fn,
    Curry,
}

/// What a call answers over constants, if it is an operator's or one of the language's own functions' by its name
/// alone. Any other is left at once.
#[inline]
pub(crate) fn call_value(
    alloc: Global,
    info: &EngineInfo,
    call: &FnCallExpr,
) -> Result<Option<Dynamic>, OutOfMemory>
    ensures { IfOk result (λ v.
        option_map value_of v ≡ words.call_value (engine_of info.now) (callee_of call.now) (exprs_of call.now.args)) }
{
    match call.op_token {
        Some(_) => operator_folds(alloc, info, call),
        None => unqualified_value(alloc, info, call),
    }
}

/// An operator over constants that is built in is its value.
#[inline]
fn operator_folds(
    alloc: Global,
    info: &EngineInfo,
    call: &FnCallExpr,
) -> Result<Option<Dynamic>, OutOfMemory>
    ensures { IfOk result (λ v.
        option_map value_of v ≡ folding.folded (engine_of info.now) (callee_of call.now) (exprs_of call.now.args)) }
{
    folded(alloc, info, call)
}

/// Which of the language's own functions has the name.
#[inline]
fn word_named(name: &str) -> Option<Word>
    ensures { result ≡ words.word_named name.now }
{
    match name {
        "type_of" => Some(Word::TypeOf),
        "is_shared" => Some(Word::IsShared),
        "Fn" => Some(Word::Fn),
        "curry" => Some(Word::Curry),
        _ => None,
    }
}

/// Which of them a call by a name is of, if it is of one: by its name alone.
#[inline]
fn word_called(call: &FnCallExpr) -> Option<Word>
    ensures { result ≡ words.word_called (callee_of call.now) }
{
    if !call.namespace.is_empty() {
        return None;
    }
    word_named(call.name.as_str())
}

#[inline]
fn unqualified_value(
    alloc: Global,
    info: &EngineInfo,
    call: &FnCallExpr,
) -> Result<Option<Dynamic>, OutOfMemory>
    ensures { IfOk result (λ v.
        option_map value_of v
        ≡ words.unqualified_value (engine_of info.now) (callee_of call.now)
        (constants.constant_values (exprs_of call.now.args))) }
{
    match word_called(call) {
        Some(word) => word_folds(alloc, info, word, call.args.as_slice()),
        None => Ok(None),
    }
}

#[inline]
fn word_folds(
    alloc: Global,
    info: &EngineInfo,
    word: Word,
    args: &[Expr],
) -> Result<Option<Dynamic>, OutOfMemory>
    ensures { IfOk result (λ v.
        option_map value_of v
        ≡ words.value_of_word (engine_of info.now) word (constants.constant_values (exprs_of args.now))) }
{
    match word {
        Word::TypeOf => type_of_folds(alloc, info, args),
        Word::IsShared => is_shared_folds(alloc, args),
        Word::Fn => fn_folds(alloc, args),
        Word::Curry => curry_folds(alloc, args),
    }
}

/// The value of the one argument, if it is a constant.
fn only_constant(alloc: Global, args: &[Expr]) -> Result<Option<Cow<'_, Dynamic>>, OutOfMemory>
    ensures { IfOk result (λ v. lent_value v ≡ words.only (constants.constant_values (exprs_of args.now))) }
{
    match args {
        [arg] => arg.constant_value(alloc),
        _ => Ok(None),
    }
}

/// `type_of` of a constant is the name that scripts see for its type.
#[inline(never)]
fn type_of_folds(
    alloc: Global,
    info: &EngineInfo,
    args: &[Expr],
) -> Result<Option<Dynamic>, OutOfMemory>
    ensures { IfOk result (λ v.
        option_map value_of v
        ≡ option_map (words.type_of (engine_of info.now))
        (words.only (constants.constant_values (exprs_of args.now)))) }
{
    match only_constant(alloc, args)? {
        Some(value) => Ok(Some(type_of_value(alloc, info, &value)?)),
        None => Ok(None),
    }
}

/// `is_shared` of a constant is false.
#[inline(never)]
fn is_shared_folds(alloc: Global, args: &[Expr]) -> Result<Option<Dynamic>, OutOfMemory>
    ensures { IfOk result (λ v.
        option_map value_of v
        ≡ option_map words.is_shared (words.only (constants.constant_values (exprs_of args.now)))) }
{
    match only_constant(alloc, args)? {
        Some(_) => Ok(Some(is_shared_value())),
        None => Ok(None),
    }
}

/// `Fn` of a text that a function may have as its name is the pointer.
#[inline(never)]
fn fn_folds(alloc: Global, args: &[Expr]) -> Result<Option<Dynamic>, OutOfMemory>
    ensures { IfOk result (λ v.
        option_map value_of v ≡ words.pointer_named (words.only (constants.constant_values (exprs_of args.now)))) }
{
    match only_constant(alloc, args)? {
        Some(value) => pointer_to_value(alloc, &value),
        None => Ok(None),
    }
}

/// `curry` of a constant pointer with constants is the pointer with these values behind its own.
#[inline(never)]
fn curry_folds(alloc: Global, args: &[Expr]) -> Result<Option<Dynamic>, OutOfMemory>
    ensures { IfOk result (λ v. option_map value_of v ≡ words.curried (constants.constant_values (exprs_of args.now))) }
{
    match args.split_first() {
        Some((pointer, args)) => curried(alloc, pointer, args),
        None => Ok(None),
    }
}

fn curried(alloc: Global, pointer: &Expr, args: &[Expr]) -> Result<Option<Dynamic>, OutOfMemory>
    ensures { IfOk result (λ v.
        option_map value_of v
        ≡ words.curried
        (constants.value_and (constants.constant_value (expr_of pointer.now))
        (constants.constant_values (exprs_of args.now)))) }
{
    match constant_pointer(pointer) {
        Some(pointer) => curried_with(alloc, pointer, args),
        None => Ok(None),
    }
}

/// The pointer that a constant holds.
fn constant_pointer(expr: &Expr) -> Option<&FnPtr>
    ensures { option_map (λ p. words.pointer_value p.now) result
        ≡ words.pointer_alone (constants.constant_value (expr_of expr.now)) }
{
    match expr {
        Expr::DynamicConstant(value, _) => as_pointer(value.get()),
        _ => None,
    }
}

fn as_pointer(value: &Dynamic) -> Option<&FnPtr>
    ensures { option_map (λ p. words.pointer_value p.now) result ≡ words.pointer_alone (Some (value_of value.now)) }
{
    match value {
        Dynamic::FnPtr(pointer) => Some(pointer),
        Dynamic::Unit
        | Dynamic::Bool(_)
        | Dynamic::Int(_)
        | Dynamic::Float(_)
        | Dynamic::Char(_)
        | Dynamic::Str(_)
        | Dynamic::Array(_)
        | Dynamic::Map(_)
        | Dynamic::Range(_, _)
        | Dynamic::RangeInclusive(_, _) => None,
    }
}

/// A pointer with the values of constants behind its own. It is copied only where all of them are constants.
fn curried_with(
    alloc: Global,
    pointer: &FnPtr,
    args: &[Expr],
) -> Result<Option<Dynamic>, OutOfMemory>
    ensures { IfOk result (λ v.
        option_map value_of v
        ≡ words.with_values pointer.now.name (words.values_of pointer.now)
        (constants.constant_values (exprs_of args.now))) }
{
    if !are_constant(args) {
        return Ok(None);
    }
    let mut made = pointer.clone()?;
    for arg in args {
        match arg.constant_value(alloc)? {
            Some(value) => made.add_curry(owned(value)?)?,
            None => return Ok(None),
        }
    }
    Ok(Some(Dynamic::FnPtr(made)))
}
