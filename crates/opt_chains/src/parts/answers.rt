//! What a step answers at a constant, by value. What answers nothing takes no memory; of an array, a text or a map one
//! part is copied alone.

#![tactic(auto, using(ast_types::specs::Reading::shapes, rhai_base::specs::Reading::kinds, crate::proofs::OtherParts::kinds_of_values))]

ghost use Rattle.std.specs.Prelude.{◌≡◌, IfOk, Some, false};
ghost use Rattle.std.specs.Option.{option_map};
ghost use Rattle.rhai_base.specs.Reading.{value_of};
ghost use Rattle.rhai_base.specs.Value.{BoolV, IntV, TextV};
ghost use Rattle.ast_types.specs.Reading.{callee_of, expr_of, exprs_of, is_negated, mark_of};
ghost use Rattle.theory_meaning.specs.Constants as constants;
ghost use Rattle.theory_meaning.specs.Elements as elements;
ghost use Rattle.theory_meaning.specs.Engine.{mapped_type_name};
ghost use Rattle.ast_nodes.specs.Lent.{lent_value};
ghost use Rattle.base_engine.specs.EngineInfo.{engine_of};
ghost use Rattle.theory_rewriting.specs.Answering as answering;
ghost use Rattle.theory_rewriting.specs.Indexing as indexing;
ghost use Rattle.opt_chains.specs.Answers as answers;
ghost use Rattle.rhai_ast.specs.Nodes.{is_dot};

use base_engine::EngineInfo;
use bitflags::Flags;
use rhai_ast::{ChainType, Expr, FnCallExpr, Literals};
use rhai_base::{ASTFlags, Dynamic, INT, ImmutableString, OutOfMemory};
use run_places::{bit, character, element, entry};
use std::alloc::Global;
use std::borrow::Cow;

/// The value of a constant that is no literal of an array or a map.
fn whole_value(alloc: Global, expr: &Expr) -> Result<Option<Cow<'_, Dynamic>>, OutOfMemory>
    ensures { IfOk result (λ v. lent_value v ≡ answers.whole_value (expr_of expr.now)) }
{
    match expr {
        Expr::Array(_, _) | Expr::Map(_, _) => Ok(None),
        _ => expr.constant_value(alloc),
    }
}

/// A property of a constant map is the entry of its name, and unit where that is missing.
pub(crate) fn property_of_constant(
    value: &Dynamic,
    name: &ImmutableString,
) -> Result<Option<Dynamic>, OutOfMemory>
    ensures { IfOk result (λ v. option_map value_of v ≡ answering.property_of (Some (value_of value.now)) name.now) }
{
    match value {
        Dynamic::Map(members) => Ok(Some(entry(members, name).to_value()?)),
        _ => Ok(None),
    }
}

fn bit_at(number: INT, place: INT) -> Option<Dynamic>
    ensures { option_map value_of result ≡ elements.bit number place }
{
    bit(number, place).map(Dynamic::Bool)
}

/// An element, a character or a bit at a place, from the end where it is negative.
fn at_place(value: &Dynamic, place: INT) -> Result<Option<Dynamic>, OutOfMemory>
    ensures { IfOk result (λ v. option_map value_of v ≡ indexing.indexed (value_of value.now) (IntV place)) }
{
    match value {
        Dynamic::Array(items) => Ok(element(items.as_slice(), place).cloned()?),
        Dynamic::Str(text) => Ok(character(text.as_str(), place).map(Dynamic::Char)),
        Dynamic::Int(number) => Ok(bit_at(*number, place)),
        _ => Ok(None),
    }
}

/// An index of a constant, in range, is the part there.
fn index_of_constant(value: &Dynamic, index: &Dynamic) -> Result<Option<Dynamic>, OutOfMemory>
    ensures { IfOk result (λ v. option_map value_of v ≡ indexing.indexed (value_of value.now) (value_of index.now)) }
{
    match index {
        Dynamic::Int(place) => at_place(value, *place),
        Dynamic::Str(key) => property_of_constant(value, key),
        _ => Ok(None),
    }
}

/// The method `type_of` of a constant is the name of its type, as the record has it.
fn type_of_method(alloc: Global, info: &EngineInfo, value: &Dynamic) -> Result<Dynamic, OutOfMemory>
    ensures { IfOk result (λ v. value_of v ≡ TextV (mapped_type_name (engine_of info.now) (value_of value.now))) }
{
    let name = info.map_type_name(value.type_name());
    Ok(Dynamic::Str(ImmutableString::new(alloc, name)?))
}

/// The method `is_shared` of a constant is false.
fn is_shared_method() -> Dynamic
    ensures { value_of result ≡ BoolV false }
{
    Dynamic::Bool(false)
}

/// What a method of the language's own answers at a value.
fn word_answer(
    alloc: Global,
    info: &EngineInfo,
    value: &Dynamic,
    name: &str,
) -> Result<Option<Dynamic>, OutOfMemory>
    ensures { IfOk result (λ v.
        option_map value_of v ≡ answers.word_answer (engine_of info.now) (value_of value.now) name.now) }
{
    if name == "type_of" {
        Ok(Some(type_of_method(alloc, info, value)?))
    } else if name == "is_shared" {
        Ok(Some(is_shared_method()))
    } else {
        Ok(None)
    }
}

fn has_no_token(call: &FnCallExpr) -> bool
    ensures { result ≡ answers.has_no_token (mark_of call.now.op_token) }
{
    call.op_token.is_none()
}

fn has_no_arguments(call: &FnCallExpr) -> bool
    ensures { result ≡ answers.is_empty (exprs_of call.now.args) }
{
    call.args.is_empty()
}

/// Whether a call is one by a name alone, without arguments.
fn is_bare(call: &FnCallExpr) -> bool
    ensures { result ≡ answers.is_bare (callee_of call.now) (exprs_of call.now.args) }
{
    call.namespace.is_empty()
        && !call.capture_parent_scope
        && has_no_token(call)
        && has_no_arguments(call)
}

/// What a method answers at a constant. Past a `?` a unit is left.
fn method_answer(
    alloc: Global,
    info: &EngineInfo,
    flags: ASTFlags,
    value: &Dynamic,
    call: &FnCallExpr,
) -> Result<Option<Dynamic>, OutOfMemory>
    ensures { IfOk result (λ v.
        option_map value_of v
        ≡ answers.method_answer (engine_of info.now) (is_negated flags) (value_of value.now) (callee_of call.now)
        (exprs_of call.now.args)) }
{
    if is_bare(call) && !(flags.contains(ASTFlags::NEGATED) && value.is_unit()) {
        word_answer(alloc, info, value, call.name.as_str())
    } else {
        Ok(None)
    }
}

fn member_answer(
    alloc: Global,
    info: &EngineInfo,
    flags: ASTFlags,
    value: &Dynamic,
    member: &Expr,
) -> Result<Option<Dynamic>, OutOfMemory>
    ensures { IfOk result (λ v.
        option_map value_of v
        ≡ answers.member_answer (engine_of info.now) (is_negated flags) (value_of value.now)
        (expr_of member.now)) }
{
    match member {
        Expr::Property(names, _) => property_of_constant(value, &names.get().2),
        Expr::MethodCall(call, _) => method_answer(alloc, info, flags, value, call.get()),
        _ => Ok(None),
    }
}

fn index_answer(
    alloc: Global,
    value: &Dynamic,
    index: &Expr,
) -> Result<Option<Dynamic>, OutOfMemory>
    ensures { IfOk result (λ v.
        option_map value_of v
        ≡ answering.index_of (Some (value_of value.now)) (constants.constant_value (expr_of index.now))) }
{
    match index.constant_value(alloc)? {
        Some(index) => index_of_constant(value, &index),
        None => Ok(None),
    }
}

fn answer_at(
    alloc: Global,
    info: &EngineInfo,
    access: ChainType,
    flags: ASTFlags,
    value: &Dynamic,
    argument: &Expr,
) -> Result<Option<Dynamic>, OutOfMemory>
    ensures { IfOk result (λ v.
        option_map value_of v
        ≡ answers.answer_at (engine_of info.now) (is_dot access) (is_negated flags) (value_of value.now)
        (expr_of argument.now)) }
{
    match access {
        ChainType::Dotting => member_answer(alloc, info, flags, value, argument),
        ChainType::Indexing => index_answer(alloc, value, argument),
    }
}

/// What a step answers at a constant.
pub fn constant_answer(
    alloc: Global,
    info: &EngineInfo,
    access: ChainType,
    flags: ASTFlags,
    base: &Expr,
    argument: &Expr,
) -> Result<Option<Dynamic>, OutOfMemory>
    ensures { IfOk result (λ v.
        option_map value_of v
        ≡ answers.constant_answer (engine_of info.now) (is_dot access) (is_negated flags) (expr_of base.now)
        (expr_of argument.now)) }
{
    match whole_value(alloc, base)? {
        Some(value) => answer_at(alloc, info, access, flags, &value, argument),
        None => Ok(None),
    }
}
