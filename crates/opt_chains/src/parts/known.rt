//! What a step answers at a name that is known as a constant map.

#![tactic(auto, using(ast_types::specs::Reading::shapes, rhai_base::specs::Reading::kinds, crate::proofs::OtherParts::kinds_of_values))]

ghost use Rattle.std.specs.Prelude.{◌≡◌, IfOk, Some, true};
ghost use Rattle.std.specs.Option.{option_map};
ghost use Rattle.rhai_base.specs.Reading.{value_of};
ghost use Rattle.ast_types.specs.Reading.{expr_of};
ghost use Rattle.theory_meaning.specs.Constants as constants;
ghost use Rattle.opt_base.specs.State.{progress};
ghost use Rattle.theory_rewriting.specs.Answering as answering;
ghost use Rattle.theory_rewriting.specs.Clear as clear;
ghost use Rattle.opt_chains.specs.Answers as answers;
ghost use Rattle.rhai_ast.specs.Nodes.{is_dot};

use crate::parts::answers::property_of_constant;
use opt_base::{OptimizerState, known_value};
use rhai_ast::{ChainType, Expr, Literals};
use rhai_base::{Dynamic, ImmutableString, OutOfMemory};
use std::alloc::Global;

/// A property of a name that is known as a constant map is that entry.
fn known_property(
    state: &OptimizerState<'_>,
    base: &Expr,
    name: &ImmutableString,
) -> Result<Option<Dynamic>, OutOfMemory>
    ensures { IfOk result (λ v.
        option_map value_of v
        ≡ answering.property_of (clear.known_value (progress state.now).known (expr_of base.now)) name.now) }
{
    match known_value(state, base) {
        Some(value) => property_of_constant(value, name),
        None => Ok(None),
    }
}

fn entry_at(value: &Dynamic, index: &Dynamic) -> Result<Option<Dynamic>, OutOfMemory>
    ensures { IfOk result (λ v.
        option_map value_of v ≡ answers.entry_of (Some (value_of value.now)) (Some (value_of index.now))) }
{
    match index {
        Dynamic::Str(key) => property_of_constant(value, key),
        _ => Ok(None),
    }
}

fn entry_of(alloc: Global, value: &Dynamic, index: &Expr) -> Result<Option<Dynamic>, OutOfMemory>
    ensures { IfOk result (λ v.
        option_map value_of v
        ≡ answers.entry_of (Some (value_of value.now)) (constants.constant_value (expr_of index.now))) }
{
    match index.constant_value(alloc)? {
        Some(index) => entry_at(value, &index),
        None => Ok(None),
    }
}

/// So is an index of it that is a constant text.
fn known_entry(
    alloc: Global,
    state: &OptimizerState<'_>,
    base: &Expr,
    index: &Expr,
) -> Result<Option<Dynamic>, OutOfMemory>
    ensures { IfOk result (λ v.
        option_map value_of v
        ≡ answers.entry_of (clear.known_value (progress state.now).known (expr_of base.now))
        (constants.constant_value (expr_of index.now))) }
{
    match known_value(state, base) {
        Some(value) => entry_of(alloc, value, index),
        None => Ok(None),
    }
}

fn known_member(
    state: &OptimizerState<'_>,
    base: &Expr,
    right: &Expr,
) -> Result<Option<Dynamic>, OutOfMemory>
    ensures { IfOk result (λ v.
        option_map value_of v
        ≡ answers.known_answer (progress state.now).known true (expr_of base.now) (expr_of right.now)) }
{
    match right {
        Expr::Property(names, _) => known_property(state, base, &names.get().2),
        _ => Ok(None),
    }
}

/// What a chain of one step answers at a known name.
pub fn known_answer(
    alloc: Global,
    state: &OptimizerState<'_>,
    access: ChainType,
    base: &Expr,
    right: &Expr,
) -> Result<Option<Dynamic>, OutOfMemory>
    ensures { IfOk result (λ v.
        option_map value_of v
        ≡ answers.known_answer (progress state.now).known (is_dot access) (expr_of base.now) (expr_of right.now)) }
{
    match access {
        ChainType::Dotting => known_member(state, base, right),
        ChainType::Indexing => known_entry(alloc, state, base, right),
    }
}
