//! The rules at a chain whose parts are reduced, in its place. Which one fires is found by reference; then the part
//! that its first step answers takes the place of the base and of that step. Where none fires nothing is moved.

#![tactic(auto, using(ast_types::specs::Reading::shapes, rhai_base::specs::Reading::kinds))]

ghost use Rattle.std.specs.Prelude.{◌≡◌, ◌&&◌, IfOk, true};
ghost use Rattle.std.specs.Option.{option_map};
ghost use Rattle.rhai_base.specs.Reading.{value_of};
ghost use Rattle.ast_types.specs.Reading.{breaks, chain_flags, expr_of, is_negated};
ghost use Rattle.theory_meaning.specs.Engine.{Engine};
ghost use Rattle.theory_meaning.specs.Queries as queries;
ghost use Rattle.theory_meaning.specs.Tree.{UnitConstant};
ghost use Rattle.base_engine.specs.EngineInfo.{engine_of};
ghost use Rattle.opt_base.specs.State.{progress};
ghost use Rattle.theory_rewriting.specs.Parts as parts;
ghost use Rattle.theory_rewriting.specs.Steps as steps;
ghost use Rattle.theory_rewriting.specs.Steps.{is_chain_node};
ghost use Rattle.opt_base.specs.NodeSteps.{ExprStep};
ghost use Rattle.opt_base.specs.Places.{place_of};
ghost use Rattle.opt_base.specs.Standing as standing;
ghost use Rattle.opt_chains.specs.Answers as answers;
ghost use Rattle.rhai_ast.specs.Nodes.{is_dot};
ghost use Rattle.opt_chains.specs.Chains.{IsMoved, IsTaken, PartStep, SidesStep, ChainStep};
ghost use Rattle.opt_chains.specs.Chains.{ends_in_unit, value_answer};
ghost use Rattle.opt_chains.specs.Onward as onward;

use crate::chain::onward::{argument, onward, unit_may_stand};
use crate::parts::{constant_answer, known_answer, literal_answer, move_part, take_part};
use ast_nodes::{dynamic_constant, put_expr};
use base_engine::EngineInfo;
use bitflags::Flags;
use opt_base::{OptimizerState, Place, may_be_unit, note_fired, put_unit};
use rhai_ast::{BinaryExpr, ChainType, Expr, ExprQueries, Literals};
use rhai_base::{ASTFlags, Dynamic, OutOfMemory, Position};
use std::alloc::Global;

fn is_ended(place: Place, flags: ASTFlags, base: &Expr) -> bool
    ensures { result
        ≡ standing.may_stand (place_of place) UnitConstant
        && (is_negated flags && queries.is_unit (expr_of base.now)) }
{
    may_be_unit(place) && flags.contains(ASTFlags::NEGATED) && base.is_unit()
}

/// Whether a chain is one over unit, past a `?`, and may be unit where it stands.
fn ends_in_unit(place: Place, expr: &Expr) -> bool
    ensures { result ≡ ends_in_unit (place_of place) (expr_of expr.now) }
{
    match expr {
        Expr::Dot(sides, flags, _) | Expr::Index(sides, flags, _) => {
            is_ended(place, *flags, &sides.get().lhs)
        }
        _ => false,
    }
}

/// `()?.r` is `()`, and so is `()?[r]`.
fn unit_ends(state: &mut OptimizerState<'_>, expr: &mut Expr)
    ensures { (p : steps.Place) (r : Engine) → ends_in_unit p (expr_of expr.old) ≡ true
        → ExprStep true r p (progress state.old) (progress state.new) (expr_of expr.old) (expr_of expr.new) }
{
    put_unit(state, expr);
}

/// The constant of a value; of a pointer too.
fn constant_of(alloc: Global, value: Dynamic, pos: Position) -> Result<Expr, OutOfMemory>
    ensures { IfOk result (λ e. expr_of e ≡ parts.constant_of (value_of value)) }
{
    match &value {
        Dynamic::FnPtr(_) => dynamic_constant(alloc, value, pos),
        _ => Expr::from_dynamic(alloc, value, pos),
    }
}

/// A value, where it may stand: unit not everywhere.
fn allowed(unit: bool, value: Option<Dynamic>) -> Option<Dynamic>
    ensures { option_map value_of result ≡ answers.allowed unit (option_map value_of value) }
{
    if unit {
        return value;
    }
    match value {
        Some(value) => { if value.is_unit() { None } else { Some(value) } }
        None => None,
    }
}

/// What the first step answers by value, at a constant or at a known name.
fn value_answer(
    alloc: Global,
    info: &EngineInfo,
    state: &OptimizerState<'_>,
    access: ChainType,
    flags: ASTFlags,
    sides: &BinaryExpr,
    unit: bool,
) -> Result<Option<Dynamic>, OutOfMemory>
    ensures { IfOk result (λ v.
        option_map value_of v
        ≡ value_answer (engine_of info.now) (progress state.now).known unit (is_dot access) (chain_flags flags)
        (expr_of sides.now.lhs) (expr_of sides.now.rhs)) }
{
    let first = argument(flags, &sides.rhs);
    let answer = constant_answer(alloc, info, access, flags, &sides.lhs, first)?;
    match allowed(unit, answer) {
        Some(value) => Ok(Some(value)),
        None => Ok(allowed(
            unit,
            known_answer(alloc, state, access, &sides.lhs, &sides.rhs)?,
        )),
    }
}

/// The part of a literal that the first step answers, out of its place.
fn literal_taken(
    alloc: Global,
    access: ChainType,
    flags: ASTFlags,
    sides: &mut BinaryExpr,
    unit: bool,
) -> Result<Option<Expr>, OutOfMemory>
    ensures { IfOk result (λ part. IsTaken unit (is_dot access) (breaks flags) sides.old sides.new part) }
{
    let first = argument(flags, &sides.rhs);
    match literal_answer(alloc, unit, access, &sides.lhs, first)? {
        Some(found) => Ok(Some(take_part(&mut sides.lhs, found))),
        None => Ok(None),
    }
}

/// The part of a constant that the first step answers, moved out of its place.
fn part_moved(
    alloc: Global,
    access: ChainType,
    flags: ASTFlags,
    sides: &mut BinaryExpr,
    unit: bool,
) -> Result<Option<Expr>, OutOfMemory>
    ensures { IfOk result (λ part. IsMoved unit (is_dot access) (breaks flags) sides.old sides.new part) }
{
    let pos = sides.lhs.position();
    let first = argument(flags, &sides.rhs);
    match move_part(access, &mut sides.lhs, first, unit) {
        Some(value) => Ok(Some(constant_of(alloc, value, pos)?)),
        None => Ok(None),
    }
}

/// What the first step answers where it moves nothing: by value, or a part of a literal.
fn other_answer(
    alloc: Global,
    info: &EngineInfo,
    state: &OptimizerState<'_>,
    access: ChainType,
    flags: ASTFlags,
    sides: &mut BinaryExpr,
    place: Place,
) -> Result<Option<Expr>, OutOfMemory>
    ensures { IfOk result (λ part.
        PartStep (engine_of info.now) (progress state.now).known (place_of place) (is_dot access) (chain_flags flags)
        sides.old sides.new part) }
{
    let unit = unit_may_stand(place, flags, &sides.rhs);
    match value_answer(alloc, info, state, access, flags, sides, unit)? {
        Some(value) => Ok(Some(constant_of(alloc, value, sides.lhs.position())?)),
        None => literal_taken(alloc, access, flags, sides, unit),
    }
}

/// What the first step answers.
fn first_answer(
    alloc: Global,
    info: &EngineInfo,
    state: &OptimizerState<'_>,
    access: ChainType,
    flags: ASTFlags,
    sides: &mut BinaryExpr,
    place: Place,
) -> Result<Option<Expr>, OutOfMemory>
    ensures { IfOk result (λ part.
        PartStep (engine_of info.now) (progress state.now).known (place_of place) (is_dot access) (chain_flags flags)
        sides.old sides.new part) }
{
    let unit = unit_may_stand(place, flags, &sides.rhs);
    match part_moved(alloc, access, flags, sides, unit)? {
        Some(part) => Ok(Some(part)),
        None => other_answer(alloc, info, state, access, flags, sides, place),
    }
}

/// What a chain becomes whose first step answers: what that answers, or the chain that goes on from it.
fn step_answers(
    alloc: Global,
    info: &EngineInfo,
    state: &OptimizerState<'_>,
    access: ChainType,
    flags: ASTFlags,
    sides: &mut BinaryExpr,
    place: Place,
) -> Result<Option<Expr>, OutOfMemory>
    ensures { IfOk result (λ made.
        SidesStep (engine_of info.now) (progress state.now).known (place_of place) (is_dot access) (chain_flags flags)
        sides.old sides.new made) }
{
    match first_answer(alloc, info, state, access, flags, sides, place)? {
        Some(part) => Ok(Some(onward(flags, &mut sides.rhs, part))),
        None => Ok(None),
    }
}

fn chain_answer(
    alloc: Global,
    info: &EngineInfo,
    state: &OptimizerState<'_>,
    expr: &mut Expr,
    place: Place,
) -> Result<Option<Expr>, OutOfMemory>
    ensures { IfOk result (λ made.
        ChainStep (engine_of info.now) (progress state.now).known (place_of place) (expr_of expr.old)
        (expr_of expr.new) made) }
{
    match expr {
        Expr::Dot(sides, flags, _) => {
            step_answers(
                alloc,
                info,
                state,
                ChainType::Dotting,
                *flags,
                sides.get_mut(),
                place,
            )
        }
        Expr::Index(sides, flags, _) => {
            step_answers(
                alloc,
                info,
                state,
                ChainType::Indexing,
                *flags,
                sides.get_mut(),
                place,
            )
        }
        _ => Ok(None),
    }
}

/// Rewrites a chain by the rule that fires at it, if one does, and says whether one did: the part that its first step
/// answers takes the place of the base and of that step.
pub fn step_chain(
    alloc: Global,
    info: &EngineInfo,
    state: &mut OptimizerState<'_>,
    expr: &mut Expr,
    place: Place,
) -> Result<bool, OutOfMemory>
    requires { is_chain_node (expr_of expr.now) ≡ true }
    ensures { IfOk result (λ fired.
        ExprStep fired (engine_of info.now) (place_of place) (progress state.old) (progress state.new)
        (expr_of expr.old) (expr_of expr.new)) }
{
    if ends_in_unit(place, expr) {
        unit_ends(state, expr);
        return Ok(true);
    }
    match chain_answer(alloc, info, state, expr, place)? {
        Some(made) => {
            note_fired(state);
            put_expr(expr, made);
            Ok(true)
        }
        None => Ok(false),
    }
}
