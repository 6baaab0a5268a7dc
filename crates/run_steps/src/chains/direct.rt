//! Chains whose steps run nothing: properties of maps, and elements of arrays by integers and by names. They are
//! followed by reference, so the base is looked up once.

#![tactic(auto, using(ast_types::specs::Reading::shapes, rhai_base::specs::Reading::kinds))]

ghost use Rattle.std.specs.Prelude.{◌≡◌, IfOk, IfSome, Some};
ghost use Rattle.run_steps.specs.Direct.{Comes, ComesFrom, IsIndex, StepsTo};
ghost use Rattle.run_steps.specs.Links.{rest_steps};
ghost use Rattle.run_steps.specs.Placing.{current_in, read_base, root_value};
ghost use Rattle.run_steps.specs.Setting.{setting};
ghost use Rattle.run_places.specs.Reading.{part_value};
ghost use Rattle.run_steps.specs.Variables.{root_meant};
ghost use Rattle.run_state.specs.Runs.{Acting, Goes, given};
ghost use Rattle.run_state.specs.State.{store_of};
ghost use Rattle.theory_meaning.specs.Meaning as meaning;
ghost use Rattle.rhai_base.specs.Reading.{value_of};
ghost use Rattle.rhai_base.specs.Value.{IntV};
ghost use Rattle.rhai_ast.specs.declared.walker.node.ChainType.TheVariants as chain_type;

use crate::nodes::{Rest, Root, root_of};
use crate::{Current, Machine, Place};
use rhai_ast::{ChainType, Expr};
use rhai_base::{Dynamic, INT, Seq};
use run_host::Host;
use run_places::{Part, element, entry};
use run_state::State;
use std::alloc::AllocError;

/// The value that what is left of a chain comes to from what stands at a place, if no step of it runs anything.
/// `None` says nothing.
pub fn direct_value<H: Host>(
    machine: &Machine<H>,
    state: &State,
    rest: Rest,
    current: &Current,
) -> Result<Option<Dynamic>, AllocError>
    ensures { let here = setting H.answers H.modules machine.now in
        IfOk result (λ o. IfSome o (λ v.
        (loop : _)
        → Comes here state.now loop rest.entry (current_in here (store_of state.now) current.now) (value_of v))) }
{
    let Current::At(place) = current else {
        return Ok(None);
    };
    let Ok(Part::Stored(value)) = machine.standing(state, place) else {
        return Ok(None);
    };
    match part_of(machine, state, value, rest) {
        Some(part) => Ok(Some(part.to_value()?)),
        None => Ok(None),
    }
}

/// The value that a chain comes to from its base, if no step of it runs anything. `None` says nothing.
pub fn direct_root<H: Host>(
    machine: &Machine<H>,
    state: &State,
    root: Root,
    rest: Rest,
) -> Result<Option<Dynamic>, AllocError>
    ensures { let here = setting H.answers H.modules machine.now in
        IfOk result (λ o. IfSome o (λ v.
        (loop : _)
        → Goes here
        (Acting (read_base (root_meant root.entry) (λ c. meaning.steps here.world (rest_steps loop rest.entry) c)))
        state.now (given (value_of v)) state.now)) }
{
    let Ok(value) = machine.root_value(state, root) else {
        return Ok(None);
    };
    match part_of(machine, state, value, rest) {
        Some(part) => Ok(Some(part.to_value()?)),
        None => Ok(None),
    }
}

/// The part of a value that what is left of a chain leads to. What has parts is no unit, so no `?` ends the chain there.
fn part_of<'v, H: Host>(
    machine: &Machine<H>,
    state: &State,
    value: &'v Dynamic,
    rest: Rest,
) -> Option<Part<'v>>
    ensures { let here = setting H.answers H.modules machine.now in
        IfSome result (λ part. ComesFrom here state.now rest.entry (value_of value.now) (part_value part)) }
{
    let link = rest.link();
    let part = step_of(machine, state, value, rest.chain, link.argument)?;
    match link.rest {
        Some(rest) => match part {
            Part::Stored(value) => part_of(machine, state, value, rest),
            Part::Missing => None,
        },
        None => Some(part),
    }
}

/// The part of a value that one step leads to.
fn step_of<'v, H: Host>(
    machine: &Machine<H>,
    state: &State,
    value: &'v Dynamic,
    chain: ChainType,
    argument: &Expr,
) -> Option<Part<'v>>
    ensures { let here = setting H.answers H.modules machine.now in
        IfSome result (λ part. StepsTo here state.now chain argument.now (value_of value.now) (part_value part)) }
{
    match chain {
        ChainType::Dotting => property_of(value, argument),
        ChainType::Indexing => element_of(machine, state, value, argument),
    }
}

/// The property of a map.
fn property_of<'v>(value: &'v Dynamic, argument: &Expr) -> Option<Part<'v>>
    ensures { IfSome result (λ part.
        (here : _) (s : _)
        → StepsTo here s chain_type.Dotting argument.now (value_of value.now) (part_value part)) }
{
    match argument {
        Expr::Property(names, _) => match value {
            Dynamic::Map(members) => Some(entry(members, &names.get().2)),
            _ => None,
        },
        _ => None,
    }
}

/// The element of an array.
fn element_of<'v, H: Host>(
    machine: &Machine<H>,
    state: &State,
    value: &'v Dynamic,
    argument: &Expr,
) -> Option<Part<'v>>
    ensures { let here = setting H.answers H.modules machine.now in
        IfSome result (λ part.
        StepsTo here state.now chain_type.Indexing argument.now (value_of value.now) (part_value part)) }
{
    match value {
        Dynamic::Array(items) => {
            let index = index_of(machine, state, argument)?;
            Some(Part::Stored(element(items.as_slice(), index)?))
        }
        _ => None,
    }
}

/// The index that an integer is, or a name of one.
pub(crate) fn index_of<H: Host>(machine: &Machine<H>, state: &State, argument: &Expr) -> Option<INT>
    ensures { let here = setting H.answers H.modules machine.now in
        IfSome result (λ i. IsIndex here state.now argument.now i) }
{
    match argument {
        Expr::IntegerConstant(index, _) => Some(*index),
        _ => named_index(machine, state, root_of(argument)?),
    }
}

fn named_index<H: Host>(machine: &Machine<H>, state: &State, root: Root) -> Option<INT>
    ensures { let here = setting H.answers H.modules machine.now in
        IfSome result (λ i. root_value here (store_of state.now) (root_meant root.entry) ≡ Some (IntV i)) }
{
    let place = Place {
        root,
        keys: Seq::new(machine.alloc),
    };
    match machine.standing(state, &place) {
        Ok(Part::Stored(Dynamic::Int(index))) => Some(*index),
        _ => None,
    }
}
