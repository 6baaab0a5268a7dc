//! Chains, followed by reference as far as their steps run nothing: properties of maps, and elements of arrays by
//! integers and by names. So the base is looked up once, and each part is gone through once.

#![tactic(auto, using(ast_types::specs::Reading::shapes, rhai_base::specs::Reading::kinds))]

ghost use Rattle.std.specs.Prelude.{◌≡◌, ◌≤◌, IfOk, IfSome};
ghost use Rattle.ast_types.specs.Reading.{expr_of};
ghost use Rattle.rhai_base.specs.Reading.{value_of};
ghost use Rattle.rhai_ast.specs.declared.walker.node.ChainType.TheVariants as chain_type;
ghost use Rattle.run_places.specs.Reading.{key_meant};
ghost use Rattle.run_state.specs.Runs.{Acting, Leads};
ghost use Rattle.run_state.specs.State.{store_of};
ghost use Rattle.run_steps.specs.Direct.{Follows, KeySteps, left_to_assign, left_to_read};
ghost use Rattle.run_steps.specs.Links.{rest_steps};
ghost use Rattle.run_steps.specs.Placing.{or_unit_at, place_meant, read_base};
ghost use Rattle.run_steps.specs.Setting.{setting};
ghost use Rattle.run_steps.specs.Variables.{root_meant};
ghost use Rattle.theory_meaning.specs.Meaning as meaning;
ghost use Rattle.theory_meaning.specs.Places as places;
ghost use Rattle.theory_meaning.specs.Weight.{expr_weight};

use crate::chains::direct::index_of;
use crate::nodes::{Rest, Root};
use crate::{Machine, Place};
use rhai_ast::{ChainType, Expr};
use rhai_base::{Dynamic, Seq};
use run_host::Host;
use run_places::{Part, PlaceKey, inside};
use run_state::{Interrupt, State};
use std::alloc::AllocError;

/// Follows a chain from its base. The place that it comes to, and what is left of it then; nothing is left where all of
/// it leads to the place.
pub fn follow_root<'e, H: Host>(
    machine: &Machine<H>,
    state: &State,
    root: Root<'e>,
    rest: Rest<'e>,
) -> Result<(Place<'e>, Option<Rest<'e>>), Interrupt>
    ensures reads { let here = setting H.answers H.modules machine.now in
        (loop : _)
        → Leads here
        (Acting (read_base (root_meant root.entry) (λ c. meaning.steps here.world (rest_steps loop rest.entry) c)))
        state.now result state.now (λ p.
        left_to_read here loop p.1 (place_meant p.0) (or_unit_at here (store_of state.now) (place_meant p.0))) }
    ensures assigns { let here = setting H.answers H.modules machine.now in
        (loop : _) (o : _) (v : _)
        → Leads here
        (Acting
        (read_base (root_meant root.entry)
        (λ c. meaning.assign_steps here.world o v (rest_steps loop rest.entry) c)))
        state.now result state.now (λ p.
        left_to_assign here loop o v p.1 (place_meant p.0)
        (or_unit_at here (store_of state.now) (place_meant p.0))) }
    ensures weight { IfOk result (λ p. IfSome p.1 (λ r.
        expr_weight (expr_of r.right.now) ≤ expr_weight (expr_of rest.entry.right.now))) }
{
    match machine.root_value(state, root) {
        Ok(value) => {
            let keys = Seq::new(machine.alloc);
            Ok(follow(machine, state, value, rest, Place { root, keys })?)
        }
        Err(stuck) => Err(Interrupt::Stuck(stuck)),
    }
}

/// Follows what is left of a chain from a value, which stands at a place. What has parts is no unit, so no `?` ends
/// the chain there.
fn follow<'c, 'e, H: Host>(
    machine: &Machine<H>,
    state: &State,
    value: &Dynamic,
    rest: Rest<'e>,
    place: Place<'c>,
) -> Result<(Place<'c>, Option<Rest<'e>>), AllocError>
    ensures follows { let here = setting H.answers H.modules machine.now in
        IfOk result (λ p.
        Follows here state.now rest.entry (place_meant place.entry) (value_of value.now) p.1 (place_meant p.0)) }
    ensures weight { IfOk result (λ p. IfSome p.1 (λ r.
        expr_weight (expr_of r.right.now) ≤ expr_weight (expr_of rest.entry.right.now))) }
{
    let link = rest.link();
    let Some(key) = key_of(machine, state, rest.chain, link.argument)? else {
        return Ok((place, Some(rest)));
    };
    let Some(part) = inside(value, &key) else {
        return Ok((place, Some(rest)));
    };
    let place = place_under(place, key)?;
    let Some(rest) = link.rest else {
        return Ok((place, None));
    };
    match part {
        Part::Stored(value) => follow(machine, state, value, rest, place),
        Part::Missing => Ok((place, Some(rest))),
    }
}

/// The place of the part at a key.
fn place_under<'a>(place: Place<'a>, key: PlaceKey) -> Result<Place<'a>, AllocError>
    ensures { IfOk result (λ p. place_meant p ≡ places.under (key_meant key) (place_meant place.entry)) }
{
    let Place { root, mut keys } = place;
    keys.push(key)?;
    Ok(Place { root, keys })
}

/// The key that a step leads to whose argument runs nothing.
fn key_of<H: Host>(
    machine: &Machine<H>,
    state: &State,
    chain: ChainType,
    argument: &Expr,
) -> Result<Option<PlaceKey>, AllocError>
    ensures { let here = setting H.answers H.modules machine.now in
        IfOk result (λ o. IfSome o (λ k. KeySteps here state.now chain argument.now (key_meant k))) }
{
    match chain {
        ChainType::Dotting => property_key(argument),
        ChainType::Indexing => Ok(index_key(machine, state, argument)),
    }
}

/// The key of a property.
fn property_key(argument: &Expr) -> Result<Option<PlaceKey>, AllocError>
    ensures { IfOk result (λ o. IfSome o (λ k.
        (here : _) (s : _) → KeySteps here s chain_type.Dotting argument.now (key_meant k))) }
{
    match argument {
        Expr::Property(names, _) => Ok(Some(PlaceKey::AtEntry(names.get().2.clone()?))),
        _ => Ok(None),
    }
}

/// The key of an index that is an integer, or a name of one.
fn index_key<H: Host>(machine: &Machine<H>, state: &State, argument: &Expr) -> Option<PlaceKey>
    ensures { let here = setting H.answers H.modules machine.now in
        IfSome result (λ k. KeySteps here state.now chain_type.Indexing argument.now (key_meant k)) }
{
    let index = index_of(machine, state, argument)?;
    Some(PlaceKey::AtIndex(index))
}
