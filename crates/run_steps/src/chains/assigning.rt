//! Assignments to parts by an operator, which reads them first.

#![tactic(auto, using(ast_types::specs::Reading::shapes, rhai_base::specs::Reading::kinds))]

ghost use Rattle.std.specs.Prelude.{◌≡◌, Some};
ghost use Rattle.rhai_base.specs.Reading.{value_of};
ghost use Rattle.rhai_base.specs.Value.{UnitV};
ghost use Rattle.rhai_base.specs.Builtin.{operator_of};
ghost use Rattle.run_steps.specs.Operators.{StandsFor};
ghost use Rattle.run_steps.specs.Chaining.{access_meant, names_meant};
ghost use Rattle.run_steps.specs.Setting.{setting};
ghost use Rattle.run_steps.specs.Direct.{assign_at};
ghost use Rattle.run_steps.specs.Placing.{current_in, or_unit_at, place_meant};
ghost use Rattle.run_state.specs.Runs.{Acting, Leads, given};
ghost use Rattle.run_state.specs.State.{store_of};
ghost use Rattle.run_steps.specs.Targets.{Changes};
ghost use Rattle.run_steps.specs.declared.steps.parts.Access.TheVariants as reached;
ghost use Rattle.theory_meaning.specs.Chains as chains;

use crate::chains::finding::{find_index, find_property, found_value};
use crate::chains::setting::set_at;
use crate::nodes::assigning_operator;
use crate::{Access, Current, Machine, Place, PropertyNames};
use rhai_base::{Dynamic, OpAssignment, Token};
use run_host::Host;
use run_state::{Interrupt, State};

/// Assigns to what stands at a place, which an operator reads first.
pub fn assign_place<H: Host>(
    machine: &Machine<H>,
    state: &mut State,
    op: &OpAssignment,
    place: Place,
    value: Dynamic,
) -> Result<(), Interrupt>
    ensures { let here = setting H.answers H.modules machine.now in
        Leads here
        (Acting
        (assign_at here.world (operator_of op.now.op) (value_of value) (place_meant place.entry)
        (or_unit_at here (store_of state.old) (place_meant place.entry))))
        state.old result state.new (λ z. given UnitV) }
{
    let Some(token) = assigning_operator(op) else {
        return machine.write_place(state, true, &place, value);
    };
    let old = machine.place_value(state, &place)?;
    let written = machine.assigned(state, token, old, value)?;
    machine.write_place(state, true, &place, written)
}

/// Assigns to a property by an operator.
pub fn assign_property<H: Host>(
    machine: &Machine<H>,
    state: &mut State,
    op: Token,
    names: PropertyNames,
    value: Dynamic,
    current: Current,
) -> Result<(), Interrupt>
    ensures { let here = setting H.answers H.modules machine.now in
        (o : _) → StandsFor (Some op) o
        → Leads here
        (Acting
        (chains.assign_last here.world o (value_of value) (access_meant (reached.Property names.entry))
        (current_in here (store_of state.old) current.entry)))
        state.old result state.new (λ z. given UnitV) }
{
    let written = changed_property(machine, state, op, names, value, &current)?;
    set_at(machine, state, Access::Property(names), written, current)
}

/// Assigns to what stands at an index by an operator.
pub fn assign_index<H: Host>(
    machine: &Machine<H>,
    state: &mut State,
    op: Token,
    index_value: Dynamic,
    value: Dynamic,
    current: Current,
) -> Result<(), Interrupt>
    ensures { let here = setting H.answers H.modules machine.now in
        (o : _) → StandsFor (Some op) o
        → Leads here
        (Acting
        (chains.assign_last here.world o (value_of value) (access_meant (reached.Index index_value))
        (current_in here (store_of state.old) current.entry)))
        state.old result state.new (λ z. given UnitV) }
{
    let at = index_value.clone()?;
    let written = changed_index(machine, state, op, at, value, &current)?;
    set_at(machine, state, Access::Index(index_value), written, current)
}

/// What an operator makes of a property.
fn changed_property<H: Host>(
    machine: &Machine<H>,
    state: &mut State,
    op: Token,
    names: PropertyNames,
    value: Dynamic,
    current: &Current,
) -> Result<Dynamic, Interrupt>
    ensures { let here = setting H.answers H.modules machine.now in
        let c = current_in here (store_of state.old) current.now in
        (o : _) → operator_of op ≡ Some o
        → Changes here o (value_of value) (λ next. chains.property (names_meant names.entry) c c.value next)
        state.old result state.new }
{
    let found = find_property(machine, state, names, current)?;
    let old = found_value(machine, state, current, found)?;
    machine.assigned(state, op, old, value)
}

/// What an operator makes of what stands at an index.
fn changed_index<H: Host>(
    machine: &Machine<H>,
    state: &mut State,
    op: Token,
    index_value: Dynamic,
    value: Dynamic,
    current: &Current,
) -> Result<Dynamic, Interrupt>
    ensures { let here = setting H.answers H.modules machine.now in
        let c = current_in here (store_of state.old) current.now in
        (o : _) → operator_of op ≡ Some o
        → Changes here o (value_of value) (λ next. chains.index c c.value (value_of index_value) next) state.old
        result state.new }
{
    let found = find_index(machine, state, current, index_value)?;
    let old = found_value(machine, state, current, found)?;
    machine.assigned(state, op, old, value)
}
