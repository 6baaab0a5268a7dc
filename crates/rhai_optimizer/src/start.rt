//! The names of the record and of a scope: what is known where a script starts.

#![tactic(auto, using(ast_types::specs::Reading::shapes))]

ghost use Rattle.std.specs.Prelude.{◌≡◌, ◌∷◌, None, OnOk, Some, cond};
ghost use Rattle.std.specs.Map.Iter.{deref};
ghost use Rattle.std.specs.Option.{option_map};
ghost use Rattle.rhai_base.specs.Reading.{value_of};
ghost use Rattle.theory_meaning.specs.Act.{OfName};
ghost use Rattle.opt_base.specs.Bindings.{read};
ghost use Rattle.opt_base.specs.State.{progress};
ghost use Rattle.rhai_optimizer.specs.Scopes.{constants_onto, given_onto, known_onto};
ghost use Rattle.base_engine.specs.EngineInfo.{engine_of};

use base_engine::EngineInfo;
use opt_base::OptimizerState;
use rhai_base::{Dynamic, ImmutableString, OutOfMemory, Scope};
use std::alloc::Global;
use std::borrow::Cow;

/// A constant's value, lent.
fn lent<'a>(is_constant: bool, value: &'a Dynamic) -> Option<Cow<'a, Dynamic>>
    ensures { read result ≡ cond is_constant (Some value.now) None }
{
    if is_constant {
        Some(Cow::Borrowed(value))
    } else {
        None
    }
}

/// Notes a name of a scope.
fn push_entry<'a>(
    alloc: Global,
    state: &mut OptimizerState<'a>,
    name: &str,
    is_constant: bool,
    value: &'a Dynamic,
) -> Result<(), OutOfMemory>
    ensures { OnOk result
        ((state.new.is_dirty ≡ state.old.is_dirty)
        × ((progress state.new).known
        ≡ record { root = OfName name.now; value = option_map value_of (cond is_constant (Some value.now) None) }
        ∷ (progress state.old).known)) }
{
    let name = ImmutableString::new(alloc, name)?;
    state.push_var(name, lent(is_constant, value))
}

fn push_entries<'a>(
    alloc: Global,
    state: &mut OptimizerState<'a>,
    scope: &'a Scope,
) -> Result<(), OutOfMemory>
    ensures { OnOk result
        ((state.new.is_dirty ≡ state.old.is_dirty)
        × ((progress state.new).known ≡ known_onto scope.now (progress state.old).known)) }
{
    for (name, is_constant, value) in scope.iter() {
        push_entry(alloc, state, name, is_constant, value)?;
    }
    Ok(())
}

/// Notes the names of a scope, where one is given. Values are lent.
fn push_scope<'a>(
    alloc: Global,
    state: &mut OptimizerState<'a>,
    scope: Option<&'a Scope>,
) -> Result<(), OutOfMemory>
    ensures { OnOk result
        ((state.new.is_dirty ≡ state.old.is_dirty)
        × ((progress state.new).known ≡ given_onto (option_map deref scope.entry) (progress state.old).known)) }
{
    match scope {
        Some(scope) => push_entries(alloc, state, scope),
        None => Ok(()),
    }
}

/// Notes the constants of the record. Names are shared, values lent.
fn push_constants<'a>(
    state: &mut OptimizerState<'a>,
    info: &'a EngineInfo,
) -> Result<(), OutOfMemory>
    ensures { OnOk result
        ((state.new.is_dirty ≡ state.old.is_dirty)
        × ((progress state.new).known
        ≡ constants_onto (engine_of info.now).constants (progress state.old).known)) }
{
    for (name, value) in info.constants() {
        state.push_var(name.clone()?, lent(true, value))?;
    }
    Ok(())
}

/// Notes what is known at top level: the record's constants, and the scope's names, which hide them.
pub(crate) fn push_at_top<'a>(
    alloc: Global,
    state: &mut OptimizerState<'a>,
    info: &'a EngineInfo,
    scope: Option<&'a Scope>,
) -> Result<(), OutOfMemory>
    ensures { OnOk result
        ((state.new.is_dirty ≡ state.old.is_dirty)
        × ((progress state.new).known
        ≡ given_onto (option_map deref scope.entry)
        (constants_onto (engine_of info.now).constants (progress state.old).known))) }
{
    push_constants(state, info)?;
    push_scope(alloc, state, scope)
}

/// Notes what is known in bodies, which start without the scope: its names, and the record's constants, which hide
/// them.
pub(crate) fn push_in_bodies<'a>(
    alloc: Global,
    state: &mut OptimizerState<'a>,
    info: &'a EngineInfo,
    scope: Option<&'a Scope>,
) -> Result<(), OutOfMemory>
    ensures { OnOk result
        ((state.new.is_dirty ≡ state.old.is_dirty)
        × ((progress state.new).known
        ≡ constants_onto (engine_of info.now).constants
        (given_onto (option_map deref scope.entry) (progress state.old).known))) }
{
    push_scope(alloc, state, scope)?;
    push_constants(state, info)
}
