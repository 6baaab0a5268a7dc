//! What the language's own functions answer at values.

#![tactic(auto, using(rhai_base::specs::Reading::kinds))]

ghost use Rattle.std.specs.Prelude.{◌≡◌, IfOk, Some, false};
ghost use Rattle.std.specs.Option.{option_map};
ghost use Rattle.rhai_base.specs.Reading.{value_of};
ghost use Rattle.rhai_base.specs.Value.{BoolV};
ghost use Rattle.theory_meaning.specs.Constants as constants;
ghost use Rattle.base_engine.specs.EngineInfo.{engine_of};
ghost use Rattle.opt_exprs.specs.Words as words;

use base_engine::EngineInfo;
use rhai_base::{Dynamic, FnPtr, ImmutableString, OutOfMemory};
use std::alloc::Global;

/// `type_of`: the name that scripts see for a value's type.
pub(crate) fn type_of_value(
    alloc: Global,
    info: &EngineInfo,
    value: &Dynamic,
) -> Result<Dynamic, OutOfMemory>
    ensures { IfOk result (λ t. value_of t ≡ words.type_of (engine_of info.now) (value_of value.now)) }
{
    let name = info.map_type_name(value.type_name());
    Ok(Dynamic::Str(ImmutableString::new(alloc, name)?))
}

/// `is_shared`: no value is.
pub(crate) fn is_shared_value() -> Dynamic
    ensures { value_of result ≡ BoolV false }
{
    Dynamic::Bool(false)
}

/// `Fn`: the pointer to the function that a text names, where a function may have the name.
pub(crate) fn pointer_to_value(
    alloc: Global,
    value: &Dynamic,
) -> Result<Option<Dynamic>, OutOfMemory>
    ensures { IfOk result (λ p. option_map value_of p ≡ words.pointer_named (Some (value_of value.now))) }
{
    match value {
        Dynamic::Str(name) => Ok(pointer_to(alloc, name.clone()?)),
        Dynamic::Unit
        | Dynamic::Bool(_)
        | Dynamic::Int(_)
        | Dynamic::Float(_)
        | Dynamic::Char(_)
        | Dynamic::Array(_)
        | Dynamic::Map(_)
        | Dynamic::FnPtr(_)
        | Dynamic::Range(_, _)
        | Dynamic::RangeInclusive(_, _) => Ok(None),
    }
}

fn pointer_to(alloc: Global, name: ImmutableString) -> Option<Dynamic>
    ensures { option_map value_of result ≡ constants.pointer_to name }
{
    let pointer = FnPtr::new(alloc, name)?;
    Some(Dynamic::FnPtr(pointer))
}
