//! Tables of functions that scripts share.
ghost use Rattle.std.specs.Prelude.{◌≡◌, [], List, IfOk, OnOk, OnErr, None};
ghost use Rattle.std.specs.List.Retain.{IsFiltered};
ghost use Rattle.script_tables.specs.FnKey.{definition_key};
ghost use Rattle.script_tables.specs.Ids.{named, first_name};
ghost use Rattle.script_tables.specs.Table.{put_all_by};
ghost use Rattle.script_tables.specs.Filter.{Answers, AnswersShort};
ghost use Rattle.ast_types.specs.declared.script_fn.ScriptFuncDef.{ScriptFuncDef as definition};

use crate::{
    FnLib, SharedLib, allocator_of, chosen_functions, kept_functions, name_of, replaced,
    shared_functions, take_id, with_all, without_id,
};
use rhai_ast::{FnAccess, FnNamespace};
use rhai_base::{ImmutableString, OutOfMemory};
use std::alloc::Global;
use std::rc::Rc;

/// A table that scripts may share.
fn shared(lib: FnLib) -> Result<SharedLib, OutOfMemory>
    ensures { IfOk result (λ made. made.value ≡ lib) }
{
    Ok(Rc::new(allocator_of(&lib), lib)?)
}

/// A table without functions and id.
pub fn no_functions(alloc: Global) -> Result<SharedLib, OutOfMemory>
    ensures id { IfOk result (λ made. made.value.id ≡ None) }
    ensures functions { IfOk result (λ made. made.value.functions ≡ []) }
{
    shared(FnLib::new(alloc))
}

/// A table of the same functions without an id.
pub fn own_copy(lib: &FnLib) -> Result<SharedLib, OutOfMemory>
    ensures id { IfOk result (λ made. made.value.id ≡ None) }
    ensures functions { IfOk result (λ made. made.value.functions ≡ lib.now.functions) }
{
    shared(without_id(lib)?)
}

/// A table of the functions that the filter chooses, by an answer for each, in the table's order; without an id.
pub fn only_chosen<F: Fn(FnNamespace, FnAccess, bool, &str, usize) -> bool>(
    lib: &FnLib,
    filter: &F,
) -> Result<SharedLib, OutOfMemory>
    requires { F.IsAlwaysCallable filter.now }
    ensures { IfOk result (λ made.
        (chosen : List definition) × IsFiltered (Answers F.Fn) filter.now lib.now.functions chosen
        × (made.value.id ≡ None) × (made.value.functions ≡ chosen)) }
{
    let chosen = chosen_functions(lib, filter)?;
    shared(FnLib::from_functions(allocator_of(lib), chosen)?)
}

/// A table of the functions that the filter chooses, by an answer for each, in the table's order; with the id.
pub fn retained<F: Fn(FnNamespace, FnAccess, &str, usize) -> bool>(
    lib: &FnLib,
    filter: &F,
) -> Result<SharedLib, OutOfMemory>
    requires { F.IsAlwaysCallable filter.now }
    ensures { IfOk result (λ made.
        (kept : List definition) × IsFiltered (AnswersShort F.Fn) filter.now lib.now.functions kept
        × (made.value.id ≡ lib.now.id) × (made.value.functions ≡ kept)) }
{
    let kept = kept_functions(lib, filter)?;
    shared(replaced(lib, kept)?)
}

/// A table of the same functions and those of a second, each put in in turn, with the id, or else that of the table.
pub fn put_all(
    lib: &FnLib,
    id: &Option<ImmutableString>,
    other: &FnLib,
) -> Result<SharedLib, OutOfMemory>
    ensures id { IfOk result (λ made. made.value.id ≡ first_name id.now lib.now.id) }
    ensures functions { IfOk result (λ made.
        made.value.functions ≡ put_all_by definition_key lib.now.functions other.now.functions) }
{
    shared(with_all(lib, id, shared_functions(other)?)?)
}

/// The same with those functions of the second that the filter chooses, by an answer for each, in the table's order.
pub fn put_chosen<F: Fn(FnNamespace, FnAccess, bool, &str, usize) -> bool>(
    lib: &FnLib,
    id: &Option<ImmutableString>,
    other: &FnLib,
    filter: &F,
) -> Result<SharedLib, OutOfMemory>
    requires { F.IsAlwaysCallable filter.now }
    ensures { IfOk result (λ made.
        (chosen : List definition) × IsFiltered (Answers F.Fn) filter.now other.now.functions chosen
        × (made.value.id ≡ first_name id.now lib.now.id)
        × (made.value.functions ≡ put_all_by definition_key lib.now.functions chosen)) }
{
    let chosen = chosen_functions(other, filter)?;
    shared(with_all(lib, id, chosen)?)
}

/// Sets the id, and answers it; an empty one is none. A table that other scripts share is copied. A refused call
/// changes nothing.
pub fn take_name(lib: &mut SharedLib, name: &str) -> Result<Option<ImmutableString>, OutOfMemory>
    ensures name { IfOk result (λ id. id ≡ named name.now) }
    ensures id { OnOk result (lib.new.value.id ≡ named name.now) }
    ensures functions { lib.new.value.functions ≡ lib.old.value.functions }
    ensures err { OnErr result (lib.new.value.id ≡ lib.old.value.id) }
{
    let id = name_of(allocator_of(lib), name)?;
    let copy = id.clone()?;
    take_id(Rc::make_mut(lib)?, copy);
    Ok(id)
}
