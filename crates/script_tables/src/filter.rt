//! Filters of functions: what they are asked, and which functions they choose.
ghost use Rattle.std.specs.Prelude.{◌≡◌, map, IfOk};
ghost use Rattle.std.specs.List.Retain.{IsFiltered};
ghost use Rattle.std.specs.Rc.{rc_value};
ghost use Rattle.script_tables.specs.Filter.{Answers, AnswersShort};
ghost use Rattle.script_tables.specs.FnKey.{definitions_table};

use crate::fn_lib::{FnLib, allocator_of};
use rhai_ast::{FnAccess, FnNamespace, ScriptFuncDef};
use rhai_base::OutOfMemory;
use std::rc::Rc;

/// What a filter answers of a function of a script.
fn asks<F: Fn(FnNamespace, FnAccess, bool, &str, usize) -> bool>(
    filter: &F,
    function: &ScriptFuncDef,
) -> bool
    requires { F.IsAlwaysCallable filter.now }
    ensures { Answers F.Fn filter.now function.now result filter.now }
{
    let name = function.name.as_str();
    let params = function.params.len();
    filter(FnNamespace::Internal, function.access, true, name, params)
}

/// All functions of a table, in its order.
pub fn shared_functions(lib: &FnLib) -> Result<Vec<Rc<ScriptFuncDef>>, OutOfMemory>
    ensures { IfOk result (λ all. map rc_value all.items ≡ lib.now.functions) }
{
    let mut all = Vec::new(allocator_of(lib));
    for function in lib.iter() {
        all.push(function.clone()?)?;
    }
    Ok(all)
}

/// The functions of which the filter says `true`, by an answer for each, in the table's order.
pub fn chosen_functions<F: Fn(FnNamespace, FnAccess, bool, &str, usize) -> bool>(
    lib: &FnLib,
    filter: &F,
) -> Result<Vec<Rc<ScriptFuncDef>>, OutOfMemory>
    requires { F.IsAlwaysCallable filter.now }
    ensures filtered { IfOk result (λ chosen.
        IsFiltered (Answers F.Fn) filter.now lib.now.functions (map rc_value chosen.items)) }
    ensures table { IfOk result (λ chosen. definitions_table (map rc_value chosen.items) ≡ map rc_value chosen.items) }
{
    let mut chosen = Vec::new(allocator_of(lib));
    for function in lib.iter() {
        if asks(filter, function) {
            chosen.push(function.clone()?)?;
        }
    }
    Ok(chosen)
}

/// The same by the short form of a filter.
pub fn kept_functions<F: Fn(FnNamespace, FnAccess, &str, usize) -> bool>(
    lib: &FnLib,
    filter: &F,
) -> Result<Vec<Rc<ScriptFuncDef>>, OutOfMemory>
    requires { F.IsAlwaysCallable filter.now }
    ensures filtered { IfOk result (λ kept.
        IsFiltered (AnswersShort F.Fn) filter.now lib.now.functions (map rc_value kept.items)) }
    ensures table { IfOk result (λ kept. definitions_table (map rc_value kept.items) ≡ map rc_value kept.items) }
{
    chosen_functions(
        lib,
        &|namespace: FnNamespace, access: FnAccess, _: bool, name: &str, params: usize| {
            filter(namespace, access, name, params)
        },
    )
}
