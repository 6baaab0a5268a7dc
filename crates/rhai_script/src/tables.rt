//! Tables by the new names.
ghost use Rattle.std.specs.Prelude.{◌≡◌, ℕ, IfOk, List, map};
ghost use Rattle.std.specs.Rc.{rc_value};
ghost use Rattle.ast_types.specs.declared.script_fn.ScriptFuncDef.{ScriptFuncDef as definition};
ghost use Rattle.script_names.specs.Functions.{AreRenamed};
ghost use Rattle.script_names.specs.Names.{stands};
ghost use Rattle.script_names.specs.declared.naming.Names.TheVariants.{Marked};
ghost use Rattle.script_tables.specs.FnKey.{definitions_table};

use rhai_ast::ScriptFuncDef;
use rhai_base::OutOfMemory;
use script_names::{Names, renamed_function};
use script_tables::{FnLib, SharedLib, allocator_of, replaced};
use std::alloc::Global;
use std::rc::Rc;

fn renamed_functions(
    alloc: Global,
    names: &Names,
    lib: &FnLib,
) -> Result<Vec<Rc<ScriptFuncDef>>, OutOfMemory>
    ensures renamed { IfOk result (λ all. AreRenamed (stands names.now) lib.now.functions (map rc_value all.items)) }
    ensures marked { (n : ℕ) → names.now ≡ Marked n
        → IfOk result (λ all. definitions_table (map rc_value all.items) ≡ map rc_value all.items) }
{
    let mut all = Vec::new(alloc);
    for function in lib.iter() {
        let renamed = renamed_function(alloc, names, function)?;
        all.push(Rc::new(alloc, renamed)?)?;
    }
    Ok(all)
}

/// The table of a table's functions by the new names, with its id. Where two have one key then, the later one takes the
/// place of the earlier one. Marks keep all functions apart.
pub(crate) fn renamed_lib(names: &Names, lib: &FnLib) -> Result<SharedLib, OutOfMemory>
    ensures id { IfOk result (λ made. made.value.id ≡ lib.now.id) }
    ensures functions { IfOk result (λ made.
        (all : List definition) × AreRenamed (stands names.now) lib.now.functions all
        × (made.value.functions ≡ definitions_table all)) }
    ensures marked { (n : ℕ) → names.now ≡ Marked n
        → IfOk result (λ made. AreRenamed (stands names.now) lib.now.functions made.value.functions) }
{
    let alloc = allocator_of(lib);
    let made = replaced(lib, renamed_functions(alloc, names, lib)?)?;
    Ok(Rc::new(alloc, made)?)
}
