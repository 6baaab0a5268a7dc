//! How many marks keep the functions of two tables apart that have no name of their own.
ghost use Rattle.std.specs.Prelude.{◌≡◌, ◌<◌, ℕ, IfOk, List, false, true};
ghost use Rattle.ast_types.specs.declared.script_fn.ScriptFuncDef.{ScriptFuncDef as definition};
ghost use Rattle.rhai_script.specs.Renamed.{AreNamesOf, clash, clashes};

use rhai_ast::ScriptFuncDef;
use rhai_base::OutOfMemory;
use script_names::{Names, is_anonymous};
use script_tables::{FnLib, allocator_of};
use std::alloc::Global;
use std::collections::HashSet;

/// The fewest marks with which no function of the second table that has no name of its own has the name of one of the
/// first. So many that no text has room for them are refused.
pub(crate) fn marks_apart(first: &FnLib, second: &FnLib) -> Result<usize, OutOfMemory>
    ensures apart { IfOk result (λ marks. clash marks first.now.functions second.now.functions ≡ false) }
    ensures least { IfOk result (λ marks.
        (k : ℕ) → k < marks → clash k first.now.functions second.now.functions ≡ true) }
{
    let names = names_of(first)?;
    for marks in 0..usize::MAX {
        let found = clash(&names, second, marks)?;
        if !found {
            return Ok(marks);
        }
    }
    Err(OutOfMemory)
}

/// The names of a table's functions.
fn names_of(lib: &FnLib) -> Result<HashSet<&str>, OutOfMemory>
    ensures { IfOk result (λ names. AreNamesOf lib.now.functions names) }
{
    let mut names = HashSet::new(allocator_of(lib));
    for function in lib.iter() {
        names.insert(function.name.as_str())?;
    }
    Ok(names)
}

fn clash(names: &HashSet<&str>, second: &FnLib, marks: usize) -> Result<bool, OutOfMemory>
    ensures { (fs : List definition) → AreNamesOf fs names.now
        → IfOk result (λ found. found ≡ clash marks fs second.now.functions) }
{
    let alloc = allocator_of(second);
    for function in second.iter() {
        let found = clashes(alloc, names, function, marks)?;
        if found {
            return Ok(true);
        }
    }
    Ok(false)
}

/// Whether a function has no name of its own and, with so many marks, one of these.
fn clashes(
    alloc: Global,
    names: &HashSet<&str>,
    function: &ScriptFuncDef,
    marks: usize,
) -> Result<bool, OutOfMemory>
    ensures { (fs : List definition) → AreNamesOf fs names.now
        → IfOk result (λ found. found ≡ clashes marks fs function.now) }
{
    if !is_anonymous(function.name.as_str()) {
        return Ok(false);
    }
    let name = Names::Marked(marks).name_for(alloc, &function.name)?;
    Ok(names.contains(name.as_str()))
}
