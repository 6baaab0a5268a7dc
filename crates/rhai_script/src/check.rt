//! Tests of a script.
ghost use Rattle.std.specs.Prelude.{◌≡◌};
ghost use Rattle.rhai_ast.specs.PlainWalk.{plain_walk};
ghost use Rattle.rhai_ast.specs.Refusals.{Finds};
ghost use Rattle.rhai_ast.specs.StandingFaults.{Stands, StandsInFunctions, StandsInScript, fault_in};
ghost use Rattle.script_tables.specs.FnLib.{functions_of};
ghost use Rattle.theory_meaning.specs.Faults as faults;
ghost use Rattle.theory_meaning.specs.Laws.{WellFormedLaw};
ghost use Rattle.theory_meaning.specs.Plain as plain;
ghost use Rattle.theory_meaning.specs.Walk.{over_functions};
ghost use Rattle.rhai_script.specs.Script.{script_of};

use crate::ast::AST;
use rhai_ast::{TreeError, check_functions, check_stmts, is_plain};
use script_tables::{FnLib, allocator_of};
use std::alloc::Global;
use std::slice;

impl AST {
    /// Its first fault, and where it stands, as `check_tree` finds it, but without a list of the functions. It is not in
    /// rhai.
    pub fn check(&self) -> Result<(), TreeError>
        ensures first { Finds (faults.script_fault (script_of self.now)) (fault_in result) }
        ensures stands { Stands (StandsInScript self.now.body.block self.now.lib.value.functions) result }
        ensures law { WellFormedLaw (script_of self.now) }
    {
        let lib = self.shared_lib();
        let alloc = allocator_of(lib);
        check_stmts(alloc, self.statements(), false)?;
        check_table(alloc, lib)
    }

    /// Whether it is plain, as `is_plain` says of its parts. It takes no memory. It is not in rhai.
    pub fn is_plain(&self) -> bool
        ensures { result ≡ plain.is_plain (script_of self.now) }
    {
        is_plain(self.statements(), &[]) && are_plain(self.shared_lib())
    }
}

/// The first fault of the functions of a table, in its order.
fn check_table(alloc: Global, lib: &FnLib) -> Result<(), TreeError>
    ensures first { Finds (faults.functions_fault (functions_of lib.now)) (fault_in result) }
    ensures stands { Stands (StandsInFunctions lib.now.functions) result }
{
    for function in lib.iter() {
        check_functions(alloc, slice::from_ref(function))?;
    }
    Ok(())
}

fn are_plain(lib: &FnLib) -> bool
    ensures { result ≡ over_functions plain_walk (functions_of lib.now) }
{
    for function in lib.iter() {
        if !is_plain(&[], slice::from_ref(function)) {
            return false;
        }
    }
    true
}
