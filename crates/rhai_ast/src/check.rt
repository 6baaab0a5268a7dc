//! The tests of a tree.

#![tactic(auto, using(crate::proofs::FoundLists::found))]

ghost use Rattle.std.specs.Prelude.{◌≡◌};
ghost use Rattle.rhai_ast.specs.Refusals.{Finds};
ghost use Rattle.rhai_ast.specs.Scripts.{script_by};
ghost use Rattle.rhai_ast.specs.StandingFaults.{Stands, StandsInScript, defs_of, fault_in};
ghost use Rattle.theory_meaning.specs.Faults as faults;
ghost use Rattle.theory_meaning.specs.Laws.{WellFormedLaw};
ghost use Rattle.theory_meaning.specs.Plain as plain;

use crate::faults::{TreeError, are_plain, are_plain_functions, check_functions, check_stmts};
use ast_types::{ScriptFuncDef, Stmt};
use std::alloc::Global;
use std::rc::Rc;

/// The first fault of the statements, and then of the functions in order, a function's name before its body: in
/// the order of the walk, and at one node the fault with the smallest number; and where that node stands, a name
/// where its body begins. Ok exactly where the tree is well-formed, if there is memory for the keys of each map
/// literal. It is not in rhai.
pub fn check_tree(
    alloc: Global,
    statements: &[Stmt],
    functions: &[Rc<ScriptFuncDef>],
) -> Result<(), TreeError>
    ensures first { Finds (faults.script_fault (script_by statements.now functions.now)) (fault_in result) }
    ensures stands { Stands (StandsInScript statements.now (defs_of functions.now)) result }
    ensures law { WellFormedLaw (script_by statements.now functions.now) }
{
    check_stmts(alloc, statements, false)?;
    check_functions(alloc, functions)
}

/// Whether no node that a walk shows calls `eval`, `is_def_var` or `is_def_fn` without a namespace, or
/// shares names. It is not in rhai.
pub fn is_plain(statements: &[Stmt], functions: &[Rc<ScriptFuncDef>]) -> bool
    ensures { result ≡ plain.is_plain (script_by statements.now functions.now) }
{
    are_plain(statements) && are_plain_functions(functions)
}
