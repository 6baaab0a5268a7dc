//! Two scripts.
#![tactic(auto, using(ast_types::specs::Reading::shapes))]

ghost use Rattle.std.specs.Prelude.{◌≡◌, IfOk, IsTrue, Some, length, true};
ghost use Rattle.script_names.specs.Names.{stands};
ghost use Rattle.script_tables.specs.FnKey.{key_meant};
ghost use Rattle.theory_meaning.specs.Act.{Key};
ghost use Rattle.theory_meaning.specs.Calls.{key};
ghost use Rattle.theory_meaning.specs.Plain.{all_true};
ghost use Rattle.theory_meaning.specs.Tree.{Block};
ghost use Rattle.theory_meaning.specs.Walk.{over_stmts};
ghost use Rattle.theory_naming.specs.Alike.{AreCovered, AreKeyed, AreThere, AreWanted, IsCovered, IsWanted, function_at, key_at};
ghost use Rattle.theory_naming.specs.Renaming.{calls_by_name};
ghost use Rattle.theory_naming.specs.Renaming as renaming;
ghost use Rattle.theory_spelling.specs.Bare.{SpelledAlike, SpelledButNames, bare_function, bare_stmts, emptied, is_empty_block, is_one_empty};
ghost use Rattle.rhai_script.specs.Script.{script_of};
ghost use Rattle.ast_types.specs.Reading.{function_of, stmt_of, stmts_of};
ghost use Rattle.ast_alike.specs.Scripts.{ArePairs, HasKey, bare_table};

use crate::closures::{Closures, are_by_name, closures_of, is_unread};
use crate::nodes::bare_stmts;
use ast_same::{same_function, same_stmts};
use ast_types::{ScriptFuncDef, Stmt, StmtBlock};
use rhai_base::{ImmutableString, OutOfMemory, Seq, Span};
use rhai_script::AST;
use script_names::{Names, is_anonymous, renamed_function, renamed_stmts};
use script_tables::{FnKey, FnLib};
use std::alloc::Global;

/// Whether the scripts are the same but for how they are spelled: constants against the literals that write them out,
/// braces, call statements, `Noop`, one operand, flags without a meaning, arms that no list names, and so on; the order
/// of functions; and, as in `same_script`, positions. Where it answers true, all their runs are equal. It takes memory
/// for bare copies of both.
pub fn spelled_alike(alloc: Global, first: &AST, second: &AST) -> Result<bool, OutOfMemory>
    ensures { IfOk result (λ alike. IsTrue alike → SpelledAlike (script_of first.now) (script_of second.now)) }
{
    if !alike_stmts(alloc, first.statements(), second.statements())? {
        return Ok(false);
    }
    alike_tables(alloc, first.shared_lib(), second.shared_lib())
}

/// The same but for names: `written` has the names that the second script's closures have in the first one, in the
/// order of its table. Functions of the first that have no name of their own and that none of the second stands for may
/// be there.
pub fn spelled_alike_but_names(
    alloc: Global,
    first: &AST,
    second: &AST,
    written: &[ImmutableString],
) -> Result<bool, OutOfMemory>
    ensures { IfOk result (λ alike. IsTrue alike → SpelledButNames (script_of first.now) (script_of second.now)) }
{
    match closures_of(alloc, second.shared_lib(), written)? {
        Some(closures) => alike_but_names(alloc, first, second, &closures),
        None => Ok(false),
    }
}

fn alike_but_names(
    alloc: Global,
    first: &AST,
    second: &AST,
    closures: &Closures,
) -> Result<bool, OutOfMemory>
    ensures { ArePairs closures.now
        → IfOk result (λ alike. IsTrue alike → SpelledButNames (script_of first.now) (script_of second.now)) }
{
    let (statements, names) = (second.statements(), &closures.names);
    let alike = renamed_alike(alloc, first.statements(), statements, names)?;
    if !alike {
        return Ok(false);
    }
    renamed_tables_alike(alloc, first.shared_lib(), second.shared_lib(), closures)
}

fn alike_stmts(alloc: Global, first: &[Stmt], second: &[Stmt]) -> Result<bool, OutOfMemory>
    ensures { IfOk result (λ alike.
        IsTrue alike → bare_stmts (stmts_of first.now) ≡ bare_stmts (stmts_of second.now)) }
{
    let first = bare_stmts(alloc, first)?;
    let second = bare_stmts(alloc, second)?;
    Ok(same_stmts(first.as_slice(), second.as_slice()))
}

/// The second by other names, which call functions by names of their own.
fn renamed_alike(
    alloc: Global,
    first: &[Stmt],
    second: &[Stmt],
    names: &Names,
) -> Result<bool, OutOfMemory>
    ensures alike { IfOk result (λ alike.
        IsTrue alike
        → bare_stmts (stmts_of first.now) ≡ renaming.renamed_stmts (stands names.now) (bare_stmts (stmts_of second.now))) }
    ensures by_name { IfOk result (λ alike.
        IsTrue alike → over_stmts (all_true calls_by_name) (bare_stmts (stmts_of second.now)) ≡ true) }
{
    let second = bare_stmts(alloc, second)?;
    if !are_by_name(second.as_slice()) {
        return Ok(false);
    }
    let second = renamed_stmts(alloc, names, second.as_slice())?;
    let first = bare_stmts(alloc, first)?;
    Ok(same_stmts(first.as_slice(), second.as_slice()))
}

// ---- tables

/// Whether they have the same function for each key.
fn alike_tables(alloc: Global, first: &FnLib, second: &FnLib) -> Result<bool, OutOfMemory>
    ensures { IfOk result (λ alike.
        IsTrue alike
        → (k : Key) → function_at (bare_table first.now) k ≡ function_at (bare_table second.now) k) }
{
    let there = are_there(alloc, first, second)?;
    if !there {
        return Ok(false);
    }
    are_keyed(first, second)
}

/// Whether the first has the functions of the second by their new names, and no others but closures that nothing of
/// the second stands for.
fn renamed_tables_alike(
    alloc: Global,
    first: &FnLib,
    second: &FnLib,
    closures: &Closures,
) -> Result<bool, OutOfMemory>
    ensures { ArePairs closures.now
        → IfOk result (λ alike.
        IsTrue alike
        → AreCovered (stands closures.now.names) (bare_table first.now) (bare_table second.now)
        × AreWanted (stands closures.now.names) (bare_table second.now) (bare_table first.now)) }
{
    let covered = are_covered(alloc, first, second, &closures.names)?;
    if !covered {
        return Ok(false);
    }
    are_wanted(first, second, closures)
}

/// Whether each function of the second is in the first.
fn are_there(alloc: Global, first: &FnLib, second: &FnLib) -> Result<bool, OutOfMemory>
    ensures { IfOk result (λ all. IsTrue all → AreThere (bare_table first.now) (bare_table second.now)) }
{
    for function in second.iter() {
        if !is_there(alloc, first, function)? {
            return Ok(false);
        }
    }
    Ok(true)
}

fn is_there(alloc: Global, first: &FnLib, function: &ScriptFuncDef) -> Result<bool, OutOfMemory>
    ensures { IfOk result (λ there.
        IsTrue there
        → function_at (bare_table first.now) (key_at (bare_function (function_of function.now)))
        ≡ Some (bare_function (function_of function.now))) }
{
    let key = key_named(function.name.clone()?, function)?;
    match first.get(&key) {
        Some(own) => alike_function(alloc, own, function),
        None => Ok(false),
    }
}

/// Whether each key of the first is in the second.
fn are_keyed(first: &FnLib, second: &FnLib) -> Result<bool, OutOfMemory>
    ensures { IfOk result (λ all. IsTrue all → AreKeyed (bare_table second.now) (bare_table first.now)) }
{
    for function in first.iter() {
        if !has_key(second, function.name.clone()?, function)? {
            return Ok(false);
        }
    }
    Ok(true)
}

/// Whether each function of the second, by its new name, is in the first.
fn are_covered(
    alloc: Global,
    first: &FnLib,
    second: &FnLib,
    names: &Names,
) -> Result<bool, OutOfMemory>
    ensures { IfOk result (λ all.
        IsTrue all → AreCovered (stands names.now) (bare_table first.now) (bare_table second.now)) }
{
    for function in second.iter() {
        if !is_covered(alloc, first, function, names)? {
            return Ok(false);
        }
    }
    Ok(true)
}

fn is_covered(
    alloc: Global,
    first: &FnLib,
    function: &ScriptFuncDef,
    names: &Names,
) -> Result<bool, OutOfMemory>
    ensures { IfOk result (λ covered.
        IsTrue covered
        → IsCovered (stands names.now) (bare_table first.now) (bare_function (function_of function.now))) }
{
    let name = names.name_for(alloc, &function.name)?;
    let key = key_named(name, function)?;
    match first.get(&key) {
        Some(own) => renamed_function_alike(alloc, own, function, names),
        None => Ok(false),
    }
}

/// Whether each function of the first that one of the second would stand for has one there.
fn are_wanted(first: &FnLib, second: &FnLib, closures: &Closures) -> Result<bool, OutOfMemory>
    ensures { ArePairs closures.now
        → IfOk result (λ all.
        IsTrue all → AreWanted (stands closures.now.names) (bare_table second.now) (bare_table first.now)) }
{
    for function in first.iter() {
        if !is_wanted(second, function, closures)? {
            return Ok(false);
        }
    }
    Ok(true)
}

fn is_wanted(
    second: &FnLib,
    function: &ScriptFuncDef,
    closures: &Closures,
) -> Result<bool, OutOfMemory>
    ensures { ArePairs closures.now
        → IfOk result (λ wanted.
        IsTrue wanted
        → IsWanted (stands closures.now.names) (bare_table second.now) (bare_function (function_of function.now))) }
{
    if !is_anonymous(function.name.as_str()) {
        return has_key(second, function.name.clone()?, function);
    }
    if is_unread(function.name.as_str()) {
        return Ok(false);
    }
    match closures.back.get(&function.name) {
        Some(name) => has_key(second, name.clone()?, function),
        None => Ok(true),
    }
}

/// Whether a table has the key of a function by this name.
fn has_key(
    table: &FnLib,
    name: ImmutableString,
    function: &ScriptFuncDef,
) -> Result<bool, OutOfMemory>
    ensures { IfOk result (λ has.
        IsTrue has
        → HasKey (bare_table table.now) (key name (length function.now.params) function.now.this_type)) }
{
    let key = key_named(name, function)?;
    Ok(table.get(&key).is_some())
}

/// The key of a function by this name.
pub(crate) fn key_named(
    name: ImmutableString,
    function: &ScriptFuncDef,
) -> Result<FnKey, OutOfMemory>
    ensures { IfOk result (λ k. key_meant k ≡ key name (length function.now.params) function.now.this_type) }
{
    let this_type = function.this_type.clone()?;
    Ok(FnKey {
        name,
        params: function.params.len(),
        this_type,
    })
}

// ---- functions

fn alike_function(
    alloc: Global,
    first: &ScriptFuncDef,
    second: &ScriptFuncDef,
) -> Result<bool, OutOfMemory>
    ensures { IfOk result (λ alike.
        IsTrue alike → bare_function (function_of first.now) ≡ bare_function (function_of second.now)) }
{
    let first = bare_function(alloc, first)?;
    let second = bare_function(alloc, second)?;
    Ok(same_function(&first, &second))
}

/// The second by other names, which calls functions by names of their own.
fn renamed_function_alike(
    alloc: Global,
    first: &ScriptFuncDef,
    second: &ScriptFuncDef,
    names: &Names,
) -> Result<bool, OutOfMemory>
    ensures alike { IfOk result (λ alike.
        IsTrue alike
        → bare_function (function_of first.now)
        ≡ renaming.renamed_function (stands names.now) (bare_function (function_of second.now))) }
    ensures by_name { IfOk result (λ alike.
        IsTrue alike
        → over_stmts (all_true calls_by_name) (bare_function (function_of second.now)).body ≡ true) }
{
    let second = bare_function(alloc, second)?;
    if !are_by_name(second.body.statements()) {
        return Ok(false);
    }
    let second = renamed_function(alloc, names, &second)?;
    let first = bare_function(alloc, first)?;
    Ok(same_function(&first, &second))
}

/// A body of one empty block has no statements.
fn emptied(alloc: Global, stmts: Seq<Stmt>) -> Seq<Stmt>
    ensures { stmts_of result ≡ emptied (stmts_of stmts) }
{
    if is_one_empty(stmts.as_slice()) {
        return Seq::new(alloc);
    }
    stmts
}

fn is_one_empty(stmts: &[Stmt]) -> bool
    ensures { result ≡ is_one_empty (stmts_of stmts.now) }
{
    match stmts {
        [only] => is_empty_block(only),
        _ => false,
    }
}

fn is_empty_block(stmt: &Stmt) -> bool
    ensures { result ≡ is_empty_block (stmt_of stmt.now) }
{
    match stmt {
        Stmt::Block(block) => is_empty(block.get().statements()),
        _ => false,
    }
}

fn is_empty(stmts: &[Stmt]) -> bool
    ensures { result ≡ is_empty_block (Block (stmts_of stmts.now)) }
{
    match stmts {
        [] => true,
        _ => false,
    }
}

fn bare_function(alloc: Global, function: &ScriptFuncDef) -> Result<ScriptFuncDef, OutOfMemory>
    ensures { IfOk result (λ f. function_of f ≡ bare_function (function_of function.now)) }
{
    let name = function.name.clone()?;
    let this_type = function.this_type.clone()?;
    let params = function.params.clone()?;
    let statements = emptied(alloc, bare_stmts(alloc, function.body.statements())?);
    Ok(ScriptFuncDef {
        body: StmtBlock::new_with_span(statements.into_vec(), Span::NONE),
        name,
        this_type,
        access: function.access,
        params,
        comments: Seq::new(alloc),
    })
}
