//! What a run does not see of scripts: docs, comments, and who may call a function.
#![tactic(auto)]

ghost use Rattle.std.specs.Prelude.{◌≡◌, IfOk, IsTrue, false};
ghost use Rattle.theory_naming.specs.Renaming as renaming;
ghost use Rattle.rhai_script.specs.Contents.{contents};
ghost use Rattle.ast_alike.specs.Dressed.{AreDressed, DressedAlike, IsDressed};

use crate::scripts::key_named;
use ast_types::{FnAccess, ScriptFuncDef};
use rhai_base::{ImmutableString, OutOfMemory, Seq};
use rhai_script::AST;
use script_names::is_anonymous;
use script_tables::FnLib;

/// Whether the second script has the doc of the first, and each function of the first that has a name of its own with
/// the access and the comments that it has there.
pub fn dressed_alike(first: &AST, second: &AST) -> Result<bool, OutOfMemory>
    ensures { IfOk result (λ alike.
        IsTrue alike → DressedAlike (contents first.now) (contents second.now)) }
{
    if !is_doc(first.doc(), second.doc()) {
        return Ok(false);
    }
    are_dressed(second.shared_lib(), first.shared_lib())
}

fn is_doc(first: &str, second: &str) -> bool
    ensures { IsTrue result → second.now ≡ first.now }
{
    first == second
}

/// Whether the first table has the functions of the second.
fn are_dressed(first: &FnLib, second: &FnLib) -> Result<bool, OutOfMemory>
    ensures { IfOk result (λ all. IsTrue all → AreDressed first.now.functions second.now.functions) }
{
    for function in second.iter() {
        if !is_dressed(first, function)? {
            return Ok(false);
        }
    }
    Ok(true)
}

fn is_dressed(first: &FnLib, function: &ScriptFuncDef) -> Result<bool, OutOfMemory>
    ensures { IfOk result (λ dressed.
        IsTrue dressed → renaming.is_anonymous function.now.name ≡ false → IsDressed first.now.functions function.now) }
{
    if is_anonymous(function.name.as_str()) {
        return Ok(true);
    }
    let key = key_named(function.name.clone()?, function)?;
    match first.get(&key) {
        Some(other) => Ok(has_dress(other, function)),
        None => Ok(false),
    }
}

/// Whether two functions have the same access and comments.
fn has_dress(first: &ScriptFuncDef, second: &ScriptFuncDef) -> bool
    ensures access { IsTrue result → first.now.access ≡ second.now.access }
    ensures comments { IsTrue result → first.now.comments ≡ second.now.comments }
{
    is_access(first.access, second.access) && are_comments(&first.comments, &second.comments)
}

fn is_access(first: FnAccess, second: FnAccess) -> bool
    ensures { IsTrue result → first ≡ second }
{
    match (first, second) {
        (FnAccess::Private, FnAccess::Private) | (FnAccess::Public, FnAccess::Public) => true,
        _ => false,
    }
}

fn are_comments(first: &Seq<ImmutableString>, second: &Seq<ImmutableString>) -> bool
    ensures { IsTrue result → first.now ≡ second.now }
{
    first == second
}
