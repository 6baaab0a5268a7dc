//! Functions.
#![tactic(auto, using(crate::proofs::FunctionSteps::function_steps))]

ghost use Rattle.std.specs.Prelude.{◌≡◌, [], IfSome, IsTrue, List, Some, drop, false};
ghost use Rattle.ast_types.specs.Reading.{function_of};
ghost use Rattle.base_text.specs.Text.{Text};
ghost use Rattle.theory_grammar.specs.Statements.{ReadsFn, ReadsFunction, ReadsHead, ReadsNames, ReadsParams, ReadsType, type_named};

use crate::memory::Memory;
use crate::parts::past_name;
use crate::quoted::past_text;
use crate::statements::block;
use crate::words::{past_letters, past_sign};
use ast_types::ScriptFuncDef;
use base_text::ImmutableString;

/// A function.
pub(crate) fn function(
    memory: &Memory,
    text: &[u8],
    at: usize,
    node: &ScriptFuncDef,
) -> Option<usize>
    ensures { IfSome result (λ next. ReadsFunction (drop at text.now) (function_of node.now) (drop next text.now)) }
{
    let first = past_fn(text, at)?;
    let second = past_head(text, first, &node.this_type, node.name.as_str())?;
    let third = past_params(text, second, node.params.as_slice())?;
    block(memory, text, third, node.body.statements())
}

/// The place behind the words before a function's name.
fn past_fn(text: &[u8], at: usize) -> Option<usize>
    ensures { IfSome result (λ next. ReadsFn (drop at text.now) (drop next text.now)) }
{
    if let Some(behind) = past_letters(text, at, "private") {
        return past_letters(text, behind, "fn");
    }
    past_letters(text, at, "fn")
}

/// The place behind a function's name and the type before it.
fn past_head(
    text: &[u8],
    at: usize,
    this_type: &Option<ImmutableString>,
    name: &str,
) -> Option<usize>
    ensures { IfSome result (λ next. ReadsHead (drop at text.now) this_type.now name.now (drop next text.now)) }
{
    match this_type {
        Some(this_type) => past_typed(text, at, this_type.as_str(), name),
        None => past_name(text, at, name),
    }
}

fn past_typed(text: &[u8], at: usize, this_type: &str, name: &str) -> Option<usize>
    ensures { IfSome result (λ next. ReadsHead (drop at text.now) (Some this_type.now) name.now (drop next text.now)) }
{
    let mid = past_type(text, at, this_type)?;
    let behind = past_sign(text, mid, ".", ".")?;
    past_name(text, behind, name)
}

/// The place behind the type of a receiver.
fn past_type(text: &[u8], at: usize, this_type: &str) -> Option<usize>
    ensures { IfSome result (λ next. ReadsType (drop at text.now) this_type.now (drop next text.now)) }
{
    if let Some(next) = past_type_as(text, at, this_type, this_type) {
        return Some(next);
    }
    past_type_as(text, at, "int", this_type)
}

/// The place behind a type that is written so.
fn past_type_as(text: &[u8], at: usize, written: &str, this_type: &str) -> Option<usize>
    ensures { IfSome result (λ next. ReadsType (drop at text.now) this_type.now (drop next text.now)) }
{
    if is_written_as(written, this_type) {
        past_written(text, at, written)
    } else {
        None
    }
}

fn past_written(text: &[u8], at: usize, written: &str) -> Option<usize>
    ensures { IfSome result (λ next. ReadsType (drop at text.now) (type_named written.now) (drop next text.now)) }
{
    if let Some(next) = past_name(text, at, written) {
        return Some(next);
    }
    past_text(text, at, written.as_bytes())
}

fn is_written_as(written: &str, this_type: &str) -> bool
    ensures { IsTrue result → type_named written.now ≡ this_type.now }
{
    if written == "int" {
        this_type == "i64"
    } else {
        written == this_type
    }
}

/// The place behind parameters in their parentheses.
fn past_params(text: &[u8], at: usize, params: &[ImmutableString]) -> Option<usize>
    ensures { IfSome result (λ next. ReadsParams (drop at text.now) params.now (drop next text.now)) }
{
    if params.is_empty() {
        if let Some(next) = past_sign(text, at, "()", "") {
            return Some(next);
        }
    }
    let behind = past_sign(text, at, "(", ")*")?;
    past_names(text, behind, params)
}

fn past_names(text: &[u8], at: usize, params: &[ImmutableString]) -> Option<usize>
    ensures { IfSome result (λ next. ReadsNames false (drop at text.now) params.now (drop next text.now)) }
{
    let mut place = at;
    let mut owed = false;
    for param in params {
        let start = past_comma(text, place, owed)?;
        place = past_name(text, start, param.as_str())?;
        owed = true;
    }
    let next = end_of_names(text, place, owed)?;
    Some(next)
}

/// The place behind a comma, where one is owed.
fn past_comma(text: &[u8], at: usize, owed: bool) -> Option<usize>
    ensures { IfSome result (λ next. (rest : Text) (xs : List Text) → ReadsNames false (drop next text.now) xs rest
        → ReadsNames owed (drop at text.now) xs rest) }
{
    if owed {
        past_sign(text, at, ",", "")
    } else {
        Some(at)
    }
}

/// The place behind the end of the parameters, before which a comma may stand behind one.
fn end_of_names(text: &[u8], at: usize, owed: bool) -> Option<usize>
    ensures { IfSome result (λ next. ReadsNames owed (drop at text.now) [] (drop next text.now)) }
{
    if owed {
        if let Some(behind) = past_sign(text, at, ",", "") {
            return past_sign(text, behind, ")", "");
        }
    }
    past_sign(text, at, ")", "")
}
