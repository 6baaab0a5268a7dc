//! Names with the modules that they are in, and what is called by them.
#![tactic(auto, using(crate::proofs::PathSteps::path_steps))]

ghost use Rattle.std.specs.Prelude.{◌≡◌, ◌∷◌, [], List, IfSome, IsTrue, true, false, drop, map};
ghost use Rattle.base_text.specs.Text.{Text};
ghost use Rattle.ast_types.specs.Reading.{callee_of, path_of};
ghost use Rattle.theory_grammar.specs.Grammar.{ReadsCallee, ReadsPath, called, called_in, contains};

use crate::names::{is_function, is_name};
use crate::words::{past_letters, past_sign};
use ast_types::FnCallExpr;
use base_tokens::{Ident, Namespace};

/// The place behind a name and the modules before it.
pub(crate) fn past_path(text: &[u8], at: usize, namespace: &Namespace, name: &str) -> Option<usize>
    ensures { IfSome result (λ next. ReadsPath (drop at text.now) (path_of namespace.now) name.now (drop next text.now)) }
{
    past_modules(text, at, namespace.path.as_slice(), name)
}

fn past_modules(text: &[u8], at: usize, modules: &[Ident], name: &str) -> Option<usize>
    ensures { IfSome result (λ next. ReadsPath (drop at text.now) (map (λ m. m.name) modules.now) name.now (drop next text.now)) }
{
    let mut place = at;
    for module in modules {
        place = past_module(text, place, module.as_str())?;
    }
    let next = past_name(text, place, name)?;
    Some(next)
}

fn past_name(text: &[u8], at: usize, name: &str) -> Option<usize>
    ensures { IfSome result (λ next. ReadsPath (drop at text.now) [] name.now (drop next text.now)) }
{
    if is_name(name) {
        past_letters(text, at, name)
    } else {
        None
    }
}

/// The place behind a module and its `::`.
fn past_module(text: &[u8], at: usize, name: &str) -> Option<usize>
    ensures { IfSome result (λ next. (ns : List Text) (x rest : Text) → ReadsPath (drop next text.now) ns x rest
        → ReadsPath (drop at text.now) (name.now ∷ ns) x rest) }
{
    if !is_name(name) {
        return None;
    }
    let behind = past_letters(text, at, name)?;
    past_sign(text, behind, "::", "<")
}

/// The place behind the name of what is called.
pub(crate) fn past_callee(text: &[u8], at: usize, call: &FnCallExpr) -> Option<usize>
    ensures { IfSome result (λ next. ReadsCallee (drop at text.now) (callee_of call.now) (drop next text.now)) }
{
    if is_called(call) {
        return past_own(text, at, call);
    }
    if is_capturing(call) {
        return past_capturing(text, at, call);
    }
    past_qualified(text, at, call)
}

fn past_own(text: &[u8], at: usize, call: &FnCallExpr) -> Option<usize>
    ensures { IfSome result (λ next. ReadsCallee (drop at text.now) (callee_of call.now) (drop next text.now)) }
{
    let name = call.name.as_str();
    if is_called(call) && is_function(name) {
        past_letters(text, at, name)
    } else {
        None
    }
}

fn past_capturing(text: &[u8], at: usize, call: &FnCallExpr) -> Option<usize>
    ensures { IfSome result (λ next. ReadsCallee (drop at text.now) (callee_of call.now) (drop next text.now)) }
{
    let name = call.name.as_str();
    if !is_capturing(call) || !is_function(name) {
        return None;
    }
    let behind = past_letters(text, at, name)?;
    past_sign(text, behind, "!", "=.")
}

fn past_qualified(text: &[u8], at: usize, call: &FnCallExpr) -> Option<usize>
    ensures { IfSome result (λ next. ReadsCallee (drop at text.now) (callee_of call.now) (drop next text.now)) }
{
    if !is_qualified(call) {
        return None;
    }
    past_path(text, at, &call.namespace, call.name.as_str())
}

/// Whether a call has what one by its name has.
pub(crate) fn is_called(call: &FnCallExpr) -> bool
    ensures { IsTrue result → callee_of call.now ≡ called call.now.name }
{
    call.namespace.is_empty() && !call.capture_parent_scope && call.op_token.is_none()
}

/// Whether it has what one has that sees its caller's names.
fn is_capturing(call: &FnCallExpr) -> bool
    ensures { IsTrue result → callee_of call.now ≡ called_in [] call.now.name true }
{
    call.namespace.is_empty() && call.capture_parent_scope && call.op_token.is_none()
}

/// Whether it has what one by a name with its modules has.
fn is_qualified(call: &FnCallExpr) -> bool
    ensures { IsTrue result → callee_of call.now ≡ called_in (path_of call.now.namespace) call.now.name false }
{
    !call.capture_parent_scope && call.op_token.is_none()
}

/// Whether it is one that `in` may stand for.
pub(crate) fn is_contains(call: &FnCallExpr) -> bool
    ensures { IsTrue result → callee_of call.now ≡ contains }
{
    is_called(call) && call.name.as_str() == "contains"
}
