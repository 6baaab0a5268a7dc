//! Scripts that are joined and filtered.

use crate::scripts::{made, say_made, say_script, shared, shown, source};
use crate::tried::{Tried, is_among};
use rhai_ast::{FnAccess, FnNamespace};
use rhai_base::{Boxed, OutOfMemory};
use rhai_script::AST;

/// The calls.
pub const CALLS: &str =
    "AST::merge AST::merge_filtered AST::clone_functions_only_filtered AST::combine AST::combine/table_growth \
    AST::combine_filtered AST::retain_functions";

/// The second script: one function takes the place of one of the first, one is new.
const SECOND: &str = "let q = 1
fn f(a, b) { a }
fn h() { [1, 2] }
";

pub fn make(name: &str, tried: &Tried) -> bool {
    if !is_among(name, CALLS) {
        return false;
    }
    if let Some(mut first) = source(tried)
        && let Some(second) = second(name, tried)
    {
        join(name, first.get_mut(), second.get(), tried);
    }
    true
}

fn second(name: &str, tried: &Tried) -> Option<Boxed<AST>> {
    match name {
        "AST::combine/table_growth" => function_alone(tried),
        _ => made(tried.said.script(SECOND)?, tried),
    }
}

/// A second script for which nothing grows but the first's table: no statements, no doc.
fn function_alone(tried: &Tried) -> Option<Boxed<AST>> {
    let script = tried.said.script("fn h() { [1, 2] }\n")?;
    let lib = shared(script.functions, tried)?;
    tried.said.boxed(Some(AST::new(script.statements, lib)))
}

fn join(name: &str, first: &mut AST, second: &AST, tried: &Tried) {
    match name {
        "AST::merge" => say_made(tried.answer(first.merge(second)), tried),
        "AST::merge_filtered" => {
            say_made(tried.answer(first.merge_filtered(second, is_long)), tried);
        }
        "AST::clone_functions_only_filtered" => {
            say_made(
                tried.answer(first.clone_functions_only_filtered(is_long)),
                tried,
            );
        }
        _ => change(name, first, second, tried),
    }
}

/// The filter: functions with parameters.
fn is_long(_: FnNamespace, _: FnAccess, _: bool, _: &str, params: usize) -> bool {
    params > 0
}

/// A refused change leaves the script as it was.
fn change(name: &str, first: &mut AST, second: &AST, tried: &Tried) {
    let before = shown(first, tried);
    if let Some(copy) = tried.said.made(second.clone())
        && tried.is_refused(&changed(name, first, copy))
    {
        tried.want(shown(first, tried) == before, "changed");
        if let Some(copy) = tried.said.made(second.clone()) {
            tried.said.made(changed(name, first, copy));
        }
    }
    say_script(first, tried);
}

fn changed(name: &str, first: &mut AST, second: AST) -> Result<(), OutOfMemory> {
    match name {
        "AST::combine" | "AST::combine/table_growth" => first.combine(second),
        "AST::combine_filtered" => first.combine_filtered(second, is_long),
        _ => first.retain_functions(|_, _, _: &str, params| params > 0),
    }
}
