//! What can be asked of a whole script.

use crate::case::Case;
use crate::copies;
use notation_print::{push_lines, push_script};
use rhai_ast::ASTNode;
use rhai_script::AST;
use script_queries::ScriptQueries;
use syntax_source::{SourceError, source};
use tests_reader::Said;

/// Asks all of a script: how it is printed in both syntaxes, what it has, a walk over it, what becomes of its copies.
pub fn ask(case: &Case, script: &AST) {
    let said = Said::new(case.alloc, false);
    case.want(
        printed(script, &said) == printed(script, &said),
        "a script in print",
    );
    ask_source(case, script);
    ask_parts(case, script, &said);
    ask_walk(case, script);
    copies::ask(case, script, &said);
    case.want(said.is_whole(), "a copy of a script");
}

fn printed(script: &AST, said: &Said) -> String {
    let mut text = String::new(said.alloc);
    said.made(push_script(script, &mut text));
    said.made(push_lines(script.statements(), &mut text));
    text
}

/// In rhai's own syntax it is refused by a reason, or read as a script that does the same.
fn ask_source(case: &Case, script: &AST) {
    match source(case.alloc, script) {
        Ok(_) => case.tally.printed(),
        Err(SourceError::Unspelled(_)) => case.tally.unspelled(),
        Err(SourceError::AnotherScript) => case.tally.another(),
        Err(_) => case.want(false, "a script in rhai's own syntax"),
    }
}

fn ask_parts(case: &Case, script: &AST, said: &Said) {
    let mut functions = 0usize;
    for function in script.iter_functions() {
        case.tally.calls(function.params.len());
        functions = functions.saturating_add(1);
    }
    let lib = script.shared_lib();
    case.want(functions == lib.len(), "how many functions there are");
    case.want(
        lib.is_empty() != script.has_functions(),
        "whether there are functions",
    );
    let mut literals = 0usize;
    for variable in script.iter_literal_variables(true, true) {
        case.want(
            said.made(variable).is_some(),
            "a variable with a literal value",
        );
        literals = literals.saturating_add(1);
    }
    case.want(
        literals <= script.statements().len(),
        "how many have literal values",
    );
}

fn ask_walk(case: &Case, script: &AST) {
    let mut nodes = 0usize;
    let mut show = |_: &[ASTNode]| {
        nodes = nodes.saturating_add(1);
        true
    };
    let finished = script.walk(&mut show);
    case.want(finished == Ok(true), "a walk over a script");
    if case.nest.is_none() {
        for before in 0..nodes {
            stop(case, script, before);
        }
    }
}

/// Walks up to the node before which so many are shown.
fn stop(case: &Case, script: &AST, before: usize) {
    let mut calls = 0usize;
    let mut show = |_: &[ASTNode]| {
        let goes_on = calls < before;
        calls = calls.saturating_add(1);
        goes_on
    };
    let finished = script.walk(&mut show);
    let is_stopped = finished == Ok(false) && calls == before.saturating_add(1);
    case.want(is_stopped, "a walk over a script that is stopped");
}
