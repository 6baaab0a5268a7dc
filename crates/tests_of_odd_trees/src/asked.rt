//! What is asked of a tree.

use crate::case::Case;
use crate::{deep, runs, walks};
use rhai_ast::{ScriptFuncDef, Stmt, TreeError, check_tree, is_plain};
use rhai_script::AST;
use std::rc::Rc;
use tests_reader::{Said, Script};

/// Asks all of the tree of a text.
pub fn ask(case: &Case) {
    case.tally.tree();
    let said = Said::new(case.alloc, false);
    match read(case, &said) {
        Some(script) => ask_read(case, &script),
        None => case.want(false, "it is not read"),
    }
    runs::ask(case);
}

/// The script of a case.
pub fn read(case: &Case, said: &Said) -> Option<Script> {
    match case.nest {
        Some((nest, depth)) => deep::script(nest, depth, said),
        None => read_text(case, said),
    }
}

fn read_text(case: &Case, said: &Said) -> Option<Script> {
    let mut lines = String::new(said.alloc);
    said.made(lines.push_str(case.text));
    said.made(lines.push('\n'));
    said.script(lines.as_str())
}

fn ask_read(case: &Case, script: &Script) {
    let (statements, functions) = (script.statements.as_slice(), script.functions.as_slice());
    ask_tests(case, statements, functions);
    walks::ask(case, statements);
    for function in functions {
        walks::ask(case, function.body.statements());
    }
}

/// The two tests of a tree.
pub fn ask_tests(case: &Case, statements: &[Stmt], functions: &[Rc<ScriptFuncDef>]) {
    let fault = number_of(check_tree(case.alloc, statements, functions));
    case.want(fault == case.wanted.fault, "its fault");
    let is_plain = is_plain(statements, functions);
    case.want(is_plain == case.wanted.is_plain, "whether it is plain");
}

/// Those of a script that is made of it.
pub fn ask_script(case: &Case, script: &AST) {
    let fault = number_of(script.check());
    case.want(fault == case.wanted.fault, "a script's fault");
    let is_plain = script.is_plain();
    case.want(
        is_plain == case.wanted.is_plain,
        "whether a script is plain",
    );
}

/// Those of a script that is optimised: it is sound and plain where the source is.
pub fn ask_optimised(case: &Case, script: &AST) {
    let is_sound = number_of(script.check()) == 0;
    case.want(is_sound || !case.is_sound(), "an optimised script is sound");
    let is_plain = script.is_plain();
    case.want(
        is_plain || !case.wanted.is_plain,
        "an optimised script is plain",
    );
}

/// The number of a fault; 0 for none.
fn number_of(answer: Result<(), TreeError>) -> u8 {
    match answer {
        Ok(()) => 0,
        Err(error) => error.fault.number(),
    }
}
