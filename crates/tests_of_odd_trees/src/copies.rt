//! Copies of a script that are joined and taken apart.

use crate::case::Case;
use rhai_ast::{FnAccess, FnNamespace};
use rhai_base::OutOfMemory;
use rhai_script::AST;
use tests_reader::Said;

/// Joins copies and takes them apart, each time with so many statements and functions left.
pub fn ask(case: &Case, script: &AST, said: &Said) {
    let (count, all) = (script.statements().len(), script.shared_lib().len());
    ask_joined(case, script, (count.saturating_mul(2), all), said);
    let made = Made { case, said };
    made.want(script.clone_statements_only(), (count, 0), "statements");
    made.want(script.clone_functions_only(), (0, all), "functions");
    made.want(
        script.clone_functions_only_filtered(is_none),
        (0, 0),
        "no function",
    );
    made.want(retained(script), (count, 0), "no function retained");
    made.want(cleared(script), (0, 0), "a cleared script");
}

fn ask_joined(case: &Case, script: &AST, both: (usize, usize), said: &Said) {
    let made = Made { case, said };
    made.want(script.merge(script), both, "a merged script");
    made.want(
        script.merge_filtered(script, is_none),
        both,
        "a script merged with no function",
    );
    made.want(combined(script), both, "a combined script");
}

/// What is made of a case's script.
#[derive(Clone, Copy)]
struct Made<'a> {
    case: &'a Case<'a>,
    said: &'a Said,
}

impl<'a> Made<'a> {
    /// Wants a script with so many statements and functions.
    fn want(&self, script: Result<AST, OutOfMemory>, counts: (usize, usize), what: &str) {
        let is_made = match self.said.made(script) {
            Some(script) => (script.statements().len(), script.shared_lib().len()) == counts,
            None => false,
        };
        self.case.want(is_made, what);
    }
}

/// The filter that chooses nothing.
fn is_none(_: FnNamespace, _: FnAccess, _: bool, _: &str, _: usize) -> bool {
    false
}

fn combined(script: &AST) -> Result<AST, OutOfMemory> {
    let mut both = script.clone()?;
    both.combine_filtered(script.clone()?, is_none)?;
    both.clear_statements();
    both.combine(script.clone()?)?;
    both.combine(script.clone_statements_only()?)?;
    Ok(both)
}

fn retained(script: &AST) -> Result<AST, OutOfMemory> {
    let mut copy = script.clone()?;
    copy.retain_functions(|_, _, _: &str, _| false)?;
    Ok(copy)
}

fn cleared(script: &AST) -> Result<AST, OutOfMemory> {
    let mut copy = script.clone()?;
    copy.clear_functions()?;
    copy.clear_statements();
    Ok(copy)
}
