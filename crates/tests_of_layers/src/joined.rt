//! Scripts that are merged, combined and filtered, and what their filters are asked; scripts that are walked, and what
//! their iterators give. Where a call is refused the script is said as it was before: `rt try --fail-alloc N` refuses
//! the Nth growth.

use crate::lends::lends;
use crate::scripts::{say_made, say_script, say_texts, script, table};
use crate::walks::{Walked, say_walk};
use rhai_ast::{FnAccess, FnNamespace};
use rhai_base::Boxed;
use rhai_script::AST;
use script_queries::{ScriptFnMetadata, ScriptQueries};
use std::cell::Cell;
use tests_reader::{Said, split};

pub fn answer(question: &str, text: &str, said: &Said) -> bool {
    match question {
        "join" => join(text, said),
        "of-functions" => of_functions(text, said),
        "walk-script" | "variables" | "lends" => of_walked(question, text, said),
        _ => return false,
    }
    true
}

/// What a filter takes, and what it is still to be asked, if all before came as it should.
#[derive(Drop)]
pub struct Asked<'a> {
    takes: &'a str,
    left: Cell<&'a str>,
    fits: Cell<bool>,
}

impl<'a> Asked<'a> {
    /// A filter that takes `all`, what is `public`, or what is named as `f 1`, with its number of parameters; and is
    /// to be asked of these, as `f 1, g 0`.
    fn of(takes: &'a str, wanted: &'a str) -> Asked<'a> {
        Asked {
            takes,
            left: Cell::new(wanted),
            fits: Cell::new(true),
        }
    }

    /// Notes a question, and says whether the function is taken.
    fn note(&self, namespace: FnNamespace, access: FnAccess, name: &str, params: usize) -> bool {
        let next = self.left.get();
        let (wanted, left) = next.split_once(", ").unwrap_or((next, ""));
        let is_public = access == FnAccess::Public;
        let fits = is_public && namespace == FnNamespace::Internal;
        self.fits
            .set(self.fits.get() && fits && is_named(wanted, name, params));
        self.left.set(left);
        match self.takes {
            "all" => true,
            "public" => is_public,
            wanted => is_named(wanted, name, params),
        }
    }

    /// Says whether all came, each once and in this order.
    fn say(&self, said: &Said) {
        let came = self.fits.get() && self.left.get().is_empty();
        said.word_if(came, "asked in turn");
    }
}

/// Whether a function is named so, as `f 1`.
fn is_named(wanted: &str, name: &str, params: usize) -> bool {
    let (wanted, count) = split(wanted, " ");
    name == wanted && count.parse::<usize>().ok() == Some(params)
}

/// What becomes of two scripts, by a filter, in each way: the line tells what the filter takes, and after a `;` what
/// it is to be asked.
fn join(text: &str, said: &Said) {
    let (filter, scripts) = split(text, "\n");
    let (first, second) = split(scripts, "\nwith\n");
    if let Some(first) = script(first, said)
        && let Some(second) = script(second, said)
    {
        join_all(first.get(), second.get(), filter, said);
    }
}

fn join_all(first: &AST, second: &AST, filter: &str, said: &Said) {
    let (takes, wanted) = split(filter, "; ");
    said.line("merged");
    say_made(first.merge(second), said);
    said.line("combined");
    say_combined(first, second, said);
    for kind in ["some merged", "some combined", "chosen"] {
        said.line(kind);
        say_filtered(kind, first, second, &Asked::of(takes, wanted), said);
    }
    said.line("retained");
    say_retained(second, takes, wanted, said);
    said.line("first");
    say_script(first, said);
}

/// Says what the first is with the second, or as it was.
fn say_combined(first: &AST, second: &AST, said: &Said) {
    if let Some(mut both) = said.made(first.clone())
        && let Some(second) = said.made(second.clone())
    {
        both.combine(second).ok();
        say_script(&both, said);
    }
}

/// Says what a filter takes of the second script: merged with the first, combined with it, or alone.
fn say_filtered(kind: &str, first: &AST, second: &AST, asked: &Asked, said: &Said) {
    let filter = |namespace, access, of_script, name: &str, params| {
        of_script && asked.note(namespace, access, name, params)
    };
    match kind {
        "some merged" => say_made(first.merge_filtered(second, filter), said),
        "chosen" => say_made(second.clone_functions_only_filtered(filter), said),
        _ => {
            if let Some(mut both) = said.made(first.clone())
                && let Some(second) = said.made(second.clone())
            {
                both.combine_filtered(second, filter).ok();
                say_script(&both, said);
            }
        }
    }
    asked.say(said);
}

/// Says what is left of a script of which a filter is asked.
pub fn say_retained(script: &AST, takes: &str, wanted: &str, said: &Said) {
    let asked = Asked::of(takes, wanted);
    if let Some(mut script) = said.made(script.clone()) {
        let retained = script.retain_functions(|namespace, access, name, params| {
            asked.note(namespace, access, name, params)
        });
        said.word_if(retained.is_err(), "refused");
        say_script(&script, said);
    }
    asked.say(said);
}

/// Statements, each on a line, and functions with their statements, each below a line `fn`.
fn walked(text: &str, said: &Said) -> Option<Boxed<AST>> {
    let (statements, functions) = split(text, "\nfn\n");
    let lib = table(functions, "\nfn\n", said)?;
    let script = AST::new(said.lines(statements), lib);
    said.perhaps_copied(said.boxed(Some(script)))
}

fn of_walked(question: &str, text: &str, said: &Said) {
    if let Some(script) = walked(text, said) {
        of_script(question, script.get(), said);
    }
}

fn of_script(question: &str, script: &AST, said: &Said) {
    match question {
        "variables" => {
            say_variables(script, true, false, said);
            say_variables(script, false, true, said);
            say_variables(script, true, true, said);
            say_variables(script, false, false, said);
        }
        "lends" => lends(script, said),
        _ => say_walk(&Walked::Script(script), said),
    }
}

fn of_functions(text: &str, said: &Said) {
    if let Some(script) = script(text, said) {
        say_functions(script.get(), said);
    }
}

/// The definitions in order, by their comments, and what functions say of themselves.
fn say_functions(script: &AST, said: &Said) {
    for function in script.iter_fn_def() {
        say_texts("/", function.comments.as_slice(), said);
    }
    for function in script.iter_functions() {
        say_function(function, said);
    }
}

fn say_function(function: ScriptFnMetadata, said: &Said) {
    said.line(function.this_type.unwrap_or("any"));
    said.word(function.name);
    say_texts("of", function.params, said);
    say_texts("/", function.comments, said);
    said.word_if(function.access == FnAccess::Public, "public");
}

/// The top-level variables with literal values: constants, variables, both or none.
fn say_variables(script: &AST, constants: bool, variables: bool, said: &Said) {
    said.line("");
    said.word_if(constants, "constants");
    said.word_if(variables, "variables");
    said.word("are");
    for variable in script.iter_literal_variables(constants, variables) {
        if let Some((name, is_constant, value)) = said.made(variable) {
            said.word_if(is_constant, "const");
            said.word(name);
            said.value(&value);
        }
    }
}
