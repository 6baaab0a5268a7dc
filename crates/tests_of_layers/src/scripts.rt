//! Scripts: how they are read, what they have, and their parts.

use crate::joined::say_retained;
use rhai_ast::{FnAccess, FnNamespace, ScriptFuncDef, Stmt, StmtBlock, StmtQueries};
use rhai_base::{Boxed, ImmutableString, OutOfMemory, Position, Seq};
use rhai_script::{AST, FnKey, FnLib};
use std::rc::Rc;
use tests_reader::{Said, split};

pub fn answer(question: &str, text: &str, said: &Said) -> bool {
    match question {
        "functions" => functions(text, said),
        "found" => found(text, said),
        "source" => source(text, said),
        "halves" => halves(text, said),
        "module" => module(text, said),
        "private" => private(text, said),
        _ => return false,
    }
    true
}

/// A script of a line with its source, or `-` for none, and perhaps its doc; then its functions, each on a line. It
/// has one statement, in line 5 of the source `b`, in line 3 of others.
pub fn script(text: &str, said: &Said) -> Option<Boxed<AST>> {
    let (head, functions) = split(text, "\n");
    let (source, doc) = split(head, " ");
    let lib = table(functions, "\n", said)?;
    let made = AST::new_with_source(noop(source, said), lib, source.trim_matches('-'));
    let mut script = said.boxed(said.made(made))?;
    said.made(script.get_mut().set_doc(doc));
    Some(script)
}

fn noop(source: &str, said: &Said) -> Vec<Stmt> {
    let line = if source == "b" { 5 } else { 3 };
    said.list_of(Some(Stmt::Noop(Position::new(line, 4))))
}

/// The table of these functions, with these letters between them.
pub fn table(text: &str, between: &str, said: &Said) -> Option<Rc<FnLib>> {
    let mut functions = Vec::new(said.alloc);
    for function in text.split(between) {
        if !function.is_empty() {
            said.push(&mut functions, said.counted(with_body(function, said)));
        }
    }
    of_functions(functions, said)
}

fn of_functions(functions: Vec<Rc<ScriptFuncDef>>, said: &Said) -> Option<Rc<FnLib>> {
    said.counted(said.made(FnLib::from_functions(said.alloc, functions)))
}

/// A function, and below it its statements, if it has any.
pub fn with_body(text: &str, said: &Said) -> Option<ScriptFuncDef> {
    let (line, body) = text.split_once('\n').unwrap_or((text, "none"));
    let mut function = function(line, said)?;
    let (start, end) = (Position::new(1, 16), Position::new(1, 23));
    function.body = StmtBlock::new(said.lines(body), start, end);
    Some(function)
}

/// A function without statements, as `i64.f x y // first`: the type of its receiver, its name, its parameters, and a
/// comment to know it by.
fn function(line: &str, said: &Said) -> Option<ScriptFuncDef> {
    let (signature, comment) = split(line, " // ");
    let (head, params) = split(signature, " ");
    let (receiver, name) = head.split_once('.').unwrap_or(("", head));
    Some(ScriptFuncDef {
        name: said.shared(name)?,
        body: StmtBlock::none(said.alloc),
        this_type: said.shared_if_some(receiver),
        access: FnAccess::Public,
        params: Seq::from_vec(said.words(params)),
        comments: Seq::from_vec(said.list_of(said.shared_if_some(comment))),
    })
}

/// Says what a script has that was made.
pub fn say_made(script: Result<AST, OutOfMemory>, said: &Said) {
    if let Some(script) = said.made(script) {
        say_script(&script, said);
    }
}

/// Says what a script has: its source, where its statements stand, its doc, its table's id, and its functions.
pub fn say_script(script: &AST, said: &Said) {
    said.word(script.source().unwrap_or("no source"));
    for statement in script.statements() {
        said.place("at", statement.position());
    }
    said.word_if(!script.doc().is_empty(), script.doc());
    said.word_if(!script.has_functions(), "no functions");
    say_table(script.shared_lib(), said);
}

/// Says the id of a table and its functions, by their comments.
fn say_table(lib: &FnLib, said: &Said) {
    said.word("table");
    said.word(lib.id().unwrap_or("without id"));
    said.count("of", lib.len());
    said.word_if(lib.is_empty(), "empty");
    for function in lib.iter() {
        say_texts("/", function.comments.as_slice(), said);
    }
}

pub fn say_texts(word: &str, texts: &[ImmutableString], said: &Said) {
    said.word(word);
    for text in texts {
        said.word(text.as_str());
    }
}

fn functions(text: &str, said: &Said) {
    if let Some(lib) = table(text, "\n", said) {
        say_table(&lib, said);
    }
}

/// The function of a name with one parameter, in a table.
fn found(text: &str, said: &Said) {
    let (name, functions) = split(text, "\n");
    if let Some(lib) = table(functions, "\n", said)
        && let Some(key) = key(name, said)
    {
        said.word_if(!said.is_copied(&key), "another key");
        if let Some(function) = lib.get(&key) {
            say_texts("/", function.comments.as_slice(), said);
        }
    }
}

/// The key of a function with one parameter.
pub fn key(name: &str, said: &Said) -> Option<FnKey> {
    Some(FnKey {
        name: said.shared(name)?,
        params: 1,
        this_type: None,
    })
}

/// The id follows the source; a table that two scripts share is copied first. A refused source changes nothing.
fn source(text: &str, said: &Said) {
    if let Some(mut first) = script(text, said)
        && let Some(mut second) = said.made(first.clone())
    {
        say_sources(first.get_mut(), second.get_mut(), said);
    }
}

fn say_sources(first: &mut AST, second: &mut AST, said: &Said) {
    say_shared(first, second, said);
    said.word_if(second.set_source("z").is_err(), "refused");
    say_shared(first, second, said);
    first.clear_source();
    say_shared(first, second, said);
    said.word_if(first.set_source("").is_err(), "refused");
    say_shared(first, second, said);
}

/// Says whether two scripts share a table, and what they have.
fn say_shared(first: &AST, second: &AST, said: &Said) {
    let is_shared = Rc::ptr_eq(first.shared_lib(), second.shared_lib());
    said.line(if is_shared { "shared" } else { "apart" });
    say_script(first, said);
    said.put(";");
    say_script(second, said);
}

/// The functions of a script alone, its statements alone, and the script without its statements, and then without its
/// functions.
fn halves(text: &str, said: &Said) {
    if let Some(mut whole) = script(text, said) {
        say_halves(whole.get_mut(), said);
    }
}

fn say_halves(whole: &mut AST, said: &Said) {
    said.line("functions");
    say_made(whole.clone_functions_only(), said);
    said.line("statements");
    say_made(whole.clone_statements_only(), said);
    whole.clear_statements();
    said.line("cleared");
    say_script(whole, said);
    said.made(whole.clear_functions());
    said.line("empty");
    say_script(whole, said);
}

/// An empty table with this id, its copy, the script of it, and an empty script.
fn module(id: &str, said: &Said) {
    let mut lib = FnLib::new(said.alloc);
    say_table(&lib, said);
    said.made(lib.set_id(id));
    if let Some(copy) = said.made(lib.clone()) {
        say_table(&copy, said);
    }
    said.put(";");
    if let Some(lib) = said.counted(Some(lib)) {
        say_made(AST::new_from_module(lib), said);
    }
    said.put(";");
    say_made(AST::empty(said.alloc), said);
}

/// A private function, its copy, and what a filter of the public ones leaves of a script of it.
fn private(text: &str, said: &Said) {
    if let Some(mut function) = with_body(text, said) {
        function.access = FnAccess::Private;
        say_copied(&function, said);
        say_alone(function, said);
    }
}

/// Says what a function and its copy are.
fn say_copied(function: &ScriptFuncDef, said: &Said) {
    say_function(function, said);
    if let Some(copy) = said.counted(said.made(function.clone())) {
        say_function(&copy, said);
    }
    let is_same = FnNamespace::Global == FnNamespace::Internal;
    said.word_if(is_same, "one namespace");
}

fn say_alone(function: ScriptFuncDef, said: &Said) {
    let functions = said.list_of(said.counted(Some(function)));
    if let Some(lib) = of_functions(functions, said)
        && let Some(script) = said.made(AST::new_from_module(lib))
    {
        say_retained(&script, "public", "", said);
    }
}

fn say_function(function: &ScriptFuncDef, said: &Said) {
    said.line(function.name.as_str());
    if let Some(name) = &function.this_type {
        said.word(name.as_str());
    }
    said.word_if(function.access == FnAccess::Private, "private");
    say_texts("of", function.params.as_slice(), said);
    say_texts("/", function.comments.as_slice(), said);
    said.count("statements", function.body.len());
    said.place("from", function.body.position());
    said.place("to", function.body.end_position());
}
