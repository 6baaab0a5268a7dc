//! Tables of functions, and scripts: how they are made, named and taken apart.

use crate::trees;
use crate::tried::{Tried, is_among};
use notation_print::push_script;
use rhai_ast::ScriptFuncDef;
use rhai_base::{Boxed, OutOfMemory};
use rhai_script::{AST, Doc, FnLib, SharedLib};
use std::rc::Rc;
use tests_reader::Script;

/// The calls.
pub const CALLS: &str =
    "FnLib::from_functions FnLib::set_id FnLib::into_parts FnLib::clone Doc::new Doc::joined Doc::clone AST::new_with_source \
    AST::new_from_module AST::empty AST::set_source AST::set_doc AST::clone AST::clone_functions_only \
    AST::clone_statements_only AST::clear_functions";

pub fn make(name: &str, tried: &Tried) -> bool {
    match name {
        "FnLib::from_functions" => from_functions(tried),
        "FnLib::set_id" | "FnLib::into_parts" | "FnLib::clone" => of_table(name, tried),
        "Doc::new" | "Doc::joined" | "Doc::clone" => say_doc(doc(name, tried), tried),
        "AST::new_with_source" | "AST::new_from_module" | "AST::empty" => of_parts(name, tried),
        _ => return of_script(name, tried),
    }
    true
}

// ---- tables

fn from_functions(tried: &Tried) {
    if let Some(script) = trees::script(tried)
        && let Some(lib) = tried.answer(FnLib::from_functions(tried.said.alloc, script.functions))
    {
        say_lib(&lib, tried);
    }
}

fn say_lib(lib: &FnLib, tried: &Tried) {
    tried.said.word(lib.id().unwrap_or("without id"));
    tried.said.count("of", lib.len());
}

fn lib(tried: &Tried) -> Option<FnLib> {
    let script = trees::script(tried)?;
    let mut lib = tried
        .said
        .made(FnLib::from_functions(tried.said.alloc, script.functions))?;
    tried.said.made(lib.set_id("a"));
    Some(lib)
}

fn of_table(name: &str, tried: &Tried) {
    if let Some(mut lib) = lib(tried) {
        match name {
            "FnLib::set_id" => set_id(&mut lib, tried),
            "FnLib::into_parts" => parts(lib, tried),
            _ => {
                if let Some(copy) = tried.answer(lib.clone()) {
                    say_lib(&copy, tried);
                }
            }
        }
    }
}

fn parts(lib: FnLib, tried: &Tried) {
    if let Some((id, functions)) = tried.answer(lib.into_parts()) {
        tried.said.word_if(id.is_some(), "with id");
        tried.said.count("of", functions.len());
    }
}

fn set_id(lib: &mut FnLib, tried: &Tried) {
    if tried.is_refused(&lib.set_id("b")) {
        tried.want(lib.id() == Some("a"), "changed");
        tried.said.made(lib.set_id("b"));
    }
    say_lib(lib, tried);
}

// ---- docs

fn doc(name: &str, tried: &Tried) -> Option<Doc> {
    if name == "Doc::new" {
        return tried.answer(Doc::new(tried.said.alloc, "//! a"));
    }
    let first = tried.said.made(Doc::new(tried.said.alloc, "//! a"))?;
    let second = tried.said.made(Doc::new(tried.said.alloc, "//! b"))?;
    match name {
        "Doc::clone" => tried.answer(first.clone()),
        _ => tried.answer(first.joined(tried.said.alloc, &second)),
    }
}

fn say_doc(doc: Option<Doc>, tried: &Tried) {
    if let Some(doc) = doc {
        tried.said.word(doc.as_str());
    }
}

// ---- scripts

/// A script with a source and a doc.
pub fn source(tried: &Tried) -> Option<Boxed<AST>> {
    made(trees::script(tried)?, tried)
}

pub fn made(script: Script, tried: &Tried) -> Option<Boxed<AST>> {
    let lib = shared(script.functions, tried)?;
    let made = AST::new_with_source(script.statements, lib, "a");
    let mut script = tried.said.boxed(tried.said.made(made))?;
    tried.said.made(script.get_mut().set_doc("//! a"));
    Some(script)
}

pub fn shared(functions: Vec<Rc<ScriptFuncDef>>, tried: &Tried) -> Option<SharedLib> {
    tried.said.counted(
        tried
            .said
            .made(FnLib::from_functions(tried.said.alloc, functions)),
    )
}

/// All of a script, in print.
pub fn shown(script: &AST, tried: &Tried) -> String {
    let mut text = String::new(tried.said.alloc);
    for part in [
        script.source(),
        Some(script.doc()),
        script.shared_lib().id(),
    ] {
        tried.said.made(text.push_str(part.unwrap_or("-")));
        tried.said.made(text.push(' '));
    }
    tried.said.made(push_script(script, &mut text));
    text
}

pub fn say_script(script: &AST, tried: &Tried) {
    tried.said.word(shown(script, tried).as_str());
}

pub fn say_made(script: Option<AST>, tried: &Tried) {
    if let Some(script) = tried.said.boxed(script) {
        say_script(script.get(), tried);
    }
}

fn of_parts(name: &str, tried: &Tried) {
    match name {
        "AST::empty" => say_made(tried.answer(AST::empty(tried.said.alloc)), tried),
        "AST::new_from_module" => {
            if let Some(lib) = tried.said.counted(lib(tried)) {
                say_made(tried.answer(AST::new_from_module(lib)), tried);
            }
        }
        _ => new_with_source(tried),
    }
}

/// A table that is shared is copied.
fn new_with_source(tried: &Tried) {
    if let Some(script) = source(tried) {
        if let Some(lib) = tried.said.made(script.get().shared_lib().clone()) {
            let statements = tried.said.lines("1\n2");
            say_made(
                tried.answer(AST::new_with_source(statements, lib, "b")),
                tried,
            );
        }
    }
}

fn of_script(name: &str, tried: &Tried) -> bool {
    if !is_among(name, CALLS) {
        return false;
    }
    if let Some(mut script) = source(tried) {
        match name {
            "AST::clone" => say_made(tried.answer(script.get().clone()), tried),
            "AST::clone_functions_only" => {
                say_made(tried.answer(script.get().clone_functions_only()), tried);
            }
            "AST::clone_statements_only" => {
                say_made(tried.answer(script.get().clone_statements_only()), tried);
            }
            _ => change(name, script.get_mut(), tried),
        }
    }
    true
}

/// A refused change leaves the script as it was.
fn change(name: &str, script: &mut AST, tried: &Tried) {
    let other = tried.said.made(script.clone());
    let before = shown(script, tried);
    if tried.is_refused(&changed(name, script)) {
        tried.want(shown(script, tried) == before, "changed");
        tried.said.made(changed(name, script));
    }
    say_script(script, tried);
    say_made(other, tried);
}

fn changed(name: &str, script: &mut AST) -> Result<(), OutOfMemory> {
    match name {
        "AST::set_source" => script.set_source("b"),
        "AST::set_doc" => script.set_doc("//! b"),
        _ => script.clear_functions(),
    }
}
