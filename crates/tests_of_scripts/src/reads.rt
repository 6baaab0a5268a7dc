//! What is read back of what is printed, and what is said of a text that is not read.

use crate::scripts::printed;
use demo::BuiltinScript;
use notation_read::{ReadError, read_script, read_statements, read_value};
use rhai_ast::{FnAccess, ScriptFuncDef, StmtQueries};
use rhai_script::{AST, FnLib};
use std::alloc::Global;
use std::rc::Rc;
use tests_reader::Said;

pub fn answer(question: &str, text: &str, said: &Said) {
    match question {
        "reads" => say_read(text, said),
        "reads_open" => say_read(text.trim_end(), said),
        "stands" => say_stands(text, said),
        "reads_statements" => say_statements(text, said),
        "reads_value" => say_value(text.trim_end(), said),
        "reads_deep" => say_deep(text, said),
        "place" => say_place(text, said),
        _ => say_builtins(said),
    }
}

/// `back`, where a text is read and printed as it was.
fn say_read(text: &str, said: &Said) {
    match read_script(said.alloc, text) {
        Ok(script) => say_if_same(printed(&script, said).as_str(), text, said),
        Err(error) => said.display(&error),
    }
}

/// The last line of the text need not end.
fn say_if_same(printed: &str, text: &str, said: &Said) {
    let is_same = printed == text || printed.strip_suffix('\n') == Some(text);
    said.put(if is_same { "back" } else { printed });
}

/// Where each statement and each body of a script stands, and what its functions have; then its first fault.
fn say_stands(text: &str, said: &Said) {
    match read_script(said.alloc, text) {
        Ok(script) => {
            for statement in script.statements() {
                said.place("at", statement.position());
            }
            for function in script.shared_lib().iter() {
                say_function(function, said);
            }
            say_fault(&script, said);
        }
        Err(error) => said.display(&error),
    }
}

fn say_function(function: &ScriptFuncDef, said: &Said) {
    said.word(function.name.as_str());
    said.word_if(function.access == FnAccess::Public, "public");
    said.count("comments", function.comments.len());
    said.place("from", function.body.position());
    said.place("to", function.body.end_position());
}

fn say_fault(script: &AST, said: &Said) {
    if let Err(error) = script.check() {
        said.word("");
        said.display(&error.fault);
        said.place("at", error.position);
    }
}

/// Says why a printed script is not read back, where it is not.
pub fn say_if_unread(printed: &str, said: &Said) {
    if let Err(error) = read_script(said.alloc, printed) {
        said.put("unread: ");
        said.display(&error);
        said.put("\n");
    }
}

/// How many statements are read.
fn say_statements(text: &str, said: &Said) {
    match read_statements(said.alloc, text) {
        Ok(statements) => said.count("statements", statements.len()),
        Err(error) => said.display(&error),
    }
}

fn say_value(text: &str, said: &Said) {
    match read_value(said.alloc, text) {
        Ok(value) => said.put_inner(&value),
        Err(error) => said.display(&error),
    }
}

/// Whether an array so deep is read.
fn say_deep(text: &str, said: &Said) {
    let mut deep = String::new(said.alloc);
    if let Some(depth) = said.made(text.trim_end().parse::<usize>()) {
        for _ in 0..depth {
            said.made(deep.push_str("["));
        }
        for _ in 0..depth {
            said.made(deep.push_str("]"));
        }
        said.made(deep.push_str("\n"));
        say_read(deep.as_str(), said);
    }
}

/// The line and the column of an error, or none.
fn say_place(text: &str, said: &Said) {
    match read_script(said.alloc, text) {
        Ok(_) => said.put("back"),
        Err(error) => match error.position() {
            Some(position) => said.place("at", position),
            None => said.put("nowhere"),
        },
    }
}

/// How many of the built-in scripts are read back.
fn say_builtins(said: &Said) {
    let mut count: usize = 0;
    for script in BuiltinScript::ALL {
        if let Some(script) = said.made(script_of(said.alloc, script)) {
            let text = printed(&script, said);
            if let Ok(read) = read_script(said.alloc, text.as_str())
                && printed(&read, said).as_str() == text.as_str()
            {
                count = count.saturating_add(1);
            }
        }
    }
    said.display(&count);
}

/// A built-in script.
fn script_of(alloc: Global, script: BuiltinScript) -> Result<AST, ReadError> {
    let functions = FnLib::from_functions(alloc, script.functions(alloc)?)?;
    Ok(AST::new(script.statements(alloc)?, Rc::new(alloc, functions)?))
}
