//! Texts of scripts.

use crate::spelled::{optimized, unbounded};
use notation_read::read_script;
use rhai_script::AST;
use std::alloc::{AllocError, Global};
use std::fmt::Write;
use syntax_parser::{compile, compile_with};
use syntax_print::{push_spelled, spelled};

/// The text of a tree of the notation, and behind it the functions of its closures.
pub(crate) fn of_tree(alloc: Global, tree: &str) -> Result<String, AllocError> {
    match read_script(alloc, tree) {
        Ok(script) => text_of(alloc, &script),
        Err(error) => format!(in alloc; "no tree: {error}"),
    }
}

/// The same of what a text is optimised to.
pub(crate) fn of_optimized(alloc: Global, text: &str) -> Result<String, AllocError> {
    match compile(alloc, text) {
        Ok(script) => text_of(alloc, &optimized(alloc, script)?),
        Err(error) => format!(in alloc; "no script: {error}"),
    }
}

fn text_of(alloc: Global, script: &AST) -> Result<String, AllocError> {
    let mut said = String::new(alloc);
    let mut text = String::new(alloc);
    match spelled(script) {
        Ok(printed) => {
            text.push_str(printed.text.as_str())?;
            said.push_str(printed.text.as_str())?;
            for name in &printed.closures {
                let name = name.as_str();
                writeln!(said, "// {name}")?;
            }
        }
        Err(error) => return format!(in alloc; "refused: {error}"),
    }
    tell_again(alloc, text.as_str(), &mut said)?;
    Ok(said)
}

/// Says what a text is read and printed as, where this is another one.
fn tell_again(alloc: Global, text: &str, said: &mut String) -> Result<(), AllocError> {
    let mut again = String::new(alloc);
    match compile_with(alloc, text, unbounded()) {
        Ok(script) => {
            if push_spelled(&script, &mut again).is_err() {
                said.push_str("refused again\n")?;
            }
        }
        Err(error) => writeln!(said, "no script: {error}")?,
    }
    if again.as_str() != text {
        let again = again.as_str();
        writeln!(said, "again\n{again}")?;
    }
    Ok(())
}
