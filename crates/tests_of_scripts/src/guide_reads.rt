//! The pieces of docs/GUIDE.md on scripts from text.

use notation_print::{Notation, push_script};
use notation_read::{ReadError, read_script};
use rhai_base::OutOfMemory;
use std::alloc::Global;
use std::fmt::Write;

/// A script of two statements and a function.
const TEXT: &str = "let x = 40\ncall log(answer(x))\nfn answer(n) { +(n, 2) }\n";

/// Reads it, and prints it: the same text again.
pub fn a_script_is_read(alloc: Global, text: &mut String) -> Result<(), ReadError> {
    let script = read_script(alloc, TEXT)?;
    push_script(&script, text)?;
    Ok(())
}

/// Appends what is said of a text that is none: line 1, column 12: expected `)`
pub fn a_fault_is_found(alloc: Global, text: &mut String) -> Result<(), OutOfMemory> {
    if let Err(error) = read_script(alloc, "let x = f(1; 2)\n") {
        write!(text, "{error}\n")?;
    }
    Ok(())
}

/// Appends its first statement alone: let x = 40
pub fn a_statement_is_printed(alloc: Global, text: &mut String) -> Result<(), ReadError> {
    let script = read_script(alloc, TEXT)?;
    if let Some(statement) = script.statements().first() {
        write!(text, "{}\n", statement.printed(alloc))?;
    }
    Ok(())
}
