//! What is read, compared with what it prints.
#![tactic(auto)]

ghost use Rattle.std.specs.Prelude.{◌≡◌, IfOk, OnOk};
ghost use Rattle.rhai_base.specs.Value.{written};
ghost use Rattle.rhai_base.specs.Reading.{value_of};
ghost use Rattle.ast_types.specs.Reading.{stmts_of};
ghost use Rattle.rhai_script.specs.Script.{script_of};
ghost use Rattle.notation_print.specs.Notation.{lines_text, script_text};
ghost use Rattle.notation_read.specs.Texts.{AreLinesOf};

use crate::error::ReadError;
use crate::functions::{Script, read_parts};
use crate::marks::NoMarks;
use crate::place::position_behind;
use crate::tree::read_lines;
use crate::values::parse_value;
use notation_print::{push_lines, push_script};
use rhai_ast::{ScriptFuncDef, Stmt};
use rhai_base::{Dynamic, Position};
use rhai_script::{AST, FnKey, FnLib};
use std::alloc::Global;
use std::rc::Rc;

/// The script of a text: each statement on a line, then each function on a line, as `push_script` prints them.
/// The last line need not end. Functions are public and have no comments.
pub fn read_script(alloc: Global, text: &str) -> Result<AST, ReadError>
    ensures { IfOk result (λ script. AreLinesOf text.now (script_text (script_of script))) }
{
    let script = made(alloc, read_parts(alloc, text, NoMarks)?)?;
    let mut printed = String::new(alloc);
    push_script(&script, &mut printed)?;
    lines_compared(text, printed.as_str())?;
    Ok(script)
}

/// The statements of a text, each on a line, as `push_lines` prints them. The last line need not end.
pub fn read_statements(alloc: Global, text: &str) -> Result<Vec<Stmt>, ReadError>
    ensures { IfOk result (λ statements. AreLinesOf text.now (lines_text (stmts_of statements.items))) }
{
    let statements = read_lines(alloc, text, NoMarks)?;
    let mut printed = String::new(alloc);
    push_lines(statements.as_slice(), &mut printed)?;
    lines_compared(text, printed.as_str())?;
    Ok(statements)
}

/// The value of a text, as an array writes it inside, and of pointers the names and values.
pub fn read_value(alloc: Global, text: &str) -> Result<Dynamic, ReadError>
    ensures { IfOk result (λ value. written (value_of value) ≡ text.now) }
{
    let value = parse_value(alloc, text)?;
    let mut printed = String::new(alloc);
    value.push_written(&mut printed)?;
    compared(text, printed.as_str())?;
    Ok(value)
}

/// A script of what was read.
fn made(alloc: Global, script: Script) -> Result<AST, ReadError> {
    let functions = table(alloc, script.functions)?;
    Ok(AST::new(script.statements, Rc::new(alloc, functions)?))
}

/// The table of functions with a key each.
fn table(alloc: Global, functions: Vec<Rc<ScriptFuncDef>>) -> Result<FnLib, ReadError> {
    let table = FnLib::from_functions(alloc, functions.clone()?)?;
    for function in &functions {
        let key = FnKey {
            name: function.name.clone()?,
            params: function.params.len(),
            this_type: function.this_type.clone()?,
        };
        find(&table, &key, function.body.position())?;
    }
    Ok(table)
}

/// Refuses a table whose function of a key has its body elsewhere.
fn find(table: &FnLib, key: &FnKey, body: Position) -> Result<(), ReadError> {
    if let Some(last) = table.get(key)
        && last.body.position() != body
    {
        let position = last.body.position();
        return Err(ReadError::FunctionTwice { position });
    }
    Ok(())
}

/// Refuses a text that is not the printed lines, but for the end of the last one.
fn lines_compared(text: &str, printed: &str) -> Result<(), ReadError>
    ensures { OnOk result (AreLinesOf text.now printed.now) }
{
    if let Some(open) = printed.strip_suffix('\n')
        && text == open
    {
        return Ok(());
    }
    compared(text, printed)
}

/// Refuses a text that is not the printed one, where they begin to differ.
fn compared(text: &str, printed: &str) -> Result<(), ReadError>
    ensures { OnOk result (text.now ≡ printed.now) }
{
    if text == printed {
        return Ok(());
    }
    Err(ReadError::Expected {
        what: "what is printed",
        position: position_behind(text, alike(text, printed)),
    })
}

/// How many bytes the two begin with alike.
fn alike(text: &str, printed: &str) -> usize {
    let mut count: usize = 0;
    for (ours, theirs) in text.bytes().zip(printed.bytes()) {
        if ours != theirs {
            break;
        }
        count = count.saturating_add(1);
    }
    count
}
