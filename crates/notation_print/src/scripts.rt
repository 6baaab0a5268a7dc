//! Scripts in the notation.
#![tactic(auto, using(ast_types::specs::Reading::shapes, ast_types::proofs::ItemLists::steps))]

ghost use Rattle.std.specs.Prelude.{◌≡◌, ◌++◌, OnErr, OnOk, string_bytes};
ghost use Rattle.ast_types.specs.Reading.{function_of, stmts_of};
ghost use Rattle.notation_print.specs.Notation.{function_text, lines_text, receiver_text, script_text};
ghost use Rattle.rhai_script.specs.Script.{script_of};

use crate::names::push_names;
use crate::nodes::{push_block, push_stmt};
use rhai_ast::{ScriptFuncDef, Stmt};
use rhai_base::{ImmutableString, OutOfMemory};
use rhai_script::AST;

/// Appends statements, each on a line. A refused call leaves the text as it was.
pub fn push_lines(statements: &[Stmt], text: &mut String) -> Result<(), OutOfMemory>
    ensures ok { OnOk result (string_bytes text.new ≡ string_bytes text.old ++ lines_text (stmts_of statements.now)) }
    ensures err { OnErr result (string_bytes text.new ≡ string_bytes text.old) }
{
    let mut lines = String::new(*text.allocator());
    write_lines(statements, &mut lines)?;
    text.push_str(lines.as_str())?;
    Ok(())
}

/// The same; a refused call can leave a part.
fn write_lines(statements: &[Stmt], text: &mut String) -> Result<(), OutOfMemory>
    ensures { OnOk result (string_bytes text.new ≡ string_bytes text.old ++ lines_text (stmts_of statements.now)) }
{
    for line in statements {
        push_stmt(line, text)?;
        text.push_str("\n")?;
    }
    Ok(())
}

/// Appends a function with its body. A refused call can leave a part.
pub(crate) fn write_function(function: &ScriptFuncDef, text: &mut String) -> Result<(), OutOfMemory>
    ensures { OnOk result (string_bytes text.new ≡ string_bytes text.old ++ function_text (function_of function.now)) }
{
    text.push_str("fn ")?;
    write_receiver(&function.this_type, text)?;
    text.push_str(function.name.as_str())?;
    text.push_str("(")?;
    push_names(function.params.as_slice(), text)?;
    text.push_str(") ")?;
    push_block(&function.body, text)
}

/// Appends the type of a receiver and a dot, if there is one. A refused call can leave a part.
fn write_receiver(this_type: &Option<ImmutableString>, text: &mut String) -> Result<(), OutOfMemory>
    ensures { OnOk result (string_bytes text.new ≡ string_bytes text.old ++ receiver_text this_type.now) }
{
    if let Some(receiver) = this_type {
        text.push_str(receiver.as_str())?;
        text.push_str(".")?;
    }
    Ok(())
}

/// Appends a script: each statement on a line, then each function on a line. A refused call leaves the text as it was.
pub fn push_script(script: &AST, text: &mut String) -> Result<(), OutOfMemory>
    ensures ok { OnOk result (string_bytes text.new ≡ string_bytes text.old ++ script_text (script_of script.now)) }
    ensures err { OnErr result (string_bytes text.new ≡ string_bytes text.old) }
{
    let mut lines = String::new(*text.allocator());
    write_script(script, &mut lines)?;
    text.push_str(lines.as_str())?;
    Ok(())
}

/// The same; a refused call can leave a part.
pub(crate) fn write_script(script: &AST, text: &mut String) -> Result<(), OutOfMemory>
    ensures { OnOk result (string_bytes text.new ≡ string_bytes text.old ++ script_text (script_of script.now)) }
{
    write_lines(script.statements(), text)?;
    for function in script.shared_lib().iter() {
        write_function(function, text)?;
        text.push_str("\n")?;
    }
    Ok(())
}
