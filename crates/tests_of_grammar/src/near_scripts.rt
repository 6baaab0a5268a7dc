//! Texts with scripts, which they spell or do not.

use crate::near::push_row;
use notation_print::push_script;
use notation_read::read_script;
use rhai_script::AST;
use script_tables::shared_functions;
use std::alloc::{AllocError, Global};
use std::fmt::Write;
use syntax_grammar::is_script_spelled;
use syntax_parser::compile;
use tests_reader::{Block, blocks_of};

/// Says of each script that is not as its row has it what it is, and then how many are as they have it.
pub(crate) fn ask(alloc: Global, rows: &str) -> Result<String, AllocError> {
    let mut said = String::new(alloc);
    let mut met: usize = 0;
    for block in blocks_of(alloc, rows)? {
        met = met.saturating_add(met_of(alloc, block, &mut said)?);
    }
    writeln!(said, "near misses: {met} scripts as they should be")?;
    Ok(said)
}

/// How many scripts of a block are as it has them.
fn met_of(alloc: Global, block: Block<'_>, said: &mut String) -> Result<usize, AllocError> {
    let mut met: usize = 0;
    for row in block.wanted.split("\n----\n") {
        let (wanted, tree) = row.split_once('\n').unwrap_or((row, ""));
        let told = told(alloc, block.text, tree)?;
        if told == wanted {
            met = met.saturating_add(1);
        } else {
            push_row(block.head, told, tree.trim(), said)?;
        }
    }
    Ok(met)
}

/// What a script is to a text: spelled, and if the parser makes it too, yes.
fn told(alloc: Global, text: &str, tree: &str) -> Result<&'static str, AllocError> {
    let Ok(script) = read_script(alloc, tree) else {
        return Ok("no script");
    };
    if !is_script_of(alloc, text, &script)? {
        Ok("no")
    } else if is_parsed(alloc, text, tree)? {
        Ok("yes")
    } else {
        Ok("spelled")
    }
}

/// Whether a text spells a script.
fn is_script_of(alloc: Global, text: &str, script: &AST) -> Result<bool, AllocError> {
    let Ok(functions) = shared_functions(script.shared_lib().as_ref()) else {
        return Err(AllocError);
    };
    is_script_spelled(alloc, text, script.statements(), functions.as_slice())
}

/// Whether the parser makes a script of a text.
fn is_parsed(alloc: Global, text: &str, tree: &str) -> Result<bool, AllocError> {
    let Ok(script) = compile(alloc, text) else {
        return Ok(false);
    };
    let mut printed = String::new(alloc);
    push_script(&script, &mut printed).map_err(|_| AllocError)?;
    Ok(printed.as_str().trim() == tree.trim())
}
