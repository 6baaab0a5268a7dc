//! Whole scripts, which are read as the grammar has them.

use rhai_script::AST;
use script_tables::shared_functions;
use std::alloc::{AllocError, Global};
use std::fmt::Write;
use syntax_grammar::covers_script;
use syntax_parser::{ParseErrorType, compile};
use tests_reader::blocks_of;

/// What a text is.
enum Text {
    Covered,
    Uncovered,
    NotAsRead,
    NoScript,
}

/// Says each text that was not read as the grammar has it, and then how many are scripts.
pub(crate) fn ask(alloc: Global, rows: &str) -> Result<String, AllocError> {
    let mut said = String::new(alloc);
    let mut covered: usize = 0;
    let mut uncovered: usize = 0;
    for block in blocks_of(alloc, rows)? {
        match told(alloc, block.text)? {
            Text::Covered => covered = covered.saturating_add(1),
            Text::Uncovered => uncovered = uncovered.saturating_add(1),
            Text::NotAsRead => writeln!(said, "not as read: {}", block.head)?,
            Text::NoScript => writeln!(said, "no script: {}", block.head)?,
        }
    }
    writeln!(
        said,
        "scripts: {covered} spell their trees, {uncovered} are not covered"
    )?;
    Ok(said)
}

fn told(alloc: Global, text: &str) -> Result<Text, AllocError> {
    match compile(alloc, text) {
        Ok(script) => read_as(text, &script),
        Err(error) => match error.err_type() {
            ParseErrorType::NotAsRead => Ok(Text::NotAsRead),
            _ => Ok(Text::NoScript),
        },
    }
}

/// What a text is that was read as this script.
fn read_as(text: &str, script: &AST) -> Result<Text, AllocError> {
    let Ok(functions) = shared_functions(script.shared_lib().as_ref()) else {
        return Err(AllocError);
    };
    if covers_script(text, script.statements(), functions.as_slice()) {
        Ok(Text::Covered)
    } else {
        Ok(Text::Uncovered)
    }
}
