//! Marks under places.

use crate::heads::MARK;
use rhai_base::Position;
use std::alloc::AllocError;
use std::fmt::Write;
use unicode_width::UnicodeWidthChar;

/// How many bytes a line has at most that is shown.
const LONGEST: usize = 160;

/// What stands before a line that is shown.
const MARGIN: &str = "    ";

/// Appends the line of a text that a place stands in, and below it a mark; nothing where that is no line, or a long one.
pub(crate) fn push_mark(text: &str, position: Position, to: &mut String) -> Result<(), AllocError> {
    let Some((line, before)) = marked(text, position) else {
        return Ok(());
    };
    writeln!(to, "{MARGIN}{line}")?;
    to.push_str(MARGIN)?;
    for letter in before.chars() {
        push_blank(letter, to)?;
    }
    to.push_str("^\n")
}

/// The line, and what stands in it before the place.
fn marked(text: &str, position: Position) -> Option<(&str, &str)> {
    let text = text.strip_prefix(MARK).unwrap_or(text);
    let line = text.lines().nth(position.line()?.checked_sub(1)?)?;
    let column = position.position()?.checked_sub(1)?;
    if line.len() > LONGEST {
        return None;
    }
    match line.char_indices().nth(column) {
        Some((at, _)) => Some((line, line.get(..at)?)),
        None => Some((line, line)),
    }
}

/// Appends a blank that is as wide as a letter.
fn push_blank(letter: char, to: &mut String) -> Result<(), AllocError> {
    if letter == '\t' {
        return to.push('\t');
    }
    for _ in 0..letter.width().unwrap_or(0) {
        to.push(' ')?;
    }
    Ok(())
}
