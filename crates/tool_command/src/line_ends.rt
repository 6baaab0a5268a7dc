//! Ends of lines.

use std::alloc::{AllocError, Global};
use syntax_source::{Refusal, Syntax, Why, Written, read, write};

/// What was made of a text, with lines that end by `\r\n` where the text's first line does. The text with such lines is
/// read and printed again: where that gives another text, what was made stays as it is.
pub(crate) fn ended_as(
    alloc: Global,
    syntax: Syntax,
    given: &str,
    made: String,
) -> Result<String, Refusal> {
    if syntax == Syntax::Notation || !has_returns(given) {
        return Ok(made);
    }
    let ended = with_returns(alloc, made.as_str())?;
    match printed_again(alloc, syntax, ended.as_str()) {
        Ok(text) => Ok(if text == made { ended } else { made }),
        Err(refusal) if refusal.why == Why::OutOfMemory => Err(refusal),
        Err(_refusal) => Ok(made),
    }
}

fn printed_again(alloc: Global, syntax: Syntax, text: &str) -> Result<String, Refusal> {
    let script = read(alloc, syntax, text)?;
    let Written { text, .. } = write(alloc, syntax, script)?;
    Ok(text)
}

/// Whether a text's first line ends by `\r\n`.
fn has_returns(text: &str) -> bool {
    match text.split_once('\n') {
        Some((line, _)) => line.ends_with('\r'),
        None => false,
    }
}

/// A text with lines that end by `\r\n`.
fn with_returns(alloc: Global, text: &str) -> Result<String, AllocError> {
    let mut made = String::new(alloc);
    for line in text.split_inclusive('\n') {
        push_line(&mut made, line)?;
    }
    Ok(made)
}

fn push_line(text: &mut String, line: &str) -> Result<(), AllocError> {
    let Some(line) = line.strip_suffix('\n') else {
        return text.push_str(line);
    };
    text.push_str(line.strip_suffix('\r').unwrap_or(line))?;
    text.push_str("\r\n")
}
