//! All that keeps a text from being a script.

use crate::error::{ParseError, ParseErrorType};
use crate::inside::Inside;
use crate::options::ParseOptions;
use crate::parser::Parser;
use rhai_base::{OutOfMemory, Position};
use std::alloc::Global;

/// The faults of a text, in order: the first is that of `compile_with`, and behind each the text is read again from the
/// next line on that begins a statement of the top level, by its indent and its first letter. None of a text in which
/// each statement is read. It is not in rhai, whose parser stops at the first fault.
pub fn parse_errors(
    alloc: Global,
    text: &str,
    options: ParseOptions,
) -> Result<Vec<ParseError>, OutOfMemory> {
    let mut errors = Vec::new(alloc);
    let mut left = Left {
        text,
        lines_before: 0,
    };
    for _ in 0..text.len() {
        let Some((error, begun)) = first_fault(alloc, left.text, options)? else {
            break;
        };
        let fault = error.position();
        errors.push(left.placed(error))?;
        let Some(next) = left.behind(fault, begun) else {
            break;
        };
        left = next;
    }
    Ok(errors)
}

/// The first fault of a text, and where the statement or function begins that has it.
fn first_fault(
    alloc: Global,
    text: &str,
    options: ParseOptions,
) -> Result<Option<(ParseError, Position)>, OutOfMemory> {
    let parser = Parser::new(alloc, text, options, false);
    let _statements = parser.script(Inside::script(options.levels()));
    let begun = parser.begun();
    match parser.into_whole() {
        Ok(_whole) => Ok(None),
        Err(ParseError(ParseErrorType::OutOfMemory, _)) => Err(OutOfMemory),
        Err(error) => Ok(Some((error, begun))),
    }
}

/// What is left of a text, and how many lines stand before it.
#[derive(Clone, Copy)]
struct Left<'a> {
    text: &'a str,
    lines_before: u16,
}

impl<'a> Left<'a> {
    /// A fault of what is left, where it stands in the whole text.
    fn placed(self, error: ParseError) -> ParseError {
        let ParseError(reason, position) = error;
        ParseError(reason, self.place_of(position))
    }

    /// Where a position of what is left stands in the whole text.
    fn place_of(self, position: Position) -> Position {
        let line = match position.line() {
            Some(line) => number(line).saturating_add(self.lines_before),
            None => 0,
        };
        if line == 0 {
            return Position::NONE;
        }
        Position::new(line, number(position.position().unwrap_or(0)))
    }

    /// What is left from the next line on, behind a fault, that begins a statement of the top level; nothing where none
    /// does.
    fn behind(self, fault: Position, begun: Position) -> Option<Left<'a>> {
        let most = begun.position().unwrap_or(1);
        let mut left = self;
        let mut passed: usize = 0;
        for _ in 0..self.text.len() {
            let (_, behind) = left.text.split_once('\n')?;
            passed = passed.saturating_add(1);
            left = Left {
                text: behind,
                lines_before: left.lines_before.saturating_add(1),
            };
            if passed >= fault.line().unwrap_or(0) && begins_statement(behind, most) {
                return Some(left);
            }
        }
        None
    }
}

/// Whether the first line of a text begins a statement, in a column that is no greater.
fn begins_statement(text: &str, most: usize) -> bool {
    let behind = text.trim_start_matches([' ', '\t']);
    let indent = text.len().saturating_sub(behind.len());
    if indent >= most {
        return false;
    }
    match behind.as_bytes().first() {
        Some(first) => is_beginning(*first) && !goes_on(behind),
        None => false,
    }
}

/// Whether a statement may begin with a byte: no sign that closes or joins, and no blank.
fn is_beginning(first: u8) -> bool {
    first.is_ascii_alphanumeric()
        || matches!(
            first,
            b'_' | b'"' | b'\'' | b'`' | b'[' | b'#' | b'!' | b'-'
        )
}

/// Whether a word stands next that goes on with a statement.
fn goes_on(text: &str) -> bool {
    ["else", "catch", "until"]
        .iter()
        .any(|word| text.starts_with(*word))
}

fn number(number: usize) -> u16 {
    u16::try_from(number).unwrap_or(u16::MAX)
}
