//! Why something is not done with a text.

use crate::error::SourceError;
use notation_read::ReadError;
use rhai_base::{OutOfMemory, Position};
use std::alloc::AllocError;
use std::fmt::{self, Display, Write};
use syntax_parser::{ParseError, ParseErrorType};
use syntax_print::{SpellError, Unspelled};

/// Why something is not done with a text.
#[derive(Debug, Drop, PartialEq, Eq)]
pub enum Why {
    /// The text is no script in rhai's own syntax.
    NoScript(ParseErrorType),
    /// The text is no script in the notation of trees.
    NoNotation(ReadError),
    /// No text spells what comes of it.
    NoText(Unspelled),
    /// What is printed of it is read as another script.
    AnotherScript,
    /// Among constants stands something else, or one whose value is not known.
    NoConstant,
    /// There is no such function.
    NoFunction,
    /// There was no memory.
    OutOfMemory,
}

/// Why something is not done with a text, and where that stands in it; nowhere, if it has no place.
#[derive(Debug, Drop, PartialEq, Eq)]
pub struct Refusal {
    /// The reason.
    pub why: Why,
    /// The place.
    pub position: Position,
}

/// The reason alone, without the place.
impl Display for Why {
    fn fmt<W: Write>(&self, f: &mut fmt::Formatter<W>) -> fmt::Result {
        match self {
            Why::NoScript(reason) => write!(f, "{reason}"),
            Why::NoNotation(error) => write_read_error(f, error),
            Why::NoText(what) => write!(f, "no text spells this: {what}"),
            Why::AnotherScript => f.write_str("its text is read as another script"),
            Why::NoConstant => {
                f.write_str("expected `const NAME = VALUE;` with a value that is known beforehand")
            }
            Why::NoFunction => f.write_str("there is no such function without parameters"),
            Why::OutOfMemory => f.write_str("out of memory"),
        }
    }
}

fn write_read_error<W: Write>(f: &mut fmt::Formatter<W>, error: &ReadError) -> fmt::Result {
    match error {
        ReadError::Missing { letters, .. } => write!(f, "expected `{letters}`"),
        ReadError::Expected { what, .. } => write!(f, "expected {what}"),
        ReadError::Zeros { .. } => {
            f.write_str("an integer has no zeros before it, and 0 no sign")
        }
        ReadError::Keyword { .. } => f.write_str("a word of the language is no name"),
        ReadError::KeyTwice { .. } => f.write_str("this key is there already"),
        ReadError::ParameterTwice { .. } => f.write_str("this parameter is there already"),
        ReadError::FunctionTwice { .. } => f.write_str("this function is there already"),
        ReadError::TooDeep { .. } => f.write_str("nested too deeply"),
        ReadError::OutOfMemory => f.write_str("out of memory"),
    }
}

/// The place, where there is one, and the reason.
impl Display for Refusal {
    fn fmt<W: Write>(&self, f: &mut fmt::Formatter<W>) -> fmt::Result {
        if let Some(line) = self.position.line() {
            let column = self.position.position().unwrap_or(0);
            write!(f, "line {line}, column {column}: ")?;
        }
        write!(f, "{}", self.why)
    }
}

impl Refusal {
    /// For a reason, at a place.
    pub(crate) fn at(why: Why, position: Position) -> Refusal {
        Refusal { why, position }
    }

    /// For a reason, at no place.
    pub(crate) fn nowhere(why: Why) -> Refusal {
        Refusal::at(why, Position::NONE)
    }
}

impl From<ParseError> for Refusal {
    fn from(error: ParseError) -> Refusal {
        let ParseError(reason, position) = error;
        let why = match reason {
            ParseErrorType::OutOfMemory => Why::OutOfMemory,
            reason => Why::NoScript(reason),
        };
        Refusal { why, position }
    }
}

impl From<ReadError> for Refusal {
    fn from(error: ReadError) -> Refusal {
        let position = error.position().unwrap_or(Position::NONE);
        let why = match error {
            ReadError::OutOfMemory => Why::OutOfMemory,
            error => Why::NoNotation(error),
        };
        Refusal { why, position }
    }
}

impl From<SpellError> for Refusal {
    fn from(error: SpellError) -> Refusal {
        match error {
            SpellError::Unspelled { what, position } => Refusal {
                why: Why::NoText(what),
                position,
            },
            SpellError::OutOfMemory => Refusal::nowhere(Why::OutOfMemory),
        }
    }
}

impl From<SourceError> for Refusal {
    fn from(error: SourceError) -> Refusal {
        match &error {
            SourceError::Unspelled(spelling) => Refusal::from(*spelling),
            SourceError::Unread(_) => Refusal::nowhere(Why::AnotherScript),
            SourceError::AnotherScript => Refusal::nowhere(Why::AnotherScript),
            SourceError::OutOfMemory => Refusal::nowhere(Why::OutOfMemory),
        }
    }
}

impl From<OutOfMemory> for Refusal {
    fn from(_: OutOfMemory) -> Refusal {
        Refusal::nowhere(Why::OutOfMemory)
    }
}

impl From<AllocError> for Refusal {
    fn from(_: AllocError) -> Refusal {
        Refusal::nowhere(Why::OutOfMemory)
    }
}
