//! Why a text is not read.

ghost use Rattle.std.specs.Prelude.{◌≡◌};
ghost use Rattle.notation_read.specs.Errors.{place_of};

use rhai_base::{OutOfMemory, Position};
use std::alloc::{AllocError, AllocFailed};
use std::fmt::{self, Display, Write};
use thiserror::Error;

/// Why a text was not read.
#[derive(Clone, Copy, Debug, PartialEq, Eq, Error)]
pub enum ReadError {
    /// These letters should stand there.
    #[error("{place}: expected `{letters}`", place = Place(*.position))]
    Missing {
        /// The letters.
        letters: &'static str,
        /// Where they should begin.
        position: Position,
    },
    /// This should stand there.
    #[error("{place}: expected {what}", place = Place(*.position))]
    Expected {
        /// What should stand there, in words.
        what: &'static str,
        /// Where it should begin.
        position: Position,
    },
    /// The integer there has zeros before it, or it is 0 with a sign.
    #[error("{place}: an integer has no zeros before it, and 0 no sign", place = Place(*.position))]
    Zeros {
        /// Where the integer begins.
        position: Position,
    },
    /// The word there is one of the language, and no name.
    #[error("{place}: a word of the language is no name", place = Place(*.position))]
    Keyword {
        /// Where the word begins.
        position: Position,
    },
    /// The key there is in its map, or in its table of a `switch`, already.
    #[error("{place}: this key is there already", place = Place(*.position))]
    KeyTwice {
        /// Where the key begins.
        position: Position,
    },
    /// The parameter there has the name of one before it.
    #[error("{place}: this parameter is there already", place = Place(*.position))]
    ParameterTwice {
        /// Where the parameter begins.
        position: Position,
    },
    /// A function before the one there has its name, as many parameters and the same receiver.
    #[error("{place}: this function is there already", place = Place(*.position))]
    FunctionTwice {
        /// Where the function's body begins.
        position: Position,
    },
    /// What begins there is nested too deeply to be read.
    #[error("{place}: nested too deeply", place = Place(*.position))]
    TooDeep {
        /// Where it begins.
        position: Position,
    },
    /// There was no memory for what was read.
    #[error("out of memory")]
    OutOfMemory,
}

impl ReadError {
    /// Where the text stops being one that is read; none for want of memory.
    pub fn position(self) -> Option<Position>
        ensures { result ≡ place_of self }
    {
        match self {
            ReadError::Missing { position, .. }
            | ReadError::Expected { position, .. }
            | ReadError::Zeros { position }
            | ReadError::Keyword { position }
            | ReadError::KeyTwice { position }
            | ReadError::ParameterTwice { position }
            | ReadError::FunctionTwice { position }
            | ReadError::TooDeep { position } => Some(position),
            ReadError::OutOfMemory => None,
        }
    }
}

impl From<OutOfMemory> for ReadError {
    fn from(_: OutOfMemory) -> ReadError {
        ReadError::OutOfMemory
    }
}

impl From<AllocError> for ReadError {
    fn from(_: AllocError) -> ReadError {
        ReadError::OutOfMemory
    }
}

impl<T: Drop> From<AllocFailed<T>> for ReadError {
    fn from(_: AllocFailed<T>) -> ReadError {
        ReadError::OutOfMemory
    }
}

/// A position in print.
#[derive(Clone, Copy)]
struct Place(Position);

impl Display for Place {
    fn fmt<W: Write>(&self, f: &mut fmt::Formatter<W>) -> fmt::Result {
        let line = self.0.line().unwrap_or(0);
        let column = self.0.position().unwrap_or(0);
        write!(f, "line {line}, column {column}")
    }
}
