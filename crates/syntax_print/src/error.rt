//! Why a script has no source.

use rhai_ast::{TreeError, TreeFault};
use rhai_base::{OutOfMemory, Position};
use std::alloc::{AllocError, AllocFailed};
use std::fmt::{self, Display, Write};
use thiserror::Error;

/// What no text spells.
#[derive(Clone, Copy, Debug, PartialEq, Eq, Error)]
pub enum Unspelled {
    /// The tree is not well-formed.
    #[error("{0}")]
    IllFormed(TreeFault),
    /// A name that is none, or a word of the language.
    #[error("a name that is none")]
    Name,
    /// A name that stands twice among parameters, or as the variable and the counter of a loop.
    #[error("a name that stands twice")]
    Twice,
    /// A comment that documents nothing.
    #[error("a comment that documents nothing")]
    Comment,
    /// A function of the type `int`, which is read as `i64`.
    #[error("a function of the type int")]
    Receiver,
    /// `this` outside functions.
    #[error("this outside functions")]
    This,
    /// An export below the script's own statements.
    #[error("an export below the script's own statements")]
    Export,
    /// An assignment through a method, or over a base that is no place.
    #[error("an assignment to what is no place")]
    Target,
    /// An assignment to a constant.
    #[error("an assignment to a constant")]
    Constant,
    /// A call that captures, of a module's function.
    #[error("a qualified call that captures")]
    QualifiedCapture,
    /// An expression behind `continue`.
    #[error("an expression behind continue")]
    ContinueWith,
    /// A float that is infinite, or no number.
    #[error("a float without a literal")]
    Float,
    /// A key of a `switch` without a literal.
    #[error("a key without a literal")]
    Key,
    /// What a closure shares, without its closure.
    #[error("shared names without a closure")]
    Share,
    /// A closure without its function.
    #[error("a closure without its function")]
    Closure,
    /// Closures that stand in so many places that they are most of the text.
    #[error("closures in too many places")]
    Copies,
    /// Deeper than any text is read.
    #[error("nested too deeply")]
    TooDeep,
}

/// Why a script is not printed, and where the node stands.
#[derive(Clone, Copy, Debug, PartialEq, Eq, Error)]
pub enum SpellError {
    /// No text spells this node.
    #[error("{place}: {what}", place = Place(*.position))]
    Unspelled {
        /// What it is.
        what: Unspelled,
        /// Where it stands.
        position: Position,
    },
    /// There was no memory.
    #[error("out of memory")]
    OutOfMemory,
}

impl From<TreeError> for SpellError {
    fn from(error: TreeError) -> SpellError {
        match error.fault {
            TreeFault::OutOfMemory => SpellError::OutOfMemory,
            fault => SpellError::Unspelled {
                what: Unspelled::IllFormed(fault),
                position: error.position,
            },
        }
    }
}

impl From<OutOfMemory> for SpellError {
    fn from(_: OutOfMemory) -> SpellError {
        SpellError::OutOfMemory
    }
}

impl From<AllocError> for SpellError {
    fn from(_: AllocError) -> SpellError {
        SpellError::OutOfMemory
    }
}

impl<T: Drop> From<AllocFailed<T>> for SpellError {
    fn from(_: AllocFailed<T>) -> SpellError {
        SpellError::OutOfMemory
    }
}

/// A position in print.
#[derive(Clone, Copy)]
struct Place(Position);

impl Display for Place {
    fn fmt<W: Write>(&self, f: &mut fmt::Formatter<W>) -> fmt::Result {
        let line = self.0.line().unwrap_or(0);
        let column = self.0.position().unwrap_or(0);
        write!(f, "line {line}, column {column}")
    }
}
