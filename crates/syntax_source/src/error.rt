//! Why a script is not printed.

use rhai_base::OutOfMemory;
use syntax_parser::ParseError;
use syntax_print::SpellError;
use thiserror::Error;

/// Why a script is not printed.
#[derive(Debug, Drop, PartialEq, Eq, Error)]
pub enum SourceError {
    /// No text spells it.
    #[error("{0}")]
    Unspelled(#[from] SpellError),
    /// Its text is not read, for this reason.
    #[error("the text is not read: {0}")]
    Unread(ParseError),
    /// Its text is read as another script.
    #[error("the text is read as another script")]
    AnotherScript,
    /// There was no memory.
    #[error("out of memory")]
    OutOfMemory,
}

impl From<OutOfMemory> for SourceError {
    fn from(_: OutOfMemory) -> SourceError {
        SourceError::OutOfMemory
    }
}
