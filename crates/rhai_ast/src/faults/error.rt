//! What is wrong with a tree, and where.

use rhai_base::{Position, TreeFault};
use std::error::Error;
use std::fmt;

/// Why a tree is not well-formed, and where. It is not in rhai.
#[derive(Clone, Copy, Debug, PartialEq, Eq)]
pub struct TreeError {
    /// What is wrong.
    pub fault: TreeFault,
    /// Where the node stands with which it is wrong.
    pub position: Position,
}

/// The fault, and unless it stands nowhere its line and position, as rhai's errors have them.
impl fmt::Display for TreeError {
    fn fmt<W: fmt::Write>(&self, f: &mut fmt::Formatter<W>) -> fmt::Result {
        write!(f, "{}", self.fault)?;
        match self.position.line() {
            None => Ok(()),
            Some(line) => {
                let position = self.position.position().unwrap_or(0);
                write!(f, " (line {line}, position {position})")
            }
        }
    }
}

impl Error for TreeError {}
