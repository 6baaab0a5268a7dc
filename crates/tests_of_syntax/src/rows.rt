//! What is asked of the texts of blocks.

use crate::{bad, places, trees};
use std::alloc::{AllocError, Global};
use tests_reader::{Block, BlockQuestion};

/// What is asked of a text.
#[derive(Clone, Copy)]
pub(crate) enum Question {
    /// Its tree.
    Tree,
    /// Its tree, as one expression.
    Expression,
    /// Its tree, with closures numbered from 7 on.
    Numbered,
    /// Where its nodes stand.
    Places,
    /// Where and why it is refused.
    Refusal,
    /// The same of all faults that are found.
    Faults,
}

impl BlockQuestion for Question {
    fn name(&self) -> &'static str {
        match self {
            Question::Tree => "trees",
            Question::Expression => "expressions",
            Question::Numbered => "numbered",
            Question::Places => "places",
            Question::Refusal => "bad texts",
            Question::Faults => "faults",
        }
    }

    fn told(&self, alloc: Global, text: &str) -> Result<String, AllocError> {
        match self {
            Question::Tree => trees::told(alloc, text),
            Question::Expression => trees::told_expression(alloc, text),
            Question::Numbered => trees::told_numbered(alloc, text),
            Question::Places => places::told(alloc, text),
            Question::Refusal => bad::told(alloc, text),
            Question::Faults => bad::told_all(alloc, text),
        }
    }

    /// Of a refused text the head says it.
    fn wanted<'a>(&self, block: Block<'a>) -> &'a str {
        match self {
            Question::Tree
            | Question::Expression
            | Question::Numbered
            | Question::Places
            | Question::Faults => block.wanted,
            Question::Refusal => block.head,
        }
    }
}
