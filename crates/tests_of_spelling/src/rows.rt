//! What is asked of the texts of blocks.

use crate::{spelled, texts};
use std::alloc::{AllocError, Global};
use tests_reader::{Block, BlockQuestion};

/// What is asked of a text.
#[derive(Clone, Copy)]
pub(crate) enum Question {
    /// As a tree of the notation: what its text is read as.
    Spelled,
    /// As a script: what it is read as once it is printed.
    Printed,
    /// As a tree of the notation: its text.
    Text,
    /// As a script: the text of what it is optimised to.
    Optimized,
}

impl BlockQuestion for Question {
    fn name(&self) -> &'static str {
        match self {
            Question::Spelled => "spelled",
            Question::Printed => "printed",
            Question::Text => "text",
            Question::Optimized => "optimized",
        }
    }

    fn told(&self, alloc: Global, text: &str) -> Result<String, AllocError> {
        match self {
            Question::Spelled => spelled::told(alloc, text),
            Question::Printed => spelled::told_again(alloc, text),
            Question::Text => texts::of_tree(alloc, text),
            Question::Optimized => texts::of_optimized(alloc, text),
        }
    }

    fn wanted<'a>(&self, block: Block<'a>) -> &'a str {
        match self {
            Question::Spelled | Question::Text | Question::Optimized => block.wanted,
            Question::Printed => "the same",
        }
    }
}
