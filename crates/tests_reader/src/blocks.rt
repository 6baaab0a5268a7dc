//! Files of blocks: behind `==== ` a line that heads a block, and then its text, whose parts a line `----` parts.

use std::alloc::{AllocError, Global};
use std::fmt::Write;

/// The parts of a block.
#[derive(Clone, Copy)]
pub struct Block<'a> {
    pub head: &'a str,
    pub text: &'a str,
    /// What is wanted of the text; nothing where nothing is.
    pub wanted: &'a str,
}

impl<'a> Block<'a> {
    /// The block of what stands between two heads.
    fn of(written: &'a str) -> Block<'a> {
        let (head, rest) = written.split_once('\n').unwrap_or((written, ""));
        let (text, wanted) = rest.split_once("\n----\n").unwrap_or((rest, ""));
        Block { head, text, wanted }
    }
}

/// What stands between two heads.
const HEAD: &str = "\n==== ";

/// The blocks of these rows.
pub fn blocks_of(alloc: Global, rows: &str) -> Result<Vec<Block<'_>>, AllocError> {
    rows.split(HEAD).skip(1).map(Block::of).collect(alloc)
}

/// A question to the texts of blocks.
pub trait BlockQuestion {
    /// Its name.
    fn name(&self) -> &'static str;

    /// The answer for a text.
    fn told(&self, alloc: Global, text: &str) -> Result<String, AllocError>;

    /// The answer that a block wants.
    fn wanted<'a>(&self, block: Block<'a>) -> &'a str;
}

/// Says of each block whose text is not what is wanted what it is, and then how many are.
pub fn ask_blocks<Q: BlockQuestion>(
    alloc: Global,
    question: &Q,
    rows: &str,
) -> Result<String, AllocError> {
    let mut said = String::new(alloc);
    let mut met: usize = 0;
    for block in blocks_of(alloc, rows)? {
        if is_met(alloc, question, block, &mut said)? {
            met = met.saturating_add(1);
        }
    }
    let name = question.name();
    writeln!(said, "{name}: {met} met")?;
    Ok(said)
}

/// Whether a block's text is what is wanted; says so where it is not.
fn is_met<Q: BlockQuestion>(
    alloc: Global,
    question: &Q,
    block: Block<'_>,
    said: &mut String,
) -> Result<bool, AllocError> {
    let told = question.told(alloc, block.text)?;
    let is_met = told.as_str().trim() == question.wanted(block).trim();
    if !is_met {
        writeln!(said, "==== {}\n{}\n---- is\n{told}", block.head, block.text)?;
    }
    Ok(is_met)
}
