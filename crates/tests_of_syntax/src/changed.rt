//! Texts of scripts that are cut short or changed: whatever they are, there is an answer, and a refusal stands in the
//! text.

use rhai_base::Position;
use std::alloc::{AllocError, Global};
use syntax_parser::compile;
use tests_reader::blocks_of;

/// How many texts were asked, and how many of them were refused where they have no place.
#[derive(Clone, Copy)]
struct Counts {
    texts: u64,
    outside: u64,
}

/// Letters that are put into texts.
static LETTERS: [&str; 64] = [
    "{",
    "}",
    "(",
    ")",
    "[",
    "]",
    "()",
    "#{",
    ";",
    ",",
    ":",
    "::",
    ".",
    "?.",
    "?[",
    "..",
    "..=",
    "|",
    "||",
    "&",
    "&&",
    "^",
    "!",
    "??",
    "=",
    "==",
    "=>",
    "+=",
    "<",
    "<<",
    "-",
    "+",
    "*",
    "**",
    "/",
    "\"",
    "'",
    "`",
    "${",
    "\\",
    "#",
    "#\"",
    "//",
    "/*",
    "*/",
    "///",
    "\n",
    "\r\n",
    "\t",
    "\u{e9}",
    "\u{1f600}",
    "0x",
    "1.5",
    "9223372036854775808",
    " if ",
    " fn ",
    " let ",
    " in ",
    " switch ",
    " _ ",
    " this ",
    " eval(",
    " while ",
    " for ",
];

/// A sequence of numbers in which no order is seen.
#[derive(Drop)]
struct Numbers {
    state: u64,
}

impl Numbers {
    fn next(&mut self) -> u64 {
        let mut state = self.state;
        state ^= state << 13;
        state ^= state >> 7;
        state ^= state << 17;
        self.state = state;
        state
    }

    /// A number below this one.
    fn below(&mut self, count: usize) -> usize {
        let number = self.next();
        match number.checked_rem(count as u64) {
            Some(rest) => rest as usize,
            None => 0,
        }
    }
}

impl Counts {
    fn none() -> Counts {
        Counts {
            texts: 0,
            outside: 0,
        }
    }

    /// What texts came to that had this done to them.
    fn told(self, alloc: Global, done: &str) -> Result<String, AllocError> {
        let Counts { texts, outside } = self;
        format!(in alloc; "{done}: {texts} texts, {outside} refused outside of them\n")
    }
}

/// Says what became of the texts of these blocks, each cut short at each place.
pub(crate) fn cut_all(alloc: Global, rows: &str) -> Result<String, AllocError> {
    let mut counts = Counts::none();
    for block in blocks_of(alloc, rows)? {
        counts = cut(alloc, counts, block.text);
    }
    counts.told(alloc, "cut")
}

/// Says what became of so many texts of these blocks that are changed.
pub(crate) fn change(
    alloc: Global,
    rows: &str,
    count: u64,
    seed: u64,
) -> Result<String, AllocError> {
    let counts = changed(alloc, Counts::none(), rows, count, seed)?;
    counts.told(alloc, "changed")
}

/// Each beginning of a text.
fn cut(alloc: Global, counts: Counts, text: &str) -> Counts {
    let mut counts = counts;
    for (length, _) in text.char_indices() {
        if let Some(beginning) = text.get(..length) {
            counts = with(alloc, counts, beginning);
        }
    }
    counts
}

/// So many texts, each with some letters changed.
fn changed(
    alloc: Global,
    counts: Counts,
    rows: &str,
    count: u64,
    seed: u64,
) -> Result<Counts, AllocError> {
    let blocks = blocks_of(alloc, rows)?;
    let mut numbers = Numbers {
        state: seed.wrapping_mul(2).wrapping_add(1),
    };
    let mut counts = counts;
    for _ in 0..count {
        let index = numbers.below(blocks.len());
        let text = match blocks.get(index) {
            Some(block) => block.text,
            None => "",
        };
        let changed = with_changes(alloc, text, &mut numbers)?;
        counts = with(alloc, counts, changed.as_str());
    }
    Ok(counts)
}

/// The text with up to four changes.
fn with_changes(alloc: Global, text: &str, numbers: &mut Numbers) -> Result<String, AllocError> {
    let mut changed = String::from_str(alloc, text)?;
    for _ in 0..numbers.below(4) {
        changed = with_change(alloc, changed.as_str(), numbers)?;
    }
    with_change(alloc, changed.as_str(), numbers)
}

/// The text with letters put in, and some left out there.
fn with_change(alloc: Global, text: &str, numbers: &mut Numbers) -> Result<String, AllocError> {
    let place = numbers.below(text.len().saturating_add(1));
    let behind = place.saturating_add(numbers.below(4));
    let letters = letters_at(numbers.below(LETTERS.len()));
    let mut changed = String::from_str(alloc, text.get(..place).unwrap_or(text))?;
    changed.push_str(letters)?;
    changed.push_str(text.get(behind..).unwrap_or(""))?;
    Ok(changed)
}

/// The letters at a place of their list.
fn letters_at(index: usize) -> &'static str {
    for (place, letters) in LETTERS.iter().enumerate() {
        if place == index {
            return letters;
        }
    }
    ""
}

/// A text is a script, or refused within it.
fn with(alloc: Global, counts: Counts, text: &str) -> Counts {
    let is_outside = match compile(alloc, text) {
        Ok(_) => false,
        Err(error) => !is_within(text, error.position()),
    };
    Counts {
        texts: counts.texts.saturating_add(1),
        outside: counts.outside.saturating_add(u64::from(is_outside)),
    }
}

/// Whether a place is one of a text, or its end.
fn is_within(text: &str, position: Position) -> bool {
    let Some(line) = position.line() else {
        return false;
    };
    let column = position.position().unwrap_or(0);
    match text.split('\n').nth(line.saturating_sub(1)) {
        Some(letters) => column > 0 && column <= letters.chars().count().saturating_add(1),
        None => false,
    }
}
