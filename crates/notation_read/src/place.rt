//! Where in a text something stands.

use rhai_base::Position;

/// What is left of a text, and where it begins.
#[derive(Clone, Copy)]
pub(crate) struct Place<'a> {
    pub(crate) rest: &'a [u8],
    passed: Passed,
}

/// What stands before a place. Past the last number that a position holds they no longer grow, as in rhai.
#[derive(Clone, Copy)]
struct Passed {
    /// How many lines end before it.
    lines: u16,
    /// How many letters stand before it in its line.
    letters: u16,
}

impl<'a> Place<'a> {
    /// The beginning of a text.
    pub(crate) fn first(text: &'a str) -> Place<'a> {
        Place {
            rest: text.as_bytes(),
            passed: Passed {
                lines: 0,
                letters: 0,
            },
        }
    }

    /// Where the next letter stands.
    pub(crate) fn here(&self) -> Position {
        let column = self.passed.letters.saturating_add(1);
        Position::new(self.passed.lines.saturating_add(1), column)
    }

    /// Where the last letter stands; it ends no line.
    pub(crate) fn last(&self) -> Position {
        Position::new(self.passed.lines.saturating_add(1), self.passed.letters)
    }

    /// So many bytes, and the place behind them; none where there are fewer.
    pub(crate) fn split(&self, count: usize) -> Option<(&'a [u8], Place<'a>)> {
        let (bytes, rest) = self.rest.split_at_checked(count)?;
        let passed = self.passed.and(bytes);
        Some((bytes, Place { rest, passed }))
    }
}

impl Passed {
    /// With these bytes passed too.
    fn and(self, bytes: &[u8]) -> Passed {
        let mut passed = self;
        for byte in bytes {
            passed = passed.and_byte(*byte);
        }
        passed
    }

    /// A letter is counted at its first byte.
    fn and_byte(self, byte: u8) -> Passed {
        match byte {
            b'\n' => Passed {
                lines: self.lines.saturating_add(1),
                letters: 0,
            },
            0x80..=0xBF => self,
            _ => Passed {
                letters: self.letters.saturating_add(1),
                lines: self.lines,
            },
        }
    }
}

/// Where the letter behind so many bytes of a text stands; the end of the text where there are fewer.
pub fn position_behind(text: &str, count: usize) -> Position {
    let place = Place::first(text);
    match place.split(count.min(text.len())) {
        Some((_, place)) => place.here(),
        None => place.here(),
    }
}
