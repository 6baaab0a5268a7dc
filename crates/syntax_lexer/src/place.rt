//! Where in a text something stands.

use base_tokens::Position;

/// What is left of a text, and where it begins.
#[derive(Clone, Copy, Debug)]
pub struct Place<'a> {
    rest: &'a str,
    passed: Passed,
}

/// What stands before a place. Past the last number that a position holds they no longer grow, as in rhai.
#[derive(Clone, Copy, Debug)]
struct Passed {
    /// How many lines end before it.
    lines: u16,
    /// How many characters stand before it in its line.
    letters: u16,
}

impl<'a> Place<'a> {
    /// The beginning of a text.
    pub fn first(text: &'a str) -> Place<'a> {
        Place {
            rest: text,
            passed: Passed {
                lines: 0,
                letters: 0,
            },
        }
    }

    /// The beginning of a script: behind a byte order mark, and behind what a first line `#!` has.
    pub fn of_script(text: &'a str) -> Place<'a> {
        let place = Place::first(text.strip_prefix('\u{feff}').unwrap_or(text));
        if place.starts("#!") {
            place.behind(run_of(place.rest.as_bytes(), Kind::OfLine))
        } else {
            place
        }
    }

    /// What is left.
    pub fn rest(self) -> &'a str {
        self.rest
    }

    /// Where the next character stands.
    pub fn position(self) -> Position {
        Position::new(self.passed.lines.saturating_add(1), self.column())
    }

    /// In which column the next character stands.
    pub(crate) fn column(self) -> u16 {
        self.passed.letters.saturating_add(1)
    }

    /// The next character.
    pub(crate) fn letter(self) -> Option<char> {
        self.rest.chars().next()
    }

    /// Whether these letters stand next.
    pub(crate) fn starts(self, letters: &str) -> bool {
        self.rest.as_bytes().starts_with(letters.as_bytes())
    }

    /// So many bytes, and the place behind them; nothing where no character ends there.
    pub(crate) fn split(self, count: usize) -> (&'a str, Place<'a>) {
        match self.rest.split_at_checked(count) {
            Some((letters, rest)) => {
                let passed = self.passed.and(letters.as_bytes());
                (letters, Place { rest, passed })
            }
            None => ("", self),
        }
    }

    /// The place behind so many bytes.
    pub(crate) fn behind(self, count: usize) -> Place<'a> {
        let (_, place) = self.split(count);
        place
    }

    /// The end of the text.
    pub fn end(self) -> Place<'a> {
        self.behind(self.rest.len())
    }
}

impl Passed {
    /// With these bytes passed too.
    fn and(self, bytes: &[u8]) -> Passed {
        let mut passed = self;
        for byte in bytes {
            passed = passed.and_byte(*byte);
        }
        passed
    }

    /// A character is counted at its first byte.
    fn and_byte(self, byte: u8) -> Passed {
        match byte {
            b'\n' => Passed {
                lines: self.lines.saturating_add(1),
                letters: 0,
            },
            0x80..=0xBF => self,
            _ => Passed {
                letters: self.letters.saturating_add(1),
                lines: self.lines,
            },
        }
    }
}

/// How many bytes at the head of a text are such.
pub(crate) fn run_of(bytes: &[u8], kind: Kind) -> usize {
    let mut count: usize = 0;
    for byte in bytes {
        if !kind.has(*byte) {
            break;
        }
        count = count.saturating_add(1);
    }
    count
}

/// What bytes are.
#[derive(Clone, Copy)]
pub(crate) enum Kind {
    /// ASCII letters, digits and `_`
    OfNames,
    /// Decimal digits and `_`
    Digits,
    /// Hexadecimal digits and `_`
    HexDigits,
    /// This one.
    Only(u8),
    /// All but the end of a line.
    OfLine,
}

impl Kind {
    fn has(self, byte: u8) -> bool {
        match self {
            Kind::OfNames => byte.is_ascii_alphanumeric() || byte == b'_',
            Kind::Digits => byte.is_ascii_digit() || byte == b'_',
            Kind::HexDigits => byte.is_ascii_hexdigit() || byte == b'_',
            Kind::Only(only) => byte == only,
            Kind::OfLine => byte != b'\n',
        }
    }
}
