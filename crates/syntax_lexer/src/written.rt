//! Texts and characters as they are written.

use crate::lexeme::{Lexeme, Misread};
use crate::place::Place;
use crate::read::Lexed;
use base_tokens::Position;

/// A text as it is written, from some place on up to its end.
#[derive(Clone, Copy, Debug)]
pub struct Written<'a> {
    place: Place<'a>,
    quote: Quote,
    /// The column of the opening quote: white space of a continued line is left out up to there.
    margin: u16,
    /// Whether white space is left out.
    skips: bool,
}

/// What a text stands between.
#[derive(Clone, Copy, Debug, PartialEq, Eq)]
enum Quote {
    Double,
    Single,
    BackTick,
}

impl Quote {
    fn letter(self) -> char {
        match self {
            Quote::Double => '"',
            Quote::Single => '\'',
            Quote::BackTick => '`',
        }
    }
}

/// What a piece of a text means.
#[derive(Clone, Copy, Debug, PartialEq, Eq)]
pub enum Piece {
    /// This character.
    Letter(char),
    /// Nothing.
    Nothing,
    /// The text ends behind it.
    Closed,
    /// A block begins at the `{` behind it.
    Block,
    /// The text has no end.
    Open,
    /// No escape ends there.
    BadEscape(Position),
}

impl<'a> Written<'a> {
    /// What follows the quote at a place.
    fn at(place: Place<'a>, quote: Quote) -> Written<'a> {
        Written {
            place: place.behind(1),
            quote,
            margin: place.column(),
            skips: false,
        }
    }

    /// The text from another place on.
    pub fn from_place(self, place: Place<'a>) -> Written<'a> {
        Written {
            place,
            quote: self.quote,
            margin: self.margin,
            skips: false,
        }
    }

    /// Where it goes on.
    pub fn place(self) -> Place<'a> {
        self.place
    }

    /// The next piece, and the text behind it.
    pub fn piece(self) -> (Piece, Written<'a>) {
        let Some(letter) = self.place.letter() else {
            return (Piece::Open, self);
        };
        let behind = self.past(letter.len_utf8());
        match letter {
            '\r' if behind.place.starts("\n") => (Piece::Nothing, behind),
            '\n' if self.quote != Quote::BackTick => (Piece::Open, self),
            '\\' if self.quote != Quote::BackTick => behind.escape(),
            '$' if self.quote == Quote::BackTick && behind.place.starts("{") => {
                (Piece::Block, behind)
            }
            _ if letter == self.quote.letter() => behind.behind_quote(letter),
            _ if self.skips && letter.is_whitespace() && self.place.column() <= self.margin => {
                (Piece::Nothing, behind)
            }
            _ => (Piece::Letter(letter), behind.kept()),
        }
    }

    fn past(self, bytes: usize) -> Written<'a> {
        Written {
            place: self.place.behind(bytes),
            quote: self.quote,
            margin: self.margin,
            skips: self.skips,
        }
    }

    /// The same, with white space as it stands.
    fn kept(self) -> Written<'a> {
        self.from_place(self.place)
    }

    /// Behind one quote: it ends the text, or a second one follows, and they mean one.
    fn behind_quote(self, letter: char) -> (Piece, Written<'a>) {
        if self.place.letter() == Some(letter) {
            (Piece::Letter(letter), self.past(1).kept())
        } else {
            (Piece::Closed, self)
        }
    }

    /// Behind a `\`.
    fn escape(self) -> (Piece, Written<'a>) {
        let Some(letter) = self.place.letter() else {
            return (Piece::Open, self);
        };
        let behind = self.past(letter.len_utf8());
        match letter {
            'n' => (Piece::Letter('\n'), behind.kept()),
            'r' => (Piece::Letter('\r'), behind.kept()),
            't' => (Piece::Letter('\t'), behind.kept()),
            '\\' | '"' | '\'' => (Piece::Letter(letter), behind.kept()),
            'x' => behind.code(2),
            'u' => behind.code(4),
            'U' => behind.code(8),
            '\n' => (Piece::Nothing, behind.continued()),
            '\r' if behind.place.starts("\n") => (Piece::Nothing, behind.past(1).continued()),
            _ => (Piece::BadEscape(self.place.position()), behind),
        }
    }

    /// A text that goes on in the next line.
    fn continued(self) -> Written<'a> {
        Written {
            place: self.place,
            quote: self.quote,
            margin: self.margin,
            skips: true,
        }
    }

    /// The character of so many digits.
    fn code(self, digits: u32) -> (Piece, Written<'a>) {
        let mut text = self;
        let mut code: u32 = 0;
        let mut last = self.place.position();
        for _ in 0..digits {
            last = text.place.position();
            let Some(letter) = text.place.letter() else {
                return (Piece::Open, text);
            };
            let Some(digit) = letter.to_digit(16) else {
                return (Piece::BadEscape(last), text);
            };
            code = code.wrapping_mul(16).wrapping_add(digit);
            text = text.past(1);
        }
        match char::from_u32(code) {
            Some(letter) => (Piece::Letter(letter), text.kept()),
            None => (Piece::BadEscape(last), text),
        }
    }

    /// Behind a back-tick: a line that ends there does not belong to the text.
    fn without_first_line_end(self) -> Written<'a> {
        let text = if self.place.starts("\r") {
            self.past(1)
        } else {
            self
        };
        if text.place.starts("\n") {
            text.past(1)
        } else {
            text
        }
    }
}

/// The text in back-ticks that begins there.
pub(crate) fn back_tick_at(place: Place<'_>) -> (Lexeme<'_>, Place<'_>) {
    let text = Written::at(place, Quote::BackTick).without_first_line_end();
    (Lexeme::BackTick(text), text.place)
}

/// The text in quotes that begins there.
pub(crate) fn text_at(place: Place<'_>) -> Lexed<'_> {
    let text = Written::at(place, Quote::Double);
    let run = run(text);
    match run.end {
        Piece::Closed => Lexed::new(place, Lexeme::Text(text), run.behind.place),
        end => unread(place, end, run.behind.place),
    }
}

/// The character in quotes that begins there.
pub(crate) fn char_at(place: Place<'_>) -> Lexed<'_> {
    let run = run(Written::at(place, Quote::Single));
    let behind = run.behind.place;
    match (run.end, run.only) {
        (Piece::Closed, Some(letter)) => Lexed::new(place, Lexeme::Char(letter), behind),
        (Piece::Closed, None) => Lexed::bad(place, Misread::MalformedChar, behind),
        (end, _) => unread(place, end, behind),
    }
}

/// A text whose run does not end with its quote.
fn unread<'a>(place: Place<'a>, end: Piece, behind: Place<'a>) -> Lexed<'a> {
    match end {
        Piece::BadEscape(position) => Lexed {
            lexeme: Lexeme::Bad(Misread::MalformedEscapeSequence, ""),
            position,
            start: place,
            behind,
        },
        _ => Lexed::bad(place, Misread::UnterminatedString, behind),
    }
}

/// What a text comes to.
#[derive(Clone, Copy)]
struct Extent<'a> {
    /// Its last piece, which is no character.
    end: Piece,
    /// Its character, if it has one alone.
    only: Option<char>,
    behind: Written<'a>,
}

/// Goes over a text to its end.
fn run(text: Written<'_>) -> Extent<'_> {
    let mut run = Extent {
        end: Piece::Open,
        only: None,
        behind: text,
    };
    let mut letters: usize = 0;
    for _ in 0..=text.place.rest().len() {
        let (piece, behind) = run.behind.piece();
        run.behind = behind;
        run.end = piece;
        match piece {
            Piece::Letter(letter) => {
                run.only = if letters == 0 { Some(letter) } else { None };
                letters = letters.saturating_add(1);
            }
            Piece::Nothing => {}
            _ => break,
        }
    }
    run
}
