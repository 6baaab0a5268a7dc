//! What stands next in a text.

use crate::comments::{behind_blanks, doc_at};
use crate::lexeme::{Lexeme, Misread};
use crate::numbers::number_at;
use crate::place::Place;
use crate::raw::raw_at;
use crate::symbols::symbol_at;
use crate::words::word_at;
use crate::written::{back_tick_at, char_at, text_at};
use base_tokens::Position;

/// What stands next in a text, where, and what is left behind it.
#[derive(Clone, Copy, Debug)]
pub struct Lexed<'a> {
    /// What it is.
    pub lexeme: Lexeme<'a>,
    /// Where it begins; where an escape is none, its last character.
    pub position: Position,
    /// Its first letter and all behind it.
    pub start: Place<'a>,
    /// What is left.
    pub behind: Place<'a>,
}

impl<'a> Lexed<'a> {
    /// What begins at a place.
    pub(crate) fn new(place: Place<'a>, lexeme: Lexeme<'a>, behind: Place<'a>) -> Lexed<'a> {
        Lexed {
            lexeme,
            position: place.position(),
            start: place,
            behind,
        }
    }

    /// What is no word and begins at a place, with its letters.
    pub(crate) fn bad(place: Place<'a>, why: Misread, behind: Place<'a>) -> Lexed<'a> {
        let length = place.rest().len().saturating_sub(behind.rest().len());
        let (letters, _) = place.split(length);
        Lexed::new(place, Lexeme::Bad(why, letters), behind)
    }
}

/// What stands next behind blanks and comments, where it begins, and what is left behind it.
pub fn next_lexeme(place: Place<'_>) -> Lexed<'_> {
    let start = behind_blanks(place);
    match start.rest().as_bytes().first() {
        None => Lexed::new(start, Lexeme::End, start),
        Some(b'"') => text_at(start),
        Some(b'\'') => char_at(start),
        Some(first) => {
            let (lexeme, behind) = begun_with(*first, start);
            Lexed::new(start, lexeme, behind)
        }
    }
}

/// What begins with a byte.
fn begun_with(first: u8, start: Place<'_>) -> (Lexeme<'_>, Place<'_>) {
    match first {
        b'0'..=b'9' => number_at(start),
        b'a'..=b'z' | b'A'..=b'Z' | b'_' => word_at(start),
        b'`' => back_tick_at(start),
        b'#' => match raw_at(start) {
            Some(found) => found,
            None => symbol_at(start),
        },
        b'/' => match doc_at(start) {
            Some(found) => found,
            None => symbol_at(start),
        },
        _ => symbol_at(start),
    }
}
