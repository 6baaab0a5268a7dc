//! Texts without escapes between signs of number.

use crate::lexeme::{Lexeme, Misread};
use crate::place::{Kind, Place, run_of};

/// The text that stands next, where signs of number and a quote do.
pub(crate) fn raw_at(place: Place<'_>) -> Option<(Lexeme<'_>, Place<'_>)> {
    let signs = run_of(place.rest().as_bytes(), Kind::Only(b'#'));
    let (hashes, quote) = place.split(signs);
    if !quote.starts("\"") {
        return None;
    }
    let start = quote.behind(1);
    match length_of(start.rest().as_bytes(), hashes.as_bytes()) {
        Some(length) => {
            let (text, end) = start.split(length);
            Some((Lexeme::Raw(text), end.behind(signs.saturating_add(1))))
        }
        None => Some((
            Lexeme::Bad(Misread::UnterminatedString, hashes),
            start.end(),
        )),
    }
}

/// How many bytes stand before the first quote that these signs follow.
fn length_of(bytes: &[u8], hashes: &[u8]) -> Option<usize> {
    for (index, byte) in bytes.iter().enumerate() {
        if *byte == b'"' && follow(bytes, index, hashes) {
            return Some(index);
        }
    }
    None
}

/// Whether these signs stand behind an index.
fn follow(bytes: &[u8], index: usize, hashes: &[u8]) -> bool {
    match bytes.get(index.saturating_add(1)..) {
        Some(behind) => behind.starts_with(hashes),
        None => false,
    }
}
