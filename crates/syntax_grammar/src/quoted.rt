//! Texts between quotes.
#![tactic(auto, using(crate::proofs::QuotedSteps::quoted_steps))]

ghost use Rattle.std.specs.Prelude.{◌≡◌, ◌+◌, ◌++◌, ◌∷◌, [], ◌<◌, IfSome, ℕ, List, drop, take, length};
ghost use Rattle.theory_grammar.specs.Words.{Next, Piece, Pieces, Quoted, escaped_letter, is_plain};

use crate::blanks::behind_blanks;
use crate::letters::{goes_on_with, letter_at, past};

/// The place behind a text in quotes that stands next and means this.
pub(crate) fn past_text(text: &[u8], at: usize, wanted: &[u8]) -> Option<usize>
    ensures { IfSome result (λ next. Next (drop at text.now) (Quoted wanted.now) (drop next text.now)) }
{
    let start = behind_blanks(text, at);
    let first = past(text, start, b'"')?;
    let end = written(text, first, wanted)?;
    let next = past(text, end, b'"')?;
    if goes_on_with(text, next, b"\"") {
        return None;
    }
    Some(next)
}

/// The place behind letters that mean this.
fn written(text: &[u8], at: usize, wanted: &[u8]) -> Option<usize>
    ensures { IfSome result (λ next. Pieces (drop at text.now) wanted.now (drop next text.now)) }
{
    let mut place = at;
    let mut done: usize = 0;
    for _ in 0..wanted.len() {
        if done == wanted.len() {
            return Some(place);
        }
        let letter = letter_at(wanted, done)?;
        place = piece(text, place, letter)?;
        done += 1;
    }
    if done == wanted.len() {
        Some(place)
    } else {
        None
    }
}

/// The place behind one letter as it is written.
fn piece(text: &[u8], at: usize, letter: u8) -> Option<usize>
    ensures { IfSome result (λ next. Piece (drop at text.now) (letter ∷ []) (drop next text.now)) }
{
    let first = letter_at(text, at)?;
    let next = at + 1;
    if first == letter && is_plain(first) {
        return Some(next);
    }
    let second = letter_at(text, next)?;
    if first == b'"' && second == b'"' && letter == b'"' {
        return Some(next + 1);
    }
    if first == b'\\' && letter > 0 && escaped_letter(second) == letter {
        return Some(next + 1);
    }
    None
}

fn is_plain(letter: u8) -> bool
    ensures { result ≡ is_plain letter }
{
    !(letter == b'"' || letter == b'\\' || letter == b'\n')
}

fn escaped_letter(letter: u8) -> u8
    ensures { result ≡ escaped_letter letter }
{
    match letter {
        b'n' => b'\n',
        b'r' => b'\r',
        b't' => b'\t',
        b'\\' | b'"' | b'\'' => letter,
        _ => 0,
    }
}
