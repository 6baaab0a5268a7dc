//! Blanks and comments.
#![tactic(auto, using(crate::proofs::LetterSteps::letter_steps, crate::proofs::BlankSteps::blank_steps))]

ghost use Rattle.std.specs.Prelude.{◌≡◌, ◌∷◌, ◌++◌, ◌<◌, ◌==◌, ◌&&◌, ◌||◌, IfSome, drop, codes};
ghost use Rattle.base_tokens.specs.Names.{within};
ghost use Rattle.theory_grammar.specs.Words.{Blank, Blanks, behind_block, behind_line, is_white, is_wide, is_wider};

use crate::letters::letter_at;

/// The place behind any number of blanks and comments.
pub(crate) fn behind_blanks(text: &[u8], at: usize) -> usize
    ensures { Blanks (drop at text.now) (drop result text.now) }
{
    let mut place = at;
    for _ in 0..text.len() {
        match blank(text, place) {
            Some(next) => place = next,
            None => return place,
        }
    }
    place
}

/// The place behind one blank or comment.
fn blank(text: &[u8], at: usize) -> Option<usize>
    ensures { IfSome result (λ next. Blank (drop at text.now) (drop next text.now)) }
{
    let first = letter_at(text, at)?;
    if is_white(first) {
        return Some(at + 1);
    }
    if first == b'/' {
        return comment(text, at + 1);
    }
    if first < 0x80 {
        return None;
    }
    wide(text, first, at + 1)
}

/// The place behind a comment, behind its first `/`.
fn comment(text: &[u8], at: usize) -> Option<usize>
    ensures { IfSome result (λ next. Blank (47 ∷ drop at text.now) (drop next text.now)) }
{
    match letter_at(text, at)? {
        b'/' => line_end(text, at + 1),
        b'*' => block_end(text, at + 1),
        _ => None,
    }
}

/// The place behind a blank that is not ASCII's, behind its first byte.
fn wide(text: &[u8], first: u8, at: usize) -> Option<usize>
    ensures { IfSome result (λ next. Blank (first ∷ drop at text.now) (drop next text.now)) }
{
    let second = letter_at(text, at)?;
    if is_wide(first, second) {
        return Some(at + 1);
    }
    let next = at + 1;
    let third = letter_at(text, next)?;
    if is_wider(first, second, third) {
        Some(next + 1)
    } else {
        None
    }
}

fn is_white(letter: u8) -> bool
    ensures { result ≡ is_white letter }
{
    (b'\t' <= letter && letter <= b'\r') || letter == b' '
}

fn is_wide(first: u8, second: u8) -> bool
    ensures { result ≡ is_wide first second }
{
    first == 0xC2 && (second == 0x85 || second == 0xA0)
}

fn is_wider(first: u8, second: u8, third: u8) -> bool
    ensures { result ≡ is_wider first second third }
{
    (first == 225 && second == 154 && third == 128)
        || (first == 226 && second == 128 && is_wider_end(third))
        || (first == 226 && second == 129 && third == 159)
        || (first == 227 && second == 128 && third == 128)
}

/// Whether it is the last byte of white space, behind the bytes 226 and 128.
fn is_wider_end(third: u8) -> bool
    ensures { result ≡ (within 128 138 third || third == 168 || third == 169 || third == 175) }
{
    (128 <= third && third <= 138) || third == 168 || third == 169 || third == 175
}

/// Where the line ends.
pub(crate) fn line_end(text: &[u8], at: usize) -> Option<usize>
    ensures { IfSome result (λ next. drop next text.now ≡ behind_line (drop at text.now)) }
{
    let mut place = at;
    for _ in 0..text.len() {
        match letter_at(text, place) {
            None | Some(b'\n') => return Some(place),
            Some(_) => place += 1,
        }
    }
    None
}

/// The place behind a comment in which others may stand, behind its first `/*`.
fn block_end(text: &[u8], at: usize) -> Option<usize>
    ensures { IfSome result (λ next. drop next text.now ≡ behind_block 1 (drop at text.now)) }
{
    let mut place = at;
    let mut depth: usize = 1;
    for _ in 0..text.len() {
        if depth == 0 {
            return Some(place);
        }
        (place, depth) = in_block(text, place, depth)?;
    }
    if depth == 0 { Some(place) } else { None }
}

/// A place further on in comments of which so many are open, and how many are open there.
fn in_block(text: &[u8], at: usize, depth: usize) -> Option<(usize, usize)>
    requires { 0 < depth }
    ensures { IfSome result (λ next.
        behind_block depth (drop at text.now) ≡ behind_block next.1 (drop next.0 text.now)) }
{
    let Some(first) = letter_at(text, at) else {
        return Some((at, 0));
    };
    let next = at + 1;
    let Some(second) = letter_at(text, next) else {
        return Some((next, 0));
    };
    if opens(first, second) {
        if depth == usize::MAX {
            return None;
        }
        return Some((next + 1, depth + 1));
    }
    if closes(first, second) {
        return Some((next + 1, depth - 1));
    }
    Some((next, depth))
}

/// Whether these letters begin a comment inside another.
fn opens(first: u8, second: u8) -> bool
    ensures { result ≡ (first == 47 && second == 42) }
{
    first == b'/' && second == b'*'
}

/// Whether they end it.
fn closes(first: u8, second: u8) -> bool
    ensures { result ≡ (first == 42 && second == 47) }
{
    first == b'*' && second == b'/'
}
