//! Blanks and comments.

use crate::lexeme::Lexeme;
use crate::place::{Kind, Place, run_of};

/// What a comment is.
#[derive(Clone, Copy, PartialEq, Eq)]
enum Comment {
    /// To the end of the line.
    Line,
    /// To its own end, those inside counted.
    Block,
    /// A line that documents a function.
    LineDoc,
    /// A block that documents a function.
    BlockDoc,
    /// A line that documents the script.
    ScriptDoc,
}

/// What comments begin with, the longest first.
static COMMENTS: [(&str, Comment); 8] = [
    ("////", Comment::Line),
    ("/***", Comment::Block),
    ("/**/", Comment::Block),
    ("///", Comment::LineDoc),
    ("/**", Comment::BlockDoc),
    ("//!", Comment::ScriptDoc),
    ("//", Comment::Line),
    ("/*", Comment::Block),
];

fn comment_at(place: Place<'_>) -> Option<Comment> {
    if !place.starts("/") {
        return None;
    }
    for (letters, comment) in &COMMENTS {
        if place.starts(letters) {
            return Some(*comment);
        }
    }
    None
}

/// The place behind blanks, and behind comments that document nothing.
pub(crate) fn behind_blanks(place: Place<'_>) -> Place<'_> {
    let mut place = place;
    for _ in 0..place.rest().len() {
        let length = blank(place);
        if length == 0 {
            break;
        }
        place = place.behind(length);
    }
    place
}

/// How long the blanks or the comment are that stand next.
fn blank(place: Place<'_>) -> usize {
    let blanks = white(place.rest());
    if blanks > 0 {
        return blanks;
    }
    match comment_at(place) {
        Some(Comment::Line) => line(place),
        Some(Comment::Block) => block(place),
        _ => 0,
    }
}

/// How long the white space at the head of a text is.
fn white(text: &str) -> usize {
    let mut length: usize = 0;
    for letter in text.chars() {
        if !letter.is_whitespace() {
            break;
        }
        length = length.saturating_add(letter.len_utf8());
    }
    length
}

fn line(place: Place<'_>) -> usize {
    run_of(place.rest().as_bytes(), Kind::OfLine)
}

/// A block without an end goes on to the end of the text.
fn block(place: Place<'_>) -> usize {
    let mut length: usize = 0;
    let mut depth: usize = 0;
    let mut before = b' ';
    for byte in place.rest().as_bytes() {
        length = length.saturating_add(1);
        let pair = (before, *byte);
        before = *byte;
        if pair == (b'/', b'*') {
            depth = depth.saturating_add(1);
            before = b' ';
        }
        if pair == (b'*', b'/') {
            depth = depth.saturating_sub(1);
            before = b' ';
        }
        if depth == 0 && pair == (b'*', b'/') {
            break;
        }
    }
    length
}

/// The comment that documents something, where one stands next.
pub(crate) fn doc_at(place: Place<'_>) -> Option<(Lexeme<'_>, Place<'_>)> {
    match comment_at(place) {
        Some(Comment::LineDoc) => {
            let (text, behind) = place.split(line(place));
            Some((Lexeme::Doc(without_return(text)), behind))
        }
        Some(Comment::ScriptDoc) => {
            let (text, behind) = place.split(line(place));
            Some((Lexeme::ScriptDoc(without_return(text)), behind))
        }
        Some(Comment::BlockDoc) => {
            let (text, behind) = place.split(block(place));
            Some((Lexeme::Doc(text), behind))
        }
        _ => None,
    }
}

/// A line without the `\r` at its end.
fn without_return(line: &str) -> &str {
    line.strip_suffix('\r').unwrap_or(line)
}
