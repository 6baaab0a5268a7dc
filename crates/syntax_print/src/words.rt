//! Which letters are a word, and which of two places is the first.

use rhai_base::Position;
use syntax_lexer::{Lexeme, Place, next_lexeme};

/// Whether letters are a name that no word of the language is.
pub(crate) fn is_name(letters: &str) -> bool {
    match next_lexeme(Place::first(letters)).lexeme {
        Lexeme::Name(word) => word == letters,
        _ => false,
    }
}

/// Whether letters are a name of the language's own that is called.
pub(crate) fn is_called_word(letters: &str) -> bool {
    matches!(
        letters,
        "eval"
            | "Fn"
            | "call"
            | "curry"
            | "is_shared"
            | "is_def_var"
            | "is_def_fn"
            | "type_of"
            | "print"
            | "debug"
    )
}

/// Whether letters are a name of the language's own that a method has.
pub(crate) fn is_method_word(letters: &str) -> bool {
    matches!(letters, "call" | "curry" | "is_shared" | "type_of")
}

/// Whether a function is a closure's.
pub(crate) fn is_anonymous(name: &str) -> bool {
    name.starts_with("anon$")
}

/// Whether a text is a comment of a function: a block, or lines.
pub(crate) fn is_doc(text: &str) -> bool {
    is_doc_word(text) || text.split('\n').all(is_doc_line)
}

fn is_doc_line(line: &str) -> bool {
    line.starts_with("///") && is_doc_word(line)
}

fn is_doc_word(text: &str) -> bool {
    match next_lexeme(Place::first(text)).lexeme {
        Lexeme::Doc(word) => word == text,
        _ => false,
    }
}

/// Whether a text is a comment of the script: lines.
pub(crate) fn is_script_doc(text: &str) -> bool {
    text.split('\n').all(is_script_doc_line)
}

fn is_script_doc_line(line: &str) -> bool {
    match next_lexeme(Place::first(line)).lexeme {
        Lexeme::ScriptDoc(word) => word == line,
        _ => false,
    }
}

/// Whether what stands somewhere stands before what stands there. What stands nowhere stands before nothing, and nothing
/// before it.
pub(crate) fn stands_before(first: Position, second: Position) -> bool {
    let (line, other_line) = (line_of(first), line_of(second));
    !first.is_none()
        && (line < other_line || line == other_line && column_of(first) < column_of(second))
}

fn line_of(pos: Position) -> usize {
    pos.line().unwrap_or(0)
}

fn column_of(pos: Position) -> usize {
    pos.position().unwrap_or(0)
}
