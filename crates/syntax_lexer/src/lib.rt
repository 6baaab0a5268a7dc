//! The words of rhai's own syntax: what stands next in a text, where it stands, and what is left behind it. A text is
//! asked word by word, since behind the `}` of a `${ }` it goes on as a text.
#![tactic(auto)]

mod comments;
mod lexeme;
mod numbers;
mod place;
mod raw;
mod read;
mod symbols;
mod variables;
mod words;
mod written;

pub use lexeme::{Keyword, Lexeme, Mark, Misread};
pub use place::Place;
pub use read::{Lexed, next_lexeme};
pub use variables::{Frame, Variables};
pub use written::{Piece, Written};
