//! Texts.

use crate::error::{LexError, ParseErrorType};
use crate::inside::Inside;
use crate::parser::Parser;
use rhai_ast::Expr;
use rhai_base::{ImmutableString, Position};
use syntax_lexer::{Piece, Written};

impl<'a> Parser<'a> {
    /// What a text in quotes means.
    pub(crate) fn written(&self, text: Written<'a>) -> Option<ImmutableString> {
        let (letters, _) = self.letters(text);
        self.text_of(letters, self.here())
    }

    /// A text without escapes.
    pub(crate) fn raw(&self, text: &'a str) -> Option<ImmutableString> {
        self.text_of(self.owned(text)?, self.here())
    }

    /// The characters of a text up to its end or a block, and what is there.
    fn letters(&self, text: Written<'a>) -> (String, (Piece, Written<'a>)) {
        let mut letters = String::new(self.alloc);
        let mut rest = text;
        let mut end = Piece::Open;
        for _ in 0..=text.place().rest().len() {
            let (piece, behind) = rest.piece();
            rest = behind;
            end = piece;
            match piece {
                Piece::Letter(letter) => {
                    let pushed = letters.push(letter);
                    self.made(pushed);
                }
                Piece::Nothing => {}
                _ => break,
            }
        }
        (letters, (end, rest))
    }

    /// A text, if it is not too long.
    fn text_of(&self, letters: String, start: Position) -> Option<ImmutableString> {
        let most = self.options.max_string_size;
        if most > 0 && letters.len() > most {
            let input = LexError::StringTooLong(most);
            self.refuse(ParseErrorType::BadInput(input), start);
        }
        self.made(ImmutableString::from_string(letters))
    }

    /// A part of a text in back-ticks, and goes past it: the text, and whether it is the last part. The opening
    /// back-tick stands there.
    pub(crate) fn text_part(&self, text: Written<'a>, start: Position) -> (Option<Expr>, bool) {
        let pos = text.place().position();
        let (letters, (end, behind)) = self.letters(text);
        self.go_on(behind.place());
        if end == Piece::Open {
            self.refuse(
                ParseErrorType::BadInput(LexError::UnterminatedString),
                start,
            );
        }
        let part = match self.text_of(letters, start) {
            Some(text) => Some(Expr::StringConstant(text, pos)),
            None => None,
        };
        (part, end != Piece::Block)
    }

    /// A text in back-ticks, whose opening one stands next.
    #[cycle(parse)]
    pub(crate) fn back_ticks(&self, text: Written<'a>, inside: Inside) -> Option<Expr> {
        let start = self.take();
        let (part, is_last) = self.text_part(text, start);
        if is_last {
            return at(part, start);
        }
        let mut parts = Vec::new(self.alloc);
        self.push(&mut parts, unless_empty(part));
        for _ in 0..self.most() {
            let block = self.braced(self.block(inside));
            self.push(&mut parts, block);
            let (part, is_last) = self.text_part(text.from_place(self.place()), start);
            self.push(&mut parts, unless_empty(part));
            if is_last {
                break;
            }
        }
        Some(Expr::InterpolatedString(self.seq(parts)?, start))
    }
}

/// A text where it begins.
fn at(text: Option<Expr>, start: Position) -> Option<Expr> {
    match text? {
        Expr::StringConstant(text, _) => Some(Expr::StringConstant(text, start)),
        other => Some(other),
    }
}

/// A part that has letters.
fn unless_empty(part: Option<Expr>) -> Option<Expr> {
    let part = part?;
    if is_empty(&part) { None } else { Some(part) }
}

fn is_empty(part: &Expr) -> bool {
    match part {
        Expr::StringConstant(text, _) => text.as_str().is_empty(),
        _ => false,
    }
}
