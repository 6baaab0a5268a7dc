//! Functions.

use crate::error::ParseErrorType;
use crate::inside::Inside;
use crate::parser::Parser;
use rhai_ast::{FnAccess, ScriptFuncDef, StmtBlock};
use rhai_base::{Ident, ImmutableString, Position, Seq, Token};
use std::collections::HashSet;
use syntax_lexer::{Keyword, Lexeme, Mark, next_lexeme};

/// What stands before the parameters of a function.
#[derive(Drop)]
struct Header<'a> {
    word: &'a str,
    name: Ident,
    this_type: Option<ImmutableString>,
}

impl<'a> Parser<'a> {
    /// The comments before what stands next: neighbouring lines are one, and so is each block.
    fn comments(&self) -> Vec<ImmutableString> {
        let mut comments = Vec::new(self.alloc);
        let mut lines: Option<String> = None;
        let mut place = self.place();
        for _ in 0..self.most() {
            let next = next_lexeme(place);
            place = next.behind;
            match next.lexeme {
                Lexeme::ScriptDoc(_) => {}
                Lexeme::Doc(text) if text.starts_with("///") => {
                    lines = self.made(crate::nodes::joined(self.alloc, lines, text));
                }
                Lexeme::Doc(text) => {
                    self.push_comment(&mut comments, lines);
                    lines = None;
                    self.push(&mut comments, self.shared(text));
                }
                _ => break,
            }
        }
        self.push_comment(&mut comments, lines);
        comments
    }

    fn push_comment(&self, comments: &mut Vec<ImmutableString>, lines: Option<String>) {
        if let Some(lines) = lines {
            let text = self.made(ImmutableString::from_string(lines));
            self.push(comments, text);
        }
    }

    /// A function, whose first word stands next, with the comments before it; it goes to the table.
    pub(crate) fn function(&self, inside: Inside) {
        let start = self.here();
        let comments = self.comments();
        let access = if self.skip_keyword(Keyword::Private) {
            FnAccess::Private
        } else {
            FnAccess::Public
        };
        if !self.skip_keyword(Keyword::Fn) {
            self.want("fn", "behind `private`");
        }
        if let Some(header) = self.header() {
            self.defined(header, access, comments, start, inside);
        }
    }

    /// The type of the receiver, if there is one, and the name.
    fn header(&self) -> Option<Header<'a>> {
        if let Lexeme::Text(_) | Lexeme::Raw(_) = self.lexeme() {
            let this_type = self.quoted_type()?;
            self.expect_period();
            return self.header_of(Some(this_type));
        }
        let (word, name) = self.function_name()?;
        if !self.is_operator(Token::Period) {
            return Some(Header {
                word,
                name,
                this_type: None,
            });
        }
        self.take();
        let this_type = self.type_named(word)?;
        self.header_of(Some(this_type))
    }

    fn header_of(&self, this_type: Option<ImmutableString>) -> Option<Header<'a>> {
        let (word, name) = self.function_name()?;
        Some(Header {
            word,
            name,
            this_type,
        })
    }

    fn expect_period(&self) {
        if !self.skip_operator(Token::Period) {
            self.want(".", "behind the type of the receiver");
        }
    }

    /// The type of a text.
    fn quoted_type(&self) -> Option<ImmutableString> {
        let text = match self.lexeme() {
            Lexeme::Text(text) => self.written(text)?,
            Lexeme::Raw(text) => self.raw(text)?,
            _ => return None,
        };
        self.take();
        if text.as_str() == "int" {
            return self.shared("i64");
        }
        Some(text)
    }

    fn type_named(&self, word: &'a str) -> Option<ImmutableString> {
        if word == "int" {
            self.shared("i64")
        } else {
            self.shared(word)
        }
    }

    /// The name of a function, which should stand next.
    fn function_name(&self) -> Option<(&'a str, Ident)> {
        match self.lexeme() {
            Lexeme::Name(_) => self.name(),
            _ => {
                self.refuse_name(ParseErrorType::FnMissingName);
                None
            }
        }
    }

    /// The parameters and the block of a function, and puts it into the table.
    fn defined(
        &self,
        header: Header<'a>,
        access: FnAccess,
        comments: Vec<ImmutableString>,
        start: Position,
        inside: Inside,
    ) {
        let around = self.enter(false);
        let params = self.params(header.word);
        let body = self.function_body(header.word, inside);
        self.leave(around);
        let word = header.word;
        let function = function_of(header, access, params, body, comments);
        self.add_function(word, function, start);
    }

    /// The parameters of a function, which should stand next.
    fn params(&self, function: &'a str) -> Vec<ImmutableString> {
        let mut params = Vec::new(self.alloc);
        let mut words = self.no_words();
        if self.skip_operator(Token::Unit) {
            return params;
        }
        if !self.skip_operator(Token::LeftParen) {
            if let Some(name) = self.owned(function) {
                self.refuse_next(ParseErrorType::FnMissingParams(name));
            }
        }
        for _ in 0..self.most() {
            if self.is_mark(Mark::RightParen) || self.is_at_end() {
                break;
            }
            self.param(&mut params, &mut words, function, ")");
            if !self.skip_mark(Mark::Comma) {
                break;
            }
        }
        self.end_arguments();
        params
    }

    pub(crate) fn no_words(&self) -> HashSet<&'a str> {
        HashSet::new(self.alloc)
    }

    /// A parameter, which is declared; one that stands twice is refused. Where none stands, the end of the list should.
    pub(crate) fn param(
        &self,
        params: &mut Vec<ImmutableString>,
        words: &mut HashSet<&'a str>,
        function: &str,
        end: &'static str,
    ) {
        let pos = self.here();
        let Lexeme::Name(word) = self.lexeme() else {
            let missing = ParseErrorType::MissingToken(end, "to end the parameters");
            return self.refuse_name(missing);
        };
        self.take();
        if words.contains(&word) {
            self.refuse_param(function, word, pos);
        }
        let noted = words.insert(word);
        self.made(noted);
        self.declare(word, false);
        self.push(params, self.shared(word));
    }

    fn refuse_param(&self, function: &str, param: &str, pos: Position) {
        let Some(function) = self.owned(function) else {
            return;
        };
        if let Some(param) = self.owned(param) {
            self.refuse(ParseErrorType::FnDuplicatedParam(function, param), pos);
        }
    }

    /// The block of a function, which should stand next.
    fn function_body(&self, function: &'a str, inside: Inside) -> Option<StmtBlock> {
        if !self.is_mark(Mark::LeftBrace) {
            if let Some(name) = self.owned(function) {
                self.refuse_next(ParseErrorType::FnMissingBody(name));
            }
        }
        self.block(inside.function(self.options.function_levels()))
    }
}

fn function_of(
    header: Header<'_>,
    access: FnAccess,
    params: Vec<ImmutableString>,
    body: Option<StmtBlock>,
    comments: Vec<ImmutableString>,
) -> Option<ScriptFuncDef> {
    let Header {
        word: _,
        name,
        this_type,
    } = header;
    Some(ScriptFuncDef {
        body: body?,
        name: name.name,
        this_type,
        access,
        params: Seq::from_vec(params),
        comments: Seq::from_vec(comments),
    })
}
