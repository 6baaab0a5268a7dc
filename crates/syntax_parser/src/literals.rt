//! Literals, arrays and maps.

use crate::error::{LexError, ParseErrorType};
use crate::inside::Inside;
use crate::parser::Parser;
use rhai_ast::Expr;
use rhai_base::{Dynamic, FLOAT, FloatWrapper, Ident, Position, StringMap, Token};
use syntax_lexer::{Lexeme, Mark, Written};

impl<'a> Parser<'a> {
    /// A literal of one word; refuses what begins no expression.
    pub(crate) fn literal(&self) -> Option<Expr> {
        let pos = self.here();
        let literal = match self.lexeme() {
            Lexeme::Integer(value) => Expr::IntegerConstant(value, pos),
            Lexeme::Float(letters) => Expr::FloatConstant(self.float(letters, pos)?, pos),
            Lexeme::Bool(value) => Expr::BoolConstant(value, pos),
            Lexeme::Char(value) => Expr::CharConstant(value, pos),
            Lexeme::Text(text) => Expr::StringConstant(self.written(text)?, pos),
            Lexeme::Raw(text) => Expr::StringConstant(self.raw(text)?, pos),
            Lexeme::Operator(Token::Unit) => Expr::Unit(pos),
            _ => {
                self.refuse_begin();
                return None;
            }
        };
        self.take();
        Some(literal)
    }

    /// The float of these letters, which stand there.
    fn float(&self, letters: &str, pos: Position) -> Option<FloatWrapper> {
        let digits = self.without_marks(letters)?;
        match fast_float::parse::<FLOAT, _>(digits.as_str().as_bytes()) {
            Ok(value) => Some(FloatWrapper::new(value)),
            Err(_) => {
                let input = LexError::MalformedNumber(self.owned(letters)?);
                self.refuse(ParseErrorType::BadInput(input), pos);
                None
            }
        }
    }

    /// The letters of a number without the `_` between them.
    fn without_marks(&self, letters: &str) -> Option<String> {
        let mut digits = self.owned("")?;
        for part in letters.split('_') {
            self.made(digits.push_str(part));
        }
        Some(digits)
    }

    /// An array, whose bracket stands next.
    #[cycle(parse)]
    pub(crate) fn array(&self, inside: Inside) -> Option<Expr> {
        let pos = self.take();
        let mut items = Vec::new(self.alloc);
        for _ in 0..self.most() {
            if self.is_operator_end() {
                break;
            }
            self.push(&mut items, self.expr(inside));
            if self.ends_items() {
                break;
            }
        }
        self.expect_mark(Mark::RightBracket, "]", "to end this array");
        Some(Expr::Array(self.seq(items)?, pos))
    }

    fn is_operator_end(&self) -> bool {
        self.is_mark(Mark::RightBracket) || self.is_at_end()
    }

    /// Goes past a comma behind an item; whether none stands there, as the list should end.
    fn ends_items(&self) -> bool {
        if self.skip_mark(Mark::Comma) {
            return false;
        }
        if !self.is_operator_end() {
            self.want(",", "between the items of an array");
        }
        true
    }

    /// A map, whose sign stands next.
    #[cycle(parse)]
    pub(crate) fn map(&self, inside: Inside) -> Option<Expr> {
        let pos = self.take();
        let mut pairs = Vec::new(self.alloc);
        let mut template = StringMap::new(self.alloc);
        for _ in 0..self.most() {
            if self.is_mark(Mark::RightBrace) {
                break;
            }
            let key = self.key(pairs.is_empty());
            self.note_key(&mut template, &key);
            self.expect_mark(Mark::Colon, ":", "behind the name of a property");
            let pair = paired(key, self.expr(inside));
            self.push(&mut pairs, pair);
            if self.ends_pairs() {
                break;
            }
        }
        self.expect_mark(Mark::RightBrace, "}", "to end this map");
        let map = self.boxed((rhai_base::Seq::from_vec(pairs), template))?;
        Some(Expr::Map(map, pos))
    }

    /// The name of a property: a name or a text.
    fn key(&self, is_first: bool) -> Option<Ident> {
        let pos = self.here();
        match self.lexeme() {
            Lexeme::Name(_) => self.ident(),
            Lexeme::Text(_) | Lexeme::Raw(_) => self.text_key(self.literal(), pos),
            Lexeme::BackTick(text) => self.plain_back_ticks(text, pos),
            Lexeme::Reserved(word) => {
                self.refuse_reserved(word);
                None
            }
            Lexeme::End => {
                self.want("}", "to end this map");
                None
            }
            _ => {
                self.refuse_key(is_first);
                None
            }
        }
    }

    fn refuse_key(&self, is_first: bool) {
        if is_first {
            self.want("}", "to end this map");
        } else {
            self.refuse_next(ParseErrorType::PropertyExpected);
        }
    }

    /// A text in back-ticks as a name, which has no blocks.
    fn plain_back_ticks(&self, text: Written<'a>, pos: Position) -> Option<Ident> {
        let (literal, is_whole) = self.text_part(text, pos);
        if !is_whole {
            self.refuse(ParseErrorType::PropertyExpected, pos);
        }
        self.text_key(literal, pos)
    }

    fn text_key(&self, literal: Option<Expr>, pos: Position) -> Option<Ident> {
        match literal? {
            Expr::StringConstant(name, _) => Some(Ident { name, pos }),
            _ => None,
        }
    }

    /// Puts a key into the template; one that is there is refused.
    fn note_key(&self, template: &mut StringMap<Dynamic>, key: &Option<Ident>) {
        let Some(key) = key else {
            return;
        };
        if template.get(&key.name).is_some() {
            if let Some(name) = self.owned(key.name.as_str()) {
                self.refuse(ParseErrorType::DuplicatedProperty(name), key.pos);
            }
        }
        if let Some(name) = self.made(key.name.clone()) {
            let put = template.insert(name, Dynamic::Unit);
            self.made(put);
        }
    }

    /// Goes past a comma behind a pair; whether none stands there, as the map should end.
    fn ends_pairs(&self) -> bool {
        if self.skip_mark(Mark::Comma) {
            return false;
        }
        if matches!(self.lexeme(), Lexeme::Name(_)) {
            self.want(",", "between the properties of a map");
        }
        true
    }
}

fn paired(key: Option<Ident>, value: Option<Expr>) -> Option<(Ident, Expr)> {
    let key = key?;
    Some((key, value?))
}
