//! Expressions: operands, and operators before and between them.

use crate::inside::Inside;
use crate::operators::{Infix, Reach};
use crate::parser::Parser;
use rhai_ast::Expr;
use rhai_base::{FloatWrapper, INT, Position, Token};
use std::num::nearest_i64_to_f64;
use syntax_lexer::{Keyword, Lexeme, Mark};

/// The bit of a float that is its sign.
const SIGN: u64 = 0x8000_0000_0000_0000;

impl<'a> Parser<'a> {
    /// The expression that stands next.
    #[cycle(parse)]
    pub(crate) fn expr(&self, inside: Inside) -> Option<Expr> {
        self.expr_within(Reach::All, inside)
    }

    /// The same up to an operator that does not go on with it.
    #[cycle(parse)]
    pub(crate) fn expr_within(&self, reach: Reach, inside: Inside) -> Option<Expr> {
        let inside = self.below(inside)?;
        let operand = if self.is_range() {
            Some(Expr::Unit(self.here()))
        } else {
            self.operand(inside)
        };
        self.go_on_with(operand, None, reach, inside)
    }

    /// An operand and the operators that go on with it, which came of an operator of the same run, or of none.
    #[cycle(parse)]
    fn go_on_with(
        &self,
        operand: Option<Expr>,
        before: Option<Infix>,
        reach: Reach,
        inside: Inside,
    ) -> Option<Expr> {
        let Some(infix) = self.infix(reach) else {
            return operand;
        };
        let inside = self.below(inside)?;
        let pos = self.take();
        let rhs = self.right_side(infix, inside);
        let expr = self.infix_of(operand, infix, rhs, before, pos);
        self.go_on_with(expr, Some(infix), reach, inside)
    }

    /// What stands at the right of an operator.
    #[cycle(parse)]
    fn right_side(&self, infix: Infix, inside: Inside) -> Option<Expr> {
        if self.ends_range(infix) {
            return Some(Expr::Unit(self.here()));
        }
        let inside = self.below(inside)?;
        let operand = self.operand(inside);
        self.go_on_with(operand, None, Reach::Within(infix), inside)
    }

    /// A primary expression, or a sign over an operand.
    #[cycle(parse)]
    fn operand(&self, inside: Inside) -> Option<Expr> {
        let token = match self.lexeme() {
            Lexeme::Operator(Token::Minus) => Token::UnaryMinus,
            Lexeme::Operator(Token::Plus) => Token::UnaryPlus,
            Lexeme::Operator(Token::Bang) => Token::Bang,
            _ => return self.primary(inside),
        };
        let inside = self.below(inside)?;
        let pos = self.take();
        let is_least = token == Token::UnaryMinus && self.is_past_greatest();
        let operand = self.operand(inside);
        if is_least && matches!(operand, Some(Expr::FloatConstant(..))) {
            return Some(Expr::IntegerConstant(INT::MIN, pos));
        }
        self.signed(token, operand, pos)
    }

    /// Whether the integer behind the greatest one stands next, which a sign makes the least one.
    fn is_past_greatest(&self) -> bool {
        matches!(self.lexeme(), Lexeme::Float("9223372036854775808"))
    }

    /// A sign over an operand; over a number that literal.
    fn signed(&self, token: Token, operand: Option<Expr>, pos: Position) -> Option<Expr> {
        match (token, operand?) {
            (Token::UnaryPlus, Expr::IntegerConstant(value, _)) => {
                Some(Expr::IntegerConstant(value, pos))
            }
            (Token::UnaryPlus, Expr::FloatConstant(value, _)) => {
                Some(Expr::FloatConstant(value, pos))
            }
            (Token::UnaryMinus, Expr::IntegerConstant(value, _)) => Some(negated(value, pos)),
            (Token::UnaryMinus, Expr::FloatConstant(value, _)) => {
                Some(Expr::FloatConstant(opposite(value), pos))
            }
            (token, operand) => self.operation(token, self.two(Some(operand), None), pos),
        }
    }

    /// What stands at the beginning of an expression, with the steps of a chain.
    #[cycle(parse)]
    fn primary(&self, inside: Inside) -> Option<Expr> {
        let base = self.root(inside);
        let chain = self.chain(base, inside);
        self.want_index(&chain);
        chain
    }

    /// What stands at the beginning of an expression.
    #[cycle(parse)]
    fn root(&self, inside: Inside) -> Option<Expr> {
        match self.lexeme() {
            Lexeme::Name(word) => self.named(word, inside),
            Lexeme::Reserved(word) => self.reserved(word, inside),
            Lexeme::Operator(Token::LeftParen) => self.parenthesised(inside),
            Lexeme::Operator(Token::LeftBracket) => self.array(inside),
            Lexeme::Operator(Token::Pipe) | Lexeme::Mark(Mark::Or) => self.closure(inside),
            Lexeme::Mark(Mark::MapStart) => self.map(inside),
            Lexeme::Mark(Mark::LeftBrace) => self.block_expression(inside),
            Lexeme::Keyword(keyword) => self.flow_expression(keyword, inside),
            Lexeme::BackTick(text) => self.back_ticks(text, inside),
            _ => self.literal(),
        }
    }

    /// An expression in parentheses, or unit.
    #[cycle(parse)]
    fn parenthesised(&self, inside: Inside) -> Option<Expr> {
        let pos = self.take();
        if self.skip_mark(Mark::RightParen) {
            return Some(Expr::Unit(pos));
        }
        let expr = self.expr(inside);
        self.expect_mark(Mark::RightParen, ")", "to end this expression");
        expr
    }

    /// A block as an expression.
    #[cycle(parse)]
    fn block_expression(&self, inside: Inside) -> Option<Expr> {
        if self.is_restricted {
            self.refuse_begin();
        }
        self.braced(self.block(inside))
    }

    /// A choice or a loop as an expression.
    #[cycle(parse)]
    fn flow_expression(&self, keyword: Keyword, inside: Inside) -> Option<Expr> {
        let is_choice = matches!(keyword, Keyword::If | Keyword::Switch);
        let is_loop = matches!(
            keyword,
            Keyword::While | Keyword::Loop | Keyword::Do | Keyword::For
        );
        if !is_choice && (self.is_restricted || !is_loop) {
            self.refuse_begin();
            return None;
        }
        let start = self.here();
        let statement = self.flow(keyword, inside);
        self.braced(self.alone(statement, start))
    }
}

/// The integer with the other sign; the least one has none, and becomes a float.
fn negated(value: INT, pos: Position) -> Expr {
    match value.checked_neg() {
        Some(value) => Expr::IntegerConstant(value, pos),
        None => {
            let least = FloatWrapper::new(nearest_i64_to_f64(value));
            Expr::FloatConstant(opposite(least), pos)
        }
    }
}

/// The float with the other sign.
fn opposite(value: FloatWrapper) -> FloatWrapper {
    FloatWrapper::from_bits(value.bits() ^ SIGN)
}
