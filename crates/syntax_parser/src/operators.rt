//! Operators between operands: how tightly they bind, and what they become.

use crate::parser::Parser;
use rhai_ast::Expr;
use rhai_base::{Position, Token};
use syntax_lexer::{Keyword, Lexeme, Mark};

/// An operator between two operands.
#[derive(Clone, Copy, Debug, PartialEq, Eq)]
pub(crate) enum Infix {
    /// A call of this operator.
    Call(Token),
    /// `&&`
    And,
    /// `||`
    Or,
    /// `??`
    Coalesce,
    /// `in`
    In,
    /// `!in`
    NotIn,
}

/// The operators by their tokens, and how tightly each binds.
static PRECEDENCES: [(Token, u8); 19] = [
    (Token::Pipe, 30),
    (Token::XOr, 30),
    (Token::Ampersand, 60),
    (Token::EqualsTo, 90),
    (Token::NotEqualsTo, 90),
    (Token::LessThan, 130),
    (Token::LessThanEqualsTo, 130),
    (Token::GreaterThan, 130),
    (Token::GreaterThanEqualsTo, 130),
    (Token::ExclusiveRange, 140),
    (Token::InclusiveRange, 140),
    (Token::Plus, 150),
    (Token::Minus, 150),
    (Token::Multiply, 180),
    (Token::Divide, 180),
    (Token::Modulo, 180),
    (Token::PowerOf, 190),
    (Token::LeftShift, 210),
    (Token::RightShift, 210),
];

/// Which operators go on with an operand.
#[derive(Clone, Copy, Debug, PartialEq, Eq)]
pub(crate) enum Reach {
    /// All.
    All,
    /// All but `|`, which parts the items of a `switch`.
    Item,
    /// Those that bind more tightly than this operator, or as tightly and to the right.
    Within(Infix),
}

impl Infix {
    /// The operator that stands next, if one does.
    fn of(lexeme: Lexeme<'_>) -> Option<Infix> {
        match lexeme {
            Lexeme::Mark(Mark::And) => Some(Infix::And),
            Lexeme::Mark(Mark::Or) => Some(Infix::Or),
            Lexeme::Mark(Mark::DoubleQuestion) => Some(Infix::Coalesce),
            Lexeme::Keyword(Keyword::In) => Some(Infix::In),
            Lexeme::Keyword(Keyword::NotIn) => Some(Infix::NotIn),
            Lexeme::Operator(token) if precedence_of(token) > 0 => Some(Infix::Call(token)),
            _ => None,
        }
    }

    /// How tightly it binds.
    fn precedence(self) -> u8 {
        match self {
            Infix::Call(token) => precedence_of(token),
            Infix::Or => 30,
            Infix::And => 60,
            Infix::In | Infix::NotIn => 110,
            Infix::Coalesce => 135,
        }
    }

    fn is_range(self) -> bool {
        matches!(
            self,
            Infix::Call(Token::ExclusiveRange | Token::InclusiveRange)
        )
    }

    /// Whether its operands stand in a list.
    fn is_list(self) -> bool {
        matches!(self, Infix::And | Infix::Or | Infix::Coalesce)
    }
}

impl Reach {
    /// Whether an operator goes on with an operand that another one stands before.
    fn has(self, infix: Infix) -> bool {
        match self {
            Reach::All => true,
            Reach::Item => infix != Infix::Call(Token::Pipe),
            Reach::Within(before) => {
                infix.precedence() > before.precedence()
                    || infix == before && infix == Infix::Call(Token::PowerOf)
            }
        }
    }
}

fn precedence_of(token: Token) -> u8 {
    for (operator, precedence) in &PRECEDENCES {
        if *operator == token {
            return *precedence;
        }
    }
    0
}

impl<'a> Parser<'a> {
    /// The operator that stands next, if it goes on with an operand.
    pub(crate) fn infix(&self, reach: Reach) -> Option<Infix> {
        let infix = Infix::of(self.lexeme())?;
        if reach.has(infix) { Some(infix) } else { None }
    }

    /// Whether a range begins there without its first end.
    pub(crate) fn is_range(&self) -> bool {
        matches!(Infix::of(self.lexeme()), Some(infix) if infix.is_range())
    }

    /// Whether a range ends there without its last end.
    pub(crate) fn ends_range(&self, infix: Infix) -> bool {
        infix.is_range()
            && matches!(
                self.lexeme(),
                Lexeme::End
                    | Lexeme::Mark(
                        Mark::RightParen
                            | Mark::RightBracket
                            | Mark::RightBrace
                            | Mark::Comma
                            | Mark::SemiColon
                            | Mark::DoubleArrow
                            | Mark::LeftBrace
                    )
            )
    }

    /// An operator between two operands, of which the first came of another operator of the same run, or of none.
    pub(crate) fn infix_of(
        &self,
        lhs: Option<Expr>,
        infix: Infix,
        rhs: Option<Expr>,
        before: Option<Infix>,
        pos: Position,
    ) -> Option<Expr> {
        if matches!(infix, Infix::And | Infix::Or) {
            self.want_bool(&lhs);
            self.want_bool(&rhs);
        }
        if infix.is_list() && before == Some(infix) {
            return self.longer(lhs, rhs);
        }
        match infix {
            Infix::Call(token) => self.operation(token, self.two(lhs, rhs), pos),
            Infix::And => Some(Expr::And(self.seq(self.two(lhs, rhs))?, pos)),
            Infix::Or => Some(Expr::Or(self.seq(self.two(lhs, rhs))?, pos)),
            Infix::Coalesce => Some(Expr::Coalesce(self.seq(self.two(lhs, rhs))?, pos)),
            Infix::In => self.call_named("contains", self.two(rhs, lhs), pos),
            Infix::NotIn => {
                let contains = self.call_named("contains", self.two(rhs, lhs), pos);
                self.operation(Token::Bang, self.two(contains, None), pos)
            }
        }
    }

    /// A list with one operand more.
    fn longer(&self, list: Option<Expr>, operand: Option<Expr>) -> Option<Expr> {
        let mut list = list?;
        let operand = operand?;
        if let Expr::And(operands, _)
        | Expr::Or(operands, _)
        | Expr::Coalesce(operands, _) = &mut list
        {
            let longer = operands.get_mut().push(operand);
            self.made(longer);
        }
        Some(list)
    }
}
