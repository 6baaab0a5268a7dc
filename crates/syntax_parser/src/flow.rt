//! `if`, loops and `try`.

use crate::error::ParseErrorType;
use crate::inside::Inside;
use crate::parser::Parser;
use crate::statements::is_assignment;
use rhai_ast::{Expr, FlowControl, Stmt, StmtBlock};
use rhai_base::{ASTFlags, Ident, Position, Token};
use syntax_lexer::{Keyword, Lexeme, Mark};

impl<'a> Parser<'a> {
    /// An `if`, whose word stands next.
    #[cycle(parse)]
    pub(crate) fn if_else(&self, inside: Inside) -> Option<Stmt> {
        let pos = self.take();
        let condition = self.condition(inside);
        let body = self.block(inside);
        let branch = self.otherwise(inside);
        Some(Stmt::If(self.flowing(condition, body, branch)?, pos))
    }

    /// What stands behind an `else`; no block where there is none.
    #[cycle(parse)]
    fn otherwise(&self, inside: Inside) -> Option<StmtBlock> {
        if !self.skip_keyword(Keyword::Else) {
            return Some(StmtBlock::none(self.alloc));
        }
        if !self.is_keyword(Keyword::If) {
            return self.block(inside);
        }
        let inside = self.below(inside)?;
        let start = self.here();
        self.alone(self.if_else(inside), start)
    }

    /// A condition, behind which no assignment stands.
    #[cycle(parse)]
    pub(crate) fn condition(&self, inside: Inside) -> Option<Expr> {
        self.refuse_brace();
        let condition = self.expr(inside);
        self.want_bool(&condition);
        if let Lexeme::Operator(sign) = self.lexeme() {
            if is_assignment(sign) {
                self.refuse_sign("a condition compares by `==`", self.here());
            }
        }
        condition
    }

    /// Refuses a brace where a condition or an iterable should stand.
    fn refuse_brace(&self) {
        if self.is_mark(Mark::LeftBrace) {
            self.refuse_next(ParseErrorType::ExprExpected(
                "an expression; a block stands in parentheses here",
            ));
        }
    }

    /// A `while`, whose word stands next.
    #[cycle(parse)]
    pub(crate) fn while_loop(&self, inside: Inside) -> Option<Stmt> {
        let pos = self.take();
        let condition = self.condition(inside);
        let body = self.block(inside.body());
        Some(Stmt::While(self.looping(condition, body)?, pos))
    }

    /// A `loop`, whose word stands next.
    #[cycle(parse)]
    pub(crate) fn endless_loop(&self, inside: Inside) -> Option<Stmt> {
        let pos = self.take();
        let body = self.block(inside.body());
        let guard = Some(Expr::Unit(Position::NONE));
        Some(Stmt::While(self.looping(guard, body)?, pos))
    }

    /// A `do`, whose word stands next.
    #[cycle(parse)]
    pub(crate) fn do_loop(&self, inside: Inside) -> Option<Stmt> {
        let pos = self.take();
        let body = self.block(inside.body());
        let flags = self.until();
        let condition = self.condition(inside);
        Some(Stmt::Do(self.looping(condition, body)?, flags, pos))
    }

    /// Whether a loop goes on until its condition.
    fn until(&self) -> ASTFlags {
        if self.skip_keyword(Keyword::Until) {
            return ASTFlags::NEGATED;
        }
        if !self.skip_keyword(Keyword::While) {
            self.want("while", "behind the block of `do`");
        }
        ASTFlags::NONE
    }

    /// A `for`, whose word stands next.
    #[cycle(parse)]
    pub(crate) fn for_loop(&self, inside: Inside) -> Option<Stmt> {
        let pos = self.take();
        let names = self.loop_names();
        if !self.skip_keyword(Keyword::In) {
            self.want("in", "behind the variable of a loop");
        }
        self.refuse_brace();
        let iterable = self.expr(inside);
        self.want_iterable(&iterable);
        let before = self.declared();
        self.declare_loop(&names);
        let body = self.block(inside.body());
        self.shorten(before);
        self.each(names, self.flow_of(iterable, body, self.no_block()), pos)
    }

    /// The variable of a loop, or with its counter in parentheses.
    fn loop_names(&self) -> Option<LoopNames<'a>> {
        if !self.skip_operator(Token::LeftParen) {
            let (word, name) = self.name()?;
            return Some(LoopNames {
                word,
                name,
                counter: None,
            });
        }
        let (word, name) = self.name()?;
        self.expect_mark(Mark::Comma, ",", "behind the variable of a loop");
        let place = self.here();
        let (counter_word, counter) = self.name()?;
        if word == counter_word {
            let name = self.owned(word)?;
            self.refuse(ParseErrorType::DuplicatedVariable(name), place);
        }
        self.expect_mark(Mark::RightParen, ")", "to end the variables of a loop");
        Some(LoopNames {
            word,
            name,
            counter: Some((counter_word, counter)),
        })
    }

    fn declare_loop(&self, names: &Option<LoopNames<'a>>) {
        if let Some(names) = names {
            self.declare(names.word, false);
            if let Some((word, _)) = &names.counter {
                self.declare(word, false);
            }
        }
    }

    /// The loop of its variables and what flows through it.
    fn each(
        &self,
        names: Option<LoopNames<'a>>,
        flow: Option<FlowControl>,
        pos: Position,
    ) -> Option<Stmt> {
        let LoopNames { name, counter, .. } = names?;
        let counter = match counter {
            Some((_, counter)) => Some(counter),
            None => None,
        };
        let each = self.boxed((name, counter, flow?))?;
        Some(Stmt::For(each, pos))
    }

    /// A `try`, whose word stands next.
    #[cycle(parse)]
    pub(crate) fn try_catch(&self, inside: Inside) -> Option<Stmt> {
        let pos = self.take();
        let body = self.block(inside);
        let names = self.declared();
        let caught = self.caught();
        let branch = self.block(inside);
        self.shorten(names);
        Some(Stmt::TryCatch(self.flowing(caught, body, branch)?, pos))
    }

    /// The variable that a `catch` names; unit where it names none.
    fn caught(&self) -> Option<Expr> {
        let pos = self.here();
        if !self.skip_keyword(Keyword::Catch) {
            self.want("catch", "behind the block of `try`");
        }
        if !self.skip_operator(Token::LeftParen) {
            return Some(Expr::Unit(pos));
        }
        let (word, name) = self.name()?;
        self.declare(word, false);
        self.expect_mark(Mark::RightParen, ")", "behind the variable of `catch`");
        self.variable_of(name)
    }
}

/// The variables of a loop.
#[derive(Drop)]
struct LoopNames<'a> {
    word: &'a str,
    name: Ident,
    counter: Option<(&'a str, Ident)>,
}
