//! Statements that leave a loop, a function or the script.

use crate::error::ParseErrorType;
use crate::inside::Inside;
use crate::parser::Parser;
use rhai_ast::{Expr, Stmt};
use rhai_base::{ASTFlags, Boxed};
use syntax_lexer::Mark;

impl<'a> Parser<'a> {
    /// A `return` or a `throw`, whose word stands next.
    #[cycle(parse)]
    pub(crate) fn return_or_throw(&self, flags: ASTFlags, inside: Inside) -> Option<Stmt> {
        let pos = self.take();
        let value = self.carried(inside)?;
        Some(Stmt::Return(value, flags, pos))
    }

    /// A `break` or a `continue`, whose word stands next.
    #[cycle(parse)]
    pub(crate) fn out_of_loop(&self, flags: ASTFlags, inside: Inside) -> Option<Stmt> {
        if !inside.is_loop {
            self.refuse_next(ParseErrorType::LoopBreak);
        }
        let pos = self.take();
        if flags == ASTFlags::NONE {
            return Some(Stmt::BreakLoop(None, flags, pos));
        }
        let value = self.carried(inside)?;
        Some(Stmt::BreakLoop(value, flags, pos))
    }

    /// The expression that a statement carries out, where one is written.
    #[cycle(parse)]
    fn carried(&self, inside: Inside) -> Option<Option<Boxed<Expr>>> {
        if self.is_mark(Mark::SemiColon) || self.is_mark(Mark::RightBrace) || self.is_at_end() {
            return Some(None);
        }
        let value = self.expr(inside)?;
        Some(Some(self.boxed(value)?))
    }
}
