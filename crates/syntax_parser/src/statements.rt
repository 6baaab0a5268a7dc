//! Lists of statements, and which statement begins with what.

use crate::error::ParseErrorType;
use crate::inside::Inside;
use crate::parser::Parser;
use rhai_ast::{Stmt, StmtBlock};
use rhai_base::{ASTFlags, Token};
use syntax_lexer::{Keyword, Lexeme, Mark};

impl<'a> Parser<'a> {
    /// The script's own statements, and its functions, which go to the table.
    pub(crate) fn script(&self, inside: Inside) -> Vec<Stmt> {
        let mut statements = Vec::new(self.alloc);
        for _ in 0..self.most() {
            if self.is_at_end() {
                break;
            }
            self.begin();
            self.top(&mut statements, inside);
        }
        statements
    }

    /// A statement, a function or an export.
    fn top(&self, statements: &mut Vec<Stmt>, inside: Inside) {
        match self.lexeme() {
            Lexeme::Mark(Mark::SemiColon) => {
                self.take();
            }
            Lexeme::Keyword(Keyword::Fn | Keyword::Private) => self.function(inside),
            Lexeme::Keyword(Keyword::Export) => {
                let export = self.export(inside);
                self.listed(statements, export);
            }
            Lexeme::Mark(Mark::RightBrace) => self.refuse_begin(),
            _ => {
                let statement = self.statement(inside);
                self.listed(statements, statement);
            }
        }
    }

    /// One expression, and nothing behind it.
    pub(crate) fn one_expression(&self, inside: Inside) -> Vec<Stmt> {
        let mut statements = Vec::new(self.alloc);
        let statement = self.evaluated(self.expr(inside));
        self.push(&mut statements, statement);
        if !self.is_at_end() {
            self.refuse_begin();
        }
        statements
    }

    /// Statements up to the brace that closes their block.
    #[cycle(parse)]
    fn statements(&self, inside: Inside) -> Vec<Stmt> {
        let mut statements = Vec::new(self.alloc);
        for _ in 0..self.most() {
            if self.is_mark(Mark::RightBrace) || self.is_at_end() {
                break;
            }
            if !self.skip_mark(Mark::SemiColon) {
                let statement = self.statement(inside);
                self.listed(&mut statements, statement);
            }
        }
        statements
    }

    /// Adds a statement to its list, and goes past the `;` that should stand behind it, unless it ends by itself or
    /// the list ends.
    fn listed(&self, statements: &mut Vec<Stmt>, statement: Option<Stmt>) {
        let Some(statement) = statement else {
            return;
        };
        let needs_end = !ends_by_itself(&statement);
        self.push(statements, Some(statement));
        if self.is_mark(Mark::RightBrace) || self.is_at_end() {
            return;
        }
        if !self.skip_mark(Mark::SemiColon) && needs_end {
            self.want(";", "to end this statement");
        }
    }

    /// A block, whose brace should stand next.
    #[cycle(parse)]
    pub(crate) fn block(&self, inside: Inside) -> Option<StmtBlock> {
        let start = self.here();
        let names = self.declared();
        self.expect_mark(Mark::LeftBrace, "{", "to begin a block");
        let statements = self.statements(inside);
        self.shorten(names);
        let end = self.here();
        self.expect_mark(Mark::RightBrace, "}", "to end this block");
        Some(StmtBlock::new(statements, start, end))
    }

    /// The statement that stands next.
    #[cycle(parse)]
    pub(crate) fn statement(&self, inside: Inside) -> Option<Stmt> {
        let inside = self.below(inside)?;
        match self.lexeme() {
            Lexeme::Mark(Mark::LeftBrace) => self.block_statement(self.block(inside)),
            Lexeme::Keyword(keyword) if !self.is_restricted => self.begun_with(keyword, inside),
            _ => self.expression_or_assignment(inside),
        }
    }

    /// The statement that begins with a word.
    #[cycle(parse)]
    fn begun_with(&self, keyword: Keyword, inside: Inside) -> Option<Stmt> {
        match keyword {
            Keyword::Let => self.declaration(ASTFlags::NONE, inside),
            Keyword::Const => self.declaration(ASTFlags::CONSTANT, inside),
            Keyword::Import => self.import(inside),
            Keyword::Return => self.return_or_throw(ASTFlags::NONE, inside),
            Keyword::Throw => self.return_or_throw(ASTFlags::BREAK, inside),
            Keyword::Break => self.out_of_loop(ASTFlags::BREAK, inside),
            Keyword::Continue => self.out_of_loop(ASTFlags::NONE, inside),
            Keyword::Try => self.try_catch(inside),
            Keyword::Fn | Keyword::Private => {
                self.refuse_next(ParseErrorType::WrongFnDefinition);
                None
            }
            Keyword::Export => {
                self.refuse_next(ParseErrorType::WrongExport);
                None
            }
            _ => match self.flow(keyword, inside) {
                Some(statement) => Some(statement),
                None => self.expression_or_assignment(inside),
            },
        }
    }

    /// The statement of a word that an expression may begin with too; none where it is another word.
    #[cycle(parse)]
    pub(crate) fn flow(&self, keyword: Keyword, inside: Inside) -> Option<Stmt> {
        match keyword {
            Keyword::If => self.if_else(inside),
            Keyword::Switch => self.switch(inside),
            Keyword::While => self.while_loop(inside),
            Keyword::Loop => self.endless_loop(inside),
            Keyword::Do => self.do_loop(inside),
            Keyword::For => self.for_loop(inside),
            _ => None,
        }
    }

    /// An expression as a statement, or an assignment to it.
    #[cycle(parse)]
    fn expression_or_assignment(&self, inside: Inside) -> Option<Stmt> {
        let expr = self.expr(inside);
        match self.lexeme() {
            Lexeme::Operator(sign) if is_assignment(sign) => self.assignment(expr, sign, inside),
            _ => self.evaluated(expr),
        }
    }
}

/// Whether no `;` stands behind a statement.
pub(crate) fn ends_by_itself(statement: &Stmt) -> bool {
    matches!(
        statement,
        Stmt::If(..)
            | Stmt::Switch(..)
            | Stmt::While(..)
            | Stmt::For(..)
            | Stmt::Block(_)
            | Stmt::TryCatch(..)
    )
}

/// Whether this is `=` or an `op=`.
pub(crate) fn is_assignment(sign: Token) -> bool {
    sign == Token::Equals || sign.get_base_op_from_assignment().is_some()
}
