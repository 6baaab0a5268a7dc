//! Declarations, imports and exports.

use crate::inside::Inside;
use crate::parser::Parser;
use rhai_ast::{Expr, Stmt};
use rhai_base::{ASTFlags, Ident, Position, Token};
use syntax_lexer::Keyword;

impl<'a> Parser<'a> {
    /// A declaration, whose word stands next.
    #[cycle(parse)]
    pub(crate) fn declaration(&self, flags: ASTFlags, inside: Inside) -> Option<Stmt> {
        let pos = self.take();
        let (word, name) = self.name()?;
        let value = self.initial(inside);
        self.declare(word, flags == ASTFlags::CONSTANT);
        self.declared_as(name, value, flags, pos)
    }

    /// The value of a declaration, unit where none is written.
    #[cycle(parse)]
    fn initial(&self, inside: Inside) -> Option<Expr> {
        if self.skip_operator(Token::Equals) {
            self.expr(inside)
        } else {
            Some(Expr::Unit(Position::NONE))
        }
    }

    fn declared_as(
        &self,
        name: Ident,
        value: Option<Expr>,
        flags: ASTFlags,
        pos: Position,
    ) -> Option<Stmt> {
        let parts = self.boxed((name, value?, None))?;
        Some(Stmt::Var(parts, flags, pos))
    }

    /// An import, whose word stands next.
    #[cycle(parse)]
    pub(crate) fn import(&self, inside: Inside) -> Option<Stmt> {
        let pos = self.take();
        let path = self.expr(inside);
        let alias = self.alias();
        self.imported(path, alias, pos)
    }

    fn imported(&self, path: Option<Expr>, alias: Option<Ident>, pos: Position) -> Option<Stmt> {
        let path = path?;
        let import = self.boxed((path, alias?))?;
        Some(Stmt::Import(import, pos))
    }

    /// The name behind an `as`; none where there is no `as`.
    fn alias(&self) -> Option<Ident> {
        if self.skip_keyword(Keyword::As) {
            self.ident()
        } else {
            self.no_ident()
        }
    }

    /// An export of the script, whose word stands next.
    pub(crate) fn export(&self, inside: Inside) -> Option<Stmt> {
        let pos = self.take();
        if self.is_keyword(Keyword::Let) {
            return exported(self.declaration(ASTFlags::NONE, inside));
        }
        if self.is_keyword(Keyword::Const) {
            return exported(self.declaration(ASTFlags::CONSTANT, inside));
        }
        let name = self.ident();
        let alias = self.alias();
        self.exported_as(name, alias, pos)
    }

    fn exported_as(
        &self,
        name: Option<Ident>,
        alias: Option<Ident>,
        pos: Position,
    ) -> Option<Stmt> {
        let name = name?;
        let export = self.boxed((name, alias?))?;
        Some(Stmt::Export(export, pos))
    }
}

/// A declaration that is seen from outside.
fn exported(declaration: Option<Stmt>) -> Option<Stmt> {
    match declaration? {
        Stmt::Var(parts, flags, pos) => Some(Stmt::Var(parts, flags | ASTFlags::EXPORTED, pos)),
        other => Some(other),
    }
}
