//! Words that a text may have before nodes.

use crate::letters::Letters;
use rhai_ast::{Expr, Stmt};
use rhai_base::OutOfMemory;
use std::alloc::Global;

/// Words that a text may have before nodes, each of which changes the node behind it.
pub trait Marks: Copy {
    /// The word that these letters begin with, up to the node behind it.
    fn mark(&self, letters: &[u8]) -> Option<&'static str>;

    /// The expression behind a word, changed.
    fn marked_expr(
        &self,
        alloc: Global,
        mark: &'static str,
        expr: Expr,
    ) -> Result<Expr, OutOfMemory>;

    /// The statement behind a word, changed.
    fn marked_stmt(
        &self,
        alloc: Global,
        mark: &'static str,
        statement: Stmt,
    ) -> Result<Stmt, OutOfMemory>;
}

/// No such words: a text is as it is printed.
#[derive(Clone, Copy, Debug)]
pub struct NoMarks;

impl Marks for NoMarks {
    fn mark(&self, _: &[u8]) -> Option<&'static str> {
        None
    }

    fn marked_expr(&self, _: Global, _: &'static str, expr: Expr) -> Result<Expr, OutOfMemory> {
        Ok(expr)
    }

    fn marked_stmt(
        &self,
        _: Global,
        _: &'static str,
        statement: Stmt,
    ) -> Result<Stmt, OutOfMemory> {
        Ok(statement)
    }
}

impl<'a, M: Marks> Letters<'a, M> {
    /// The word before a node, and goes past it; none where no such word stands next.
    pub(crate) fn mark(&self) -> Option<&'static str> {
        let mark = self.marks.mark(self.rest())?;
        self.expect(mark);
        Some(mark)
    }

    pub(crate) fn marked_expr(&self, mark: &'static str, expr: Option<Expr>) -> Option<Expr> {
        self.made(self.marks.marked_expr(self.alloc, mark, expr?))
    }

    pub(crate) fn marked_stmt(&self, mark: &'static str, statement: Option<Stmt>) -> Option<Stmt> {
        self.made(self.marks.marked_stmt(self.alloc, mark, statement?))
    }
}
