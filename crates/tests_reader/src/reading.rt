//! Reads what a question is about. Nodes come in boxes, which let go of them in one place.

use crate::odd::{Odd, link_of};
use crate::said::Said;
use notation_read::{ReadError, Script, parse_value, read_lines, read_parts};
use rhai_ast::{Expr, Stmt};
use rhai_base::{Boxed, Dynamic, FnPtr};

impl Said {
    /// What was read, or a copy of it.
    pub fn perhaps_copied<T: Clone + Drop>(&self, read: Option<T>) -> Option<T> {
        if !self.copies {
            return read;
        }
        self.made(read?.clone())
    }

    /// An expression, or with a `.` before it what stands at the right of one.
    pub fn expr(&self, text: &str) -> Option<Boxed<Expr>> {
        let expr = match text.strip_prefix(".") {
            Some(link) if !link.starts_with(".") => self.link(link),
            _ => self.original_expr(text),
        };
        self.perhaps_copied(self.boxed(expr))
    }

    fn link(&self, text: &str) -> Option<Expr> {
        self.made(link_of(self.alloc, self.original_expr(text)?))
    }

    fn original_expr(&self, text: &str) -> Option<Expr> {
        match self.original_stmt(text)? {
            Stmt::Expr(expr) => Some(expr.into_inner()),
            _ => {
                self.want("an expression");
                None
            }
        }
    }

    pub fn stmt(&self, text: &str) -> Option<Boxed<Stmt>> {
        self.perhaps_copied(self.boxed(self.original_stmt(text)))
    }

    /// A statement as it was read.
    pub fn original_stmt(&self, text: &str) -> Option<Stmt> {
        let mut statements = self.read(read_lines(self.alloc, text, Odd))?;
        if statements.len() != 1 {
            self.want("one statement");
        }
        statements.pop()
    }

    /// A value, or a copy that is equal; a pointer, or the first of an array, may have 1 for its first parameter, as in
    /// `Fn(f) with 1`.
    pub fn value_of(&self, text: &str) -> Option<Dynamic> {
        let mut value = match text.strip_suffix(" with 1") {
            Some(text) => self.curried(self.read(parse_value(self.alloc, text))?),
            None => self.read(parse_value(self.alloc, text))?,
        };
        if self.copies {
            value = self.copied(&value)?;
        }
        Some(value)
    }

    /// A value, where there is a text.
    pub fn value_if_some(&self, text: &str) -> Option<Dynamic> {
        if text.is_empty() {
            return None;
        }
        self.value_of(text)
    }

    fn curried(&self, mut value: Dynamic) -> Dynamic {
        match &mut value {
            Dynamic::FnPtr(pointer) => self.curry(pointer),
            Dynamic::Array(items) => {
                if let Some(Dynamic::FnPtr(pointer)) = items.get_mut(0) {
                    self.curry(pointer);
                }
            }
            _ => {}
        }
        value
    }

    fn curry(&self, pointer: &mut FnPtr) {
        self.made(pointer.add_curry(Dynamic::Int(1)));
    }

    fn copied(&self, value: &Dynamic) -> Option<Dynamic> {
        let copy = self.made(value.clone())?;
        if copy != *value || !copy.is_equal(value) {
            self.want("a copy that is equal");
        }
        Some(copy)
    }

    /// Statements, each on a line; `none` is none.
    pub fn lines(&self, text: &str) -> Vec<Stmt> {
        if text == "none" {
            return Vec::new(self.alloc);
        }
        self.read(self.read_ended(text))
            .unwrap_or(Vec::new(self.alloc))
    }

    fn read_ended(&self, text: &str) -> Result<Vec<Stmt>, ReadError> {
        let lines = format!(in self.alloc; "{text}\n")?;
        read_lines(self.alloc, lines.as_str(), Odd)
    }

    /// A script: statements, each on a line, and then functions, each on a line.
    pub fn script(&self, text: &str) -> Option<Script> {
        self.read(read_parts(self.alloc, text, Odd))
    }
}
