//! Names, signs and flags.

use crate::forms::Flat;
use crate::letters::Letters;
use crate::marks::Marks;
use crate::parts::Parts;
use rhai_base::{ASTFlags, Ident, Namespace, OpAssignment, Position};
use std::mem;

/// What is called, or a variable: its path and its name, and whether it sees the caller's names.
#[derive(Drop)]
pub(crate) struct Called {
    pub(crate) namespace: Namespace,
    pub(crate) name: Ident,
    pub(crate) captures: bool,
}

impl<'a, M: Marks> Letters<'a, M> {
    /// Reads a part that no other node stands in.
    pub(crate) fn flat(&self, part: Flat, parts: &mut Parts) {
        match part {
            Flat::Flag(flag) => parts.options |= flag,
            Flat::Name => self.name(parts),
            Flat::Alias => self.alias(parts),
            Flat::LoopNames => self.loop_names(parts),
            Flat::Names => self.names(parts),
            Flat::Until => parts.options |= self.condition(),
            Flat::Ending => parts.options |= self.ending(),
            Flat::Callee => parts.called = self.callee(),
            Flat::Caught => self.caught(parts),
            Flat::Table => parts.table = Some(self.table()),
        }
    }

    /// A path and its name, from its first word on.
    pub(crate) fn called(&self, word: &str, pos: Position) -> Option<Called> {
        let mut called = self.called_of(word, pos)?;
        self.path(&mut called);
        called.captures = self.starts("!(") && self.skip("!");
        Some(called)
    }

    fn called_of(&self, word: &str, pos: Position) -> Option<Called> {
        match self.name_of(word, pos) {
            Some(name) => Some(Called {
                namespace: Namespace::none(self.alloc),
                name,
                captures: false,
            }),
            None => None,
        }
    }

    fn path(&self, called: &mut Called) {
        for _ in 0..self.most() {
            if !self.skip("::") {
                break;
            }
            if let Some(name) = self.segment() {
                let module = mem::replace(&mut called.name, name);
                self.made(called.namespace.path.push(module));
            }
        }
    }

    /// What follows in a path: a name, or an operator before its `(`.
    fn segment(&self) -> Option<Ident> {
        let pos = self.here();
        let word = match self.word() {
            "" => self.symbol(),
            word => word,
        };
        self.name_of(word, pos)
    }

    /// An operator, and goes past the `(`; this is wanted where none stands next.
    pub(crate) fn operator(&self, what: &'static str) -> Option<Called> {
        let before = self.place();
        let (symbol, captures) = capturing(self.symbol());
        if symbol.is_empty() || !self.skip("(") {
            self.come_back(before);
            self.want(what);
            return None;
        }
        let mut called = self.called_of(symbol, before.here())?;
        called.captures = captures;
        Some(called)
    }

    /// What is called, and goes past the `(`.
    fn callee(&self) -> Option<Called> {
        let pos = self.here();
        match self.word() {
            "" => self.operator("a call"),
            word => {
                let called = self.called(word, pos);
                self.expect("(");
                called
            }
        }
    }

    fn ending(&self) -> ASTFlags {
        let mut flags = ASTFlags::NONE;
        if self.skip("?") {
            flags |= ASTFlags::NEGATED;
        }
        if self.skip("!") {
            flags |= ASTFlags::BREAK;
        }
        flags
    }

    /// The sign of an assignment, where one stands next.
    pub(crate) fn sign(&self) -> Option<OpAssignment> {
        let before = self.place();
        let sign = self.sign_written();
        if sign.is_none() {
            self.come_back(before);
        }
        sign
    }

    fn sign_written(&self) -> Option<OpAssignment> {
        if !self.skip(" ") {
            return None;
        }
        let pos = self.here();
        match self.until(b' ')? {
            "=" => Some(OpAssignment::new_assignment(pos)),
            text => OpAssignment::new_op_assignment(text, pos).ok(),
        }
    }

    /// Whether a loop goes on until its condition.
    fn condition(&self) -> ASTFlags {
        if self.skip(" until ") {
            return ASTFlags::NEGATED;
        }
        self.expect(" while ");
        ASTFlags::NONE
    }

    fn name(&self, parts: &mut Parts) {
        self.push_name(self.ident(), parts);
    }

    fn push_name(&self, name: Option<Ident>, parts: &mut Parts) {
        if let Some(name) = name {
            self.push(&mut parts.names, Some((name, None)));
        }
    }

    fn alias(&self, parts: &mut Parts) {
        let pos = self.here();
        self.push_name(self.name_of(self.word(), pos), parts);
    }

    fn names(&self, parts: &mut Parts) {
        for _ in 0..self.most() {
            self.name(parts);
            if !self.skip(", ") {
                break;
            }
        }
    }

    fn loop_names(&self, parts: &mut Parts) {
        if self.skip("(") {
            self.names(parts);
            self.expect(")");
        } else {
            self.name(parts);
        }
    }

    /// The catch name as an expression; nothing where there is none.
    fn caught(&self, parts: &mut Parts) {
        self.expect(" catch ");
        if self.starts("{") {
            return;
        }
        let pos = self.here();
        if let Some(called) = self.called(self.word(), pos) {
            self.push(&mut parts.exprs, self.variable(called));
        }
        self.expect(" ");
    }
}

/// An operator as it is written, without the `!` of a call that captures.
fn capturing(written: &str) -> (&str, bool) {
    match written.strip_suffix('!') {
        None | Some("") => (written, false),
        Some(symbol) => (symbol, true),
    }
}
