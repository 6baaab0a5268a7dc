//! Trees. They go so deep and no deeper, and take so many items of a list and no more.

use crate::error::ReadError;
use crate::forms::{self, ExprForm, ExprKind, Part, StmtForm, StmtKind, form_of};
use crate::joined::both;
use crate::letters::Letters;
use crate::marks::Marks;
use crate::nodes;
use crate::parts::Parts;
use rhai_ast::{BinaryExpr, Expr, Stmt, StmtBlock};
use rhai_base::{Ident, Position};
use std::alloc::Global;

/// How deep a text may nest, each step of the recursion counted.
const DEPTH: u32 = 1000;

/// The statements of a text, each on a line.
pub fn read_lines<M: Marks>(alloc: Global, text: &str, marks: M) -> Result<Vec<Stmt>, ReadError> {
    let letters = Letters::new(alloc, text, marks);
    letters.whole(Some(letters.lines()))
}

impl<'a, M: Marks> Letters<'a, M> {
    /// Statements, each on a line, up to a function or the end.
    pub(crate) fn lines(&self) -> Vec<Stmt> {
        let mut statements = Vec::new(self.alloc);
        for _ in 0..self.most() {
            if self.is_done() || self.starts("fn ") {
                break;
            }
            self.push(&mut statements, self.statement(DEPTH));
            self.end_line();
        }
        statements
    }

    /// The block of a function.
    pub(crate) fn body(&self) -> Option<StmtBlock> {
        self.block(DEPTH)
    }

    // ---- the recursion

    #[cycle(read)]
    fn expr(&self, depth: u32) -> Option<Expr> {
        let depth = self.below(depth)?;
        if let Some(mark) = self.mark() {
            return self.marked_expr(mark, self.expr(depth));
        }
        let pos = self.here();
        if let Some(constant) = self.constant(pos) {
            return Some(constant);
        }
        if self.starts("{") {
            return self.braces(self.block(depth));
        }
        let mut parts = Parts::new(self.alloc);
        let (kind, form) = self.expr_form(&mut parts);
        self.parts(form, &mut parts, depth);
        self.node(kind, &mut parts, pos)
    }

    /// What stands at the right of a `.`
    #[cycle(read)]
    fn link(&self, depth: u32) -> Option<Expr> {
        let depth = self.below(depth)?;
        if let Some(mark) = self.mark() {
            return self.marked_expr(mark, self.link(depth));
        }
        let pos = self.here();
        let mut parts = Parts::new(self.alloc);
        match self.link_form(&mut parts) {
            Some((kind, form)) => {
                self.parts(form, &mut parts, depth);
                self.node(kind, &mut parts, pos)
            }
            None => self.expr(depth),
        }
    }

    #[cycle(read)]
    fn statement(&self, depth: u32) -> Option<Stmt> {
        let depth = self.below(depth)?;
        if let Some(mark) = self.mark() {
            return self.marked_stmt(mark, self.statement(depth));
        }
        let pos = self.here();
        let mut parts = Parts::new(self.alloc);
        let (kind, form) = self.stmt_form();
        self.parts(form, &mut parts, depth);
        self.stmt(kind, &mut parts, pos)
    }

    #[cycle(read)]
    fn block(&self, depth: u32) -> Option<StmtBlock> {
        let depth = self.below(depth)?;
        let start = self.here();
        let mut parts = Parts::new(self.alloc);
        if !self.skip("{}") {
            self.expect("{ ");
            self.parts(&forms::STATEMENTS, &mut parts, depth);
        }
        Some(StmtBlock::new(parts.statements(), start, self.last()))
    }

    #[cycle(read)]
    fn parts(&self, form: &[Part], parts: &mut Parts, depth: u32) {
        let Some(depth) = self.below(depth) else {
            return;
        };
        for part in form {
            self.part(*part, parts, depth);
        }
    }

    #[cycle(read)]
    fn part(&self, part: Part, parts: &mut Parts, depth: u32) {
        let Some(depth) = self.below(depth) else {
            return;
        };
        match part {
            Part::Letters(letters) => self.expect(letters),
            Part::Expr => self.push(&mut parts.exprs, self.expr(depth)),
            Part::Link => self.push(&mut parts.exprs, self.link(depth)),
            Part::Body => parts.body = self.block(depth),
            Part::Branch => parts.branch = self.block(depth),
            Part::Statement => self.push(&mut parts.statements, self.statement(depth)),
            Part::Maybe => self.maybe(parts, depth),
            Part::Assigned => self.assigned(parts, depth),
            Part::Pair => self.pair(&mut parts.pairs, depth),
            Part::Arm => self.arm(&mut parts.arms, depth),
            Part::Operands => self.many(Part::Expr, ", ", ")", parts, depth),
            Part::Items => self.many(Part::Expr, ", ", "]", parts, depth),
            Part::Pairs => self.many(Part::Pair, ", ", "}", parts, depth),
            Part::Arms => self.many(Part::Arm, ", ", " }", parts, depth),
            Part::Statements => self.many(Part::Statement, "; ", " }", parts, depth),
            Part::Flat(part) => self.flat(part, parts),
        }
    }

    /// Parts of one kind, with these letters between them, up to their end.
    #[cycle(read)]
    fn many(
        &self,
        part: Part,
        between: &'static str,
        end: &'static str,
        parts: &mut Parts,
        depth: u32,
    ) {
        let Some(depth) = self.below(depth) else {
            return;
        };
        if self.skip(end) {
            return;
        }
        for _ in 0..self.most() {
            self.part(part, parts, depth);
            if !self.skip(between) {
                break;
            }
        }
        self.expect(end);
    }

    /// The expression after a word that leaves, where there is one.
    #[cycle(read)]
    fn maybe(&self, parts: &mut Parts, depth: u32) {
        let Some(depth) = self.below(depth) else {
            return;
        };
        if !self.starts(" }") && self.skip(" ") {
            self.push(&mut parts.exprs, self.expr(depth));
        }
    }

    /// The sign of an assignment and its right side, where they are there.
    #[cycle(read)]
    fn assigned(&self, parts: &mut Parts, depth: u32) {
        let Some(depth) = self.below(depth) else {
            return;
        };
        parts.sign = self.sign();
        if parts.sign.is_some() {
            self.push(&mut parts.exprs, self.expr(depth));
        }
    }

    /// A key and its expression.
    #[cycle(read)]
    fn pair(&self, pairs: &mut Vec<(Ident, Expr)>, depth: u32) {
        let Some(depth) = self.below(depth) else {
            return;
        };
        let key = self.key();
        self.expect(": ");
        self.push(pairs, both(key, self.expr(depth)));
    }

    /// A condition and its answer.
    #[cycle(read)]
    fn arm(&self, arms: &mut Vec<BinaryExpr>, depth: u32) {
        let Some(depth) = self.below(depth) else {
            return;
        };
        let condition = self.expr(depth);
        self.expect(" => ");
        self.push(arms, nodes::arm(condition, self.expr(depth)));
    }

    // ---- how nodes begin

    /// A constant, where one stands next.
    fn constant(&self, pos: Position) -> Option<Expr> {
        match self.scalar() {
            Some(value) => self.constant_of(value, pos),
            None => self.held_constant(self.held(), pos),
        }
    }

    /// What an expression that is no constant is, by what it begins with.
    fn expr_form(&self, parts: &mut Parts) -> ExprForm {
        if self.skip("[") {
            return (ExprKind::Array, &forms::ITEMS);
        }
        if self.skip("#{") {
            return (ExprKind::Map, &forms::PAIRS);
        }
        let pos = self.here();
        let word = self.word();
        if word.is_empty() {
            parts.called = self.operator("an expression");
            return (ExprKind::Call, &forms::OPERANDS);
        }
        if let Some(form) = self.word_form(word) {
            return form;
        }
        parts.called = self.called(word, pos);
        self.named(ExprKind::Call, ExprKind::Variable)
    }

    /// What an expression is by its word; none of a name.
    fn word_form(&self, word: &str) -> Option<ExprForm> {
        if word == "this" {
            return Some((ExprKind::This, &[]));
        }
        self.step_form(&forms::EXPRS, word)
    }

    /// The form of a word that has its parts in parentheses.
    fn step_form(
        &self,
        rows: &'static [(&'static str, ExprKind, &'static [Part])],
        word: &str,
    ) -> Option<ExprForm> {
        if self.starts("(") || self.starts("?") || self.starts("!") {
            return form_of(rows, word);
        }
        None
    }

    /// The same at the right of a `.`; none where an expression of another kind stands there.
    fn link_form(&self, parts: &mut Parts) -> Option<ExprForm> {
        let pos = self.here();
        let word = self.word();
        if word.is_empty() {
            return None;
        }
        let form = self.step_form(&forms::LINKS, word);
        if form.is_some() {
            return form;
        }
        parts.called = self.called(word, pos);
        Some(self.named(ExprKind::Method, ExprKind::Property))
    }

    /// One kind before a `(`, which is gone past, and another kind elsewhere.
    fn named(&self, call: ExprKind, other: ExprKind) -> ExprForm {
        if self.skip("(") {
            (call, &forms::OPERANDS)
        } else {
            (other, &[])
        }
    }

    /// What a statement is, by its word; an expression where it begins with none.
    fn stmt_form(&self) -> StmtForm {
        let before = self.place();
        let word = self.word();
        if word == "export" {
            for (letters, kind, form) in &forms::EXPORTS {
                if self.skip(letters) {
                    return (*kind, *form);
                }
            }
        }
        match form_of(&forms::STMTS, word) {
            Some(form) if !self.is_name(word) => form,
            _ => {
                self.come_back(before);
                (StmtKind::Expr, &forms::ALONE)
            }
        }
    }

    /// Whether a word before this is a name: what is called, or a variable that is assigned to or stands alone.
    fn is_name(&self, word: &str) -> bool {
        let is_called = self.starts("(") || self.starts("!(");
        let may_be_variable = forms::NAMES.contains(&word);
        is_called || may_be_variable && (self.is_assigned() || self.is_alone(word))
    }

    fn is_assigned(&self) -> bool {
        let before = self.place();
        let is_assigned = self.sign().is_some();
        self.come_back(before);
        is_assigned
    }

    fn is_alone(&self, word: &str) -> bool {
        word != "noop" && (!self.starts(" ") || self.starts(" }"))
    }
}
