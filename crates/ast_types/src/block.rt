//! Lists of statements in braces.
ghost use Rattle.std.specs.Prelude.{◌≡◌, ◌↔◌, ◌++◌, ◌<◌, ◌^◌, [], IsTrue, OnOk, OnErr, length, true, ◌&&◌, if◌then◌else◌};
ghost use Rattle.std.specs.Borrow.{sem};
ghost use Rattle.std.specs.Iterator.Runs.{EveryRun, ItemsAre, ItemsMapTo};
ghost use Rattle.std.specs.Slice.Iter.{iter_rest, iter_steps};
ghost use Rattle.std.specs.declared.alloc.Global as allocators;
ghost use Rattle.std.specs.Vec.Iter.{into_iter_items, into_iter_len, into_iter_steps};
ghost use Rattle.base_tokens.specs.Positions.{is_nowhere};
ghost use Rattle.ast_types.specs.declared.stmt.Stmt.{Stmt};

use crate::Stmt;
use rhai_base::{OutOfMemory, Position, Seq, Span};
use std::alloc::Global;
use std::{slice, vec};

/// The list of a block.
pub type StmtBlockContainer = Seq<Stmt>;

/// A list of statements in braces.
#[cycle(tree)]
pub struct StmtBlock {
    pub(crate) block: StmtBlockContainer,
    pub(crate) span: Span,
}

/// Written by hand, so that it is proved here alone: crates above let go of trees down to their blocks.
impl Drop for StmtBlock {
    #[cycle(let_go)]
    fn drop(self) {
        let StmtBlock {
            block: _block,
            span: _span,
        } = self;
    }
}

impl StmtBlock {
    ghost use Rattle.ast_types.specs.Lends.{lends_statements};

    /// These statements, in braces from the start to the end. It takes no memory.
    ///
    /// In rhai the statements come from any iterator.
    pub fn new(statements: Vec<Stmt>, start: Position, end: Position) -> StmtBlock
        ensures block { result.block ≡ statements.items }
        ensures start { result.span.start ≡ start }
        ensures end { result.span.end ≡ end }
    {
        StmtBlock::new_with_span(statements, Span::new(start, end))
    }

    /// These statements, in braces there. It takes no memory.
    pub fn new_with_span(statements: Vec<Stmt>, span: Span) -> StmtBlock
        ensures block { result.block ≡ statements.items }
        ensures span { result.span ≡ span }
    {
        StmtBlock {
            block: Seq::from_vec(statements),
            span,
        }
    }

    /// A block without statements, both of whose ends are there. It takes no memory.
    pub fn empty(alloc: Global, pos: Position) -> StmtBlock
        ensures block { result.block ≡ [] }
        ensures start { result.span.start ≡ pos }
        ensures end { result.span.end ≡ pos }
    {
        StmtBlock {
            block: Seq::new(alloc),
            span: Span::new(pos, pos),
        }
    }

    /// A block that does not exist. It takes no memory; rhai has a constant.
    pub fn none(alloc: Global) -> StmtBlock
        ensures block { result.block ≡ [] }
        ensures nowhere { is_nowhere result.span.start && is_nowhere result.span.end ≡ true }
    {
        StmtBlock::empty(alloc, Position::NONE)
    }

    /// Has it no statements?
    pub fn is_empty(&self) -> bool
        ensures { IsTrue result ↔ (self.now.block ≡ []) }
    {
        self.block.is_empty()
    }

    /// How many statements it has, those inside of them not counted.
    pub fn len(&self) -> usize
        ensures { result ≡ length self.now.block }
    {
        self.block.len()
    }

    /// The statements.
    pub fn statements(&self) -> &[Stmt]
        ensures { result.now ≡ self.now.block }
    {
        self.block.as_slice()
    }

    /// The statements, lent for writing.
    pub fn statements_mut(&mut self) -> &mut StmtBlockContainer
        ensures* writes_back { sem 𝓛 (lends_statements self.entry result) }
        ensures value { result.now ≡ self.old.block }
    {
        &mut self.block
    }

    /// The statements, taken out of their braces. It is not in rhai.
    pub fn into_statements(self) -> StmtBlockContainer
        ensures { result ≡ self.block }
    {
        let StmtBlock { block, span: _ } = self;
        block
    }

    /// An iterator over the statements.
    pub fn iter(&self) -> slice::Iter<'_, Stmt>
        ensures rest { iter_rest result ≡ self.now.block }
        ensures bound { length (iter_rest result) < 2 ^ 64 }
        ensures runs { EveryRun (iter_steps {A = Stmt}) (λ p. ItemsMapTo p (λ y. y.now) (iter_rest p.from)) }
    {
        self.block.as_slice().iter()
    }

    /// Where it starts.
    pub fn position(&self) -> Position
        ensures { result ≡ self.now.span.start }
    {
        self.span.start()
    }

    /// Where it ends.
    pub fn end_position(&self) -> Position
        ensures { result ≡ self.now.span.end }
    {
        self.span.end()
    }

    /// Where it starts and ends.
    pub fn span(&self) -> Span
        ensures { result ≡ self.now.span }
    {
        self.span
    }

    /// Where it starts and ends; in place of an end that is nowhere the one that is given.
    pub fn span_or_else(&self, start: Position, end: Position) -> Span
        ensures start { result.start ≡ (if is_nowhere self.now.span.start then start else self.now.span.start) }
        ensures end { result.end ≡ (if is_nowhere self.now.span.end then end else self.now.span.end) }
    {
        self.span.or_else(start, end)
    }

    /// Sets where it starts and ends.
    pub fn set_position(&mut self, start: Position, end: Position)
        ensures block { self.new.block ≡ self.old.block }
        ensures start { self.new.span.start ≡ start }
        ensures end { self.new.span.end ≡ end }
    {
        self.span = Span::new(start, end);
    }

    /// Adds statements at the end. A refused call adds nothing and gives them up.
    pub fn extend(&mut self, statements: Vec<Stmt>) -> Result<(), OutOfMemory>
        ensures ok { OnOk result (self.new.block ≡ self.old.block ++ statements.items) }
        ensures err { OnErr result (self.new.block ≡ self.old.block) }
        ensures span { self.new.span ≡ self.old.span }
    {
        self.block.append(statements)?;
        Ok(())
    }
}

impl IntoIterator for StmtBlock {
    type Item = Stmt;

    type IntoIter = vec::IntoIter<Stmt>;

    ghost into_iter_gives = { λ b r. (into_iter_items r ≡ b.block) × (into_iter_len r < 2 ^ 64)
        × EveryRun (into_iter_steps {X = Stmt} {Z = allocators.Global}) (λ p. ItemsAre p (into_iter_items p.from)) };

    fn into_iter(self) -> vec::IntoIter<Stmt> {
        self.into_statements().into_vec().into_iter()
    }
}

impl<'a> IntoIterator for &'a StmtBlock {
    type Item = &'a Stmt;

    type IntoIter = slice::Iter<'a, Stmt>;

    ghost into_iter_gives = { λ b r. (iter_rest r ≡ b.now.block) × (length (iter_rest r) < 2 ^ 64)
        × EveryRun (iter_steps {A = Stmt}) (λ p. ItemsMapTo p (λ y. y.now) (iter_rest p.from)) };

    fn into_iter(self) -> slice::Iter<'a, Stmt> {
        self.iter()
    }
}
