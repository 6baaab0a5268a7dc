//! Blocks made of statements.

#![tactic(auto)]

ghost use Rattle.std.specs.Prelude.{◌≡◌, IfOk};
ghost use Rattle.ast_nodes.specs.Blocks.{block_made_of};

use ast_nodes::block_from;
use ast_types::{Stmt, StmtBlock};
use rhai_base::OutOfMemory;
use std::alloc::Global;

/// Blocks made of statements.
pub trait FromStmt: Sized {
    /// A block's own block; for nothing an empty one where it stands; else one of the statement alone, from
    /// where it stands on, which takes memory once; where that is refused the statement is gone.
    ///
    /// In rhai it is a `From`, which cannot be refused.
    fn from_stmt(alloc: Global, stmt: Stmt) -> Result<Self, OutOfMemory>;
}

impl FromStmt for StmtBlock {
    fn from_stmt(alloc: Global, stmt: Stmt) -> Result<StmtBlock, OutOfMemory>
        ensures { IfOk result (λ b. b ≡ block_made_of stmt) }
    {
        block_from(alloc, stmt)
    }
}
