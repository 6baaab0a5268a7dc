//! Blocks that are taken out, and what a rule made in the place of a statement.

ghost use Rattle.std.specs.Prelude.{◌≡◌, [], true};
ghost use Rattle.opt_base.specs.State.{progress};

use ast_nodes::put_stmt;
use opt_base::{OptimizerState, note_fired};
use rhai_ast::{Stmt, StmtBlock};
use std::alloc::Global;
use std::mem::replace;

/// A block out of its place, where none stands then.
pub(crate) fn take_block(alloc: Global, block: &mut StmtBlock) -> StmtBlock
    ensures taken { result ≡ block.old }
    ensures left { block.new.block ≡ [] }
{
    replace(block, StmtBlock::none(alloc))
}

/// Puts what a rule made in the place of a statement, and notes that it fired.
#[inline(never)]
pub(crate) fn put_made(state: &mut OptimizerState<'_>, statement: &mut Stmt, made: Stmt)
    ensures dirty { (progress state.new).is_dirty ≡ true }
    ensures known { (progress state.new).known ≡ (progress state.old).known }
    ensures made { statement.new ≡ made }
{
    note_fired(state);
    put_stmt(statement, made);
}
