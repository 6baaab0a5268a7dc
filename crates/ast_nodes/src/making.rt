//! Nodes made of nodes, and put in the place of nodes. What is left over is let go here, so that the crates above,
//! which rewrite trees, let go of none.

ghost use Rattle.std.specs.Prelude.{◌≡◌, ◌≢◌, [], ◌∷◌, IfOk, length, MatchOption};
ghost use Rattle.ast_types.specs.declared.stmt.Stmt.TheVariants as kind;
ghost use Rattle.ast_nodes.specs.Blocks.{followed_at};

use ast_types::{Expr, FlowControl, Stmt, StmtBlock};
use rhai_base::{Boxed, OutOfMemory, Position, Span};
use std::alloc::Global;

/// Puts an expression in the place of another, which is let go.
#[inline(always)]
pub fn put_expr(place: &mut Expr, made: Expr)
    ensures { place.new ≡ made }
{
    *place = made;
}

/// Puts a statement in the place of another, which is let go.
#[inline(always)]
pub fn put_stmt(place: &mut Stmt, made: Stmt)
    ensures { place.new ≡ made }
{
    *place = made;
}

/// An expression as a statement.
pub fn expression_statement(alloc: Global, expr: Expr) -> Result<Stmt, OutOfMemory>
    ensures { IfOk result (λ s. s ≡ kind.Expr expr) }
{
    Ok(Stmt::Expr(Boxed::new(alloc, expr)?))
}

/// A block as a statement.
pub fn block_statement(alloc: Global, block: StmtBlock) -> Result<Stmt, OutOfMemory>
    ensures { IfOk result (λ s. s ≡ kind.Block block) }
{
    Ok(Stmt::Block(Boxed::new(alloc, block)?))
}

/// A block of a statement, followed by nothing, so that its value is not the block's.
pub fn followed_by_nothing(
    alloc: Global,
    statement: Stmt,
    pos: Position,
) -> Result<Stmt, OutOfMemory>
    ensures { IfOk result (λ s. s ≡ kind.Block (followed_at statement pos)) }
{
    let statements = Vec::from_array(alloc, [statement, Stmt::Noop(pos)])?;
    block_statement(
        alloc,
        StmtBlock::new_with_span(statements, Span::new(pos, pos)),
    )
}

/// The statement of a block that has one alone.
pub fn only_statement(block: StmtBlock) -> Option<Stmt>
    ensures { MatchOption result (length block.block ≢ 1) (λ s. block.block ≡ s ∷ []) }
{
    block.into_statements().into_only()
}

/// The statements of a block, out of their braces.
pub fn statements_of(block: StmtBlock) -> Vec<Stmt>
    ensures { result.items ≡ block.block }
{
    block.into_statements().into_vec()
}

/// The blocks; the condition goes.
pub fn blocks_of(flow: FlowControl) -> (StmtBlock, StmtBlock)
    ensures body { result.0 ≡ flow.body }
    ensures branch { result.1 ≡ flow.branch }
{
    let FlowControl {
        expr: _expr,
        body,
        branch,
    } = flow;
    (body, branch)
}
