//! Blocks made of statements and of answers.

#![tactic(auto, using(crate::specs::Blocks::blocks, ast_types::specs::Reading::shapes))]

ghost use Rattle.std.specs.Prelude.{◌≡◌, IfOk, Some};
ghost use Rattle.std.specs.Option.{option_map};
ghost use Rattle.theory_meaning.specs.Tree.{If};
ghost use Rattle.ast_types.specs.Reading.{expr_of, stmt_of, stmts_of};
ghost use Rattle.ast_nodes.specs.Blocks.{answered, block_made_of, block_of_one};

use crate::making::expression_statement;
use crate::queries::stmt_position;
use ast_types::{Expr, FlowControl, Stmt, StmtBlock};
use rhai_base::{Boxed, OutOfMemory, Position, Seq, Span};
use std::alloc::Global;

/// A block's own block; for nothing an empty one; else one of the statement alone.
pub fn block_from(alloc: Global, stmt: Stmt) -> Result<StmtBlock, OutOfMemory>
    ensures { IfOk result (λ b. b ≡ block_made_of stmt) }
{
    match stmt {
        Stmt::Block(block) => Ok(block.into_inner()),
        Stmt::Noop(pos) => Ok(StmtBlock::empty(alloc, pos)),
        other => block_around(alloc, other),
    }
}

fn block_around(alloc: Global, stmt: Stmt) -> Result<StmtBlock, OutOfMemory>
    ensures { IfOk result (λ b. b ≡ block_of_one stmt) }
{
    let span = Span::new(stmt_position(&stmt), Position::NONE);
    let statements = Seq::from_array(alloc, [stmt])?;
    Ok(StmtBlock::new_with_span(statements.into_vec(), span))
}

/// A block of an answer.
fn answer_block(alloc: Global, answer: Expr) -> Result<StmtBlock, OutOfMemory>
    ensures { IfOk result (λ b. stmts_of b.block ≡ answered (Some (expr_of answer))) }
{
    block_around(alloc, expression_statement(alloc, answer)?)
}

/// The block of an answer; without one, a block that does not exist.
fn maybe_block(alloc: Global, answer: Option<Expr>) -> Result<StmtBlock, OutOfMemory>
    ensures { IfOk result (λ b. stmts_of b.block ≡ answered (option_map expr_of answer)) }
{
    match answer {
        Some(answer) => answer_block(alloc, answer),
        None => Ok(StmtBlock::none(alloc)),
    }
}

/// An `if` with an answer in its body, and one or none in its branch.
pub fn if_answers(
    alloc: Global,
    condition: Expr,
    answer: Expr,
    otherwise: Option<Expr>,
    pos: Position,
) -> Result<Stmt, OutOfMemory>
    ensures { IfOk result (λ s.
        stmt_of s
        ≡ If (expr_of condition) (answered (Some (expr_of answer))) (answered (option_map expr_of otherwise))) }
{
    let flow = FlowControl {
        expr: condition,
        body: answer_block(alloc, answer)?,
        branch: maybe_block(alloc, otherwise)?,
    };
    Ok(Stmt::If(Boxed::new(alloc, flow)?, pos))
}
