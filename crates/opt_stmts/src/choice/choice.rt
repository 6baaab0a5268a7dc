//! The rules at an `if`. What a rule makes does not depend on where the statement stands, nor on what was changed
//! before.

#![tactic(auto, using(ast_types::specs::Reading::shapes))]

ghost use Rattle.std.specs.Prelude.{◌≡◌, ◌&&◌, IfOk, Some, Bool};
ghost use Rattle.theory_meaning.specs.Constants as constants;
ghost use Rattle.theory_meaning.specs.Tree.{If, no_stmts};
ghost use Rattle.ast_types.specs.Reading.{expr_of, stmt_of, stmts_of};
ghost use Rattle.theory_rewriting.specs.Rules as rules;
ghost use Rattle.theory_rewriting.specs.Steps.{StmtRewrite};
ghost use Rattle.opt_stmts.specs.ChoiceSteps.{ReducesIf};
ghost use Rattle.opt_stmts.specs.Flows.{if_of};
ghost use Rattle.opt_stmts.specs.SettledChoices as settled;

use crate::made::take_block;
use ast_nodes::{block_statement, expression_statement, followed_by_nothing};
use opt_base::{NodeStep, constant_bool, step_of};
use rhai_ast::{Expr, FlowControl, Stmt, StmtBlock, Take};
use rhai_base::{OutOfMemory, Position};
use std::alloc::Global;

/// Whether a block has no statements.
pub fn is_empty(block: &StmtBlock) -> bool
    ensures { result ≡ settled.is_empty (stmts_of block.now.block) }
{
    block.is_empty()
}

/// A block, or nothing where it is empty.
fn block_or_noop(alloc: Global, block: StmtBlock) -> Result<Stmt, OutOfMemory>
    ensures { IfOk result (λ s. stmt_of s ≡ rules.block_or_noop (stmts_of block.block)) }
{
    if is_empty(&block) {
        return Ok(Stmt::Noop(block.position()));
    }
    block_statement(alloc, block)
}

/// A condition that nothing depends on; where a value is wanted, followed by nothing.
#[tactic(auto, using(ast_types::specs::Reading::shapes, ast_nodes::proofs::Blocks::followed_tree))]
fn condition_alone(
    alloc: Global,
    expr: Expr,
    pos: Position,
    wanted: bool,
) -> Result<Stmt, OutOfMemory>
    ensures { IfOk result (λ s. stmt_of s ≡ rules.condition_alone wanted (expr_of expr)) }
{
    let condition = expression_statement(alloc, expr)?;
    if !wanted {
        return Ok(condition);
    }
    followed_by_nothing(alloc, condition, pos)
}

/// An `if` with two empty blocks is its condition.
fn if_without_blocks(
    alloc: Global,
    expr: Expr,
    pos: Position,
    wanted: bool,
) -> Result<Stmt, OutOfMemory>
    ensures { IfOk result (λ s. StmtRewrite wanted wanted (If (expr_of expr) no_stmts no_stmts) (stmt_of s)) }
{
    condition_alone(alloc, expr, pos, wanted)
}

/// The block that a decided condition chooses, taken out.
fn chosen(alloc: Global, decided: bool, flow: &mut FlowControl) -> StmtBlock
    ensures { stmts_of result.block
        ≡ rules.chosen decided (stmts_of flow.old.body.block) (stmts_of flow.old.branch.block) }
{
    if decided {
        take_block(alloc, &mut flow.body)
    } else {
        take_block(alloc, &mut flow.branch)
    }
}

/// An `if` over a constant is the block that it chooses.
fn if_decided(alloc: Global, decided: bool, flow: &mut FlowControl) -> Result<Stmt, OutOfMemory>
    requires { constants.constant_bool (expr_of flow.now.expr) ≡ Some decided }
    ensures { IfOk result (λ s. (o w : Bool) → StmtRewrite o w (if_of flow.old) (stmt_of s)) }
{
    let block = chosen(alloc, decided, flow);
    block_or_noop(alloc, block)
}

/// Whether an `if` has no statements.
fn has_no_statements(flow: &FlowControl) -> bool
    ensures { result
        ≡ settled.is_empty (stmts_of flow.now.body.block) && settled.is_empty (stmts_of flow.now.branch.block) }
{
    is_empty(&flow.body) && is_empty(&flow.branch)
}

/// What an `if` becomes that has no statements or whose condition decides it, and what came of it. What it is made of
/// is taken out then.
pub(crate) fn reduced_if(
    alloc: Global,
    flow: &mut FlowControl,
    pos: Position,
    wanted: bool,
) -> Result<Option<(Stmt, NodeStep)>, OutOfMemory>
    ensures { IfOk result (λ made. ReducesIf made wanted flow.old flow.new) }
{
    if has_no_statements(flow) {
        let made = if_without_blocks(alloc, flow.expr.take(), pos, wanted)?;
        return Ok(Some((made, step_of(wanted))));
    }
    match constant_bool(&flow.expr) {
        Some(decided) => {
            let made = if_decided(alloc, decided, flow)?;
            Ok(Some((made, NodeStep::Rewritten)))
        }
        None => Ok(None),
    }
}
