//! The rules at a block.

#![tactic(auto, using(ast_types::specs::Reading::shapes))]

ghost use Rattle.std.specs.Prelude.{◌≡◌, true, false, Bool, MatchOption, is_none};
ghost use Rattle.opt_stmts.specs.Firing.{answer};
ghost use Rattle.opt_base.specs.State.{progress};
ghost use Rattle.theory_meaning.specs.Engine.{Engine};
ghost use Rattle.theory_meaning.specs.Queries as queries;
ghost use Rattle.theory_meaning.specs.Tree.{Block, no_stmts, stmt};
ghost use Rattle.ast_types.specs.Reading.{stmt_of, stmts_of};
ghost use Rattle.theory_rewriting.specs.Steps.{StmtRewrite};
ghost use Rattle.opt_stmts.specs.SettledStatements as settled;
ghost use Rattle.opt_base.specs.NodeSteps.{StmtStep};

use crate::made::put_made;
use opt_base::{NodeStep, OptimizerState};
use rhai_ast::{Stmt, StmtBlock, StmtQueries, Take};
use rhai_base::Position;

/// A block of nothing does nothing.
fn block_empty(pos: Position) -> Stmt
    ensures { (o w : Bool) → StmtRewrite o w (Block no_stmts) (stmt_of result) }
{
    Stmt::Noop(pos)
}

/// A block of one statement is that statement, unless it belongs to its block.
fn block_of_statement(statement: Stmt) -> Stmt
    requires { queries.is_block_dependent (stmt_of statement) ≡ false }
    ensures { (o w : Bool) → StmtRewrite o w (Block (stmt (stmt_of statement) no_stmts)) (stmt_of result) }
{
    statement
}

/// Whether a block of these statements stays.
fn are_settled(statements: &[Stmt]) -> bool
    ensures { result ≡ settled.are_settled (stmts_of statements.now) }
{
    match statements {
        [] => false,
        [statement] => statement.is_block_dependent(),
        _ => true,
    }
}

/// What a block is rewritten to, if a rule fires at it: its statement is taken out then.
fn reduced_block(block: &mut StmtBlock) -> Option<Stmt>
    ensures answer { is_none result ≡ settled.are_settled (stmts_of block.old.block) }
    ensures made { MatchOption result (block.new ≡ block.old) (λ s.
        (o w : Bool) → StmtRewrite o w (Block (stmts_of block.old.block)) (stmt_of s)) }
{
    if are_settled(block.statements()) {
        return None;
    }
    let pos = block.position();
    match block.statements_mut().get_mut(0) {
        Some(statement) => Some(block_of_statement(statement.take())),
        None => Some(block_empty(pos)),
    }
}

/// Rewrites a block by the rule that fires at it, if one does.
pub fn step_block(state: &mut OptimizerState<'_>, statement: &mut Stmt) -> NodeStep
    requires { settled.is_block (stmt_of statement.now) ≡ true }
    ensures answer { result ≡ answer (settled.is_settled_block (stmt_of statement.old)) }
    ensures step { (r : Engine) (w : Bool)
        → StmtStep result r w (progress state.old) (progress state.new) (stmt_of statement.old)
        (stmt_of statement.new) }
{
    match statement {
        Stmt::Block(block) => match reduced_block(block.get_mut()) {
            Some(made) => {
                put_made(state, statement, made);
                NodeStep::Rewritten
            }
            None => NodeStep::Kept,
        },
        _ => NodeStep::Kept,
    }
}
