//! Blocks in a list.

#![tactic(auto, using(ast_types::specs::Reading::shapes))]

ghost use Rattle.std.specs.Prelude.{◌≡◌, OnOk, true, false};
ghost use Rattle.opt_base.specs.State.{progress};
ghost use Rattle.ast_types.specs.Reading.{stmt_of, stmts_of};
ghost use Rattle.theory_meaning.specs.Queries as queries;
ghost use Rattle.theory_meaning.specs.Tree.{Block, no_stmts, stmt};
ghost use Rattle.opt_reducer.specs.Blocks.{Flattens, FlatList};
ghost use Rattle.opt_lists.specs.Marks.{mark_of};
ghost use Rattle.theory_rewriting.specs.Context as rewriting;
ghost use Rattle.theory_rewriting.specs.Normal as normal;

use ast_nodes::{StmtDrain, push_stmt};
use opt_lists::ListMark;
use opt_rules::OptimizerState;
use rhai_ast::{Stmt, StmtBlock, StmtQueries};
use rhai_base::{OutOfMemory, Seq};

fn is_any_dependent(statements: &[Stmt]) -> bool
    ensures { result ≡ queries.is_any_dependent (stmts_of statements.now) }
{
    for statement in statements {
        if statement.is_block_dependent() {
            return true;
        }
    }
    false
}

/// Whether a statement is a block that gives way to its statements: none of them belongs to it.
fn gives_way(statement: &Stmt) -> bool
    ensures { result ≡ normal.gives_way (stmt_of statement.now) }
{
    match statement {
        Stmt::Block(block) => !is_any_dependent(block.get().statements()),
        _ => false,
    }
}

fn into_block(statement: Stmt) -> StmtBlock
    requires { normal.gives_way (stmt_of statement) ≡ true }
    ensures { stmt_of statement ≡ Block (stmts_of result.block) }
{
    match statement {
        Stmt::Block(block) => block.into_inner(),
        // it is a block, as was asked before it was moved
        _ => unreachable!(),
    }
}

fn any_gives_way(statements: &[Stmt]) -> bool
    ensures { result ≡ normal.any_gives_way (stmts_of statements.now) }
{
    for statement in statements {
        if gives_way(statement) {
            return true;
        }
    }
    false
}

/// Whether the value of the statement before these is wanted.
fn is_wanted_before(wanted: bool, rest: &StmtDrain) -> bool
    ensures { result ≡ rewriting.wanted_before wanted (stmts_of rest.now.statements) }
{
    wanted && rest.is_empty()
}

/// A block in a list, none of whose statements belongs to it, gives way to its statements; an empty one at the
/// end of a wanted list becomes nothing.
#[cycle(flatten)]
fn block_gives_way(
    state: &mut OptimizerState<'_>,
    done: &mut Seq<Stmt>,
    block: StmtBlock,
    is_wanted: bool,
) -> Result<(), OutOfMemory>
    requires { queries.is_any_dependent (stmts_of block.block) ≡ false }
    ensures { OnOk result
        (Flattens is_wanted (progress state.old) (progress state.new) (stmts_of done.old)
        (stmt (Block (stmts_of block.block)) no_stmts) (stmts_of done.new)) }
{
    state.set_dirty();
    if is_wanted && block.is_empty() {
        push_stmt(done, Stmt::Noop(block.position()))?;
        return Ok(());
    }
    flatten_statements(state, done, StmtDrain::of_block(block), is_wanted)
}

/// Moves a statement behind those that are done.
#[cycle(flatten)]
fn flatten_statement(
    state: &mut OptimizerState<'_>,
    done: &mut Seq<Stmt>,
    statement: Stmt,
    is_wanted: bool,
) -> Result<(), OutOfMemory>
    ensures { OnOk result
        (Flattens is_wanted (progress state.old) (progress state.new) (stmts_of done.old)
        (stmt (stmt_of statement) no_stmts) (stmts_of done.new)) }
{
    if !gives_way(&statement) {
        push_stmt(done, statement)?;
        return Ok(());
    }
    block_gives_way(state, done, into_block(statement), is_wanted)
}

/// Moves statements behind those that are done.
#[cycle(flatten)]
fn flatten_statements(
    state: &mut OptimizerState<'_>,
    done: &mut Seq<Stmt>,
    mut rest: StmtDrain,
    is_wanted: bool,
) -> Result<(), OutOfMemory>
    ensures { OnOk result
        (Flattens is_wanted (progress state.old) (progress state.new) (stmts_of done.old) (stmts_of rest.statements)
        (stmts_of done.new)) }
{
    while let Some(statement) = rest.next() {
        let is_wanted = is_wanted_before(is_wanted, &rest);
        flatten_statement(state, done, statement, is_wanted)?;
    }
    Ok(())
}

/// Blocks in a list give way to their statements, also those in blocks that give way. Where none does, the list is left
/// alone.
pub(crate) fn flatten(
    state: &mut OptimizerState<'_>,
    statements: &mut Seq<Stmt>,
    mark: ListMark,
) -> Result<(), OutOfMemory>
    ensures { OnOk result
        (FlatList (mark_of mark) (progress state.old) (progress state.new) (stmts_of statements.old)
        (stmts_of statements.new)) }
{
    if !any_gives_way(statements.as_slice()) {
        return Ok(());
    }
    let rest = StmtDrain::of_list(statements)?;
    flatten_statements(state, statements, rest, mark.is_wanted())
}
