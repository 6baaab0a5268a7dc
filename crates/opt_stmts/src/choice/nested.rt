//! An `if` alone in an `if`.

#![tactic(auto, using(ast_types::specs::Reading::shapes))]

ghost use Rattle.std.specs.Prelude.{◌≡◌, ◌&&◌, true, false, Bool, None, IfOk, MatchOption};
ghost use Rattle.theory_meaning.specs.Constants as constants;
ghost use Rattle.theory_meaning.specs.Tree.{And, If, expr, no_exprs, no_stmts, stmt};
ghost use Rattle.ast_types.specs.Reading.{expr_of, exprs_of, stmt_of, stmts_of};
ghost use Rattle.theory_rewriting.specs.Answering.{is_always};
ghost use Rattle.opt_stmts.specs.Flows.{Joined, if_of};
ghost use Rattle.opt_stmts.specs.SettledChoices as settled;

use crate::choice::choice::is_empty;
use crate::made::take_block;
use ast_nodes::{only_statement, put_expr};
use opt_base::constant_bool;
use rhai_ast::{Expr, ExprQueries, FlowControl, Stmt, StmtBlock, Take};
use rhai_base::{Boxed, OutOfMemory, Position, Seq};
use std::alloc::Global;

/// Whether the last of some operands is the constant false.
fn ends_false(operands: &[Expr]) -> bool
    ensures { result ≡ settled.ends_false (exprs_of operands.now) }
{
    match operands.split_last() {
        Some((last, _)) => is_false(last),
        None => false,
    }
}

fn is_false(expr: &Expr) -> bool
    ensures { result ≡ is_always false (expr_of expr.now) }
{
    match constant_bool(expr) {
        Some(decided) => !decided,
        None => false,
    }
}

/// Whether a statement is an `if` without an `else`.
fn is_bare_if(statement: &Stmt) -> bool
    ensures { result ≡ settled.is_bare_if (stmt_of statement.now) }
{
    match statement {
        Stmt::If(flow, _) => is_empty(&flow.get().branch),
        _ => false,
    }
}

/// Whether an `if` without an `else` stands alone.
fn is_bare_if_alone(statements: &[Stmt]) -> bool
    ensures { result ≡ settled.is_bare_if_alone (stmts_of statements.now) }
{
    match statements {
        [statement] => is_bare_if(statement),
        _ => false,
    }
}

/// The condition and the body of an `if` without an `else`.
fn parts_of_if(statement: Stmt) -> Option<(Expr, StmtBlock)>
    ensures { MatchOption result (settled.is_bare_if (stmt_of statement) ≡ false) (λ parts.
        stmt_of statement ≡ If (expr_of parts.0) (stmts_of parts.1.block) no_stmts) }
{
    match statement {
        Stmt::If(flow, _) => {
            let FlowControl { expr, body, branch } = flow.into_inner();
            if !is_empty(&branch) {
                return None;
            }
            Some((expr, body))
        }
        _ => None,
    }
}

/// Those of one that stands alone in a block.
fn parts_of_only_if(block: StmtBlock) -> Option<(Expr, StmtBlock)>
    ensures { MatchOption result (settled.is_bare_if_alone (stmts_of block.block) ≡ false) (λ parts.
        stmts_of block.block ≡ stmt (If (expr_of parts.0) (stmts_of parts.1.block) no_stmts) no_stmts) }
{
    match only_statement(block) {
        Some(statement) => parts_of_if(statement),
        None => None,
    }
}

/// Puts the body of an `if` without an `else` in the place of the block where it stands alone, and gives its condition.
fn take_inner(alloc: Global, block: &mut StmtBlock) -> Option<Expr>
    ensures { MatchOption result
        ((settled.is_bare_if_alone (stmts_of block.old.block) ≡ false) × (block.new ≡ block.old)) (λ condition.
        stmts_of block.old.block ≡ stmt (If (expr_of condition) (stmts_of block.new.block) no_stmts) no_stmts) }
{
    if !is_bare_if_alone(block.statements()) {
        return None;
    }
    let (condition, body) = parts_of_only_if(take_block(alloc, block))?;
    *block = body;
    Some(condition)
}

/// Both conditions as operands of an `&&`.
fn both(alloc: Global, outer: Expr, inner: Expr, pos: Position) -> Result<Expr, OutOfMemory>
    ensures { IfOk result (λ e. expr_of e ≡ And (expr (expr_of outer) (expr (expr_of inner) no_exprs))) }
{
    let operands = Seq::from_array(alloc, [outer, inner])?;
    Ok(Expr::And(Boxed::new(alloc, operands)?, pos))
}

/// An `if` alone in an `if`, both without an `else`, is one `if` over both conditions. The `&&` is reduced: the outer
/// condition is no constant, as an `if` over one is decided first. Whether there was one.
fn nested_if(alloc: Global, condition: &mut Expr, body: &mut StmtBlock) -> Result<bool, OutOfMemory>
    requires undecided { constants.constant_bool (expr_of condition.now) ≡ None }
    requires alone { settled.is_and (expr_of condition.now) ≡ false }
    ensures answer { IfOk result (λ joined. joined ≡ settled.is_bare_if_alone (stmts_of body.old.block)) }
    ensures rule { IfOk result (λ joined.
        Joined joined (If (expr_of condition.old) (stmts_of body.old.block) no_stmts)
        (If (expr_of condition.new) (stmts_of body.new.block) no_stmts)) }
{
    match take_inner(alloc, body) {
        Some(inner) => {
            let pos = condition.position();
            let joined = both(alloc, condition.take(), inner, pos)?;
            put_expr(condition, joined);
            Ok(true)
        }
        None => Ok(false),
    }
}

/// Where the outer condition is an `&&` already, the inner one becomes its last operand. The `&&` stays reduced: its
/// last operand before is not the constant false. Whether there was one.
fn nested_if_joins(
    alloc: Global,
    operands: &mut Seq<Expr>,
    body: &mut StmtBlock,
) -> Result<bool, OutOfMemory>
    ensures answer { IfOk result (λ joined.
        joined
        ≡ (settled.goes_on (And (exprs_of operands.old)) && settled.is_bare_if_alone (stmts_of body.old.block))) }
    ensures rule { IfOk result (λ joined.
        Joined joined (If (And (exprs_of operands.old)) (stmts_of body.old.block) no_stmts)
        (If (And (exprs_of operands.new)) (stmts_of body.new.block) no_stmts)) }
{
    if ends_false(operands.as_slice()) {
        return Ok(false);
    }
    match take_inner(alloc, body) {
        Some(inner) => {
            operands.push(inner)?;
            Ok(true)
        }
        None => Ok(false),
    }
}

/// Joins an undecided `if` with the one alone in it, both without an `else`. Whether there was one.
pub(crate) fn join_ifs(alloc: Global, flow: &mut FlowControl) -> Result<bool, OutOfMemory>
    requires undecided { constants.constant_bool (expr_of flow.now.expr) ≡ None }
    ensures answer { IfOk result (λ joined. joined ≡ settled.is_nest (if_of flow.old)) }
    ensures rule { IfOk result (λ joined. Joined joined (if_of flow.old) (if_of flow.new)) }
{
    if !is_empty(&flow.branch) {
        return Ok(false);
    }
    match &mut flow.expr {
        Expr::And(operands, _) => nested_if_joins(alloc, operands.get_mut(), &mut flow.body),
        condition => nested_if(alloc, condition, &mut flow.body),
    }
}
