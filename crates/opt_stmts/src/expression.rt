//! The rules at an expression statement.

#![tactic(auto, using(ast_types::specs::Reading::shapes))]

ghost use Rattle.std.specs.Prelude.{◌≡◌, true, Bool, MatchOption, is_none};
ghost use Rattle.opt_base.specs.State.{progress};
ghost use Rattle.theory_meaning.specs.Engine.{Engine};
ghost use Rattle.theory_meaning.specs.Tree.{BlockExpr, ExprStmt, FnCall};
ghost use Rattle.ast_types.specs.Reading.{callee_of, expr_of, exprs_of, stmt_of, stmts_of};
ghost use Rattle.theory_rewriting.specs.Steps.{StmtRewrite};
ghost use Rattle.opt_stmts.specs.SettledStatements as settled;
ghost use Rattle.opt_base.specs.NodeSteps.{StmtDecided, StmtStep};

use crate::choice::is_empty;
use crate::made::put_made;
use ast_nodes::put_expr;
use opt_base::{NodeStep, OptimizerState, step_of};
use rhai_ast::{Expr, FnCallExpr, Stmt, StmtBlock, Take};
use rhai_base::{Boxed, Position};

/// An expression statement over braces is a block.
fn statement_of_braces(block: Boxed<StmtBlock>) -> Stmt
    ensures { (o w : Bool) → StmtRewrite o w (ExprStmt (BlockExpr (stmts_of block.block))) (stmt_of result) }
{
    if is_empty(block.get()) {
        return Stmt::Noop(block.get().position());
    }
    Stmt::Block(block)
}

/// An expression statement over a call is a call statement.
fn statement_of_call(call: Boxed<FnCallExpr>, pos: Position) -> Stmt
    ensures { (o w : Bool)
        → StmtRewrite o w (ExprStmt (FnCall (callee_of call) (exprs_of call.args))) (stmt_of result) }
{
    Stmt::FnCall(call, pos)
}

/// Whether an expression stays as a statement.
fn stays(expr: &Expr) -> bool
    ensures { result ≡ settled.stays (expr_of expr.now) }
{
    match expr {
        Expr::Stmt(_) | Expr::FnCall(_, _) => false,
        _ => true,
    }
}

/// The statement that an expression is by itself, if it does not stay: it is taken out then.
fn reduced_expression(expr: &mut Expr) -> Option<Stmt>
    ensures answer { is_none result ≡ settled.stays (expr_of expr.old) }
    ensures made { MatchOption result (expr.new ≡ expr.old) (λ s.
        (o w : Bool) → StmtRewrite o w (ExprStmt (expr_of expr.old)) (stmt_of s)) }
{
    if stays(expr) {
        return None;
    }
    match expr.take() {
        Expr::Stmt(block) => Some(statement_of_braces(block)),
        Expr::FnCall(call, pos) => Some(statement_of_call(call, pos)),
        other => {
            put_expr(expr, other);
            None
        }
    }
}

/// Whether it is braces that hold something.
fn holds_some(expr: &Expr) -> bool
    ensures { result ≡ settled.holds_some (expr_of expr.now) }
{
    match expr {
        Expr::Stmt(block) => !is_empty(block.get()),
        _ => false,
    }
}

/// Rewrites an expression statement by the rule that fires at it, if one does. What was in braces and is a block now, of
/// which nothing is wanted, is to be gone over again: it was a list whose value is wanted.
pub fn step_expression(
    state: &mut OptimizerState<'_>,
    statement: &mut Stmt,
    is_wanted: bool,
) -> NodeStep
    requires { settled.is_expression (stmt_of statement.now) ≡ true }
    ensures answer { result ≡ settled.expression_step is_wanted (stmt_of statement.old) }
    ensures step { (r : Engine)
        → StmtStep result r is_wanted (progress state.old) (progress state.new) (stmt_of statement.old)
        (stmt_of statement.new) }
{
    match statement {
        Stmt::Expr(expr) => {
            let reopens = holds_some(expr.get()) && !is_wanted;
            match reduced_expression(expr.get_mut()) {
                Some(made) => {
                    put_made(state, statement, made);
                    step_of(reopens)
                }
                None => NodeStep::Kept,
            }
        }
        _ => NodeStep::Kept,
    }
}

/// Opens an expression statement over braces that hold something, whose parts were not gone over: it becomes a block, and
/// is then gone over as one of which a value is wanted or not. Whether it was one.
pub fn open_braces(state: &mut OptimizerState<'_>, statement: &mut Stmt) -> bool
    ensures answer { result ≡ settled.is_over_braces (stmt_of statement.old) }
    ensures step { (r : Engine) (w : Bool)
        → StmtDecided result r w (progress state.old) (progress state.new) (stmt_of statement.old)
        (stmt_of statement.new) }
{
    match statement {
        Stmt::Expr(expr) => {
            if !holds_some(expr.get()) {
                return false;
            }
            match reduced_expression(expr.get_mut()) {
                Some(made) => {
                    put_made(state, statement, made);
                    true
                }
                None => false,
            }
        }
        _ => false,
    }
}
