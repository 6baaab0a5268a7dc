//! The rules at arrays and at braces.

#![tactic(auto, using(ast_types::specs::Reading::shapes))]

ghost use Rattle.std.specs.Prelude.{◌≡◌, IfOk, true};
ghost use Rattle.opt_base.specs.State.{progress};
ghost use Rattle.ast_types.specs.Reading.{expr_of, stmt_of, stmts_of};
ghost use Rattle.theory_meaning.specs.Engine.{Engine};
ghost use Rattle.theory_meaning.specs.Tree.{BlockExpr, ExprStmt, no_stmts, stmt};
ghost use Rattle.opt_base.specs.NodeSteps.{ExprStep};
ghost use Rattle.opt_base.specs.Places.{place_of};
ghost use Rattle.opt_rules.specs.Settled as settled;
ghost use Rattle.opt_rules.specs.Settled.{Becomes};
ghost use Rattle.theory_rewriting.specs.Steps as steps;

use ast_nodes::put_expr;
use opt_base::{OptimizerState, Place, fold_constant, may_be_unit, may_stand, note_fired};
use rhai_ast::{Expr, Stmt, StmtBlock, StmtQueries, Take};
use rhai_base::{OutOfMemory, Span};
use std::alloc::Global;

/// An array of constants is its value. It says whether it was one.
#[inline(never)]
pub(crate) fn array_of_constants(
    alloc: Global,
    state: &mut OptimizerState<'_>,
    expr: &mut Expr,
) -> Result<bool, OutOfMemory>
    requires { settled.is_array (expr_of expr.now) ≡ true }
    ensures { IfOk result (λ fired.
        (r : Engine) (p : steps.Place)
        → ExprStep fired r p (progress state.old) (progress state.new) (expr_of expr.old) (expr_of expr.new)) }
{
    fold_constant(alloc, state, expr)
}

/// Braces around nothing are unit, where that may stand.
fn braces_empty(place: Place, span: Span) -> Option<Expr>
    ensures { Becomes result (place_of place) (BlockExpr no_stmts) (BlockExpr no_stmts) }
{
    if may_be_unit(place) {
        Some(Expr::Unit(span.start()))
    } else {
        None
    }
}

/// Braces around one expression are that expression, where it may stand.
fn braces_of_expression(place: Place, expr: &mut Expr) -> Option<Expr>
    ensures { Becomes result (place_of place) (BlockExpr (stmt (ExprStmt (expr_of expr.old)) no_stmts))
        (BlockExpr (stmt (ExprStmt (expr_of expr.new)) no_stmts)) }
{
    if may_stand(place, expr) {
        Some(expr.take())
    } else {
        None
    }
}

/// Braces around one call are that call, unless it belongs to its block.
fn braces_of_call(statement: &mut Stmt) -> Option<Expr>
    requires { settled.is_call_statement (stmt_of statement.now) ≡ true }
    ensures { (p : steps.Place)
        → Becomes result p (BlockExpr (stmt (stmt_of statement.old) no_stmts))
        (BlockExpr (stmt (stmt_of statement.new) no_stmts)) }
{
    if statement.is_block_dependent() {
        return None;
    }
    match statement.take() {
        Stmt::FnCall(call, pos) => Some(Expr::FnCall(call, pos)),
        // a call can be moved out of its statement only once that is taken, and the type forgets which it was
        _ => unreachable!(),
    }
}

/// What braces around one statement are, where that may stand.
fn braces_of_one(place: Place, statement: &mut Stmt) -> Option<Expr>
    ensures { Becomes result (place_of place) (BlockExpr (stmt (stmt_of statement.old) no_stmts))
        (BlockExpr (stmt (stmt_of statement.new) no_stmts)) }
{
    match statement {
        Stmt::Expr(expr) => braces_of_expression(place, expr.get_mut()),
        Stmt::FnCall(_, _) => braces_of_call(statement),
        _ => None,
    }
}

/// What braces around these statements are, where that may stand.
fn braces_of_block(place: Place, block: &mut StmtBlock) -> Option<Expr>
    ensures { Becomes result (place_of place) (BlockExpr (stmts_of block.old.block))
        (BlockExpr (stmts_of block.new.block)) }
{
    if block.len() > 1 {
        return None;
    }
    let span = block.span();
    match block.statements_mut().get_mut(0) {
        Some(statement) => braces_of_one(place, statement),
        None => braces_empty(place, span),
    }
}

/// What braces are, where that may stand; nothing else becomes anything.
fn braces_become(place: Place, expr: &mut Expr) -> Option<Expr>
    ensures { Becomes result (place_of place) (expr_of expr.old) (expr_of expr.new) }
{
    match expr {
        Expr::Stmt(block) => braces_of_block(place, block.get_mut()),
        _ => None,
    }
}

/// Braces around nothing, around one call, or around one expression that may stand there.
pub(crate) fn step_braces(state: &mut OptimizerState<'_>, expr: &mut Expr, place: Place) -> bool
    requires { settled.is_braces (expr_of expr.now) ≡ true }
    ensures { (r : Engine)
        → ExprStep result r (place_of place) (progress state.old) (progress state.new) (expr_of expr.old)
        (expr_of expr.new) }
{
    match braces_become(place, expr) {
        Some(made) => {
            note_fired(state);
            put_expr(expr, made);
            true
        }
        None => false,
    }
}
