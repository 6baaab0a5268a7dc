//! Constants that take the place of a node, and the note that a rule fired.

#![tactic(auto, using(ast_types::specs::Reading::shapes))]

ghost use Rattle.std.specs.Prelude.{◌≡◌, IfOk, OnOk, Some, true};
ghost use Rattle.rhai_base.specs.Reading.{value_of};
ghost use Rattle.theory_meaning.specs.Constants as constants;
ghost use Rattle.theory_meaning.specs.Tree.{UnitConstant, Noop};
ghost use Rattle.opt_base.specs.State.{progress};
ghost use Rattle.ast_types.specs.Reading.{expr_of, stmt_of};
ghost use Rattle.opt_base.specs.Folded.{FoldsConstant};
ghost use Rattle.opt_base.specs.NodeSteps.{Puts};

use crate::state::OptimizerState;
use crate::whole::has_whole_parts;
use ast_nodes::{put_expr, put_stmt, value_of_constant};
use rhai_ast::{Expr, ExprQueries, Literals, Stmt, StmtQueries};
use rhai_base::{Dynamic, OutOfMemory};
use std::alloc::Global;

/// Notes that a rule fired.
pub fn note_fired(state: &mut OptimizerState<'_>)
    ensures dirty { (progress state.new).is_dirty ≡ true }
    ensures known { (progress state.new).known ≡ (progress state.old).known }
{
    state.set_dirty();
}

/// Puts the constant for a value in the place of an expression that stands for it.
#[inline(never)]
pub fn put_constant(
    alloc: Global,
    state: &mut OptimizerState<'_>,
    expr: &mut Expr,
    value: Dynamic,
) -> Result<(), OutOfMemory>
    ensures { OnOk result (Puts (progress state.old) (progress state.new) (expr_of expr.new) (value_of value)) }
{
    note_fired(state);
    let constant = Expr::from_dynamic(alloc, value, expr.position())?;
    put_expr(expr, constant);
    Ok(())
}

/// Takes the value of a constant out of its place, where unit stands then.
fn take_constant(alloc: Global, expr: &mut Expr) -> Result<Dynamic, OutOfMemory>
    requires { constants.is_constant (expr_of expr.now) ≡ true }
    ensures { IfOk result (λ v. constants.constant_value (expr_of expr.old) ≡ Some (value_of v)) }
{
    let pos = expr.position();
    let constant = std::mem::replace(expr, Expr::Unit(pos));
    value_of_constant(alloc, constant)
}

/// A constant whose parts are reduced becomes its value, into which what they hold is moved. It says whether it is one;
/// what is none stays.
#[inline(never)]
pub fn fold_constant(
    alloc: Global,
    state: &mut OptimizerState<'_>,
    expr: &mut Expr,
) -> Result<bool, OutOfMemory>
    ensures { IfOk result (λ b.
        FoldsConstant b (progress state.old) (progress state.new) (expr_of expr.old) (expr_of expr.new)) }
{
    if !has_whole_parts(expr) {
        return Ok(false);
    }
    let value = take_constant(alloc, expr)?;
    put_constant(alloc, state, expr, value)?;
    Ok(true)
}

/// Puts unit in the place of an expression.
#[inline(never)]
pub fn put_unit(state: &mut OptimizerState<'_>, expr: &mut Expr)
    ensures dirty { (progress state.new).is_dirty ≡ true }
    ensures known { (progress state.new).known ≡ (progress state.old).known }
    ensures unit { expr_of expr.new ≡ UnitConstant }
{
    note_fired(state);
    let pos = expr.position();
    put_expr(expr, Expr::Unit(pos));
}

/// Puts nothing in the place of a statement.
#[inline(never)]
pub fn put_nothing(state: &mut OptimizerState<'_>, statement: &mut Stmt)
    ensures dirty { (progress state.new).is_dirty ≡ true }
    ensures known { (progress state.new).known ≡ (progress state.old).known }
    ensures nothing { stmt_of statement.new ≡ Noop }
{
    note_fired(state);
    let pos = statement.position();
    put_stmt(statement, Stmt::Noop(pos));
}
