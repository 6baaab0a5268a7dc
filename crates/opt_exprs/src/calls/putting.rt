//! Constants that hold values, in the place of nodes.

#![tactic(auto, using(ast_types::specs::Reading::shapes, rhai_base::specs::Reading::kinds))]

ghost use Rattle.std.specs.Prelude.{◌≡◌, IfOk, OnOk};
ghost use Rattle.rhai_base.specs.Reading.{value_of};
ghost use Rattle.theory_meaning.specs.Tree.{DynamicConstant, ExprStmt};
ghost use Rattle.opt_base.specs.State.{progress};
ghost use Rattle.ast_types.specs.Reading.{expr_of, stmt_of};
ghost use Rattle.theory_rewriting.specs.Parts as parts;
ghost use Rattle.opt_exprs.specs.Holding.{Holds, HoldsStatement};
ghost use Rattle.opt_exprs.specs.Words as words;

use ast_nodes::{expression_statement, put_expr, put_stmt};
use opt_base::{OptimizerState, note_fired};
use rhai_ast::{Expr, ExprQueries, Literals, Stmt, StmtQueries};
use rhai_base::{Boxed, Dynamic, OutOfMemory, Position};
use std::alloc::Global;

fn is_pointer(value: &Dynamic) -> bool
    ensures { result ≡ words.is_pointer (value_of value.now) }
{
    match value {
        Dynamic::FnPtr(_) => true,
        Dynamic::Unit
        | Dynamic::Bool(_)
        | Dynamic::Int(_)
        | Dynamic::Float(_)
        | Dynamic::Char(_)
        | Dynamic::Str(_)
        | Dynamic::Array(_)
        | Dynamic::Map(_)
        | Dynamic::Range(_, _)
        | Dynamic::RangeInclusive(_, _) => false,
    }
}

fn dynamic_constant(alloc: Global, value: Dynamic, pos: Position) -> Result<Expr, OutOfMemory>
    ensures { IfOk result (λ e. expr_of e ≡ DynamicConstant (value_of value)) }
{
    Ok(Expr::DynamicConstant(Boxed::new(alloc, value)?, pos))
}

/// The constant that holds a value: a pointer too, for which `from_dynamic` writes the call that makes it.
fn constant_of(alloc: Global, value: Dynamic, pos: Position) -> Result<Expr, OutOfMemory>
    ensures { IfOk result (λ e. expr_of e ≡ parts.constant_of (value_of value)) }
{
    if is_pointer(&value) {
        return dynamic_constant(alloc, value, pos);
    }
    Expr::from_dynamic(alloc, value, pos)
}

/// Puts the constant that holds a value in the place of an expression that stands for it.
#[inline(never)]
pub(crate) fn hold_value(
    alloc: Global,
    state: &mut OptimizerState<'_>,
    expr: &mut Expr,
    value: Dynamic,
) -> Result<(), OutOfMemory>
    ensures { OnOk result (Holds (progress state.old) (progress state.new) (expr_of expr.new) (value_of value)) }
{
    note_fired(state);
    let constant = constant_of(alloc, value, expr.position())?;
    put_expr(expr, constant);
    Ok(())
}

fn constant_statement(alloc: Global, value: Dynamic, pos: Position) -> Result<Stmt, OutOfMemory>
    ensures { IfOk result (λ s. stmt_of s ≡ ExprStmt (parts.constant_of (value_of value))) }
{
    let constant = constant_of(alloc, value, pos)?;
    expression_statement(alloc, constant)
}

/// A call statement of a call that folds is what that call is: the constant that holds its value.
#[inline(never)]
pub(crate) fn call_statement_folds(
    alloc: Global,
    state: &mut OptimizerState<'_>,
    statement: &mut Stmt,
    value: Dynamic,
) -> Result<(), OutOfMemory>
    ensures { OnOk result
        (HoldsStatement (progress state.old) (progress state.new) (stmt_of statement.new) (value_of value)) }
{
    note_fired(state);
    let constant = constant_statement(alloc, value, statement.position())?;
    put_stmt(statement, constant);
    Ok(())
}
