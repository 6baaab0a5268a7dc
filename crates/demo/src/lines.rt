//! Statements that are built by hand, without positions, and lists of them.
#![tactic(auto, using(ast_types::specs::Reading::shapes))]

ghost use Rattle.std.specs.Prelude.{◌≡◌, ◌∷◌, ◌++◌, [], IfOk, Ok};
ghost use Rattle.ast_types.specs.declared.stmt.Stmt.{Stmt};
ghost use Rattle.ast_types.specs.Reading.{expr_of, is_const, is_exported, stmt_of, stmts_of};
ghost use Rattle.theory_meaning.specs.Tree.{Var};
ghost use Rattle.demo.specs.Trees.{assigns, calls, evaluates};

use crate::expressions::{both, variable};
use ast_make as make;
use ast_make::expr_stmt;
use rhai_ast::{Expr, Stmt, StmtBlock};
use rhai_base::{ASTFlags, Ident, OutOfMemory, Position, Seq, Span};
use std::alloc::Global;

pub(crate) fn block(statements: Vec<Stmt>) -> StmtBlock
    ensures { result.block ≡ statements.items }
{
    StmtBlock::new_with_span(statements, Span::NONE)
}

/// A list of one statement.
pub(crate) fn alone(alloc: Global, statement: Stmt) -> Result<Vec<Stmt>, OutOfMemory>
    ensures { IfOk result (λ statements. statements.items ≡ statement ∷ []) }
{
    Ok(vec![in alloc; statement]?)
}

/// The statements and one more, where that is not refused.
pub(crate) fn with(
    mut statements: Vec<Stmt>,
    statement: Result<Stmt, OutOfMemory>,
) -> Result<Vec<Stmt>, OutOfMemory>
    ensures { IfOk result (λ longer. (s : Stmt) × (statement ≡ Ok s) × (longer.items ≡ statements.items ++ s ∷ [])) }
{
    statements.push(statement?)?;
    Ok(statements)
}

/// A list of the statement that evaluates an expression.
pub(crate) fn evaluated_alone(alloc: Global, expr: Expr) -> Result<Vec<Stmt>, OutOfMemory>
    ensures { IfOk result (λ statements. stmts_of statements.items ≡ evaluates (expr_of expr)) }
{
    alone(alloc, expr_stmt(alloc, expr)?)
}

pub(crate) fn name_of(alloc: Global, text: &str) -> Result<Ident, OutOfMemory>
    ensures { IfOk result (λ name. name.name ≡ text.now) }
{
    make::ident(alloc, text, Position::NONE)
}

/// A declaration, of a constant if that flag is set.
pub(crate) fn declared(
    alloc: Global,
    flags: ASTFlags,
    name: &str,
    value: Expr,
) -> Result<Stmt, OutOfMemory>
    ensures { IfOk result (λ statement.
        stmt_of statement ≡ Var (is_const flags) (is_exported flags) name.now (expr_of value)) }
{
    let (value, name) = both(value, name_of(alloc, name))?;
    make::declaration(alloc, flags, name, value, Position::NONE)
}

/// A straight assignment to a variable.
pub(crate) fn assigned(alloc: Global, name: &str, value: Expr) -> Result<Stmt, OutOfMemory>
    ensures { IfOk result (λ statement. stmt_of statement ≡ assigns name.now (expr_of value)) }
{
    let (value, name) = both(value, variable(alloc, name))?;
    make::assignment(alloc, name, value, Position::NONE)
}

/// A call with one argument, as a statement.
pub(crate) fn called(alloc: Global, name: &str, argument: Expr) -> Result<Stmt, OutOfMemory>
    ensures { IfOk result (λ statement. stmt_of statement ≡ calls name.now (expr_of argument)) }
{
    let args = Seq::from_array(alloc, [argument])?;
    make::call_stmt(alloc, name, args, Position::NONE)
}
