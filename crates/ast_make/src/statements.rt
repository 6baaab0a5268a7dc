//! Statements.
#![tactic(auto, using(ast_types::specs::Reading::shapes, ast_types::specs::Positions::places))]

ghost use Rattle.std.specs.Prelude.{◌≡◌, IfOk, None};
ghost use Rattle.ast_types.specs.Reading.{expr_of, exprs_of, is_const, is_exported, mark_of, stmt_of, stmts_of};
ghost use Rattle.ast_types.specs.Positions.{start_of, stmt_options_of, stmt_position_of};
ghost use Rattle.theory_meaning.specs.Tree.{Assignment, Block, ExprStmt, FnCallStmt, Var};
ghost use Rattle.ast_make.specs.Trees as tree;

use crate::expressions::fn_call;
use ast_types::{BinaryExpr, Expr, Stmt, StmtBlock};
use rhai_base::{
    ASTFlags, Boxed, Ident, ImmutableString, OpAssignment, OutOfMemory, Position, Seq,
};
use std::alloc::Global;

/// A name where it stands.
pub fn ident(alloc: Global, name: &str, pos: Position) -> Result<Ident, OutOfMemory>
    ensures name { IfOk result (λ made. made.name ≡ name.now) }
    ensures pos { IfOk result (λ made. made.pos ≡ pos) }
{
    let name = ImmutableString::new(alloc, name)?;
    Ok(Ident { name, pos })
}

/// The statement that evaluates an expression.
pub fn expr_stmt(alloc: Global, expr: Expr) -> Result<Stmt, OutOfMemory>
    ensures means { IfOk result (λ s. stmt_of s ≡ ExprStmt (expr_of expr)) }
    ensures stands { IfOk result (λ s. stmt_position_of s ≡ start_of expr) }
{
    Ok(Stmt::Expr(Boxed::new(alloc, expr)?))
}

/// A block as a statement.
pub fn block_stmt(alloc: Global, block: StmtBlock) -> Result<Stmt, OutOfMemory>
    ensures means { IfOk result (λ s. stmt_of s ≡ Block (stmts_of block.block)) }
    ensures stands { IfOk result (λ s. stmt_position_of s ≡ block.span.start) }
{
    Ok(Stmt::Block(Boxed::new(alloc, block)?))
}

/// A declaration: of a constant and exported, if these flags are set.
pub fn declaration(
    alloc: Global,
    flags: ASTFlags,
    name: Ident,
    value: Expr,
    pos: Position,
) -> Result<Stmt, OutOfMemory>
    ensures means { IfOk result (λ s. stmt_of s ≡ Var (is_const flags) (is_exported flags) name.name (expr_of value)) }
    ensures stands { IfOk result (λ s. stmt_position_of s ≡ pos) }
    ensures options { IfOk result (λ s. stmt_options_of s ≡ flags) }
{
    let parts = Boxed::new(alloc, (name, value, None))?;
    Ok(Stmt::Var(parts, flags, pos))
}

/// A straight assignment, whose `=` stands there.
pub fn assignment(alloc: Global, lhs: Expr, rhs: Expr, pos: Position) -> Result<Stmt, OutOfMemory>
    ensures means { IfOk result (λ s. stmt_of s ≡ Assignment None (expr_of lhs) (expr_of rhs)) }
    ensures stands { IfOk result (λ s. stmt_position_of s ≡ pos) }
{
    let sign = OpAssignment::new_assignment(pos);
    let parts = Boxed::new(alloc, (sign, BinaryExpr { lhs, rhs }))?;
    Ok(Stmt::Assignment(parts))
}

/// The call of a function as a statement.
pub fn call_stmt(
    alloc: Global,
    name: &str,
    args: Seq<Expr>,
    pos: Position,
) -> Result<Stmt, OutOfMemory>
    ensures means { IfOk result (λ s. stmt_of s ≡ FnCallStmt (tree.called name.now (mark_of None)) (exprs_of args)) }
    ensures stands { IfOk result (λ s. stmt_position_of s ≡ pos) }
{
    let call = fn_call(alloc, name, args, None)?;
    Ok(Stmt::FnCall(call, pos))
}
