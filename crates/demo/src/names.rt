//! The scripts that declare names.
#![tactic(auto, using(ast_types::specs::Reading::shapes))]

ghost use Rattle.std.specs.Prelude.{◌≡◌, ◌∷◌, [], IfOk, codes, false};
ghost use Rattle.ast_types.specs.Reading.{expr_of, stmt_of, stmts_of};
ghost use Rattle.theory_meaning.specs.Tree.{BlockExpr, ExprStmt};
ghost use Rattle.demo.specs.Trees as tree;
ghost use Rattle.demo.specs.Statements as spec;

use crate::expressions::{array, both, call_with, integer, operation, variable};
use crate::lines::{alone, assigned, block, called, declared, name_of, with};
use ast_make::{block_expr, expr_stmt};
use rhai_ast::{BinaryExpr, Expr, FlowControl, Stmt, StmtBlock};
use rhai_base::{ASTFlags, Boxed, OutOfMemory, Position, Seq, Token};
use std::alloc::Global;

/// The statements of `let x = 1; x = x + 2; x`.
pub fn opassign_statements(alloc: Global) -> Result<Vec<Stmt>, OutOfMemory>
    ensures { IfOk result (λ statements. stmts_of statements.items ≡ spec.opassign_statements) }
{
    let statements = alone(alloc, x_declared(alloc)?)?;
    let statements = with(statements, two_added(alloc))?;
    with(statements, evaluated_name(alloc, "x"))
}

/// `let x = 1`
fn x_declared(alloc: Global) -> Result<Stmt, OutOfMemory>
    ensures { IfOk result (λ statement. stmt_of statement ≡ tree.declares false (codes "x") (tree.int 1)) }
{
    declared(alloc, ASTFlags::NONE, "x", integer(1))
}

/// `x = x + 2`
fn two_added(alloc: Global) -> Result<Stmt, OutOfMemory>
    ensures { IfOk result (λ statement. stmt_of statement ≡ spec.two_added) }
{
    let sum = operation(alloc, Token::Plus, variable(alloc, "x")?, integer(2))?;
    assigned(alloc, "x", sum)
}

/// The statements of `let x = 1; x = x + { x = 5; 1 }; x`.
pub fn rewrite_statements(alloc: Global) -> Result<Vec<Stmt>, OutOfMemory>
    ensures { IfOk result (λ statements. stmts_of statements.items ≡ spec.rewrite_statements) }
{
    let statements = alone(alloc, x_declared(alloc)?)?;
    let statements = with(statements, block_added(alloc))?;
    with(statements, evaluated_name(alloc, "x"))
}

/// `x = x + { x = 5; 1 }`
fn block_added(alloc: Global) -> Result<Stmt, OutOfMemory>
    ensures { IfOk result (λ statement. stmt_of statement ≡ spec.block_added) }
{
    let (lhs, rhs) = both(variable(alloc, "x")?, rewriting_braces(alloc))?;
    assigned(alloc, "x", operation(alloc, Token::Plus, lhs, rhs)?)
}

/// `{ x = 5; 1 }`
fn rewriting_braces(alloc: Global) -> Result<Expr, OutOfMemory>
    ensures { IfOk result (λ expr. expr_of expr ≡ BlockExpr spec.rewriting_block) }
{
    let statements = alone(alloc, assigned(alloc, "x", integer(5))?)?;
    let statements = with(statements, expr_stmt(alloc, integer(1)))?;
    block_expr(alloc, block(statements))
}

/// The statement that evaluates a variable.
fn evaluated_name(alloc: Global, name: &str) -> Result<Stmt, OutOfMemory>
    ensures { IfOk result (λ statement. stmt_of statement ≡ ExprStmt (tree.variable name.now)) }
{
    expr_stmt(alloc, variable(alloc, name)?)
}

/// The statements of `const x = 42; for x in [1, 2] { print(x); }`.
pub fn shadow_statements(alloc: Global) -> Result<Vec<Stmt>, OutOfMemory>
    ensures { IfOk result (λ statements. stmts_of statements.items ≡ spec.shadow_statements) }
{
    let constant = declared(alloc, ASTFlags::CONSTANT, "x", integer(42))?;
    with(alone(alloc, constant)?, printing_loop(alloc))
}

/// `for x in [1, 2] { print(x); }`
fn printing_loop(alloc: Global) -> Result<Stmt, OutOfMemory>
    ensures { IfOk result (λ statement. stmt_of statement ≡ spec.printing_loop) }
{
    let (flow, name) = both(printing_flow(alloc)?, name_of(alloc, "x"))?;
    let parts = Boxed::new(alloc, (name, None, flow))?;
    Ok(Stmt::For(parts, Position::NONE))
}

/// `[1, 2]`, and the block `{ print(x); }`.
fn printing_flow(alloc: Global) -> Result<FlowControl, OutOfMemory>
    ensures expr { IfOk result (λ flow. expr_of flow.expr ≡ tree.array (tree.int 1 ∷ tree.int 2 ∷ [])) }
    ensures body { IfOk result (λ flow.
        stmts_of flow.body.block ≡ tree.alone (tree.calls (codes "print") (tree.variable (codes "x")))) }
{
    let printed = called(alloc, "print", variable(alloc, "x")?)?;
    let (body, expr) = both(alone(alloc, printed)?, one_and_two(alloc))?;
    Ok(FlowControl {
        expr,
        body: block(body),
        branch: StmtBlock::none(alloc),
    })
}

/// `[1, 2]`
fn one_and_two(alloc: Global) -> Result<Expr, OutOfMemory>
    ensures { IfOk result (λ expr. expr_of expr ≡ tree.array (tree.int 1 ∷ tree.int 2 ∷ [])) }
{
    array(alloc, Seq::from_array(alloc, [integer(1), integer(2)])?)
}

/// The statements of `let a = []; {a}.push(1); a`.
pub fn base_statements(alloc: Global) -> Result<Vec<Stmt>, OutOfMemory>
    ensures { IfOk result (λ statements. stmts_of statements.items ≡ spec.base_statements) }
{
    let empty = array(alloc, Seq::new(alloc))?;
    let statements = alone(alloc, declared(alloc, ASTFlags::NONE, "a", empty)?)?;
    let statements = with(statements, pushing(alloc))?;
    with(statements, evaluated_name(alloc, "a"))
}

/// `{a}.push(1)`
fn pushing(alloc: Global) -> Result<Stmt, OutOfMemory>
    ensures { IfOk result (λ statement. stmt_of statement ≡ ExprStmt spec.pushing) }
{
    let lhs = braced_name(alloc, "a")?;
    let (lhs, push) = both(lhs, call_with(alloc, "push", integer(1)))?;
    let rhs = Expr::MethodCall(push, Position::NONE);
    let sides = Boxed::new(alloc, BinaryExpr { lhs, rhs })?;
    expr_stmt(alloc, Expr::Dot(sides, ASTFlags::NONE, Position::NONE))
}

/// A variable as a block.
fn braced_name(alloc: Global, name: &str) -> Result<Expr, OutOfMemory>
    ensures { IfOk result (λ expr. expr_of expr ≡ BlockExpr (tree.evaluates (tree.variable name.now))) }
{
    let statements = alone(alloc, evaluated_name(alloc, name)?)?;
    block_expr(alloc, block(statements))
}
