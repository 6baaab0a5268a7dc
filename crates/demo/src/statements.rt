//! The scripts of one statement, or of statements without names.
#![tactic(auto, using(ast_types::specs::Reading::shapes))]

ghost use Rattle.std.specs.Prelude.{◌≡◌, IfOk, Some, false};
ghost use Rattle.rhai_base.specs.Operators.{Plus};
ghost use Rattle.base_tokens.specs.Symbols.{token_text};
ghost use Rattle.ast_types.specs.Reading.{expr_of, stmt_of, stmts_of, mark_of};
ghost use Rattle.theory_meaning.specs.Tree.{IntegerConstant, Return, an_expr};
ghost use Rattle.demo.specs.Trees.{element, evaluates, int, operation, over};
ghost use Rattle.demo.specs.Statements.{bits_statements, coalesce_statements, divide_statements, endless_statements, first_condition, first_statements, index_statements, return_statements, tail_statements};

use crate::expressions::{array, element, integer, operation};
use crate::lines::{alone, block, called, evaluated_alone, with};
use ast_make::{block_stmt, expr_stmt};
use rhai_ast::{Expr, FlowControl, Stmt, StmtBlock};
use rhai_base::{ASTFlags, Boxed, INT, OutOfMemory, Position, Seq, Token};
use std::alloc::Global;

/// The statements of `if 1 + 1 == 2 { 40 + 2 } else { 1 / 0 }`.
pub fn first_statements(alloc: Global) -> Result<Vec<Stmt>, OutOfMemory>
    ensures { IfOk result (λ statements. stmts_of statements.items ≡ first_statements) }
{
    let choice = Boxed::new(alloc, first_choice(alloc)?)?;
    alone(alloc, Stmt::If(choice, Position::NONE))
}

fn first_choice(alloc: Global) -> Result<FlowControl, OutOfMemory>
    ensures expr { IfOk result (λ flow. expr_of flow.expr ≡ first_condition) }
    ensures body { IfOk result (λ flow. stmts_of flow.body.block ≡ evaluates (over Plus (int 40) (int 2))) }
    ensures branch { IfOk result (λ flow. stmts_of flow.branch.block ≡ divide_statements) }
{
    let body = block(operation_alone(alloc, Token::Plus, 40, 2)?);
    let branch = block(divide_statements(alloc)?);
    let expr = two_is_two(alloc)?;
    Ok(FlowControl { expr, body, branch })
}

fn two_is_two(alloc: Global) -> Result<Expr, OutOfMemory>
    ensures { IfOk result (λ expr. expr_of expr ≡ first_condition) }
{
    let two = operation(alloc, Token::Plus, integer(1), integer(1))?;
    operation(alloc, Token::EqualsTo, two, integer(2))
}

/// The statement of `1 / 0`.
pub fn divide_statements(alloc: Global) -> Result<Vec<Stmt>, OutOfMemory>
    ensures { IfOk result (λ statements. stmts_of statements.items ≡ divide_statements) }
{
    operation_alone(alloc, Token::Divide, 1, 0)
}

/// The statement that evaluates an operator over two integers.
fn operation_alone(
    alloc: Global,
    token: Token,
    lhs: INT,
    rhs: INT,
) -> Result<Vec<Stmt>, OutOfMemory>
    ensures { IfOk result (λ statements.
        stmts_of statements.items
        ≡ evaluates
        (operation (token_text token) (mark_of (Some token)) (IntegerConstant lhs) (IntegerConstant rhs))) }
{
    let value = operation(alloc, token, integer(lhs), integer(rhs))?;
    evaluated_alone(alloc, value)
}

/// The statement of `[1, 2, 3][-1]`.
pub fn index_statements(alloc: Global) -> Result<Vec<Stmt>, OutOfMemory>
    ensures { IfOk result (λ statements. stmts_of statements.items ≡ index_statements) }
{
    let items = Seq::from_array(alloc, [integer(1), integer(2), integer(3)])?;
    element_alone(alloc, array(alloc, items)?, -1)
}

/// The statement of `5[0]`.
pub fn bits_statements(alloc: Global) -> Result<Vec<Stmt>, OutOfMemory>
    ensures { IfOk result (λ statements. stmts_of statements.items ≡ bits_statements) }
{
    element_alone(alloc, integer(5), 0)
}

/// The statement that evaluates what stands at an index.
fn element_alone(alloc: Global, expr: Expr, index: INT) -> Result<Vec<Stmt>, OutOfMemory>
    ensures { IfOk result (λ statements.
        stmts_of statements.items ≡ evaluates (element (expr_of expr) (IntegerConstant index))) }
{
    evaluated_alone(alloc, element(alloc, expr, integer(index))?)
}

/// The statement of `() ?? ()`.
pub fn coalesce_statements(alloc: Global) -> Result<Vec<Stmt>, OutOfMemory>
    ensures { IfOk result (λ statements. stmts_of statements.items ≡ coalesce_statements) }
{
    let units = [Expr::Unit(Position::NONE), Expr::Unit(Position::NONE)];
    let operands = Boxed::new(alloc, Seq::from_array(alloc, units)?)?;
    evaluated_alone(alloc, Expr::Coalesce(operands, Position::NONE))
}

/// The statement of `return 42`.
pub fn return_statements(alloc: Global) -> Result<Vec<Stmt>, OutOfMemory>
    ensures { IfOk result (λ statements. stmts_of statements.items ≡ return_statements) }
{
    alone(alloc, returned(alloc, integer(42))?)
}

/// `return` with a value.
#[tactic(auto, using(crate::proofs::Leaving::returned))]
fn returned(alloc: Global, value: Expr) -> Result<Stmt, OutOfMemory>
    ensures { IfOk result (λ statement. stmt_of statement ≡ Return false false (an_expr (expr_of value))) }
{
    let value = Boxed::new(alloc, value)?;
    Ok(Stmt::Return(Some(value), ASTFlags::NONE, Position::NONE))
}

/// The statements of `42; {}`.
pub fn tail_statements(alloc: Global) -> Result<Vec<Stmt>, OutOfMemory>
    ensures { IfOk result (λ statements. stmts_of statements.items ≡ tail_statements) }
{
    let statements = alone(alloc, expr_stmt(alloc, integer(42))?)?;
    with(statements, block_stmt(alloc, StmtBlock::none(alloc)))
}

/// The statements of `loop {} print(1)`.
pub fn endless_statements(alloc: Global) -> Result<Vec<Stmt>, OutOfMemory>
    ensures { IfOk result (λ statements. stmts_of statements.items ≡ endless_statements) }
{
    let flow = FlowControl {
        expr: Expr::Unit(Position::NONE),
        body: StmtBlock::none(alloc),
        branch: StmtBlock::none(alloc),
    };
    let endless = Stmt::While(Boxed::new(alloc, flow)?, Position::NONE);
    let statements = alone(alloc, endless)?;
    with(statements, called(alloc, "print", integer(1)))
}
