//! The script of constants and a variable.
#![tactic(auto, using(ast_types::specs::Reading::shapes))]

ghost use Rattle.std.specs.Prelude.{◌≡◌, IfOk, Some};
ghost use Rattle.base_tokens.specs.Symbols.{token_text};
ghost use Rattle.ast_types.specs.Reading.{expr_of, stmt_of, stmts_of, mark_of};
ghost use Rattle.demo.specs.Trees.{operation, variable};
ghost use Rattle.demo.specs.Statements as spec;

use crate::expressions::{both, integer, operation, variable};
use crate::lines::{alone, assigned, block, called, declared, with};
use ast_make::block_stmt;
use rhai_ast::{Expr, Stmt};
use rhai_base::{ASTFlags, OutOfMemory, Token};
use std::alloc::Global;

/// The statements of `const A = 40 + 2; let b = 123; const B = b * A; const C = 999; b = A + C; { const Z = 0;
/// print(Z); }`.
pub fn constants_statements(alloc: Global) -> Result<Vec<Stmt>, OutOfMemory>
    ensures { IfOk result (λ statements. stmts_of statements.items ≡ spec.constants_statements) }
{
    let statements = alone(alloc, declared_sum(alloc)?)?;
    let b = declared(alloc, ASTFlags::NONE, "b", integer(123));
    let statements = with(statements, b)?;
    let statements = with(statements, declared_product(alloc))?;
    let c = declared(alloc, ASTFlags::CONSTANT, "C", integer(999));
    let statements = with(statements, c)?;
    let statements = with(statements, assigned_sum(alloc))?;
    with(statements, printing_block(alloc))
}

/// `const A = 40 + 2`
fn declared_sum(alloc: Global) -> Result<Stmt, OutOfMemory>
    ensures { IfOk result (λ statement. stmt_of statement ≡ spec.declared_sum) }
{
    let sum = operation(alloc, Token::Plus, integer(40), integer(2))?;
    declared(alloc, ASTFlags::CONSTANT, "A", sum)
}

/// `const B = b * A`
fn declared_product(alloc: Global) -> Result<Stmt, OutOfMemory>
    ensures { IfOk result (λ statement. stmt_of statement ≡ spec.declared_product) }
{
    let product = over_variables(alloc, Token::Multiply, "b", "A")?;
    declared(alloc, ASTFlags::CONSTANT, "B", product)
}

/// `b = A + C`
fn assigned_sum(alloc: Global) -> Result<Stmt, OutOfMemory>
    ensures { IfOk result (λ statement. stmt_of statement ≡ spec.assigned_sum) }
{
    let sum = over_variables(alloc, Token::Plus, "A", "C")?;
    assigned(alloc, "b", sum)
}

/// An operator over two variables.
fn over_variables(alloc: Global, token: Token, lhs: &str, rhs: &str) -> Result<Expr, OutOfMemory>
    ensures { IfOk result (λ expr.
        expr_of expr ≡ operation (token_text token) (mark_of (Some token)) (variable lhs.now) (variable rhs.now)) }
{
    let (lhs, rhs) = both(variable(alloc, lhs)?, variable(alloc, rhs))?;
    operation(alloc, token, lhs, rhs)
}

/// `{ const Z = 0; print(Z); }`
fn printing_block(alloc: Global) -> Result<Stmt, OutOfMemory>
    ensures { IfOk result (λ statement. stmt_of statement ≡ spec.printing_block) }
{
    let constant = declared(alloc, ASTFlags::CONSTANT, "Z", integer(0))?;
    let (statements, z) = both(alone(alloc, constant)?, variable(alloc, "Z"))?;
    block_stmt(alloc, block(with(statements, called(alloc, "print", z))?))
}
