//! The script that imports and exports.
#![tactic(auto, using(ast_types::specs::Reading::shapes))]

ghost use Rattle.std.specs.Prelude.{◌≡◌, ◌∷◌, [], IfOk};
ghost use Rattle.ast_types.specs.Reading.{expr_of, path_of, stmt_of, stmts_of};
ghost use Rattle.theory_meaning.specs.Tree.{ExprStmt, Variable};
ghost use Rattle.demo.specs.Statements as spec;

use crate::expressions::{both, integer, operation, variable};
use crate::lines::{alone, declared, name_of, with};
use ast_make::expr_stmt;
use rhai_ast::{Expr, Stmt};
use rhai_base::{ASTFlags, Boxed, ImmutableString, Namespace, OutOfMemory, Position, Seq, Token};
use std::alloc::Global;

/// The statements of `import "m" as a; export let x = a::v; x + 1`.
pub fn import_statements(alloc: Global) -> Result<Vec<Stmt>, OutOfMemory>
    ensures { IfOk result (λ statements. stmts_of statements.items ≡ spec.import_statements) }
{
    let statements = alone(alloc, imported(alloc)?)?;
    let statements = with(statements, exported(alloc))?;
    with(statements, one_added(alloc))
}

/// `import "m" as a`
fn imported(alloc: Global) -> Result<Stmt, OutOfMemory>
    ensures { IfOk result (λ statement. stmt_of statement ≡ spec.imported) }
{
    let path = ImmutableString::new(alloc, "m")?;
    let path = Expr::StringConstant(path, Position::NONE);
    let (path, alias) = both(path, name_of(alloc, "a"))?;
    Ok(Stmt::Import(Boxed::new(alloc, (path, alias))?, Position::NONE))
}

/// `export let x = a::v`
fn exported(alloc: Global) -> Result<Stmt, OutOfMemory>
    ensures { IfOk result (λ statement. stmt_of statement ≡ spec.exported) }
{
    declared(alloc, ASTFlags::EXPORTED, "x", in_module(alloc, "a", "v")?)
}

/// A variable of a module.
fn in_module(alloc: Global, root: &str, name: &str) -> Result<Expr, OutOfMemory>
    ensures { IfOk result (λ e. expr_of e ≡ Variable (root.now ∷ []) name.now) }
{
    let namespace = one_module(alloc, root)?;
    let name = ImmutableString::new(alloc, name)?;
    let parts = Boxed::new(alloc, (None, name, namespace))?;
    Ok(Expr::Variable(parts, None, Position::NONE))
}

fn one_module(alloc: Global, name: &str) -> Result<Namespace, OutOfMemory>
    ensures { IfOk result (λ n. path_of n ≡ name.now ∷ []) }
{
    let path = Seq::from_array(alloc, [name_of(alloc, name)?])?;
    Ok(Namespace { path, index: None })
}

/// `x + 1`
fn one_added(alloc: Global) -> Result<Stmt, OutOfMemory>
    ensures { IfOk result (λ statement. stmt_of statement ≡ ExprStmt spec.one_added) }
{
    let sum = operation(alloc, Token::Plus, variable(alloc, "x")?, integer(1))?;
    expr_stmt(alloc, sum)
}
