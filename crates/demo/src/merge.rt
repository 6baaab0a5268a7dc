//! The script that comes of `fn foo(x) { 42 + x } foo(1)`, merged with ``fn foo(n) { `hello${n}` } foo("!")``: the
//! later function takes the place of the earlier one.
#![tactic(auto, using(ast_types::specs::Reading::shapes))]

ghost use Rattle.std.specs.Prelude.{◌≡◌, ◌∷◌, [], IfOk, codes, map};
ghost use Rattle.std.specs.Rc.{rc_value};
ghost use Rattle.ast_types.specs.Reading.{expr_of, function_of, stmt_of, stmts_of};
ghost use Rattle.theory_meaning.specs.Tree.{StringConstant};
ghost use Rattle.demo.specs.Trees.{calls, evaluates};
ghost use Rattle.demo.specs.Statements as spec;

use crate::expressions::{both, integer, text, variable};
use crate::lines::{alone, called, evaluated_alone, with};
use ast_make as make;
use rhai_ast::{Expr, ScriptFuncDef, Stmt};
use rhai_base::{Boxed, OutOfMemory, Position, Seq};
use std::alloc::Global;
use std::rc::Rc;

/// The statements of ``fn foo(n) { `hello${n}` } foo(1) foo("!")``.
pub fn merge_statements(alloc: Global) -> Result<Vec<Stmt>, OutOfMemory>
    ensures { IfOk result (λ statements. stmts_of statements.items ≡ spec.merge_statements) }
{
    let statements = alone(alloc, called(alloc, "foo", integer(1))?)?;
    with(statements, called_with_text(alloc, "foo", "!"))
}

/// A call with a text, as a statement.
fn called_with_text(alloc: Global, name: &str, argument: &str) -> Result<Stmt, OutOfMemory>
    ensures { IfOk result (λ statement. stmt_of statement ≡ calls name.now (StringConstant argument.now)) }
{
    called(alloc, name, text(alloc, argument)?)
}

/// The functions of that script: ``fn foo(n) { `hello${n}` }`` alone.
pub fn merge_functions(alloc: Global) -> Result<Vec<Rc<ScriptFuncDef>>, OutOfMemory>
    ensures { IfOk result (λ functions. map function_of (map rc_value functions.items) ≡ spec.merge_functions) }
{
    let function = Rc::new(alloc, greeting_function(alloc)?)?;
    Ok(vec![in alloc; function]?)
}

/// ``fn foo(n) { `hello${n}` }``
fn greeting_function(alloc: Global) -> Result<ScriptFuncDef, OutOfMemory>
    ensures { IfOk result (λ function. function_of function ≡ spec.greeting_function) }
{
    make::function(alloc, "foo", &["n"], greeting_alone(alloc)?)
}

/// A list of the statement that evaluates `` `hello${n}` ``.
fn greeting_alone(alloc: Global) -> Result<Vec<Stmt>, OutOfMemory>
    ensures { IfOk result (λ statements. stmts_of statements.items ≡ evaluates spec.greeting) }
{
    evaluated_alone(alloc, greeting(alloc)?)
}

/// `` `hello${n}` ``
fn greeting(alloc: Global) -> Result<Expr, OutOfMemory>
    ensures { IfOk result (λ expr. expr_of expr ≡ spec.greeting) }
{
    let (hello, n) = both(text(alloc, "hello")?, variable(alloc, "n"))?;
    let parts = Boxed::new(alloc, Seq::from_array(alloc, [hello, n])?)?;
    Ok(Expr::InterpolatedString(parts, Position::NONE))
}
