//! Two scripts.
#![tactic(auto, using(ast_types::specs::Reading::shapes))]

ghost use Rattle.std.specs.Prelude.{◌≡◌, ◌↔◌, IsTrue};
ghost use Rattle.script_tables.specs.FnLib.{functions_of};
ghost use Rattle.ast_types.specs.Reading.{expr_of, function_of, stmt_of, stmts_of};
ghost use Rattle.rhai_script.specs.Script.{script_of};
ghost use Rattle.ast_same.specs.Alike.{alike_but_name, alike_function, alike_functions, alike_script, nameless};

use crate::names::{alike_names, alike_types};
use crate::nodes::{alike_expr, alike_stmt, alike_stmts};
use ast_types::{Expr, ScriptFuncDef, Stmt};
use rhai_script::AST;
use script_tables::FnLib;

/// Whether the scripts are the same: their statements, and their functions in the tables' order. Sources, doc texts and
/// ids of tables are not compared.
pub fn same_script(first: &AST, second: &AST) -> bool
    ensures { IsTrue result ↔ (script_of first.now ≡ script_of second.now) }
{
    alike_script(first, second)
}

/// Whether the functions are the same: name, receiver type, parameters and body. Access and comments are not compared.
pub fn same_function(first: &ScriptFuncDef, second: &ScriptFuncDef) -> bool
    ensures { IsTrue result ↔ (function_of first.now ≡ function_of second.now) }
{
    alike_function(first, second)
}

/// Whether the functions are the same but for their names. Access and comments are not compared.
pub fn same_but_name(first: &ScriptFuncDef, second: &ScriptFuncDef) -> bool
    ensures { IsTrue result ↔ (nameless (function_of first.now) ≡ nameless (function_of second.now)) }
{
    alike_but_name(first, second)
}

/// Whether the lists of statements are the same.
pub fn same_stmts(first: &[Stmt], second: &[Stmt]) -> bool
    ensures { IsTrue result ↔ (stmts_of first.now ≡ stmts_of second.now) }
{
    alike_stmts(first, second)
}

/// Whether the statements are the same.
pub fn same_stmt(first: &Stmt, second: &Stmt) -> bool
    ensures { IsTrue result ↔ (stmt_of first.now ≡ stmt_of second.now) }
{
    alike_stmt(first, second)
}

/// Whether the expressions are the same.
pub fn same_expr(first: &Expr, second: &Expr) -> bool
    ensures { IsTrue result ↔ (expr_of first.now ≡ expr_of second.now) }
{
    alike_expr(first, second)
}

fn alike_script(first: &AST, second: &AST) -> bool
    ensures { result ≡ alike_script (script_of first.now) (script_of second.now) }
{
    alike_stmts(first.statements(), second.statements())
        && alike_functions(first.shared_lib(), second.shared_lib())
}

/// The functions of tables, in their order.
fn alike_functions(first: &FnLib, second: &FnLib) -> bool
    ensures { result ≡ alike_functions (functions_of first.now) (functions_of second.now) }
{
    let mut rest = second.iter();
    for function in first.iter() {
        let Some(other) = rest.next() else {
            return false;
        };
        if !alike_function(function, other) {
            return false;
        }
    }
    rest.next().is_none()
}

fn alike_function(first: &ScriptFuncDef, second: &ScriptFuncDef) -> bool
    ensures { result ≡ alike_function (function_of first.now) (function_of second.now) }
{
    first.name.as_str() == second.name.as_str() && alike_but_name(first, second)
}

fn alike_but_name(first: &ScriptFuncDef, second: &ScriptFuncDef) -> bool
    ensures { result ≡ alike_but_name (function_of first.now) (function_of second.now) }
{
    alike_types(&first.this_type, &second.this_type)
        && alike_names(first.params.as_slice(), second.params.as_slice())
        && alike_stmts(first.body.statements(), second.body.statements())
}
