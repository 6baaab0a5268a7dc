//! Scripts: of one expression, and whole ones.
#![tactic(auto, using(crate::proofs::ScriptSteps::script_steps))]

ghost use Rattle.std.specs.Prelude.{◌≡◌, ◌∷◌, ◌&&◌, IfOk, IfSome, IsTrue, List, drop, false, map};
ghost use Rattle.std.specs.Rc.{rc_value};
ghost use Rattle.base_text.specs.Text.{Text};
ghost use Rattle.ast_types.specs.Reading.{expr_of, function_of, stmt_of, stmts_of};
ghost use Rattle.theory_meaning.specs.Tree.{Function, Stmts, stmt};
ghost use Rattle.theory_grammar.specs.Covered as covered;
ghost use Rattle.theory_grammar.specs.Grammar.{Spells};
ghost use Rattle.theory_grammar.specs.Statements.{ReadsScript, SpellsScript};
ghost use Rattle.syntax_grammar.specs.Made.{script_made};

use crate::blanks::behind_blanks;
use crate::covered::{are_functions_covered, are_statements_covered, is_covered, is_simple};
use crate::ends::{beginning, is_end};
use crate::exprs::is_spelled;
use crate::functions::function;
use crate::memory::Memory;
use crate::parts::past_semicolons;
use crate::statements::{ends_by_itself, top};
use ast_types::{Expr, ScriptFuncDef, Stmt};
use std::alloc::{AllocError, Global};
use std::rc::Rc;

// ---- one expression

/// Whether statements are one expression, which a text spells if both are covered.
pub fn is_one_expression(alloc: Global, text: &str, statements: &[Stmt]) -> Result<bool, AllocError>
    ensures { IfOk result (λ yes. IsTrue yes → covered.IsOneExpression text.now (stmts_of statements.now)) }
{
    let [statement] = statements else {
        return Ok(false);
    };
    match statement {
        Stmt::Expr(expr) => is_as_read(alloc, text, expr.get()),
        _ => Ok(false),
    }
}

/// Whether a text and an expression are covered.
pub fn covers(text: &str, expr: &Expr) -> bool
    ensures { result ≡ covered.is_simple text.now && covered.is_covered (expr_of expr.now) }
{
    is_simple(text.as_bytes()) && is_covered(expr)
}

/// Whether a text spells an expression, if both are covered.
fn is_as_read(alloc: Global, text: &str, expr: &Expr) -> Result<bool, AllocError>
    ensures { IfOk result (λ yes. IsTrue yes → IsTrue (covered.is_simple text.now && covered.is_covered (expr_of expr.now))
        → Spells text.now (expr_of expr.now)) }
{
    if covers(text, expr) {
        is_spelled(alloc, text, expr)
    } else {
        Ok(true)
    }
}

// ---- whole scripts

/// Whether a text spells a script of these statements and functions, if both are covered.
pub fn is_one_script(
    alloc: Global,
    text: &str,
    statements: &[Stmt],
    functions: &[Rc<ScriptFuncDef>],
) -> Result<bool, AllocError>
    ensures { IfOk result (λ yes. IsTrue yes → covered.IsSpelled text.now (script_made statements.now functions.now)) }
{
    if covers_script(text, statements, functions) {
        is_script_spelled(alloc, text, statements, functions)
    } else {
        Ok(true)
    }
}

/// Whether a text and a script of these statements and functions are covered.
pub fn covers_script(text: &str, statements: &[Stmt], functions: &[Rc<ScriptFuncDef>]) -> bool
    ensures { result ≡ covered.is_simple text.now && covered.script_is_covered (script_made statements.now functions.now) }
{
    is_simple(text.as_bytes())
        && are_statements_covered(statements)
        && are_functions_covered(functions)
}

/// Whether a text, all of it, spells a script of these statements and functions.
pub fn is_script_spelled(
    alloc: Global,
    text: &str,
    statements: &[Stmt],
    functions: &[Rc<ScriptFuncDef>],
) -> Result<bool, AllocError>
    ensures { IfOk result (λ yes. IsTrue yes → SpellsScript text.now (script_made statements.now functions.now)) }
{
    let memory = Memory::new(alloc);
    let answer = is_read(&memory, text.as_bytes(), statements, functions);
    if memory.has_run_out() {
        Err(AllocError)
    } else {
        Ok(answer)
    }
}

/// The same where there is memory.
fn is_read(
    memory: &Memory,
    text: &[u8],
    statements: &[Stmt],
    functions: &[Rc<ScriptFuncDef>],
) -> bool
    ensures { IsTrue result → SpellsScript text.now (script_made statements.now functions.now) }
{
    match script(memory, text, beginning(text), statements, functions) {
        Some(next) => is_end(text, behind_blanks(text, next)),
        None => false,
    }
}

/// How far a script was gone past: the place, whether a `;` is owed there, and how many of the functions stand before.
#[derive(Clone, Copy)]
struct Done {
    place: usize,
    owed: bool,
    functions: usize,
}

/// Statements and functions.
fn script(
    memory: &Memory,
    text: &[u8],
    at: usize,
    statements: &[Stmt],
    functions: &[Rc<ScriptFuncDef>],
) -> Option<usize>
    ensures { IfSome result (λ next. ReadsScript false (drop at text.now) (stmts_of statements.now)
        (map function_of (map rc_value functions.now)) (drop next text.now)) }
{
    let mut done = Done {
        place: at,
        owed: false,
        functions: 0,
    };
    for statement in statements {
        let before = past_functions(memory, text, &done, functions);
        done = past_statement(memory, text, &before, statement)?;
    }
    let last = past_functions(memory, text, &done, functions);
    if last.functions < functions.len() {
        return None;
    }
    past_semicolons(text, last.place, false)
}

/// Goes past a statement.
fn past_statement(memory: &Memory, text: &[u8], done: &Done, statement: &Stmt) -> Option<Done>
    ensures functions { IfSome result (λ next. next.functions ≡ done.now.functions) }
    ensures reads { IfSome result (λ next. (ss : Stmts) (fs : List Function) (rest : Text)
        → ReadsScript next.owed (drop next.place text.now) ss fs rest
        → ReadsScript done.now.owed (drop done.now.place text.now) (stmt (stmt_of statement.now) ss) fs rest) }
{
    let start = past_semicolons(text, done.place, done.owed)?;
    let place = top(memory, text, start, statement)?;
    Some(Done {
        place,
        owed: !ends_by_itself(statement),
        functions: done.functions,
    })
}

/// Goes past the functions that stand next.
fn past_functions(
    memory: &Memory,
    text: &[u8],
    done: &Done,
    functions: &[Rc<ScriptFuncDef>],
) -> Done
    ensures { (ss : Stmts) (rest : Text)
        → ReadsScript result.owed (drop result.place text.now) ss (map function_of (map rc_value (drop result.functions functions.now))) rest
        → ReadsScript done.now.owed (drop done.now.place text.now) ss (map function_of (map rc_value (drop done.now.functions functions.now))) rest }
{
    let mut next = *done;
    for i in done.functions..functions.len() {
        match past_function(memory, text, &next, &functions[i]) {
            Some(place) => {
                next = Done {
                    place,
                    owed: false,
                    functions: i + 1,
                };
            }
            None => return next,
        }
    }
    next
}

/// Goes past a function and the `;` before it.
fn past_function(memory: &Memory, text: &[u8], done: &Done, node: &ScriptFuncDef) -> Option<usize>
    ensures { IfSome result (λ next. (ss : Stmts) (fs : List Function) (rest : Text)
        → ReadsScript false (drop next text.now) ss fs rest
        → ReadsScript done.now.owed (drop done.now.place text.now) ss (function_of node.now ∷ fs) rest) }
{
    let start = past_semicolons(text, done.place, done.owed)?;
    function(memory, text, start, node)
}
