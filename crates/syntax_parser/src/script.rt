//! The calls for users.
#![tactic(auto, using(crate::proofs::Asked::asked_steps))]

ghost use Rattle.std.specs.Prelude.{◌≡◌, IfOk, IsTrue, None};
ghost use Rattle.rhai_script.specs.Script.{script_of};
ghost use Rattle.theory_meaning.specs.Faults.{script_fault};
ghost use Rattle.theory_grammar.specs.Covered.{IsOneExpression, IsSpelled};

use crate::error::{ParseError, ParseErrorType};
use crate::inside::Inside;
use crate::options::ParseOptions;
use crate::parser::{Parser, Whole};
use rhai_ast::{Stmt, TreeError};
use rhai_base::{OutOfMemory, Position, TreeFault};
use rhai_script::AST;
use script_tables::{FnLib, shared_functions};
use std::alloc::{AllocError, Global};
use std::rc::Rc;
use syntax_grammar::{is_one_expression, is_one_script};

/// The script of a text in rhai's own syntax, as docs/SYNTAX.md has it. Its nodes stand where the text's do, its
/// functions are in the order in which they end, and what it answers is well-formed. Closures that are the same but for
/// where they stand are one function.
///
/// The error says where the text stops being a script, and why. As `Engine::compile` of rhai, which also
/// optimises what it reads. Where the grammar covers it, the text spells the script.
pub fn compile(alloc: Global, text: &str) -> Result<AST, ParseError>
    ensures faultless { IfOk result (λ script. script_fault (script_of script) ≡ None) }
    ensures spelled { IfOk result (λ script. IsSpelled text.now (script_of script)) }
{
    compile_with(alloc, text, ParseOptions::new())
}

/// The same with other bounds.
pub fn compile_with(alloc: Global, text: &str, options: ParseOptions) -> Result<AST, ParseError>
    ensures faultless { IfOk result (λ script. script_fault (script_of script) ≡ None) }
    ensures spelled { IfOk result (λ script. IsSpelled text.now (script_of script)) }
{
    let parser = Parser::new(alloc, text, options, false);
    let statements = parser.script(Inside::script(options.levels()));
    let script = finished(alloc, statements, parser.into_whole())?;
    match is_as_read(alloc, text, &script) {
        Ok(true) => Ok(script),
        Ok(false) => Err(ParseError(ParseErrorType::NotAsRead, Position::NONE)),
        Err(OutOfMemory) => Err(ParseError(ParseErrorType::OutOfMemory, Position::NONE)),
    }
}

/// The script of one expression, without blocks, loops and closures, in which `if` and `switch` have expressions and
/// assignments in their blocks. As `Engine::compile_expression` of rhai. Where the grammar covers it, the text spells it.
pub fn compile_expression(alloc: Global, text: &str) -> Result<AST, ParseError>
    ensures faultless { IfOk result (λ script. script_fault (script_of script) ≡ None) }
    ensures spelled { IfOk result (λ script. IsOneExpression text.now (script_of script).statements) }
{
    compile_expression_with(alloc, text, ParseOptions::new())
}

/// The same with other bounds.
pub fn compile_expression_with(
    alloc: Global,
    text: &str,
    options: ParseOptions,
) -> Result<AST, ParseError>
    ensures faultless { IfOk result (λ script. script_fault (script_of script) ≡ None) }
    ensures spelled { IfOk result (λ script. IsOneExpression text.now (script_of script).statements) }
{
    let parser = Parser::new(alloc, text, options, true);
    let statements = parser.one_expression(Inside::script(options.levels()));
    let script = finished(alloc, statements, parser.into_whole())?;
    match is_one_expression(alloc, text, script.statements()) {
        Ok(true) => Ok(script),
        Ok(false) => Err(ParseError(ParseErrorType::NotAsRead, Position::NONE)),
        Err(AllocError) => Err(ParseError(ParseErrorType::OutOfMemory, Position::NONE)),
    }
}

/// Whether a text spells a script, if both are covered.
fn is_as_read(alloc: Global, text: &str, script: &AST) -> Result<bool, OutOfMemory>
    ensures { IfOk result (λ yes. IsTrue yes → IsSpelled text.now (script_of script.now)) }
{
    let functions = shared_functions(script.shared_lib().as_ref())?;
    Ok(is_one_script(alloc, text, script.statements(), functions.as_slice())?)
}

/// The script of what was read, which is tested.
fn finished(
    alloc: Global,
    statements: Vec<Stmt>,
    whole: Result<Whole, ParseError>,
) -> Result<AST, ParseError>
    ensures { IfOk result (λ script. script_fault (script_of script) ≡ None) }
{
    let script = made(assembled(alloc, statements, whole?))?;
    match script.check() {
        Ok(()) => Ok(script),
        Err(error) => Err(ill_formed(error)),
    }
}

fn made(script: Result<AST, OutOfMemory>) -> Result<AST, ParseError> {
    match script {
        Ok(script) => Ok(script),
        Err(OutOfMemory) => Err(ParseError(ParseErrorType::OutOfMemory, Position::NONE)),
    }
}

fn assembled(alloc: Global, statements: Vec<Stmt>, whole: Whole) -> Result<AST, OutOfMemory> {
    let Whole { functions, doc } = whole;
    let lib = FnLib::from_functions(alloc, functions)?;
    let mut script = AST::new(statements, Rc::new(alloc, lib)?);
    if let Some(doc) = doc {
        script.set_doc(doc.as_str())?;
    }
    Ok(script)
}

fn ill_formed(error: TreeError) -> ParseError {
    match error.fault {
        TreeFault::OutOfMemory => ParseError(ParseErrorType::OutOfMemory, Position::NONE),
        fault => ParseError(ParseErrorType::IllFormed(fault), error.position),
    }
}
