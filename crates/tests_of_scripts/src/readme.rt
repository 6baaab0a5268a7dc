//! A sum is optimised and run, over the crates one by one. The example of the README, `example_first`, is over
//! `rhai_lang` alone.

use notation_print::push_script;
use rhai_ast::{Expr, FnCallExpr, Stmt};
use rhai_base::{Boxed, ImmutableString, Namespace, OutOfMemory, Position, Scope, Seq, Token};
use rhai_optimizer::{OptimizationLevel, optimize_into_ast};
use rhai_run::{EngineInfo, plain_run};
use rhai_script::AST;
use run_host::{UnitHost, push_report};
use std::alloc::Global;

/// `40 + 2;`, as a parser would build it.
fn sum(alloc: Global) -> Result<Stmt, OutOfMemory> {
    let mut operands = Seq::new(alloc);
    operands.push(Expr::IntegerConstant(40, Position::NONE))?;
    operands.push(Expr::IntegerConstant(2, Position::NONE))?;
    let call = FnCallExpr {
        namespace: Namespace::none(alloc),
        name: ImmutableString::new(alloc, "+")?,
        args: operands,
        capture_parent_scope: false,
        op_token: Some(Token::Plus),
    };
    Ok(Stmt::FnCall(Boxed::new(alloc, call)?, Position::NONE))
}

/// The script of it alone, optimised.
fn optimised(alloc: Global, info: &EngineInfo) -> Result<AST, OutOfMemory> {
    let statements = vec![in alloc; sum(alloc)?]?;
    let functions = Vec::new(alloc);
    let level = OptimizationLevel::Simple;
    optimize_into_ast(alloc, info, None, statements, functions, level)
}

/// Writes what it is optimised to, and what a run of that reports.
pub fn a_sum_is_optimised_and_run(alloc: Global, text: &mut String) -> Result<(), OutOfMemory> {
    let info = EngineInfo::new(alloc); // overrides no operator
    let script = optimised(alloc, &info)?;
    push_script(&script, text)?; // the line `42`: the sum is a constant by now

    let scope = Scope::new(alloc);
    let report = plain_run(alloc, &script, &info, &UnitHost, &scope, 10)?; // with ten turns
    push_report(&report, text) // the lines `end: value 42` and `turns left: 10`
}
