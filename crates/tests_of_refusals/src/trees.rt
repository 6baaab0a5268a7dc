//! Nodes: their values, their copies, blocks, the test of a tree.

use crate::scripts;
use crate::tried::Tried;
use rhai_ast::{
    Expr, FnCallExpr, FromStmt, IntoExpr, Literals, ScriptFuncDef, Stmt, StmtBlock, Take,
    TreeError, TreeFault, check_tree,
};
use rhai_base::{Dynamic, OutOfMemory, Position};
use tests_reader::Script;

/// The calls.
pub const CALLS: &str =
    "Expr::clone Stmt::clone FnCallExpr::clone FnCallExpr::into_fn_call_expr StmtBlock::clone StmtBlock::from_stmt \
    StmtBlock::extend ScriptFuncDef::clone SwitchCasesCollection::clone Expr::get_literal_value Expr::constant_value \
    Expr::from_dynamic check_tree AST::check";

/// A script with each kind of node that has parts.
pub const SCRIPT: &str = "let x = [1, #{a: 2, b: \"b\"}, text(\"c\", x)]
if and(true, !(x)) { call f(x, 'c') } else { x += <[1, \"d\"]> }
for (y, z) in [1, 2] { switch y { 1: 0, \"e\": 0 1 | 5..8: 1 | default 2 | true => y, ==(y, z) => { y; 3 }, true => () } }
try { throw Dot(x, Index!(m(1), 0)) } catch e { return coalesce(e, m::n) }
fn f(a, b) { while or(a, b) { break f!(1) }; block { const k = 1 } }
fn i64.g() { share k }
";

pub fn make(name: &str, tried: &Tried) -> bool {
    match name {
        "check_tree" | "AST::check" => tested(name, tried),
        "ScriptFuncDef::clone" => functions(tried),
        "Expr::get_literal_value" | "Expr::constant_value" | "Expr::clone" => literal(name, tried),
        "Expr::from_dynamic" => constant(tried),
        "FnCallExpr::clone" | "FnCallExpr::into_fn_call_expr" => call(name, tried),
        _ => return of_statements(name, tried),
    }
    true
}

fn of_statements(name: &str, tried: &Tried) -> bool {
    match name {
        "Stmt::clone" => statements(tried),
        "SwitchCasesCollection::clone" => table(tried),
        "StmtBlock::clone" | "StmtBlock::from_stmt" | "StmtBlock::extend" => block(name, tried),
        _ => return false,
    }
    true
}

pub fn script(tried: &Tried) -> Option<Script> {
    tried.said.script(SCRIPT)
}

/// A fault in the last of all keys, and none.
fn tested(name: &str, tried: &Tried) {
    for text in [
        "#{a: 1, b: [#{c: 1, d: 2}]}\n",
        "#{a: 1, b: [#{c: 1, d: 2, c: 3}]}\n",
    ] {
        if let Some(script) = tried.said.script(text) {
            test(name, script, tried);
        }
    }
}

fn test(name: &str, script: Script, tried: &Tried) {
    if name == "check_tree" {
        say_test(
            check_tree(tried.said.alloc, script.statements.as_slice(), &[]),
            tried,
        );
    } else if let Some(script) = scripts::made(script, tried) {
        say_test(script.get().check(), tried);
    }
}

fn say_test(answer: Result<(), TreeError>, tried: &Tried) {
    match answer {
        Err(error) if error.fault == TreeFault::OutOfMemory => {
            tried.done(tried.answer(Err::<(), OutOfMemory>(OutOfMemory)));
        }
        Err(error) => tried.said.count("fault", usize::from(error.fault.number())),
        Ok(()) => tried.said.word("sound"),
    }
}

fn functions(tried: &Tried) {
    if let Some(script) = script(tried) {
        for function in &script.functions {
            let copy: Option<ScriptFuncDef> = tried.answer((**function).clone());
            tried.done(copy);
        }
    }
}

fn statements(tried: &Tried) {
    if let Some(script) = script(tried) {
        for statement in &script.statements {
            tried.done(tried.said.boxed(tried.answer(statement.clone())));
        }
    }
}

fn literal(name: &str, tried: &Tried) {
    if let Some(expr) = tried.said.expr(
        "[1, #{a: \"abc\", b: ..(1, 2)}, text(\"a\", 'b'), Fn(\"f\")]",
    ) {
        say_literal(name, expr.get(), tried);
    }
    if let Some(expr) = tried
        .said
        .expr("[1, #{a: \"abc\", b: [()]}, text(\"a\", 'b')]")
    {
        say_literal(name, expr.get(), tried);
    }
}

fn say_literal(name: &str, expr: &Expr, tried: &Tried) {
    let alloc = tried.said.alloc;
    match name {
        "Expr::clone" => tried.done(tried.said.boxed(tried.answer(expr.clone()))),
        "Expr::constant_value" => tried.done(tried.answer(expr.constant_value(alloc))),
        _ => {
            if let Some(Some(value)) = tried.answer(expr.get_literal_value(alloc)) {
                tried.said.inner(&value);
            }
        }
    }
}

fn constant(tried: &Tried) {
    for text in ["[1, \"abc\"]", "Fn(f)", "'c'", "1..2"] {
        if let Some(value) = tried.said.value_of(text) {
            of_value(value, tried);
        }
    }
}

fn of_value(value: Dynamic, tried: &Tried) {
    let made = Expr::from_dynamic(tried.said.alloc, value, Position::NONE);
    tried.done(tried.said.boxed(tried.answer(made)));
}

fn call(name: &str, tried: &Tried) {
    if let Some(expr) = tried.said.expr("m::f!(1, [x, \"abc\"])")
        && let Expr::FnCall(call, _) = expr.get()
        && let Some(copy) = copied(name, call.get(), tried)
    {
        let made = copy.into_fn_call_expr(tried.said.alloc, Position::NONE);
        tried.done(tried.said.boxed(tried.answer(made)));
    }
}

fn copied(name: &str, call: &FnCallExpr, tried: &Tried) -> Option<FnCallExpr> {
    match name {
        "FnCallExpr::clone" => tried.answer(call.clone()),
        _ => tried.said.made(call.clone()),
    }
}

fn table(tried: &Tried) {
    if let Some(statement) = tried.said.stmt(
        "switch x { 1: 0, \"e\": 0 1 | 5..8: 1 | default 2 | true => y, x => [3], true => () }",
    )
        && let Stmt::Switch(switch, _) = statement.get()
    {
        tried.done(tried.answer(switch.get().cases.clone()));
    }
}

fn block(name: &str, tried: &Tried) {
    if let Some(mut statement) = tried.said.stmt("x = [1]")
        && let Some(block) = of_statement(name, statement.get_mut(), tried)
    {
        match name {
            "StmtBlock::clone" => say_block(tried.answer(block.clone()), tried),
            "StmtBlock::extend" => extend(block, tried),
            _ => say_block(Some(block), tried),
        }
    }
}

fn of_statement(name: &str, statement: &mut Stmt, tried: &Tried) -> Option<StmtBlock> {
    let block = StmtBlock::from_stmt(tried.said.alloc, statement.take());
    match name {
        "StmtBlock::from_stmt" => tried.answer(block),
        _ => tried.said.made(block),
    }
}

fn say_block(block: Option<StmtBlock>, tried: &Tried) {
    if let Some(block) = block {
        tried.said.count("statements", block.len());
    }
}

fn extend(mut block: StmtBlock, tried: &Tried) {
    if tried.is_refused(&block.extend(tried.said.lines("1\n2\n3\n4\n5"))) {
        tried.want(block.len() == 1, "changed");
        tried
            .said
            .made(block.extend(tried.said.lines("1\n2\n3\n4\n5")));
    }
    say_block(Some(block), tried);
}
