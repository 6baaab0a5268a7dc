//! The calls below the optimiser's entry, and where nodes stand.

use crate::again;
use crate::record::say_value;
use notation_print::push_lines;
use opt_base::{constant_bool, folded};
use opt_rules::{Place, reduce_expr, reduce_stmt};
use rhai_ast::{ASTNode, Expr, FnCallExpr, NodeQueries, Stmt, walk_statements};
use rhai_base::Position;
use rhai_optimizer::{OptimizationLevel, OptimizerState, optimize_ast};
use rhai_run::EngineInfo;
use rhai_script::{AST, FnLib};
use std::rc::Rc;
use tests_reader::{Said, Script};

pub fn answer(question: &str, info: &EngineInfo, text: &str, said: &Said) {
    match question {
        "top_level" | "reduced" => of_statements(question, info, text, said),
        "folded" | "constant_bool" => of_expr(question, info, text.trim_end(), said),
        "state" => state(info, text, said),
        "default" => said.debug(&OptimizationLevel::default()),
        _ => said.want("a question"),
    }
}

// ---- the calls

fn of_statements(question: &str, info: &EngineInfo, text: &str, said: &Said) {
    let Some(
        Script {
            statements,
            functions: _functions,
        },
    ) = said.script(text)
    else {
        return;
    };
    if let Some(changed) = changed(question, info, statements, said) {
        say_lines(changed.as_slice(), said);
    }
}

fn say_lines(statements: &[Stmt], said: &Said) {
    let mut text = said.taken();
    let added = push_lines(statements, &mut text);
    said.put_back(text, added);
}

/// Statements that are optimised, or the first of them by one step.
fn changed(
    question: &str,
    info: &EngineInfo,
    mut statements: Vec<Stmt>,
    said: &Said,
) -> Option<Vec<Stmt>> {
    if question == "top_level" {
        return top_level(info, statements, said);
    }
    reduce(info, statements.get_mut(0), said);
    Some(statements)
}

fn top_level(info: &EngineInfo, statements: Vec<Stmt>, said: &Said) -> Option<Vec<Stmt>> {
    let lib = said.made(Rc::new(said.alloc, FnLib::new(said.alloc)))?;
    let script = AST::new(statements, lib);
    let level = OptimizationLevel::Simple;
    let script = said.made(optimize_ast(said.alloc, info, None, script, level))?;
    again::say_if_other(info, None, &script, level, said);
    Some(script.into_statements())
}

/// One step on a statement, or on the expression that it is; says whether something was done.
fn reduce(info: &EngineInfo, statement: Option<&mut Stmt>, said: &Said) {
    let mut state = OptimizerState::new(said.alloc, info, None, OptimizationLevel::Simple);
    match statement {
        Some(Stmt::Expr(expr)) => {
            said.made(reduce_expr(
                said.alloc,
                info,
                &mut state,
                expr.get_mut(),
                Place::Anywhere,
            ));
        }
        Some(statement) => {
            said.made(reduce_stmt(said.alloc, info, &mut state, statement, true));
        }
        None => {}
    }
    say_dirty(&state, said);
}

fn of_expr(question: &str, info: &EngineInfo, text: &str, said: &Said) {
    if let Some(expr) = said.expr(text) {
        match expr.get() {
            Expr::FnCall(call, _) if question == "folded" => fold(info, call.get(), said),
            expr => said.debug(&constant_bool(expr)),
        }
    }
}

/// The value of a call over constants.
fn fold(info: &EngineInfo, call: &FnCallExpr, said: &Said) {
    let value = said.found(folded(said.alloc, info, call));
    say_value(value.as_ref(), said);
}

/// A state that takes these steps; after each, whether it is dirty.
fn state(info: &EngineInfo, text: &str, said: &Said) {
    let mut state = OptimizerState::new(said.alloc, info, None, OptimizationLevel::Simple);
    for step in text.split_whitespace() {
        match step {
            "set" => state.set_dirty(),
            "clear" => state.clear_dirty(),
            _ => {}
        }
        say_dirty(&state, said);
    }
}

fn say_dirty(state: &OptimizerState, said: &Said) {
    said.put(if state.is_dirty() {
        "dirty\n"
    } else {
        "clean\n"
    });
}

// ---- places

/// Where the nodes of a text stand.
pub fn places_read(text: &str, said: &Said) -> u64 {
    match said.script(text) {
        Some(script) => places(script.statements.as_slice(), said),
        None => 0,
    }
}

/// A number made of where the nodes stand, in the order of a walk, where their blocks end, and which of them have a
/// token.
pub fn places(statements: &[Stmt], said: &Said) -> u64 {
    let mut path = Vec::new(said.alloc);
    let mut sum: u64 = 0;
    said.made(walk_statements(
        statements,
        &mut path,
        &mut |nodes: &[ASTNode]| {
            if let Some(node) = nodes.last() {
                sum = with_node(sum, node);
            }
            true
        },
    ));
    sum
}

/// The sum, and where a node stands, where its block ends and whether it has a token.
fn with_node(sum: u64, node: &ASTNode) -> u64 {
    let (end, has_token) = end_of(node);
    let start = node.position().position().unwrap_or(0) as u64;
    let end = end.position().unwrap_or(0) as u64;
    sum.wrapping_mul(31)
        .wrapping_add(start)
        .wrapping_mul(31)
        .wrapping_add(end)
        .wrapping_mul(2)
        .wrapping_add(has_token as u64)
}

/// Where a node's block ends, and whether the node has a token.
fn end_of(node: &ASTNode) -> (Position, bool) {
    match node {
        ASTNode::Expr(Expr::Stmt(block)) | ASTNode::Stmt(Stmt::Block(block)) => {
            (block.get().end_position(), false)
        }
        ASTNode::Stmt(Stmt::If(flow, _)) => (flow.get().body.end_position(), false),
        ASTNode::Expr(Expr::FnCall(call, _)) | ASTNode::Stmt(Stmt::FnCall(call, _)) => {
            (Position::NONE, call.get().op_token.is_some())
        }
        _ => (Position::NONE, false),
    }
}
