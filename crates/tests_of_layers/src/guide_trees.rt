//! The pieces of docs/GUIDE.md on trees.

use crate::nodes::say_literal;
use ast_make::{declaration, ident, integer, operator};
use indexmap::IndexMap;
use rhai_ast::{
    ASTNode, BinaryExpr, CaseBlocksList, Cases, Expr, ExprQueries, FlowControl, Literals,
    NodeQueries, SetPosition, Stmt, StmtBlock, StmtQueries, SwitchBlock, SwitchCases,
    SwitchCasesCollection, Walk, check_tree, is_plain,
};
use rhai_base::{
    ASTFlags, AstError, Boxed, Dynamic, INT, OutOfMemory, Position, RangeCase, Seq, Token,
};
use std::alloc::Global;
use tests_reader::Said;

/// `let x = 40 + 2`, as a parser would build it.
fn declared(alloc: Global) -> Result<Stmt, OutOfMemory> {
    let forty = integer(40, Position::new(1, 9));
    let two = integer(2, Position::new(1, 14));
    let sum = operator(alloc, Token::Plus, forty, two, Position::new(1, 12))?;
    let x = ident(alloc, "x", Position::new(1, 5))?;
    declaration(alloc, ASTFlags::NONE, x, sum, Position::new(1, 1))
}

/// `break 42`, by hand.
fn leaving(alloc: Global) -> Result<Stmt, OutOfMemory> {
    let value = Boxed::new(alloc, Expr::IntegerConstant(42, Position::new(1, 14)))?;
    Ok(Stmt::BreakLoop(Some(value), ASTFlags::BREAK, Position::new(1, 8)))
}

/// `loop { break 42 }`
fn endless(alloc: Global) -> Result<Stmt, OutOfMemory> {
    let body = vec![in alloc; leaving(alloc)?]?;
    let flow = FlowControl {
        expr: Expr::Unit(Position::NONE), // no guard
        body: StmtBlock::new(body, Position::new(1, 6), Position::new(1, 17)),
        branch: StmtBlock::none(alloc),
    };
    Ok(Stmt::While(Boxed::new(alloc, flow)?, Position::new(1, 1)))
}

/// How many statements stand in the body of a loop: 1.
fn body_length(statement: &Stmt) -> usize {
    match statement {
        Stmt::While(flow, _) => flow.get().body.len(),
        _ => 0,
    }
}

/// Whether a tree has no fault and is plain: so it is of the loop.
fn is_whole(alloc: Global, script: &[Stmt]) -> bool {
    check_tree(alloc, script, &[]).is_ok() && is_plain(script, &[])
}

/// The number of the first fault, and where it stands: 24, `BreakOutsideLoop`, of the `break` alone.
fn first_fault(alloc: Global, script: &[Stmt]) -> Option<(u8, Position)> {
    let error = check_tree(alloc, script, &[]).err()?;
    Some((error.fault.number(), error.position))
}

/// Whether a statement needs no semicolon and may do something: so it is of the loop.
fn is_closed_and_impure(statement: &Stmt) -> bool {
    statement.is_self_terminated() && !statement.is_pure()
}

/// The value of a literal: 42 of the expression behind the `break`.
fn literal_value(alloc: Global, expr: &Expr) -> Result<Option<Dynamic>, OutOfMemory> {
    if !expr.is_constant() || !expr.is_pure() {
        return Ok(None);
    }
    expr.get_literal_value(alloc)
}

/// An arm without a condition.
fn arm(answer: INT) -> BinaryExpr {
    BinaryExpr {
        lhs: Expr::BoolConstant(true, Position::NONE),
        rhs: Expr::IntegerConstant(answer, Position::NONE),
    }
}

/// The cases of `switch x { 1 => 10, 5..8 => 20, _ => 99 }`: 1 has the first arm.
fn cases(alloc: Global) -> Result<IndexMap<Dynamic, CaseBlocksList>, OutOfMemory> {
    let mut cases = IndexMap::new(alloc);
    let blocks = Seq::from_array(alloc, [0])?;
    cases.insert(Dynamic::Int(1), CaseBlocksList { blocks })?;
    Ok(cases)
}

/// Its table, with this arm as the default.
fn table(
    alloc: Global,
    default: usize,
) -> Result<Result<SwitchCasesCollection, AstError>, OutOfMemory> {
    let mut range = RangeCase::from(5..8);
    range.set_index(1); // the second arm
    let ranges = vec![in alloc; range]?;
    let cases = cases(alloc)?;
    let arms = vec![in alloc; arm(10), arm(20), arm(99)]?;
    Ok(SwitchCasesCollection::new(arms, cases, ranges, Some(default)))
}

/// `switch () {}` with a default that is no arm.
fn without_arms(alloc: Global) -> Result<Stmt, OutOfMemory> {
    let cases = SwitchCasesCollection {
        expressions: Seq::new(alloc),
        cases: Cases::from_map(IndexMap::new(alloc)),
        ranges: Seq::new(alloc),
        def_case: Some(0),
    };
    let expr = Expr::Unit(Position::NONE);
    Ok(Stmt::Switch(
        Boxed::new(alloc, SwitchBlock { expr, cases })?,
        Position::NONE,
    ))
}

/// `[1, 2]`
fn pair(alloc: Global) -> Result<Dynamic, OutOfMemory> {
    Ok(Dynamic::Array(Seq::from_array(alloc, [Dynamic::Int(1), Dynamic::Int(2)])?))
}

/// The constant for a value in line 3, column 5, and a copy that stays in line 1, column 1.
fn at_two_places(alloc: Global, value: Dynamic) -> Result<(Expr, Expr), OutOfMemory> {
    let mut constant = Expr::from_dynamic(alloc, value, Position::new(1, 1))?;
    let copy = constant.clone()?; // positions too
    constant.set_position(Position::new(3, 5));
    Ok((constant, copy))
}

/// How many nodes the longest path has: 3, the loop, its `break`, and the 42.
fn longest_path(alloc: Global, statement: &Stmt) -> Result<usize, OutOfMemory> {
    let mut path = Vec::new(alloc);
    let mut longest = 0;
    statement.walk(
        &mut path,
        &mut |nodes: &[ASTNode]| {
            longest = nodes.len().max(longest);
            true // go on
        },
    )?;
    Ok(longest) // all nodes were shown, and the path is as it was
}

/// Whether the last node of a path leaves a loop.
fn is_leaving(nodes: &[ASTNode]) -> bool {
    match nodes.last() {
        Some(ASTNode::Stmt(statement)) => statement.is_control_flow_break(),
        _ => false,
    }
}

/// Where the walk stops: at line 1, column 8, the `break`, which is the path's last node.
fn place_of_break(alloc: Global, statement: &Stmt) -> Result<Position, OutOfMemory> {
    let mut path = Vec::new(alloc);
    let finished = statement.walk(&mut path, &mut |nodes: &[ASTNode]| !is_leaving(nodes))?;
    match path.as_slice() {
        [_, node] if !finished => Ok(node.position()), // below the loop
        _ => Ok(Position::NONE),
    }
}

/// Answers what the pieces give.
pub fn answer(name: &str, said: &Said) {
    match name {
        "constant" => of_constants(said),
        "endless" => of_script(endless(said.alloc), said),
        "leaving" => of_script(leaving(said.alloc), said),
        "declared" => of_script(declared(said.alloc), said),
        "without arms" => of_script(without_arms(said.alloc), said),
        _ => of_table(name, said),
    }
}

fn of_script(statement: Result<Stmt, OutOfMemory>, said: &Said) {
    let script = said.list_of(said.made(statement));
    say_script(script.as_slice(), said);
}

fn say_script(script: &[Stmt], said: &Said) {
    match script {
        [statement @ Stmt::While(_, _)] => say_loop(statement, said),
        [Stmt::BreakLoop(Some(expr), _, _)] => say_literal_value(expr.get(), said),
        _ => {}
    }
    said.word_if(is_whole(said.alloc, script), "whole");
    match first_fault(said.alloc, script) {
        Some((number, position)) => {
            said.count("fault", usize::from(number));
            said.place("at", position);
        }
        None => said.word("no fault"),
    }
}

fn say_loop(statement: &Stmt, said: &Said) {
    said.place("at", statement.position());
    said.count("body", body_length(statement));
    said.word_if(is_closed_and_impure(statement), "closed and impure");
    let longest = said.made(longest_path(said.alloc, statement)).unwrap_or(0);
    said.count("longest path", longest);
    let place = said.made(place_of_break(said.alloc, statement));
    said.place("stopped at", place.unwrap_or(Position::NONE));
}

fn say_literal_value(expr: &Expr, said: &Said) {
    if let Some(value) = said.found(literal_value(said.alloc, expr)) {
        said.value(&value);
    }
}

fn of_constants(said: &Said) {
    if let Some(value) = said.made(pair(said.alloc)) {
        let two = said.made(at_two_places(said.alloc, value));
        if let Some(two) = said.boxed(two) {
            say_two(two.get(), said);
        }
    }
}

fn say_two(two: &(Expr, Expr), said: &Said) {
    said.place("at", two.0.position());
    said.place("its copy at", two.1.position());
    say_literal(&two.1, said);
}

/// The table with the arm of this number as the default.
fn of_table(default: &str, said: &Said) {
    let Ok(default) = default.parse::<usize>() else {
        return said.want("an arm");
    };
    match said.made(table(said.alloc, default)) {
        Some(Ok(_)) => said.word("made"),
        Some(Err(refusal)) => said.count("refusal", usize::from(refusal.number())),
        None => {}
    }
}
