//! Blocks, the tests of trees, and refusals.

use crate::nodes::{say_expr, say_stmt};
use crate::scripts::with_body;
use crate::tokens::flag;
use crate::walks::{Walked, say_walk};
use rhai_ast::{
    Expr, FromStmt, ScriptFuncDef, Stmt, StmtBlock, StmtQueries, Take, TreeError, TreeFault,
    check_tree, is_plain,
};
use rhai_base::{ASTFlags, AstError, OutOfMemory, Position, Span};
use std::alloc::AllocError;
use std::fmt::Display;
use std::rc::Rc;
use tests_reader::Said;

pub fn answer(question: &str, text: &str, said: &Said) -> bool {
    match question {
        "fault" => say_fault(said.lines(text).as_slice(), &[], said),
        "told" => say_told(said.lines(text).as_slice(), said),
        "plain" => say_plain(said.lines(text).as_slice(), said),
        "walk-list" => say_walk(&Walked::List(said.lines(text).as_slice()), said),
        "flags" => flags(text, said),
        "function" => function(text, said),
        "block" => block(text, said),
        "grown-block" => grown_block(text, said),
        "no-block" => no_block(said),
        "refusal" => refusal(text, said),
        _ => return false,
    }
    true
}

pub fn say_fault(statements: &[Stmt], functions: &[Rc<ScriptFuncDef>], said: &Said) {
    match check_tree(said.alloc, statements, functions) {
        Ok(()) => said.word("no fault"),
        Err(error) => say_error(error, said),
    }
}

/// Says a fault, and where it stands.
pub fn say_error(error: TreeError, said: &Said) {
    said.count("fault", usize::from(error.fault.number()));
    said.place("at", error.position);
}

/// Says the fault of statements as a user is told of it, where they stand and nowhere.
fn say_told(statements: &[Stmt], said: &Said) {
    if let Err(error) = check_tree(said.alloc, statements, &[]) {
        let nowhere = TreeError {
            fault: error.fault,
            position: Position::NONE,
        };
        said.display(&error);
        said.put("; ");
        said.display(&nowhere);
    }
}

fn say_plain(statements: &[Stmt], said: &Said) {
    let is_plain = is_plain(statements, &[]);
    said.word(if is_plain { "plain" } else { "not plain" });
}

fn flags(text: &str, said: &Said) {
    for name in "CONSTANT EXPORTED NEGATED BREAK".split(' ') {
        said.line("");
        said.word(name);
        say_flagged(flag(name), said.lines(text).as_mut_slice(), said);
    }
}

/// Adds the flag to the first statement, or to the expression that it is.
fn say_flagged(flag: ASTFlags, statements: &mut [Stmt], said: &Said) {
    if let Some(statement) = statements.first_mut() {
        add(statement, flag);
        match statement {
            Stmt::Expr(expr) => say_expr(expr.get(), said),
            _ => say_stmt(statement, said),
        }
    }
    said.word_if(is_plain(statements, &[]), "plain");
}

fn add(statement: &mut Stmt, flag: ASTFlags) {
    match statement {
        Stmt::Do(_, options, _) => *options |= flag,
        Stmt::Var(_, options, _) => *options |= flag,
        Stmt::BreakLoop(_, options, _) => *options |= flag,
        Stmt::Return(_, options, _) => *options |= flag,
        Stmt::Expr(expr) => match expr.get_mut() {
            Expr::Dot(_, options, _) => *options |= flag,
            Expr::Index(_, options, _) => *options |= flag,
            _ => {}
        },
        _ => {}
    }
}

/// The fault of a function.
fn function(text: &str, said: &Said) {
    let functions = said.list_of(said.counted(with_body(text, said)));
    say_fault(&[], functions.as_slice(), said);
}

fn at(column: u16) -> Position {
    Position::new(1, column)
}

/// Says which statements of a block are nothing, and where it stands.
fn say_block(block: &StmtBlock, said: &Said) {
    for statement in block.statements() {
        said.word(if statement.is_noop() { "noop" } else { "other" });
    }
    said.count("of", block.len());
    said.word_if(block.is_empty(), "empty");
    said.place("from", block.position());
    said.place("to", block.end_position());
    let span = Span::new(block.position(), block.end_position());
    said.word_if(block.span() != span, "with another span");
}

/// A block from column 2 to column 4, its copy, and what it gives.
fn block(text: &str, said: &Said) {
    let block = StmtBlock::new(said.lines(text), at(2), at(4));
    say_copied(&block, said);
    say_gone_over(&block, said);
    say_all(block, said);
}

/// Goes over a block that is used up.
fn say_all(block: StmtBlock, said: &Said) {
    for _statement in block {
        said.word("any");
    }
}

/// Says what a block and its copy are.
fn say_copied(block: &StmtBlock, said: &Said) {
    say_block(block, said);
    said.put(";");
    if let Some(copy) = said.made(block.clone()) {
        say_block(&copy, said);
    }
    said.put(";");
}

/// Goes over a block in two ways.
fn say_gone_over(block: &StmtBlock, said: &Said) {
    for statement in block {
        said.word_if(statement.is_noop(), "noop");
    }
    for statement in block.iter() {
        said.word_if(!statement.is_noop(), "other");
    }
}

/// A block that grows by `2` and by nothing, and moves.
fn grown_block(text: &str, said: &Said) {
    let mut block = StmtBlock::new(said.lines(text), at(2), at(4));
    said.made(block.extend(said.lines("2")));
    said.made(block.statements_mut().push(Stmt::Noop(Position::NONE)));
    block.set_position(at(3), Position::NONE);
    say_moved(&block, said);
    say_kinds(block.into_statements().as_slice(), said);
}

fn say_kinds(statements: &[Stmt], said: &Said) {
    for statement in statements {
        said.word_if(matches!(statement, Stmt::Noop(_)), "Noop");
        said.word_if(matches!(statement, Stmt::Expr(_)), "Expr");
    }
}

/// Says what a block is, and where it stands or, with no place of its own, elsewhere.
fn say_moved(block: &StmtBlock, said: &Said) {
    say_block(block, said);
    let span = block.span_or_else(at(7), at(8));
    said.place("or from", span.start());
    said.place("to", span.end());
}

pub fn block_of(statement: &mut Stmt, said: &Said) {
    if let Some(block) = said.made(StmtBlock::from_stmt(said.alloc, statement.take())) {
        say_block(&block, said);
    }
}

fn no_block(said: &Said) {
    say_block(&StmtBlock::empty(said.alloc, at(2)), said);
    said.put(";");
    say_block(&StmtBlock::none(said.alloc), said);
}

/// Refusals by their names.
static REFUSALS: [(&str, AstError); 6] = [
    ("NotAnOpAssignment", AstError::NotAnOpAssignment),
    ("NotABaseOperator", AstError::NotABaseOperator),
    ("SwitchIndex", AstError::SwitchIndex),
    ("SwitchDefaultCondition", AstError::SwitchDefaultCondition),
    ("SwitchDefaultShared", AstError::SwitchDefaultShared),
    ("SwitchKey", AstError::SwitchKey),
];

/// Faults of trees by their names.
static FAULTS: [(&str, TreeFault); 12] = [
    ("DuplicateMapKey", TreeFault::DuplicateMapKey),
    ("MapTemplate", TreeFault::MapTemplate),
    ("NoOperands", TreeFault::NoOperands),
    ("UnitConstant", TreeFault::UnitConstant),
    ("BreakOutsideLoop", TreeFault::BreakOutsideLoop),
    ("ReservedName", TreeFault::ReservedName),
    ("ChainShape", TreeFault::ChainShape),
    ("AssignTarget", TreeFault::AssignTarget),
    ("OperatorName", TreeFault::OperatorName),
    ("CatchName", TreeFault::CatchName),
    ("TreeOutOfMemory", TreeFault::OutOfMemory),
    ("SwitchTable", TreeFault::SwitchTable),
];

/// The number and the text of the refusals and faults of this name.
fn refusal(name: &str, said: &Said) {
    for (known, refusal) in &REFUSALS {
        if *known == name {
            say_refusal(refusal.number(), refusal, said);
        }
    }
    for (known, fault) in &FAULTS {
        if *known == name {
            say_refusal(fault.number(), fault, said);
        }
    }
    if name == "OutOfMemory" {
        said.display(&OutOfMemory::from(AllocError));
    }
}

fn say_refusal<T: Display>(number: u8, refusal: &T, said: &Said) {
    said.display(&number);
    said.word("");
    said.display(refusal);
}
