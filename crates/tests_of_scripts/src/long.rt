//! Deep scripts and long ones, which are made here.

use crate::again;
use crate::given::Given;
use crate::scripts::{level_named, made, printed, push_run, say_runs};
use rhai_ast::{Expr, FlowControl, Stmt, StmtBlock};
use rhai_base::{Boxed, Position, Span};
use rhai_optimizer::{OptimizationLevel, optimize_into_ast};
use rhai_run::EngineInfo;
use rhai_script::AST;
use tests_reader::{Said, Script, split};

/// A number before a text.
pub fn numbered_text<'a>(text: &'a str, said: &Said) -> (usize, &'a str) {
    let (count, text) = split(text.trim_end(), " ");
    match count.parse::<usize>() {
        Ok(count) => (count, text),
        Err(_) => {
            said.want("a number");
            (0, text)
        }
    }
}

fn optimized(statements: Vec<Stmt>, level: OptimizationLevel, said: &Said) -> Option<Boxed<AST>> {
    let info = EngineInfo::new(said.alloc);
    let functions = Vec::new(said.alloc);
    let script = optimize_into_ast(said.alloc, &info, None, statements, functions, level);
    let script = said.boxed(said.made(script))?;
    again::say_if_other(&info, None, script.get(), level, said);
    Some(script)
}

/// The optimised script in print.
fn printed_optimized(statements: Vec<Stmt>, said: &Said) -> String {
    match optimized(statements, OptimizationLevel::Simple, said) {
        Some(script) => printed(script.get(), said),
        None => String::new(said.alloc),
    }
}

// ---- depth

/// What becomes of a statement within so many `if true { .. }`.
pub fn deep(text: &str, said: &Said) {
    let (depth, text) = numbered_text(text, said);
    said.put(printed_optimized(nested(text, depth, said), said).as_str());
}

fn nested(text: &str, depth: usize, said: &Said) -> Vec<Stmt> {
    let mut inner = said.list_of(said.original_stmt(text));
    for _ in 0..depth {
        inner = said.list_of(certain(inner, said));
    }
    inner
}

/// `if true { .. }` around statements.
fn certain(inner: Vec<Stmt>, said: &Said) -> Option<Stmt> {
    let flow = FlowControl {
        expr: Expr::BoolConstant(true, Position::NONE),
        body: StmtBlock::new_with_span(inner, Span::NONE),
        branch: StmtBlock::none(said.alloc),
    };
    Some(Stmt::If(said.boxed(Some(flow))?, Position::NONE))
}

// ---- length

/// What becomes of so many statements of one text.
pub fn long(text: &str, said: &Said) {
    let (count, text) = numbered_text(text, said);
    say_alike(
        printed_optimized(numbered(text, count, said), said).as_str(),
        said,
    );
}

/// So many statements of one text, in which the number of each, from 0 on, stands for `_`.
fn numbered(text: &str, count: usize, said: &Said) -> Vec<Stmt> {
    let mut statements = Vec::new(said.alloc);
    for number in 0..count {
        said.push(&mut statements, read_numbered(text, number, said));
    }
    statements
}

fn read_numbered(text: &str, number: usize, said: &Said) -> Option<Stmt> {
    let number = said.made(format!(in said.alloc; "{number}"))?;
    let text = said.made(text.replace(said.alloc, "_", number.as_str()))?;
    said.original_stmt(text.as_str())
}

/// What becomes of lines, before each of which stands how many times it is there, and the report of the run.
pub fn repeated(given: &Given, text: &str, said: &Said) {
    if let Some(source) = repeated_at(given, text, OptimizationLevel::None, said)
        && let Some(script) = repeated_at(given, text, OptimizationLevel::Simple, said)
    {
        said.put(printed(script.get(), said).as_str());
        say_runs(given, source.get(), script.get(), said);
    }
}

fn repeated_at(
    given: &Given,
    text: &str,
    level: OptimizationLevel,
    said: &Said,
) -> Option<Boxed<AST>> {
    let mut statements = Vec::new(said.alloc);
    for line in text.lines() {
        let (count, text) = numbered_text(line, said);
        let mut alike = numbered(text, count, said);
        said.made(statements.append(&mut alike));
    }
    let functions = Vec::new(said.alloc);
    let script = Script {
        statements,
        functions,
    };
    made(given, script, level, said)
}

/// The first line, how many are like it, and how many there are.
fn say_alike(text: &str, said: &Said) {
    let first = text.lines().next().unwrap_or("");
    let mut alike: usize = 0;
    let mut lines: usize = 0;
    for line in text.lines() {
        alike = alike.saturating_add((line == first) as usize);
        lines = lines.saturating_add(1);
    }
    said.put(first);
    said.count("in", alike);
    said.count("lines of", lines);
}

// ---- calls

/// How many calls `!(0)`, `!(1)`, .. a run reports of a script that makes so many of them, at a level.
pub fn asked(given: &Given, text: &str, said: &Said) {
    let (level, text) = split(text, " ");
    let Some(level) = level_named(level) else {
        return said.want("a level");
    };
    let (count, text) = numbered_text(text, said);
    if let Some(script) = optimized(numbered(text, count, said), level, said) {
        say_calls(given, script.get(), said);
    }
}

fn say_calls(given: &Given, script: &AST, said: &Said) {
    let mut report = String::new(said.alloc);
    said.made(push_run(given, script, &mut report, said));
    match in_order(report.as_str()) {
        Some(calls) => {
            said.display(&calls);
            said.put(" calls in order");
        }
        None => said.put(report.as_str()),
    }
}

/// The number of calls that a report tells of, if they are `!(0)`, `!(1)`, ..
fn in_order(report: &str) -> Option<usize> {
    let calls = report.strip_prefix("end: value ()\nturns left: 0\n")?;
    let mut count: usize = 0;
    for call in calls.lines() {
        let value = call.strip_prefix("call !(")?.strip_suffix(")")?;
        if value.parse::<usize>() != Ok(count) {
            return None;
        }
        count = count.saturating_add(1);
    }
    Some(count)
}
