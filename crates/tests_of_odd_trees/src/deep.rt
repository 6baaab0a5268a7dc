//! Nests of one kind of node, and what is asked of them.

use crate::asked::{ask_tests, read};
use crate::case::{Case, Tally, Wanted};
use crate::runs;
use rhai_ast::{
    ASTNode, BinaryExpr, Expr, FlowControl, FnCallExpr, Stmt, StmtBlock, walk_statements,
};
use rhai_base::{ASTFlags, Boxed, ImmutableString, Namespace, Position, Seq, Span};
use tests_reader::{Said, Script};

/// How deep nests are.
const DEPTHS: [usize; 3] = [1, 100, 1000];

/// How deep those without blocks are that are tested and walked over alone.
const DEEPEST: usize = 10_000;

/// What stands in what.
#[derive(Clone, Copy, PartialEq)]
pub enum Nest {
    Choices,
    Blocks,
    Loops,
    Attempts,
    Arrays,
    Braces,
    Calls,
    Operands,
    /// Chains as bases of chains.
    Bases,
    /// Steps of one chain.
    Steps,
}

/// All of them with their names.
const NESTS: [(Nest, &str); 10] = [
    (Nest::Choices, "choices"),
    (Nest::Blocks, "blocks"),
    (Nest::Loops, "loops"),
    (Nest::Attempts, "attempts"),
    (Nest::Arrays, "arrays"),
    (Nest::Braces, "braces"),
    (Nest::Calls, "calls"),
    (Nest::Operands, "operands"),
    (Nest::Bases, "bases"),
    (Nest::Steps, "steps"),
];

/// Asks of nests of each kind.
pub fn ask(tally: &Tally) {
    for (nest, name) in NESTS {
        for depth in DEPTHS {
            ask_nest(nest, name, depth, "all", tally);
        }
        if is_of_expressions(nest) {
            ask_nest(nest, name, DEEPEST, "tests", tally);
        }
    }
    tally.say("nests");
}

/// Asks this of the nest of a name that is so deep.
pub fn ask_one(what: &str, word: &str, depth: &str, tally: &Tally) {
    let depth = depth.parse::<usize>().unwrap_or(0);
    for (nest, name) in NESTS {
        if name == word {
            ask_nest(nest, name, depth, what, tally);
        }
    }
    tally.say(word);
}

/// Asks of a nest that is so deep: `tests`, `copy` or `run` alone, `all` of them, or nothing.
fn ask_nest(nest: Nest, name: &str, depth: usize, what: &str, tally: &Tally) {
    let case = Case::of_nest(name, nest, depth, tally);
    let is_asked = |it: &str| what == it || what == "all";
    tally.tree();
    let said = Said::new(case.alloc, false);
    if let Some(script) = read(&case, &said) {
        let statements = script.statements.as_slice();
        if is_asked("tests") {
            ask_tests(&case, statements, &[]);
            ask_walk(&case, statements, depth);
        }
        if is_asked("copy") {
            ask_copy(&case, statements, &said);
        }
    }
    case.want(said.is_whole(), "a nest");
    if is_asked("run") {
        runs::ask(&case);
    }
}

/// Whether no block stands in it.
fn is_of_expressions(nest: Nest) -> bool {
    match nest {
        Nest::Arrays | Nest::Calls | Nest::Operands | Nest::Bases | Nest::Steps => true,
        Nest::Choices | Nest::Blocks | Nest::Loops | Nest::Attempts | Nest::Braces => false,
    }
}

/// A walk shows no fewer nodes than the nest is deep.
fn ask_walk(case: &Case, statements: &[Stmt], depth: usize) {
    let mut path = Vec::new(case.alloc);
    let mut nodes = 0usize;
    let mut show = |_: &[ASTNode]| {
        nodes = nodes.saturating_add(1);
        true
    };
    let finished = walk_statements(statements, &mut path, &mut show);
    case.want(finished == Ok(true) && nodes > depth, "a walk over a nest");
}

fn ask_copy(case: &Case, statements: &[Stmt], said: &Said) {
    for statement in statements {
        let copy = said.boxed(said.made(statement.clone()));
        case.want(copy.is_some(), "a copy of a nest");
    }
}

/// The statement of a nest.
pub fn script(nest: Nest, depth: usize, said: &Said) -> Option<Script> {
    let statement = match nest {
        Nest::Choices | Nest::Blocks | Nest::Loops | Nest::Attempts => {
            of_statements(nest, depth, said)
        }
        _ => of_expressions(nest, depth, said),
    };
    Some(Script {
        statements: said.list_of(statement),
        functions: Vec::new(said.alloc),
    })
}

// ---- statements

fn of_statements(nest: Nest, depth: usize, said: &Said) -> Option<Stmt> {
    let mut inner = expression_statement(Expr::IntegerConstant(42, Position::NONE), said);
    for _ in 0..depth {
        inner = around_statement(nest, said.list_of(inner), said);
    }
    inner
}

fn expression_statement(expr: Expr, said: &Said) -> Option<Stmt> {
    Some(Stmt::Expr(said.boxed(Some(expr))?))
}

fn around_statement(nest: Nest, inner: Vec<Stmt>, said: &Said) -> Option<Stmt> {
    let body = StmtBlock::new_with_span(inner, Span::NONE);
    match nest {
        Nest::Choices => Some(Stmt::If(flow(true, body, said)?, Position::NONE)),
        Nest::Loops => Some(Stmt::While(flow(false, body, said)?, Position::NONE)),
        Nest::Attempts => Some(Stmt::TryCatch(attempt(body, said)?, Position::NONE)),
        _ => Some(Stmt::Block(said.boxed(Some(body))?)),
    }
}

fn flow(condition: bool, body: StmtBlock, said: &Said) -> Option<Boxed<FlowControl>> {
    said.boxed(Some(FlowControl {
        expr: Expr::BoolConstant(condition, Position::NONE),
        body,
        branch: StmtBlock::none(said.alloc),
    }))
}

fn attempt(body: StmtBlock, said: &Said) -> Option<Boxed<FlowControl>> {
    said.boxed(Some(FlowControl {
        expr: Expr::Unit(Position::NONE),
        body,
        branch: StmtBlock::none(said.alloc),
    }))
}

// ---- expressions

fn of_expressions(nest: Nest, depth: usize, said: &Said) -> Option<Stmt> {
    let mut inner = innermost(nest, said);
    for _ in 0..depth {
        inner = around_expression(nest, inner, said);
    }
    if nest == Nest::Steps {
        inner = step(Some(Expr::Unit(Position::NONE)), inner, said);
    }
    expression_statement(inner?, said)
}

fn innermost(nest: Nest, said: &Said) -> Option<Expr> {
    match nest {
        Nest::Steps => property(said),
        _ => Some(Expr::IntegerConstant(42, Position::NONE)),
    }
}

fn around_expression(nest: Nest, inner: Option<Expr>, said: &Said) -> Option<Expr> {
    match nest {
        Nest::Arrays => Some(Expr::Array(listed(inner, said)?, Position::NONE)),
        Nest::Operands => Some(Expr::Coalesce(listed(inner, said)?, Position::NONE)),
        Nest::Calls => call(inner, said),
        Nest::Bases => based(inner, said),
        Nest::Steps => step(property(said), inner, said),
        _ => braces(inner, said),
    }
}

fn listed(inner: Option<Expr>, said: &Said) -> Option<Boxed<Seq<Expr>>> {
    said.boxed(Some(Seq::from_vec(said.list_of(inner))))
}

fn braces(inner: Option<Expr>, said: &Said) -> Option<Expr> {
    let inner = expression_statement(inner?, said);
    let block = StmtBlock::new_with_span(said.list_of(inner), Span::NONE);
    Some(Expr::Stmt(said.boxed(Some(block))?))
}

fn call(inner: Option<Expr>, said: &Said) -> Option<Expr> {
    let name = said.shared("g")?;
    let call = said.boxed(Some(FnCallExpr {
        namespace: Namespace::none(said.alloc),
        name,
        args: Seq::from_vec(said.list_of(inner)),
        capture_parent_scope: false,
        op_token: None,
    }));
    Some(Expr::FnCall(call?, Position::NONE))
}

/// A chain of one step over this.
fn based(inner: Option<Expr>, said: &Said) -> Option<Expr> {
    let sides = said.boxed(Some(BinaryExpr {
        lhs: inner?,
        rhs: Expr::IntegerConstant(1, Position::NONE),
    }));
    Some(Expr::Index(sides?, ASTFlags::BREAK, Position::NONE))
}

/// A step, and what goes on from it.
fn step(first: Option<Expr>, rest: Option<Expr>, said: &Said) -> Option<Expr> {
    let sides = BinaryExpr {
        lhs: first?,
        rhs: rest?,
    };
    let sides = said.boxed(Some(sides))?;
    Some(Expr::Dot(sides, ASTFlags::NONE, Position::NONE))
}

fn property(said: &Said) -> Option<Expr> {
    let names = said.boxed(names(said));
    Some(Expr::Property(names?, Position::NONE))
}

fn names(said: &Said) -> Option<(ImmutableString, ImmutableString, ImmutableString)> {
    Some((
        said.shared("get$p")?,
        said.shared("set$p")?,
        said.shared("p")?,
    ))
}
