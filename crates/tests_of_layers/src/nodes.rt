//! What nodes answer, where they stand, their values and their parts.

use crate::switches::{self, say_call, say_parts};
use crate::trees::{self, say_fault};
use crate::walks;
use bitflags::Flags;
use rhai_ast::{
    BinaryExpr, Expr, ExprQueries, FnCallExpr, IntoExpr, Literals, SetPosition, Stmt, StmtQueries,
    Take,
};
use rhai_base::{Position, Seq, StringMap, Token};
use tests_reader::Said;

const OF_EXPRS: [&str; 6] = [
    "expr",
    "expr-place",
    "take-expr",
    "literal",
    "call",
    "spoiled",
];

const OF_STMTS: [&str; 11] = [
    "stmt",
    "no-names",
    "stmt-place",
    "take-stmt",
    "parts",
    "nodes",
    "walk",
    "walk-below",
    "table",
    "cases",
    "block-of",
];

pub fn answer(question: &str, text: &str, said: &Said) -> bool {
    if OF_EXPRS.contains(&question) {
        of_read_expr(question, text, said);
    } else if OF_STMTS.contains(&question) {
        of_read_stmt(question, text, said);
    } else if question == "defaults" {
        defaults(said);
    } else {
        return false;
    }
    true
}

fn of_read_expr(question: &str, text: &str, said: &Said) {
    if let Some(mut expr) = said.expr(text) {
        of_expr(question, expr.get_mut(), said);
    }
}

fn of_expr(question: &str, expr: &mut Expr, said: &Said) {
    match question {
        "expr" => {
            say_expr(expr, said);
            say_followers(expr, ". ?. [ ?[", false, said);
            say_followers(expr, "( () ! :: = +", true, said);
        }
        "expr-place" => expr_place(expr, said),
        "take-expr" => take_expr(expr, said),
        "literal" => say_literal(expr, said),
        "call" => call(expr, said),
        _ => spoiled(expr, said),
    }
}

fn of_read_stmt(question: &str, text: &str, said: &Said) {
    if let Some(mut statement) = said.stmt(text) {
        of_stmt(question, statement.get_mut(), said);
    }
}

fn of_stmt(question: &str, statement: &mut Stmt, said: &Said) {
    match question {
        "stmt" => say_stmt(statement, said),
        "stmt-place" => stmt_place(statement, said),
        "no-names" => no_names(statement, said),
        "take-stmt" => take_stmt(statement, said),
        "nodes" => walks::say_nodes(statement, said),
        "parts" => say_parts(statement, said),
        "block-of" => trees::block_of(statement, said),
        "table" | "cases" => switches::answer(question, statement, said),
        _ => walks::say_walk_of(question, statement, said),
    }
}

pub fn say_expr(expr: &Expr, said: &Said) {
    said.word_if(expr.is_constant(), "constant");
    said.word_if(expr.is_pure(), "pure");
    said.word_if(expr.is_unit(), "unit");
    said.count("flags", usize::from(expr.options().bits()));
}

/// Says which of these tokens may follow, or may not.
fn say_followers(expr: &Expr, tokens: &str, may: bool, said: &Said) {
    for text in tokens.split(' ') {
        if let Some(token) = Token::lookup_symbol_from_syntax(text) {
            said.word_if(expr.is_valid_postfix(&token) == may, text);
        }
    }
}

pub fn say_stmt(statement: &Stmt, said: &Said) {
    said.word_if(statement.is_noop(), "nothing");
    said.word_if(statement.is_pure(), "pure");
    said.word_if(statement.is_internally_pure(), "inside");
    said.word_if(statement.is_block_dependent(), "dependent");
    said.word_if(statement.is_control_flow_break(), "leaves");
    said.word_if(statement.returns_value(), "value");
    said.word_if(statement.is_self_terminated(), "closed");
    said.count("flags", usize::from(statement.options().bits()));
}

fn expr_place(expr: &mut Expr, said: &Said) {
    said.place("at", expr.position());
    said.place("from", expr.start_position());
    let moved = expr.set_position(Position::new(1, 99));
    said.place("then", moved.position());
}

fn stmt_place(statement: &mut Stmt, said: &Said) {
    said.place("at", statement.position());
    let moved = statement.set_position(Position::new(1, 99));
    said.place("then", moved.position());
}

fn take_expr(expr: &mut Expr, said: &Said) {
    if let Some(taken) = said.boxed(Some(expr.take())) {
        said.word_if(taken.get().is_constant(), "constant");
        said.word_if(taken.get().is_unit(), "unit");
    }
    said.word_if(expr.is_unit(), "leaves unit");
    said.place("at", expr.position());
}

/// Takes the names away that closures share.
fn no_names(statement: &mut Stmt, said: &Said) {
    if let Stmt::Share(names) = statement {
        *names.get_mut() = Seq::new(said.alloc);
    }
    said.place("at", statement.position());
}

fn take_stmt(statement: &mut Stmt, said: &Said) {
    if let Some(taken) = said.boxed(Some(statement.take())) {
        said.word_if(taken.get().is_block_dependent(), "dependent");
    }
    said.word_if(statement.is_noop(), "leaves noop");
    said.place("at", statement.position());
}

/// Nodes that are left out.
fn defaults(said: &Said) {
    if let Some(expr) = said.boxed(Some(Expr::default())) {
        said.word_if(expr.get().is_unit(), "unit");
    }
    if let Some(statement) = said.boxed(Some(Stmt::default())) {
        said.word_if(statement.get().is_noop(), "noop");
    }
    if let Some(sides) = said.boxed(Some(BinaryExpr::default())) {
        said.word_if(are_units(sides.get()), "both units");
    }
}

fn are_units(sides: &BinaryExpr) -> bool {
    sides.lhs.is_unit() && sides.rhs.is_unit()
}

pub fn say_literal(expr: &Expr, said: &Said) {
    let is_constant = expr.is_constant();
    said.word_if(is_constant, "constant");
    said.word_if(
        has_value(expr, said) != is_constant,
        "otherwise by its value",
    );
    match said.found(expr.get_literal_value(said.alloc)) {
        Some(value) => said.value(&value),
        None => said.word("no literal"),
    }
}

fn has_value(expr: &Expr, said: &Said) -> bool {
    said.found(expr.constant_value(said.alloc)).is_some()
}

/// A call, and the expression of the same parts that is wanted elsewhere.
fn call(expr: &Expr, said: &Said) {
    let Expr::FnCall(call, _) = expr else {
        return said.want("a call");
    };
    say_call(call.get(), said);
    if let Some(copy) = said.made(call.get().clone()) {
        say_moved_call(copy, said);
    }
}

fn say_moved_call(call: FnCallExpr, said: &Said) {
    let moved = said.made(call.into_fn_call_expr(said.alloc, Position::new(2, 5)));
    if let Some(moved) = said.boxed(moved)
        && let Expr::FnCall(call, pos) = moved.get()
    {
        said.place("at", *pos);
        say_call(call.get(), said);
    }
}

/// The fault of an expression in which something is wrong that no text shows.
fn spoiled(expr: &mut Expr, said: &Said) {
    spoil(expr, said);
    let statement = said.boxed(Some(expr.take())).map(Stmt::Expr);
    say_fault(said.list_of(statement).as_slice(), &[], said);
}

/// Takes the keys of a map's template away, all operands but one, or gives a method the token of an operator.
fn spoil(expr: &mut Expr, said: &Said) {
    match expr {
        Expr::Map(map, _) => map.get_mut().1 = StringMap::new(said.alloc),
        Expr::FnCall(call, pos) => {
            let unit = said.list_of(Some(Expr::Unit(*pos)));
            call.get_mut().args = Seq::from_vec(unit);
        }
        Expr::MethodCall(call, _) => call.get_mut().op_token = Some(Token::Plus),
        _ => {}
    }
}
