//! What can be asked of one node.

use crate::case::Case;
use rhai_ast::{
    ASTNode, CallQueries, Expr, ExprQueries, FnCallExpr, FromStmt, IntoExpr, Literals, NodeQueries,
    SetPosition, Stmt, StmtBlock, StmtQueries, SwitchCases, SwitchCasesCollection, Take, Walk,
};
use rhai_base::{Boxed, Dynamic, Position, Token};
use tests_reader::Said;

/// Asks all of a node.
pub fn ask(case: &Case, node: ASTNode) {
    case.want(node.is_stmt() != node.is_expr(), "what a node is");
    match node {
        ASTNode::Stmt(statement) => ask_stmt(case, statement),
        ASTNode::Expr(expr) => ask_expr(case, expr),
    }
}

// ---- statements

fn ask_stmt(case: &Case, statement: &Stmt) {
    case.want(
        !statement.is_noop() || statement.is_pure(),
        "nothing is pure",
    );
    let is_inside = statement.is_internally_pure();
    case.want(
        !statement.is_pure() || is_inside,
        "what is pure is so inside",
    );
    case.want(
        statement.position() == ASTNode::from(statement).position(),
        "where a statement stands",
    );
    let leaves = statement.is_control_flow_break();
    case.want(!leaves || !statement.returns_value(), "what leaves");
    case.want(
        !statement.is_self_terminated() || !statement.is_block_dependent(),
        "what is closed belongs to no block",
    );
    case.want(statement.options() == statement.options(), "flags");
    ask_walk(case, statement);
    ask_copy_of_stmt(case, statement);
    if let Stmt::FnCall(call, _) = statement {
        ask_call(case, call.get());
    }
}

fn ask_walk(case: &Case, statement: &Stmt) {
    let mut path = Vec::new(case.alloc);
    let mut show = |_: &[ASTNode]| true;
    let finished = statement.walk(&mut path, &mut show);
    case.want(finished == Ok(true), "a walk from a statement");
}

fn ask_copy_of_stmt(case: &Case, statement: &Stmt) {
    let said = Said::new(case.alloc, false);
    if let Some(mut copy) = said.boxed(said.made(statement.clone())) {
        copy.get_mut().set_position(Position::new(1, 99));
        ask_table(case, copy.get());
        ask_taken(case, copy.get_mut());
    }
    case.want(said.is_whole(), "a copy of a statement");
}

/// A statement that is taken, and made into a block.
fn ask_taken(case: &Case, copy: &mut Stmt) {
    let taken = StmtBlock::from_stmt(case.alloc, copy.take());
    case.want(taken.is_ok(), "a block of a statement");
    case.want(copy.is_noop(), "what is left of a statement");
}

/// The table of a `switch`, made anew of its parts: refused where it is none.
fn ask_table(case: &Case, statement: &Stmt) {
    if let Stmt::Switch(switch, _) = statement {
        let said = Said::new(case.alloc, false);
        if let Some(copy) = said.made(switch.get().cases.clone()) {
            let is_refused = make_table(copy);
            case.want(!is_refused || !case.is_sound(), "a table that is made anew");
        }
        case.want(said.is_whole(), "a copy of a table");
    }
}

/// Whether a table of these parts is refused.
fn make_table(parts: SwitchCasesCollection) -> bool {
    let SwitchCasesCollection {
        expressions,
        cases,
        ranges,
        def_case,
    } = parts;
    let (expressions, ranges) = (expressions.into_vec(), ranges.into_vec());
    SwitchCasesCollection::new(expressions, cases.into_map(), ranges, def_case).is_err()
}

// ---- expressions

fn ask_expr(case: &Case, expr: &Expr) {
    case.want(!expr.is_constant() || expr.is_pure(), "a constant is pure");
    case.want(!expr.is_unit() || expr.is_constant(), "unit is constant");
    case.want(
        expr.position() == ASTNode::from(expr).position(),
        "where an expression stands",
    );
    case.want(
        expr.start_position() == expr.start_position(),
        "where an expression starts",
    );
    case.want(expr.options() == expr.options(), "flags");
    case.want(
        !expr.is_valid_postfix(&Token::Plus),
        "what may follow an expression",
    );
    ask_walk_below(case, expr);
    ask_literal(case, expr);
    ask_copy_of_expr(case, expr);
    match expr {
        Expr::FnCall(call, _) => ask_call(case, call.get()),
        Expr::MethodCall(call, _) => ask_call(case, call.get()),
        _ => {}
    }
}

fn ask_walk_below(case: &Case, expr: &Expr) {
    let mut path = Vec::new(case.alloc);
    let mut show = |_: &[ASTNode]| true;
    let finished = expr.walk(&mut path, &mut show);
    case.want(finished == Ok(true), "a walk from an expression");
}

/// A constant of a sound tree has a value, and that of the constant for it is the same.
fn ask_literal(case: &Case, expr: &Expr) {
    let said = Said::new(case.alloc, false);
    let value = said.found(expr.get_literal_value(case.alloc));
    let is_valued = value.is_some();
    let is_constant = said.found(expr.constant_value(case.alloc)).is_some();
    case.want(said.is_whole(), "a literal's value");
    case.want(is_constant == expr.is_constant(), "a constant's value");
    case.want(
        is_valued || !expr.is_constant() || !case.is_sound(),
        "a literal of a constant",
    );
    if let Some(value) = value {
        ask_constant(case, value, &said);
    }
}

fn ask_constant(case: &Case, value: Dynamic, said: &Said) {
    if let Some(copy) = said.made(value.clone()) {
        let made = Expr::from_dynamic(case.alloc, copy, Position::NONE);
        let constant = said.boxed(said.made(made));
        case.want(
            has_value(constant, &value, said),
            "the constant for a value",
        );
    }
}

fn has_value(constant: Option<Boxed<Expr>>, value: &Dynamic, said: &Said) -> bool {
    match constant {
        Some(constant) => match said.found(constant.get().get_literal_value(said.alloc)) {
            Some(again) => again == *value,
            None => false,
        },
        None => false,
    }
}

fn ask_copy_of_expr(case: &Case, expr: &Expr) {
    let said = Said::new(case.alloc, false);
    if let Some(mut copy) = said.boxed(said.made(expr.clone())) {
        copy.get_mut().set_position(Position::new(1, 99));
        let taken = said.boxed(Some(copy.get_mut().take()));
        case.want(taken.is_some(), "an expression that is taken");
        case.want(copy.get().is_unit(), "what is left of an expression");
    }
    case.want(said.is_whole(), "a copy of an expression");
}

fn ask_call(case: &Case, call: &FnCallExpr) {
    let is_operator = call.is_operator_call();
    case.want(
        !is_operator || call.op_token.is_some() || !case.is_sound(),
        "an operator",
    );
    case.want(
        call.is_qualified() != call.namespace.is_empty(),
        "a namespace",
    );
    let mut is_constant = true;
    for operand in call.args.as_slice() {
        is_constant = is_constant && operand.is_constant();
    }
    case.want(call.constant_args() == is_constant, "constant arguments");
    ask_copy_of_call(case, call);
}

fn ask_copy_of_call(case: &Case, call: &FnCallExpr) {
    let said = Said::new(case.alloc, false);
    if let Some(copy) = said.made(call.clone()) {
        let made = said.boxed(said.made(copy.into_fn_call_expr(case.alloc, Position::NONE)));
        case.want(made.is_some(), "a call as an expression");
    }
    case.want(said.is_whole(), "a copy of a call");
}
