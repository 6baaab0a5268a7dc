//! Statements that never run.

use rhai_ast::{Expr, FlowControl, Stmt};

/// The first statement of a block that the literal condition of an `if` keeps from running.
pub(crate) fn never_chosen(flow: &FlowControl) -> Option<&Stmt> {
    match flow.expr {
        Expr::BoolConstant(true, _) => flow.branch.statements().first(),
        Expr::BoolConstant(false, _) => flow.body.statements().first(),
        _ => None,
    }
}

/// The first statement of a loop that its literal condition keeps from running.
pub(crate) fn never_entered(flow: &FlowControl) -> Option<&Stmt> {
    match flow.expr {
        Expr::BoolConstant(false, _) => flow.body.statements().first(),
        _ => None,
    }
}

/// Whether a condition ends no loop: it is `true`, or, of a `loop`, there is none.
pub(crate) fn is_endless(condition: &Expr) -> bool {
    matches!(condition, Expr::BoolConstant(true, _) | Expr::Unit(_))
}
