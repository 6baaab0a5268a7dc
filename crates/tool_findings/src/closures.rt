//! Closures that take names from around them.

use crate::functions::is_closure;
use rhai_ast::{Expr, FnCallExpr};
use rhai_base::Dynamic;

/// The function of a closure, and the names that it takes, in the call that hands it these.
pub(crate) fn taken_by<'a>(call: &'a FnCallExpr) -> Option<(&'a str, &'a [Expr])> {
    if call.name.as_str() != "curry" {
        return None;
    }
    let (pointer, names) = call.args.as_slice().split_first()?;
    if are_names(names) {
        Some((closure_of(pointer)?, names))
    } else {
        None
    }
}

/// The function that a closure's pointer points to.
fn closure_of(pointer: &Expr) -> Option<&str> {
    let Expr::DynamicConstant(value, _) = pointer else {
        return None;
    };
    match value.get() {
        Dynamic::FnPtr(pointer) if is_closure(pointer.fn_name()) => Some(pointer.fn_name()),
        _ => None,
    }
}

fn are_names(exprs: &[Expr]) -> bool {
    for expr in exprs {
        match expr {
            Expr::Variable(parts, _, _) if parts.get().2.is_empty() => {}
            _ => return false,
        }
    }
    true
}
