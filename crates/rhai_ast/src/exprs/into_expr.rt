//! Calls as expressions.

#![tactic(auto)]

ghost use Rattle.std.specs.Prelude.{◌≡◌, IfOk};
ghost use Rattle.ast_types.specs.declared.expr.Expr.TheVariants.{FnCall};

use ast_nodes::call_expression;
use ast_types::{Expr, FnCallExpr};
use rhai_base::{OutOfMemory, Position};
use std::alloc::Global;

/// Calls as expressions.
pub trait IntoExpr {
    /// The call as an expression there. Refused for want of memory alone; the call is gone then.
    fn into_fn_call_expr(self, alloc: Global, pos: Position) -> Result<Expr, OutOfMemory>;
}

impl IntoExpr for FnCallExpr {
    fn into_fn_call_expr(self, alloc: Global, pos: Position) -> Result<Expr, OutOfMemory>
        ensures { IfOk result (λ e. e ≡ FnCall self pos) }
    {
        call_expression(alloc, self, pos)
    }
}
