//! Calls as expressions.

#![tactic(auto, using(ast_types::specs::Reading::shapes))]

ghost use Rattle.std.specs.Prelude.{◌≡◌, IfOk};
ghost use Rattle.ast_types.specs.declared.expr.Expr.TheVariants.{FnCall};

use ast_types::{Expr, FnCallExpr};
use rhai_base::{Boxed, OutOfMemory, Position};
use std::alloc::Global;

/// The call as an expression there.
pub fn call_expression(alloc: Global, call: FnCallExpr, pos: Position) -> Result<Expr, OutOfMemory>
    ensures { IfOk result (λ e. e ≡ FnCall call pos) }
{
    Ok(Expr::FnCall(Boxed::new(alloc, call)?, pos))
}
