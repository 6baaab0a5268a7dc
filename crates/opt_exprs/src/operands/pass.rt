//! One pass over operands: which of them go, in the list's own memory.

#![tactic(auto, using(ast_types::specs::Reading::shapes))]

ghost use Rattle.std.specs.Prelude.{◌≡◌, ◌<◌, ◌≤◌, ◌+◌, ◌-◌, true, false, length, slice_index_or};
ghost use Rattle.ast_types.specs.Reading.{expr_of, exprs_of};
ghost use Rattle.ast_types.specs.declared.expr.Expr.{Expr};
ghost use Rattle.opt_exprs.specs.Operands as spec;
ghost use Rattle.opt_exprs.specs.Operands.{Ends, GoBefore, NodeChange, OperandsPass};

use crate::operands::operation::{Operation, decides, goes_before, goes_on};
use rhai_ast::Expr;
use rhai_base::Seq;

/// Does the operand at a place go, as a constant after which the operator goes on? One operand stays: those that are
/// kept, or that follow.
fn goes(operation: Operation, operands: &[Expr], at: usize, kept: usize) -> bool
    requires { at < length operands.now }
    ensures goes_on { result ≡ true → (d : Expr)
        → spec.goes_on operation (expr_of (slice_index_or operands.now at d)) ≡ true }
    ensures others { result ≡ true → at + 1 < kept + length operands.now }
    ensures stays { result ≡ false → at + 1 < kept + length operands.now → (d : Expr)
        → spec.goes_on operation (expr_of (slice_index_or operands.now at d)) ≡ false }
{
    goes_on(operation, &operands[at]) && (kept > 0 || at + 1 < operands.len())
}

/// The place from which all up to another go before a constant that decides.
fn pure_from(operation: Operation, operands: &[Expr], kept: usize) -> usize
    requires { kept ≤ length operands.now }
    ensures below { result ≤ kept }
    ensures go { GoBefore operation operands.now result kept }
    ensures stays { 0 < result → (d : Expr)
        → spec.goes_before operation (expr_of (slice_index_or operands.now (result - 1) d)) ≡ false }
{
    let mut from = kept;
    while from > 0 && goes_before(operation, &operands[from - 1]) {
        from -= 1;
    }
    from
}

/// Ends operands at a constant that decides: those behind it go, and those directly before it that are pure. Those
/// before it are kept up to a place.
fn end_at(operation: Operation, operands: &mut Seq<Expr>, at: usize, kept: usize)
    requires below { kept ≤ at }
    requires inside { at < length operands.old }
    requires decides { (d : Expr) → spec.decides operation (expr_of (slice_index_or operands.old at d)) ≡ true }
    ensures { Ends operation at kept operands.old operands.new }
{
    let from = pure_from(operation, operands.as_slice(), kept);
    operands.move_down(at, from);
    operands.truncate(from + 1);
}

/// One pass over operands. Where none goes, nothing is moved.
fn pass(operation: Operation, operands: &mut Seq<Expr>)
    ensures { OperandsPass operation operands.old operands.new }
{
    let mut kept = 0;
    for at in 0..operands.len() {
        if decides(operation, &operands.as_slice()[at]) {
            end_at(operation, operands, at, kept);
            return;
        }
        if !goes(operation, operands.as_slice(), at, kept) {
            operands.move_down(at, kept);
            kept += 1;
        }
    }
    operands.truncate(kept);
}

/// Of operands constants after which the operator goes on go, those after a constant that decides, and what is pure
/// directly before that one, which `??` keeps. One stays. These are `and_changes`, `or_changes` and `coalesce_changes`;
/// the answer is whether any went.
pub(crate) fn operands_change(operation: Operation, operands: &mut Seq<Expr>) -> bool
    ensures { NodeChange result (spec.node_of operation (exprs_of operands.old))
        (spec.node_of operation (exprs_of operands.new)) }
{
    let len = operands.len();
    pass(operation, operands);
    operands.len() != len
}
