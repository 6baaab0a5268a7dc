//! The rule at an assignment.

#![tactic(auto, using(ast_types::specs::Reading::shapes))]

ghost use Rattle.std.specs.Prelude.{◌≡◌, true, false, not, Bool, [], Some, MatchOption};
ghost use Rattle.base_engine.specs.EngineInfo.{engine_of};
ghost use Rattle.opt_base.specs.State.{progress};
ghost use Rattle.theory_meaning.specs.Tree.{Variable};
ghost use Rattle.ast_types.specs.Reading.{expr_of, exprs_of, mark_of, stmt_of};
ghost use Rattle.opt_stmts.specs.Assigning.{Takes, assignment_of, call_of};
ghost use Rattle.opt_stmts.specs.Firing.{FiresIf, answer};
ghost use Rattle.opt_stmts.specs.SettledAssignments as settled;
ghost use Rattle.opt_base.specs.NodeSteps.{StmtStep};

use crate::assign::leaves_names::leaves_names;
use ast_nodes::put_expr;
use base_engine::EngineInfo;
use opt_base::{NodeStep, OptimizerState, note_fired};
use rhai_ast::{BinaryExpr, Expr, FnCallExpr, Stmt, Take};
use rhai_base::{OpAssignment, Position, Token};

/// Whether an expression is this name alone.
fn is_name(name: &str, expr: &Expr) -> bool
    ensures { result ≡ settled.is_name name.now (expr_of expr.now) }
{
    match expr {
        Expr::Variable(parts, _, _) => {
            let (_, own, namespace) = parts.get();
            namespace.is_empty() && name == own.as_str()
        }
        _ => false,
    }
}

/// The `op=` of an operator, if it has one that the host does not override.
fn own_assignment(info: &EngineInfo, op: Token, pos: Position) -> Option<OpAssignment>
    ensures { MatchOption result (settled.may_assign (engine_of info.now) (mark_of (Some op)) ≡ false) (λ a.
        (a.op ≡ op) × (settled.may_assign (engine_of info.now) (mark_of (Some op)) ≡ true)) }
{
    let form = op.convert_to_op_assignment()?;
    if info.has_any_override(form.literal_syntax()) {
        return None;
    }
    Some(OpAssignment::new_op_assignment_from_base_token(&op, pos))
}

/// Whether the operands are this name, and an expression that leaves names as they are.
fn are_name_and_value(name: &str, operands: &[Expr]) -> bool
    ensures { result ≡ settled.are_name_and_value name.now (exprs_of operands.now) }
{
    match operands {
        [first, value] => is_name(name, first) && leaves_names(value),
        _ => false,
    }
}

/// Takes `e` out of a call `x op e` on this name that may assign to it, with the `op=` that it becomes.
fn take_operand(
    info: &EngineInfo,
    name: &str,
    call: &mut FnCallExpr,
    pos: Position,
) -> Option<(OpAssignment, Expr)>
    ensures { Takes result (engine_of info.now) (Variable [] name.now) (call_of call.old) (call_of call.new) }
{
    let op = call.op_token?;
    if !are_name_and_value(name, call.args.as_slice()) {
        return None;
    }
    let assignment = own_assignment(info, op, pos)?;
    let value = call.args.get_mut(1)?;
    Some((assignment, value.take()))
}

/// Takes `e` out of an expression `x op e`, if it is one.
fn take_value(
    info: &EngineInfo,
    name: &str,
    expr: &mut Expr,
    pos: Position,
) -> Option<(OpAssignment, Expr)>
    ensures { Takes result (engine_of info.now) (Variable [] name.now) (expr_of expr.old) (expr_of expr.new) }
{
    match expr {
        Expr::FnCall(call, _) => take_operand(info, name, call.get_mut(), pos),
        _ => None,
    }
}

/// Takes `e` out of the right side, if it is an operation on the name on the left that may assign to it.
fn take_assigned(
    info: &EngineInfo,
    sides: &mut BinaryExpr,
    pos: Position,
) -> Option<(OpAssignment, Expr)>
    ensures left { sides.new.lhs ≡ sides.old.lhs }
    ensures right { Takes result (engine_of info.now) (expr_of sides.old.lhs) (expr_of sides.old.rhs)
        (expr_of sides.new.rhs) }
{
    match &sides.lhs {
        Expr::Variable(parts, _, _) if parts.get().2.is_empty() => {
            take_value(info, parts.get().1.as_str(), &mut sides.rhs, pos)
        }
        _ => None,
    }
}

/// `x = x op e` is `x op= e`. Whether it was one; the position stays.
fn self_assign(
    info: &EngineInfo,
    state: &mut OptimizerState<'_>,
    operation: &mut OpAssignment,
    sides: &mut BinaryExpr,
) -> bool
    ensures answer { not result
        ≡ settled.is_settled_assignment (engine_of info.now) (assignment_of operation.old sides.old) }
    ensures step { (w : Bool)
        → FiresIf result (engine_of info.now) w (progress state.old) (progress state.new)
        (assignment_of operation.old sides.old) (assignment_of operation.new sides.new) }
{
    if operation.is_op_assignment() {
        return false;
    }
    match take_assigned(info, sides, operation.position()) {
        Some((assignment, value)) => {
            note_fired(state);
            *operation = assignment;
            put_expr(&mut sides.rhs, value);
            true
        }
        None => false,
    }
}

/// Rewrites an assignment by the rule that fires at it, if it does.
pub fn step_assignment(
    info: &EngineInfo,
    state: &mut OptimizerState<'_>,
    statement: &mut Stmt,
) -> NodeStep
    requires { settled.is_assignment (stmt_of statement.now) ≡ true }
    ensures answer { result ≡ answer (settled.is_settled_assignment (engine_of info.now) (stmt_of statement.old)) }
    ensures step { (w : Bool)
        → StmtStep result (engine_of info.now) w (progress state.old) (progress state.new) (stmt_of statement.old)
        (stmt_of statement.new) }
{
    match statement {
        Stmt::Assignment(parts) => {
            let (operation, sides) = parts.get_mut();
            if self_assign(info, state, operation, sides) {
                NodeStep::Rewritten
            } else {
                NodeStep::Kept
            }
        }
        _ => NodeStep::Kept,
    }
}
