//! What is wrong with a node alone: tests of its kind, and of what is right below it.

#![tactic(auto, using(ast_types::specs::Reading::shapes, crate::proofs::Exits::operands_counted))]

ghost use Rattle.std.specs.Prelude.{◌||◌};
ghost use Rattle.rhai_ast.specs.Places.{around_of};
ghost use Rattle.rhai_ast.specs.Refusals.{Finds};
ghost use Rattle.theory_meaning.specs.Faults as faults;
ghost use Rattle.theory_meaning.specs.Faults.{◌then◌};
ghost use Rattle.theory_meaning.specs.Shape as shape;
ghost use Rattle.theory_meaning.specs.Tree.{count_exprs};
ghost use Rattle.ast_types.specs.Reading.{callee_of, chain_flags, expr_of, exprs_of, stmt_of};
ghost use Rattle.rhai_ast.specs.Nodes.{is_dot, node_of};

use crate::faults::around::Around;
use crate::faults::map_keys::test_keys;
use crate::faults::shape::{is_catch, is_formed, is_left_side, is_rest};
use crate::walker::{ASTNode, ChainType};
use ast_nodes::is_table;
use ast_types::{BinaryExpr, Expr, FnCallExpr, Stmt};
use bitflags::Flags;
use rhai_base::{ASTFlags, TreeFault};
use std::alloc::Global;

/// The fault, unless this holds.
pub(crate) fn demand(holds: bool, fault: TreeFault) -> Result<(), TreeFault>
    ensures { Finds (faults.unless holds fault) result }
{
    if holds { Ok(()) } else { Err(fault) }
}

/// The first fault of a node, those of its children not counted.
pub(crate) fn check_alone(alloc: Global, node: ASTNode, around: Around) -> Result<(), TreeFault>
    ensures { Finds (faults.fault_of (around_of around) (node_of node.entry)) result }
{
    match node {
        ASTNode::Expr(expr) => check_expr(alloc, expr, around),
        ASTNode::Stmt(stmt) => check_stmt(stmt, around),
    }
}

fn check_expr(alloc: Global, expr: &Expr, around: Around) -> Result<(), TreeFault>
    ensures { Finds (faults.expr_fault (around_of around) (expr_of expr.now)) result }
{
    match expr {
        Expr::DynamicConstant(value, _) => demand(!value.get().is_unit(), TreeFault::UnitConstant),
        Expr::Map(map, _) => {
            let literal = map.get();
            test_keys(alloc, literal.0.as_slice(), &literal.1)
        }
        Expr::Property(_, _) => demand(around.is_member(), TreeFault::ChainShape),
        Expr::MethodCall(call, _) => check_method(call.get(), around),
        Expr::FnCall(call, _) => check_call(call.get()),
        Expr::Dot(sides, options, _) => {
            check_chain(sides.get(), ChainType::Dotting, *options, around)
        }
        Expr::Index(sides, options, _) => {
            check_chain(sides.get(), ChainType::Indexing, *options, around)
        }
        Expr::And(operands, _) | Expr::Or(operands, _) | Expr::Coalesce(operands, _) => {
            check_operands(operands.get().as_slice())
        }
        Expr::BoolConstant(_, _)
        | Expr::IntegerConstant(_, _)
        | Expr::FloatConstant(_, _)
        | Expr::CharConstant(_, _)
        | Expr::StringConstant(_, _)
        | Expr::InterpolatedString(_, _)
        | Expr::Array(_, _)
        | Expr::Unit(_)
        | Expr::Variable(_, _, _)
        | Expr::ThisPtr(_)
        | Expr::Stmt(_) => Ok(()),
    }
}

fn check_operands(operands: &[Expr]) -> Result<(), TreeFault>
    ensures { Finds (faults.unless (faults.has_operands (exprs_of operands.now)) faults.NoOperands) result }
{
    demand(!operands.is_empty(), TreeFault::NoOperands)
}

fn check_call(call: &FnCallExpr) -> Result<(), TreeFault>
    ensures { Finds (faults.call_fault (callee_of call.now) (count_exprs (exprs_of call.now.args))) result }
{
    demand(is_formed(call), TreeFault::OperatorName)
}

fn check_method(call: &FnCallExpr, around: Around) -> Result<(), TreeFault>
    ensures { Finds (faults.unless (faults.is_member_role (around_of around).role) faults.ChainShape
        then faults.call_fault (callee_of call.now) (count_exprs (exprs_of call.now.args))) result }
{
    demand(around.is_member(), TreeFault::ChainShape)?;
    check_call(call)
}

/// A chain is looked at where it begins, and its steps where they stand.
fn check_chain(
    sides: &BinaryExpr,
    chain: ChainType,
    options: ASTFlags,
    around: Around,
) -> Result<(), TreeFault>
    ensures { Finds (faults.unless (faults.is_inside_chain (around_of around).role
        || shape.is_rest (is_dot chain) (chain_flags options).breaks (expr_of sides.now.rhs)) faults.ChainShape) result }
{
    let is_last = options.contains(ASTFlags::BREAK);
    demand(
        around.is_rest() || is_rest(chain, is_last, &sides.rhs),
        TreeFault::ChainShape,
    )
}

fn check_stmt(stmt: &Stmt, around: Around) -> Result<(), TreeFault>
    ensures { Finds (faults.stmt_fault (around_of around) (stmt_of stmt.now)) result }
{
    match stmt {
        Stmt::Switch(switch, _) => demand(is_table(&switch.get().cases), TreeFault::SwitchTable),
        Stmt::Assignment(parts) => demand(
            is_left_side(&parts.get().1.lhs),
            TreeFault::AssignTarget,
        ),
        Stmt::FnCall(call, _) => check_call(call.get()),
        Stmt::TryCatch(flow, _) => demand(is_catch(&flow.get().expr), TreeFault::CatchName),
        Stmt::BreakLoop(_, _, _) => demand(around.in_loop, TreeFault::BreakOutsideLoop),
        Stmt::Noop(_)
        | Stmt::If(_, _)
        | Stmt::While(_, _)
        | Stmt::Do(_, _, _)
        | Stmt::For(_, _)
        | Stmt::Var(_, _, _)
        | Stmt::Block(_)
        | Stmt::Expr(_)
        | Stmt::Return(_, _, _)
        | Stmt::Import(_, _)
        | Stmt::Export(_, _)
        | Stmt::Share(_) => Ok(()),
    }
}
