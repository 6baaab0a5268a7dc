//! The first fault of a tree, and where it stands.

#![tactic(auto, using(ast_types::specs::Reading::shapes, ast_types::proofs::ItemLists::steps, crate::proofs::FoundLists::found))]

ghost use Rattle.std.specs.Prelude.{◌≡◌, IfErr, not};
ghost use Rattle.rhai_ast.specs.Places.{around_of};
ghost use Rattle.rhai_ast.specs.Refusals.{Finds};
ghost use Rattle.rhai_ast.specs.Scripts.{found_stmts, functions_of};
ghost use Rattle.rhai_ast.specs.StandingFaults.{Stands, StandsAt, StandsInFunctions, defs_of, fault_in};
ghost use Rattle.theory_meaning.specs.Faults as faults;
ghost use Rattle.theory_meaning.specs.Faults.{finding};
ghost use Rattle.rhai_ast.specs.Children.{over_children, over_parts};
ghost use Rattle.theory_meaning.specs.Walk as walk;
ghost use Rattle.theory_meaning.specs.Walk.{around_parts};
ghost use Rattle.rhai_ast.specs.Left.{left_of};
ghost use Rattle.rhai_ast.specs.Nodes.{node_of};
ghost use Rattle.rhai_ast.specs.Standing.{below, declared_of, place_of, standing_of, statements_standing};

use crate::faults::alone::{check_alone, demand};
use crate::faults::around::Around;
use crate::faults::error::TreeError;
use crate::faults::shape::is_reserved;
use crate::walker::{ASTNode, Children};
use ast_nodes::{position, stmt_position};
use ast_types::{ScriptFuncDef, Stmt};
use rhai_base::{Position, TreeFault};
use std::alloc::Global;
use std::rc::Rc;

/// The first fault of functions in order, a function's name before its body. A name stands where its body begins.
pub fn check_functions(alloc: Global, functions: &[Rc<ScriptFuncDef>]) -> Result<(), TreeError>
    ensures first { Finds (faults.functions_fault (functions_of functions.now)) (fault_in result) }
    ensures stands { Stands (StandsInFunctions (defs_of functions.now)) result }
{
    for function in functions {
        check_name(function)?;
        check_stmts(alloc, function.body.statements(), false)?;
    }
    Ok(())
}

fn check_name(function: &ScriptFuncDef) -> Result<(), TreeError>
    ensures first { Finds (faults.unless (not (faults.is_reserved function.now.name)) faults.ReservedName)
        (fault_in result) }
    ensures position { IfErr result (λ e. e.position ≡ function.now.body.span.start) }
{
    located(
        demand(
            !is_reserved(function.name.as_str()),
            TreeFault::ReservedName,
        ),
        function.body.position(),
    )
}

/// The first fault of statements, in a loop or not.
pub fn check_stmts(alloc: Global, statements: &[Stmt], in_loop: bool) -> Result<(), TreeError>
    ensures first { Finds (found_stmts statements.now in_loop) (fault_in result) }
    ensures stands { Stands (StandsAt (walk.whole in_loop) (statements_standing statements.now)) result }
{
    check_children(
        alloc,
        Children::of_statements(statements),
        Around::whole(in_loop),
    )
}

/// The first fault of children: of each its own, then those of the nodes below it.
#[cycle(check)]
fn check_children(alloc: Global, children: Children, inside: Around) -> Result<(), TreeError>
    ensures first { Finds (over_children finding (left_of children.entry) (around_of inside)) (fault_in result) }
    ensures stands { Stands (StandsAt (around_of inside) (standing_of children.entry)) result }
{
    for child in children {
        let around = inside.at(child.spot);
        check_node(alloc, child.node, around)?;
        check_below(alloc, child.node, around)?;
    }
    Ok(())
}

/// The first fault of a node, those of its children not counted.
fn check_node(alloc: Global, node: ASTNode, around: Around) -> Result<(), TreeError>
    ensures first { Finds (faults.fault_of (around_of around) (node_of node.entry)) (fault_in result) }
    ensures position { IfErr result (λ e. e.position ≡ place_of (declared_of node.entry)) }
{
    located(check_alone(alloc, node, around), position_of(node))
}

/// The first fault of the nodes below one.
#[cycle(check)]
fn check_below(alloc: Global, node: ASTNode, around: Around) -> Result<(), TreeError>
    ensures first { Finds
        (over_parts finding (node_of node.entry) (around_parts (node_of node.entry) (around_of around)))
        (fault_in result) }
    ensures stands { Stands
        (StandsAt (around_parts (node_of node.entry) (around_of around)) (below (declared_of node.entry))) result }
{
    let children = Children::of(node);
    if children.are_of_leaf() {
        Ok(())
    } else {
        check_children(alloc, children, around.of_children(node))
    }
}

/// Where a node stands.
fn position_of(node: ASTNode) -> Position
    ensures { result ≡ place_of (declared_of node.entry) }
{
    match node {
        ASTNode::Expr(expr) => position(expr),
        ASTNode::Stmt(stmt) => stmt_position(stmt),
    }
}

/// What a test answers of a node that stands there.
fn located(tested: Result<(), TreeFault>, position: Position) -> Result<(), TreeError>
    ensures fault { fault_in result ≡ tested }
    ensures position { IfErr result (λ e. e.position ≡ position) }
{
    tested.map_err(|fault| TreeError { fault, position })
}
