//! Whether a statement calls `eval`.

#![tactic(auto, using(ast_types::specs::Reading::shapes, ast_types::proofs::ItemLists::steps))]

ghost use Rattle.std.specs.Prelude.{◌≡◌};
ghost use Rattle.theory_meaning.specs.Queries.{is_eval};
ghost use Rattle.theory_meaning.specs.Walk.{OfExpr, OfStmt};
ghost use Rattle.ast_types.specs.Reading.{callee_of, expr_of, stmt_of};
ghost use Rattle.theory_rewriting.specs.Evals as spec;
ghost use Rattle.rhai_ast.specs.Children.{over_children, over_node, over_parts};
ghost use Rattle.rhai_ast.specs.Left.{left_of};
ghost use Rattle.rhai_ast.specs.Nodes.{node_of};

use ast_types::{Expr, FnCallExpr, Stmt};
use rhai_ast::{ASTNode, Children};

/// Does it call no `eval`, in its expressions at any depth? Lists inside are not looked at: what is declared there is
/// forgotten at their end.
pub fn calls_no_eval(statement: &Stmt) -> bool
    ensures { result ≡ spec.calls_no_eval (stmt_of statement.now) }
{
    is_no_eval_statement(statement) && is_none_below(ASTNode::Stmt(statement))
}

#[cycle(evals)]
fn is_none_below(node: ASTNode) -> bool
    ensures { result ≡ over_parts spec.eval_walk (node_of node.entry) }
{
    let children = Children::of(node);
    if children.are_of_leaf() {
        true
    } else {
        is_none_among(children)
    }
}

#[cycle(evals)]
fn is_none_among(children: Children) -> bool
    ensures { result ≡ over_children spec.eval_walk (left_of children.entry) }
{
    for child in children {
        if !is_none_in(child.node) {
            return false;
        }
    }
    true
}

#[cycle(evals)]
fn is_none_in(node: ASTNode) -> bool
    ensures { result ≡ over_node spec.eval_walk (node_of node.entry) }
{
    match node {
        ASTNode::Stmt(_) => true,
        ASTNode::Expr(expr) => is_no_eval_expr(expr) && is_none_below(node),
    }
}

fn is_no_eval_statement(statement: &Stmt) -> bool
    ensures { result ≡ spec.is_no_eval (OfStmt (stmt_of statement.now)) }
{
    match statement {
        Stmt::FnCall(call, _) => !is_eval(call.get()),
        _ => true,
    }
}

fn is_no_eval_expr(expr: &Expr) -> bool
    ensures { result ≡ spec.is_no_eval (OfExpr (expr_of expr.now)) }
{
    match expr {
        Expr::FnCall(call, _) => !is_eval(call.get()),
        _ => true,
    }
}

fn is_eval(call: &FnCallExpr) -> bool
    ensures { result ≡ is_eval (callee_of call.now) }
{
    call.namespace.is_empty() && call.name.as_str() == "eval"
}
