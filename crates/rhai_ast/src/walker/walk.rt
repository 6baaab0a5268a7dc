//! A walk over the nodes of a tree, from the top down, with the path to each.

ghost use Rattle.std.specs.Prelude.{[], ◌∷◌};
ghost use Rattle.rhai_ast.specs.Standing.{below, declared_of, expr_standing, standing_of, statements_standing, stmt_standing};
ghost use Rattle.rhai_ast.specs.Walking.{Enters, WalksOver, ended};

use crate::walker::stop::{Stop, answered};
use crate::walker::{ASTNode, Children};
use ast_types::{Expr, Stmt};
use rhai_base::OutOfMemory;
use std::slice;

/// Walks over an expression, as `Walk::walk` says.
pub fn walk_expr<'a, F: FnMut(&[ASTNode]) -> bool>(
    expr: &'a Expr,
    path: &mut Vec<ASTNode<'a>>,
    on_node: &mut F,
) -> Result<bool, OutOfMemory>
    requires { F.IsAlwaysCallable on_node.old }
    ensures callable { F.IsAlwaysCallable on_node.new }
    ensures walks { WalksOver F.FnMut path.old.items result on_node.old (expr_standing expr.now ∷ []) on_node.new
        path.new.items }
{
    answered(visit(Children::only(expr), path, on_node))
}

/// Walks over a statement, as `Walk::walk` says.
pub fn walk_stmt<'a, F: FnMut(&[ASTNode]) -> bool>(
    stmt: &'a Stmt,
    path: &mut Vec<ASTNode<'a>>,
    on_node: &mut F,
) -> Result<bool, OutOfMemory>
    requires { F.IsAlwaysCallable on_node.old }
    ensures callable { F.IsAlwaysCallable on_node.new }
    ensures walks { WalksOver F.FnMut path.old.items result on_node.old (stmt_standing stmt.now ∷ []) on_node.new
        path.new.items }
{
    answered(visit(
        Children::of_statements(slice::from_ref(stmt)),
        path,
        on_node,
    ))
}

/// Walks over the statements of a list, one after another, as `Walk::walk` does over one. It is not in rhai.
pub fn walk_statements<'a, F: FnMut(&[ASTNode]) -> bool>(
    statements: &'a [Stmt],
    path: &mut Vec<ASTNode<'a>>,
    on_node: &mut F,
) -> Result<bool, OutOfMemory>
    requires { F.IsAlwaysCallable on_node.old }
    ensures callable { F.IsAlwaysCallable on_node.new }
    ensures walks { WalksOver F.FnMut path.old.items result on_node.old (statements_standing statements.now) on_node.new
        path.new.items }
{
    answered(visit(Children::of_statements(statements), path, on_node))
}

/// Goes down to a node and shows the path to it.
fn enter<'a, F: FnMut(&[ASTNode]) -> bool>(
    node: ASTNode<'a>,
    path: &mut Vec<ASTNode<'a>>,
    on_node: &mut F,
) -> Result<(), Stop>
    requires { F.IsAlwaysCallable on_node.old }
    ensures callable { F.IsAlwaysCallable on_node.new }
    ensures enters { Enters F.FnMut path.old.items (ended result) on_node.old node.entry on_node.new path.new.items }
{
    path.push(node)?;
    if on_node(path.as_slice()) {
        Ok(())
    } else {
        Err(Stop::Refused)
    }
}

/// Shows the path to each child, and those to the nodes below it. A leaf is seen without a call.
#[cycle(walk)]
fn visit<'a, F: FnMut(&[ASTNode]) -> bool>(
    children: Children<'a>,
    path: &mut Vec<ASTNode<'a>>,
    on_node: &mut F,
) -> Result<(), Stop>
    requires { F.IsAlwaysCallable on_node.old }
    ensures callable { F.IsAlwaysCallable on_node.new }
    ensures walks { WalksOver F.FnMut path.old.items (ended result) on_node.old (standing_of children.entry) on_node.new
        path.new.items }
{
    for child in children {
        enter(child.node, path, on_node)?;
        visit_below(child.node, path, on_node)?;
        path.pop();
    }
    Ok(())
}

/// Shows the paths to the nodes below one.
#[cycle(walk)]
fn visit_below<'a, F: FnMut(&[ASTNode]) -> bool>(
    node: ASTNode<'a>,
    path: &mut Vec<ASTNode<'a>>,
    on_node: &mut F,
) -> Result<(), Stop>
    requires { F.IsAlwaysCallable on_node.old }
    ensures callable { F.IsAlwaysCallable on_node.new }
    ensures walks { WalksOver F.FnMut path.old.items (ended result) on_node.old (below (declared_of node.entry))
        on_node.new path.new.items }
{
    let children = Children::of(node);
    if children.are_of_leaf() {
        Ok(())
    } else {
        visit(children, path, on_node)
    }
}
