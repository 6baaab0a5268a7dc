//! What may be asked of a node that is lent.

#![tactic(auto)]

ghost use Rattle.std.specs.Prelude.{◌≡◌};
ghost use Rattle.rhai_ast.specs.AskedNodes.{is_expr_node, is_stmt_node, place_of};

use crate::walker::ASTNode;
use ast_nodes::{position, stmt_position};
use rhai_base::Position;

/// What may be asked of a node that is lent.
pub trait NodeQueries {
    /// Is it a statement?
    fn is_stmt(&self) -> bool;

    /// Is it an expression?
    fn is_expr(&self) -> bool;

    /// Where it stands.
    fn position(&self) -> Position;
}

impl<'a> NodeQueries for ASTNode<'a> {
    fn is_stmt(&self) -> bool
        ensures { result ≡ is_stmt_node self.now }
    {
        match self {
            ASTNode::Stmt(_) => true,
            ASTNode::Expr(_) => false,
        }
    }

    fn is_expr(&self) -> bool
        ensures { result ≡ is_expr_node self.now }
    {
        match self {
            ASTNode::Stmt(_) => false,
            ASTNode::Expr(_) => true,
        }
    }

    fn position(&self) -> Position
        ensures { result ≡ place_of self.now }
    {
        match self {
            ASTNode::Stmt(stmt) => stmt_position(stmt),
            ASTNode::Expr(expr) => position(expr),
        }
    }
}
