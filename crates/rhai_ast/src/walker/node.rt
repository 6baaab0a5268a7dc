//! Nodes that are lent, and where they stand.

ghost use Rattle.std.specs.Prelude.{◌≡◌};
ghost use Rattle.rhai_ast.specs.Nodes.{is_dot};
ghost use Rattle.rhai_ast.specs.Standing.{declared_of, standing_anywhere, standing_child};
ghost use Rattle.rhai_ast.specs.declared.walker.node.ASTNode.TheVariants as node;

use ast_types::{Expr, Stmt};
use rhai_base::ASTFlags;

/// A node of a tree, lent.
#[derive(Clone, Copy)]
pub enum ASTNode<'a> {
    /// A statement.
    Stmt(&'a Stmt),
    /// An expression.
    Expr(&'a Expr),
}

/// The node that a step of a chain is of.
#[derive(Clone, Copy)]
pub enum ChainType {
    /// A `Dot`, which asks by a property or a method.
    Dotting,
    /// An `Index`.
    Indexing,
}

/// Where a node stands in the one right above it, where that matters.
#[derive(Clone, Copy)]
pub enum Spot<'a> {
    /// Where it does not matter.
    Anywhere,
    /// In the body of a loop.
    LoopBody,
    /// On the left side of a `.` or an index.
    LeftSide,
    /// On the right side of a `.` or an index with these flags: that expression.
    RightSide(ChainType, ASTFlags, &'a Expr),
}

/// A node right below another.
#[derive(Clone, Copy)]
pub struct Child<'a> {
    /// The node.
    pub node: ASTNode<'a>,
    /// Where it stands.
    pub spot: Spot<'a>,
}

impl ChainType {
    /// Whether it is a `Dot`.
    pub fn is_dot(self) -> bool
        ensures { result ≡ is_dot self }
    {
        matches!(self, ChainType::Dotting)
    }
}

impl<'a> ASTNode<'a> {
    /// It, as a child that may stand anywhere.
    pub(crate) fn anywhere(self) -> Child<'a>
        ensures { standing_child result ≡ standing_anywhere (declared_of self.entry) }
    {
        Child {
            node: self,
            spot: Spot::Anywhere,
        }
    }
}

impl<'a> From<&'a Stmt> for ASTNode<'a> {
    ghost from_gives = { λ s n. n ≡ node.Stmt s };

    fn from(stmt: &'a Stmt) -> ASTNode<'a> {
        ASTNode::Stmt(stmt)
    }
}

impl<'a> From<&'a Expr> for ASTNode<'a> {
    ghost from_gives = { λ e n. n ≡ node.Expr e };

    fn from(expr: &'a Expr) -> ASTNode<'a> {
        ASTNode::Expr(expr)
    }
}
