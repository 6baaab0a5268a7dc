//! The children of a node.

#![tactic(auto, using(ast_types::specs::Reading::shapes))]

ghost use Rattle.std.specs.Prelude.{◌≡◌, [], ◌∷◌, IsTrue};
ghost use Rattle.rhai_ast.specs.Children.{children};
ghost use Rattle.rhai_ast.specs.Left.{is_nothing, left_of, statements_left};
ghost use Rattle.rhai_ast.specs.Nodes.{node_of};
ghost use Rattle.rhai_ast.specs.Standing.{below, declared_of, expr_standing, standing_of, statements_standing};

use crate::walker::node::{ASTNode, Child};
use crate::walker::parts::Parts;
use ast_types::{Expr, Stmt};

/// The children of a node that are still to come, in the order of a walk.
#[derive(Drop)]
pub struct Children<'a> {
    parts: Parts<'a>,
}

impl<'a> Children<'a> {
    /// Those of a node. It takes no memory.
    #[inline(always)]
    pub fn of(node: ASTNode<'a>) -> Children<'a>
        ensures children { left_of result ≡ children (node_of node.entry) }
        ensures standing { standing_of result ≡ below (declared_of node.entry) }
    {
        match node {
            ASTNode::Stmt(stmt) => Children {
                parts: Parts::of_stmt(stmt),
            },
            ASTNode::Expr(expr) => Children {
                parts: Parts::of_expr(expr),
            },
        }
    }

    /// An expression alone.
    pub(crate) fn only(expr: &'a Expr) -> Children<'a>
        ensures { standing_of result ≡ expr_standing expr.now ∷ [] }
    {
        Children {
            parts: Parts::Expr(expr),
        }
    }

    /// Statements one after another.
    pub fn of_statements(statements: &'a [Stmt]) -> Children<'a>
        ensures children { left_of result ≡ statements_left statements.now }
        ensures standing { standing_of result ≡ statements_standing statements.now }
    {
        Children {
            parts: Parts::Statements(statements),
        }
    }

    /// Are they those of a leaf? It is faster than to ask for the first. Those of a node with an empty list are not.
    #[inline(always)]
    pub fn are_of_leaf(&self) -> bool
        ensures leaf { result ≡ is_nothing self.now.parts }
        ensures none { IsTrue result → left_of self.now ≡ [] }
        ensures nothing { IsTrue result → standing_of self.now ≡ [] }
    {
        matches!(self.parts, Parts::Nothing)
    }
}

impl<'a> Iterator for Children<'a> {
    ghost use Rattle.std.specs.Iterator.{item_count};
    ghost use Rattle.rhai_ast.specs.Left.{Yields};

    type Item = Child<'a>;

    ghost next_gives = { Yields };

    ghost remaining = { item_count left_of };

    #[inline(always)]
    fn next(&mut self) -> Option<Child<'a>> {
        let (child, parts) = self.parts.split_first()?;
        self.parts = parts;
        Some(child)
    }
}
