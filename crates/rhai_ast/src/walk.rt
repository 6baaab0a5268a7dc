//! Walks over trees.

ghost use Rattle.std.specs.Prelude.{List, [], ◌∷◌};
ghost use Rattle.rhai_ast.specs.Standing.{Standing, expr_standing, stmt_standing};
ghost use Rattle.rhai_ast.specs.Walking.{WalksOver};

use crate::walker::{ASTNode, walk_expr, walk_stmt};
use ast_types::{Expr, Stmt};
use rhai_base::OutOfMemory;

/// A tree over which one may walk.
pub trait Walk {
    /// The nodes at its top, one after another.
    ghost top: { Self → List Standing };

    /// Calls the closure at each node, from the top down, until it answers `false`, with the path to the node:
    /// the one that was given, then the nodes down to this one, which is last. Of a `switch` the arms that its
    /// table lists are walked, each as often as it is listed.
    ///
    /// It answers `true` when all nodes were seen, and the path is then as it was, and `false` after the
    /// closure did, when the path ends at the node that was refused. When there is no room for a node on the
    /// path, the closure is not called for it, and the path ends at the node above it.
    ///
    /// In rhai a walk answers a bool alone, and passes over the expression of a `break`.
    fn walk<'a, F: FnMut(&[ASTNode]) -> bool>(
        &'a self,
        path: &mut Vec<ASTNode<'a>>,
        on_node: &mut F,
    ) -> Result<bool, OutOfMemory>
        requires { F.IsAlwaysCallable on_node.old }
        ensures callable { F.IsAlwaysCallable on_node.new }
        ensures walks { WalksOver F.FnMut path.old.items result on_node.old (top self.now) on_node.new path.new.items };
}

impl Walk for Expr {
    ghost top = { λ e. expr_standing e ∷ [] };

    fn walk<'a, F: FnMut(&[ASTNode]) -> bool>(
        &'a self,
        path: &mut Vec<ASTNode<'a>>,
        on_node: &mut F,
    ) -> Result<bool, OutOfMemory> {
        walk_expr(self, path, on_node)
    }
}

impl Walk for Stmt {
    ghost top = { λ s. stmt_standing s ∷ [] };

    fn walk<'a, F: FnMut(&[ASTNode]) -> bool>(
        &'a self,
        path: &mut Vec<ASTNode<'a>>,
        on_node: &mut F,
    ) -> Result<bool, OutOfMemory> {
        walk_stmt(self, path, on_node)
    }
}
