//! Where nodes stand, set anew.

#![tactic(auto, using(ast_nodes::proofs::Placing::placing))]

ghost use Rattle.std.specs.Prelude.{◌≡◌};
ghost use Rattle.ast_nodes.specs.Placed.{placed, stmt_placed};
ghost use Rattle.ast_types.specs.Positions.{position_of};
ghost use Rattle.ast_types.specs.Reading.{expr_of, stmt_of};

use ast_nodes::{place_expr, place_stmt};
use ast_types::{Expr, Stmt};
use rhai_base::Position;

/// Setting where a node stands.
pub trait SetPosition {
    /// Sets where it stands, and answers it. It takes no memory.
    ///
    /// Braces begin there then, and those of an expression end nowhere; of an assignment it is the operator
    /// that is put there, of an expression statement the expression, of shared names each.
    fn set_position(&mut self, pos: Position) -> &mut Self;
}

impl SetPosition for Expr {
    fn set_position(&mut self, pos: Position) -> &mut Expr
        ensures same { result.ghost_name ≡ self.entry.ghost_name }
        ensures node { result.now ≡ placed pos self.old }
        ensures reading { expr_of result.now ≡ expr_of self.old }
        ensures position { position_of result.now ≡ pos }
    {
        place_expr(self, pos);
        self
    }
}

impl SetPosition for Stmt {
    fn set_position(&mut self, pos: Position) -> &mut Stmt
        ensures same { result.ghost_name ≡ self.entry.ghost_name }
        ensures node { result.now ≡ stmt_placed pos self.old }
        ensures reading { stmt_of result.now ≡ stmt_of self.old }
    {
        place_stmt(self, pos);
        self
    }
}
