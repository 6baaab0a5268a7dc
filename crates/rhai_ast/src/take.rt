//! Nodes taken out of their place.

#![tactic(auto, using(ast_types::specs::Reading::shapes))]

ghost use Rattle.std.specs.Prelude.{◌≡◌};
ghost use Rattle.ast_types.specs.Defaults.{nowhere};
ghost use Rattle.ast_types.specs.declared.expr.Expr.TheVariants.{Unit};
ghost use Rattle.ast_types.specs.declared.stmt.Stmt.TheVariants.{Noop};

use ast_types::{Expr, Stmt};
use rhai_base::Position;

/// Taking a node out of its place.
pub trait Take {
    /// The node; `()` or nothing stands in its place then, nowhere.
    fn take(&mut self) -> Self;
}

impl Take for Expr {
    fn take(&mut self) -> Expr
        ensures taken { result ≡ self.old }
        ensures left { self.new ≡ Unit nowhere }
    {
        std::mem::replace(self, Expr::Unit(Position::NONE))
    }
}

impl Take for Stmt {
    fn take(&mut self) -> Stmt
        ensures taken { result ≡ self.old }
        ensures left { self.new ≡ Noop nowhere }
    {
        std::mem::replace(self, Stmt::Noop(Position::NONE))
    }
}
