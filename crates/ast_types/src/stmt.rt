//! Statements.

ghost use Rattle.std.specs.Prelude.{◌≡◌};
ghost use Rattle.ast_types.specs.Defaults.{nowhere};
ghost use Rattle.ast_types.specs.declared.stmt.Stmt.TheVariants.{Noop};

use crate::{BinaryExpr, Expr, FnCallExpr, StmtBlock, SwitchBlock};
use rhai_base::{ASTFlags, Boxed, Ident, OpAssignment, Position, Seq};
use std::num::NonZeroUsize;

/// A statement.
#[cycle(tree)]
#[derive(Drop)]
pub enum Stmt {
    /// Nothing.
    Noop(Position),
    /// `if expr { stmt; .. } else { stmt; .. }`
    If(Boxed<FlowControl>, Position),
    /// `switch expr { case if expr => expr, .. }`
    Switch(Boxed<SwitchBlock>, Position),
    /// `while expr { stmt; .. }`; where the guard is `()`, `loop { stmt; .. }`
    While(Boxed<FlowControl>, Position),
    /// `do { stmt; .. } while expr`; NEGATED is `until`.
    Do(Boxed<FlowControl>, ASTFlags, Position),
    /// `for name in expr { stmt; .. }`, or with a counter `for (name, counter) in expr { stmt; .. }`
    For(Boxed<(Ident, Option<Ident>, FlowControl)>, Position),
    /// `let name = expr`, and an index of which nothing is claimed; CONSTANT is `const`, EXPORTED `export`.
    Var(Boxed<(Ident, Expr, Option<NonZeroUsize>)>, ASTFlags, Position),
    /// `expr = expr`, `expr op= expr`
    Assignment(Boxed<(OpAssignment, BinaryExpr)>),
    /// A call whose value, if it is not the last one, goes.
    FnCall(Boxed<FnCallExpr>, Position),
    /// `{ stmt; .. }`
    Block(Boxed<StmtBlock>),
    /// `try { stmt; .. } catch ( name ) { stmt; .. }`; without a name the expression is `()`.
    TryCatch(Boxed<FlowControl>, Position),
    /// An expression.
    Expr(Boxed<Expr>),
    /// `continue expr`; BREAK is `break`.
    BreakLoop(Option<Boxed<Expr>>, ASTFlags, Position),
    /// `return expr`; BREAK is `throw`.
    Return(Option<Boxed<Expr>>, ASTFlags, Position),
    /// `import expr as name`
    Import(Boxed<(Expr, Ident)>, Position),
    /// `export name as alias`
    Export(Boxed<(Ident, Ident)>, Position),
    /// Variables that closures share, with indices of which nothing is claimed.
    Share(Boxed<Seq<(Ident, Option<NonZeroUsize>)>>),
}

/// An expression with two blocks.
#[cycle(tree)]
#[derive(Drop)]
pub struct FlowControl {
    /// The expression.
    pub expr: Expr,
    /// The main block.
    pub body: StmtBlock,
    /// The other block.
    pub branch: StmtBlock,
}

impl Default for Stmt {
    ghost is_default = { λ s. s ≡ Noop nowhere };

    fn default() -> Stmt {
        Stmt::Noop(Position::NONE)
    }
}
