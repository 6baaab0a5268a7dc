//! What may be asked of a statement.

#![tactic(auto, using(ast_types::specs::Reading::shapes, ast_types::specs::Positions::places))]

ghost use Rattle.std.specs.Prelude.{◌≡◌};
ghost use Rattle.ast_types.specs.Reading.{stmt_of};
ghost use Rattle.ast_types.specs.Positions.{stmt_options_of, stmt_position_of};
ghost use Rattle.theory_meaning.specs.Laws.{IndependentLaw, InternallyPureLaw, PureLaw};
ghost use Rattle.theory_meaning.specs.Queries as queries;

use ast_types::Stmt;
use rhai_base::{ASTFlags, Position};

/// What may be asked of a statement.
pub trait StmtQueries {
    /// Is it nothing?
    fn is_noop(&self) -> bool;

    /// Is it pure? A `Noop` is, and an expression that is pure; an `if`, a `try`, a `for` or a block of what is pure; a
    /// `switch` with a default, whose subject, listed arms and default's answer are; a `while` whose guard is literally
    /// false; a `do` of a pure body whose guard literally ends it after one turn. No other is.
    ///
    /// A law holds of every tree: a run of a pure statement calls no host, throws nothing, changes nothing, and gives a
    /// value or is stuck within some bound of turns.
    fn is_pure(&self) -> bool;

    /// Is it pure but for a name that its list takes away? A `let` or an `import` of a pure expression is, an `export`,
    /// an expression that is a block of such statements, and what is pure.
    ///
    /// A law holds of every tree: a run of it calls no host, throws nothing, keeps what stood before and adds at most
    /// one name.
    fn is_internally_pure(&self) -> bool;

    /// Does it belong to the list in which it stands, as it may add names there? A `let`, an `import`, an `export` and
    /// a call of `eval` without a namespace do, and an expression that is such a call or a block of such statements,
    /// or of none, as in rhai.
    ///
    /// A law holds of every tree: a run of one that does not leaves the names as they were.
    fn is_block_dependent(&self) -> bool;

    /// Does it leave its list: is it a `return`, `throw`, `break` or `continue`?
    fn is_control_flow_break(&self) -> bool;

    /// Does it have a value: is it an `if`, a `switch`, a block, an expression or a call? A loop that a `break` may
    /// leave with a value is none of these.
    fn returns_value(&self) -> bool;

    /// Can it stand without a semicolon: is it an `if`, a `switch`, a `while`, a `for`, a block or a `try`?
    fn is_self_terminated(&self) -> bool;

    /// The flags of a `Do`, `Var`, `BreakLoop` or `Return`, and none of another node.
    fn options(&self) -> ASTFlags;

    /// Where it stands; a block where it begins, an assignment where its operator stands, an expression where its
    /// leftmost part does, shared names where the first one does, and no shared names, in which rhai panics, nowhere.
    fn position(&self) -> Position;
}

impl StmtQueries for Stmt {
    fn is_noop(&self) -> bool
        ensures { result ≡ queries.is_noop (stmt_of self.now) }
    {
        matches!(self, Stmt::Noop(_))
    }

    #[tactic(auto, using(theory_meaning::proofs::PurityLaws::pure_law))]
    fn is_pure(&self) -> bool
        ensures value { result ≡ queries.is_pure (stmt_of self.now) }
        ensures law { PureLaw (stmt_of self.now) }
    {
        ast_nodes::is_pure(self)
    }

    #[tactic(auto, using(theory_meaning::proofs::PurityLaws::internally_pure_law))]
    fn is_internally_pure(&self) -> bool
        ensures value { result ≡ queries.is_internally_pure (stmt_of self.now) }
        ensures law { InternallyPureLaw (stmt_of self.now) }
    {
        ast_nodes::is_internally_pure(self)
    }

    #[tactic(auto, using(theory_meaning::proofs::PurityLaws::independent_law))]
    fn is_block_dependent(&self) -> bool
        ensures value { result ≡ queries.is_block_dependent (stmt_of self.now) }
        ensures law { IndependentLaw (stmt_of self.now) }
    {
        ast_nodes::is_block_dependent(self)
    }

    fn is_control_flow_break(&self) -> bool
        ensures { result ≡ queries.is_control_flow_break (stmt_of self.now) }
    {
        matches!(self, Stmt::BreakLoop(_, _, _) | Stmt::Return(_, _, _))
    }

    fn returns_value(&self) -> bool
        ensures { result ≡ queries.returns_value (stmt_of self.now) }
    {
        matches!(
            self,
            Stmt::If(_, _)
                | Stmt::Switch(_, _)
                | Stmt::FnCall(_, _)
                | Stmt::Block(_)
                | Stmt::Expr(_)
        )
    }

    fn is_self_terminated(&self) -> bool
        ensures { result ≡ queries.is_self_terminated (stmt_of self.now) }
    {
        matches!(
            self,
            Stmt::If(_, _)
                | Stmt::Switch(_, _)
                | Stmt::While(_, _)
                | Stmt::For(_, _)
                | Stmt::Block(_)
                | Stmt::TryCatch(_, _)
        )
    }

    fn options(&self) -> ASTFlags
        ensures { result ≡ stmt_options_of self.now }
    {
        match self {
            Stmt::Do(_, options, _)
            | Stmt::Var(_, options, _)
            | Stmt::BreakLoop(_, options, _)
            | Stmt::Return(_, options, _) => *options,
            Stmt::Noop(_)
            | Stmt::If(_, _)
            | Stmt::Switch(_, _)
            | Stmt::While(_, _)
            | Stmt::For(_, _)
            | Stmt::Assignment(_)
            | Stmt::FnCall(_, _)
            | Stmt::Block(_)
            | Stmt::TryCatch(_, _)
            | Stmt::Expr(_)
            | Stmt::Import(_, _)
            | Stmt::Export(_, _)
            | Stmt::Share(_) => ASTFlags::NONE,
        }
    }

    fn position(&self) -> Position
        ensures { result ≡ stmt_position_of self.now }
    {
        ast_nodes::stmt_position(self)
    }
}
