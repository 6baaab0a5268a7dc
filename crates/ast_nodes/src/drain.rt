//! Statements that leave their list one by one. Those that are left are let go here, as in `making`.

#![tactic(auto, using(ast_types::specs::Reading::shapes))]

ghost use Rattle.std.specs.Prelude.{◌≡◌, [], ◌∷◌, ◌++◌, ◌↔◌, IfOk, IsTrue, MatchOption, OnErr, OnOk};

use ast_types::{Stmt, StmtBlock};
use rhai_base::{OutOfMemory, Rest, Seq};
use std::mem::replace;

/// The statements of a list that are still to come, taken from the front.
pub struct StmtDrain {
    statements: Rest<Stmt>,
}

/// Written by hand, so that it is proved here alone.
impl Drop for StmtDrain {
    fn drop(self) {
        let StmtDrain {
            statements: _statements,
        } = self;
    }
}

impl StmtDrain {
    /// Those of a block. It takes no memory.
    pub fn of_block(block: StmtBlock) -> StmtDrain
        ensures { result.statements ≡ block.block }
    {
        StmtDrain {
            statements: block.into_statements().into_rest(),
        }
    }

    /// Those of a list, which is left without statements and has room for as many. A refused call leaves it as it was.
    pub fn of_list(list: &mut Seq<Stmt>) -> Result<StmtDrain, OutOfMemory>
        ensures ok { IfOk result (λ d. (d.statements ≡ list.old) × (list.new ≡ [])) }
        ensures err { OnErr result (list.new ≡ list.old) }
    {
        let emptied = list.emptied()?;
        let taken = replace(list, emptied);
        Ok(StmtDrain {
            statements: taken.into_rest(),
        })
    }

    /// Is nothing left?
    pub fn is_empty(&self) -> bool
        ensures { IsTrue result ↔ (self.now.statements ≡ []) }
    {
        self.statements.is_empty()
    }

    /// Takes the first statement that is left.
    pub fn next(&mut self) -> Option<Stmt>
        ensures { MatchOption result ((self.old.statements ≡ []) × (self.new.statements ≡ [])) (λ s.
            self.old.statements ≡ s ∷ self.new.statements) }
    {
        self.statements.next()
    }
}

/// Adds a statement at the end of a list. A refused call gives the statement up.
pub fn push_stmt(list: &mut Seq<Stmt>, statement: Stmt) -> Result<(), OutOfMemory>
    ensures ok { OnOk result (list.new ≡ list.old ++ statement ∷ []) }
    ensures err { OnErr result (list.new ≡ list.old) }
{
    list.push(statement)?;
    Ok(())
}
