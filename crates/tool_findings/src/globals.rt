//! The constants of the script's own statements, which functions see by `global::`.

use crate::finding::{FindingKind, Place};
use crate::look::Look;
use bitflags::Flags;
use rhai_ast::Stmt;
use rhai_base::{ASTFlags, OutOfMemory, Position};
use std::mem;

impl<'a> Look<'a> {
    /// Notes the constants of the script's own statements.
    pub(crate) fn note_constants(&mut self, statements: &'a [Stmt]) -> Result<(), OutOfMemory> {
        for statement in statements {
            if let Stmt::Var(parts, options, _) = statement {
                if options.contains(ASTFlags::CONSTANT) {
                    self.constants.insert(parts.get().0.as_str())?;
                }
            }
        }
        Ok(())
    }

    /// Asks for one of them.
    pub(crate) fn ask_global(&mut self, name: &'a str, place: Position) -> Result<(), OutOfMemory> {
        self.globals.push((name, place))?;
        Ok(())
    }

    /// Says which of those that are asked for the script's own statements do not declare.
    pub(crate) fn settle_globals(&mut self) -> Result<(), OutOfMemory> {
        for (name, place) in mem::replace(&mut self.globals, Vec::new(self.alloc)) {
            if !self.constants.contains(&name) {
                let name = String::from_str(self.alloc, name)?;
                self.find(FindingKind::UndeclaredGlobal(name), place)?;
            }
        }
        Ok(())
    }

    /// What a name of the script's own statements is told as that a function does not see.
    pub(crate) fn unseen_kind(&self, name: String, place: Place) -> FindingKind {
        if self.constants.contains(&name.as_str()) {
            FindingKind::UnseenConstant(name, place)
        } else {
            FindingKind::Unseen(name, place)
        }
    }
}
