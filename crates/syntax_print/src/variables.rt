//! Which names stand for what, where nodes are printed.

use crate::printer::Printer;
use syntax_lexer::Frame;

impl<'t> Printer<'t> {
    /// Declares a variable.
    pub(crate) fn declare(&self, name: &'t str, is_constant: bool) {
        let declared = self.variables.declare(name, is_constant);
        self.made(declared);
    }

    /// How many variables there are, to come back to.
    pub(crate) fn declared(&self) -> usize {
        self.variables.count()
    }

    /// Takes away all variables but so many.
    pub(crate) fn shorten(&self, count: usize) {
        let shortened = self.variables.shorten(count);
        self.made(shortened);
    }

    /// Whether a name stands for a constant in sight.
    pub(crate) fn is_constant(&self, name: &str) -> bool {
        self.variables.is_constant(name)
    }

    /// Notes that a variable is read or written: one that is not in sight a closure takes from around it, unless a
    /// function that stands before has the name.
    pub(crate) fn uses(&self, name: &'t str) {
        if self.is_function(name) {
            return;
        }
        let used = self.variables.uses(name);
        self.made(used);
    }

    /// Begins a function or a closure, in which no variable is in sight; what it stands in.
    pub(crate) fn enter(&self, is_closure: bool) -> Frame<'t> {
        self.variables.enter(is_closure)
    }

    /// Ends it; the names that it takes from around it.
    pub(crate) fn leave(&self, around: Frame<'t>) -> Vec<&'t str> {
        let left = self.variables.leave(around);
        match self.made(left) {
            Some(names) => names,
            None => Vec::new(self.alloc),
        }
    }
}
