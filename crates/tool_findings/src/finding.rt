//! What is found.

use rhai_ast::TreeFault;
use rhai_base::Position;
use std::fmt::{self, Display, Write};
use thiserror::Error;

/// What is found at a node.
#[derive(Debug, Drop, PartialEq, Eq, Error)]
pub enum FindingKind {
    /// The tree is not well-formed.
    #[error("{0}")]
    IllFormed(TreeFault),
    /// A call of `eval`, `is_def_var` or `is_def_fn`, at which a run is stuck.
    #[error("a call of `{0}` has no meaning here")]
    Barred(String),
    /// Names that a closure shares, at which a run is stuck: the first place in a script.
    #[error("shared names have no meaning here")]
    Shared,
    /// A name that nothing declares.
    #[error("`{0}` is nowhere declared")]
    Undeclared(String),
    /// A name before its declaration there.
    #[error("`{0}` is declared later, at {1}")]
    DeclaredLater(String, Place),
    /// A name behind the block that declares it there.
    #[error("`{0}` of {1} ended with its block")]
    Ended(String, Place),
    /// A name in a function which the script's own statements declare there.
    #[error("a function does not see `{0}` of {1}")]
    Unseen(String, Place),
    /// One of a constant, which functions see by `global::`.
    #[error("a function does not see `{0}` of {1}, but `global::{0}`")]
    UnseenConstant(String, Place),
    /// A name by `global::` of which the script's own statements declare no constant.
    #[error("`{0}` is no constant of the script's own statements")]
    UndeclaredGlobal(String),
    /// A variable or a constant that nothing asks for.
    #[error("the variable `{0}` is never used")]
    UnusedVariable(String),
    /// A parameter that nothing asks for. It is said where the body of its function begins.
    #[error("the parameter `{0}` is never used")]
    UnusedParameter(String),
    /// The name of an import that nothing asks for.
    #[error("the import `{0}` is never used")]
    UnusedImport(String),
    /// A private function or a closure that nothing calls or names. It is said where its body begins.
    #[error("the function `{0}` is never used")]
    UnusedFunction(String),
    /// A call of a script's function with so many parameters as none of its name has.
    #[error("`{name}` takes {takes}, not {given}")]
    ParameterCount {
        /// The function's name.
        name: String,
        /// How many parameters the functions of this name have.
        takes: Counts,
        /// How many are given.
        given: usize,
    },
    /// A statement that only computes a value, which goes.
    #[error("this value is dropped")]
    DroppedValue,
    /// A statement that no run comes to.
    #[error("this never runs")]
    NeverRuns,
    /// A comparison of literals, which always answers this.
    #[error("this is always {0}")]
    Always(bool),
    /// A comparison of a variable with itself.
    #[error("both sides are `{0}`")]
    SameSides(String),
    /// An operator over literals at which each run fails.
    #[error("this fails: the result is no integer of 64 bits, or the divisor is 0")]
    ConstantFault,
}

/// How grave a finding is.
#[derive(Clone, Copy, Debug, PartialEq, Eq)]
pub enum Severity {
    /// A run that comes there is stuck or fails.
    Error,
    /// A run goes on.
    Warning,
}

/// The codes of all kinds.
static CODES: [&str; 18] = [
    "ill-formed",
    "barred-call",
    "shared-names",
    "undeclared",
    "declared-later",
    "ended-block",
    "unseen-in-function",
    "undeclared-global",
    "unused-variable",
    "unused-parameter",
    "unused-import",
    "unused-function",
    "parameter-count",
    "dropped-value",
    "never-runs",
    "constant-condition",
    "same-sides",
    "constant-fault",
];

impl FindingKind {
    /// The codes of all kinds.
    pub fn codes<'a>() -> &'a [&'a str] {
        CODES.as_slice()
    }

    /// A word for the kind.
    pub fn code(&self) -> &'static str {
        match self {
            FindingKind::IllFormed(_) => "ill-formed",
            FindingKind::Barred(_) => "barred-call",
            FindingKind::Shared => "shared-names",
            FindingKind::Undeclared(_) => "undeclared",
            FindingKind::DeclaredLater(_, _) => "declared-later",
            FindingKind::Ended(_, _) => "ended-block",
            FindingKind::Unseen(_, _) | FindingKind::UnseenConstant(_, _) => "unseen-in-function",
            FindingKind::UndeclaredGlobal(_) => "undeclared-global",
            FindingKind::UnusedVariable(_) => "unused-variable",
            FindingKind::UnusedParameter(_) => "unused-parameter",
            FindingKind::UnusedImport(_) => "unused-import",
            FindingKind::UnusedFunction(_) => "unused-function",
            FindingKind::ParameterCount { .. } => "parameter-count",
            FindingKind::DroppedValue => "dropped-value",
            FindingKind::NeverRuns => "never-runs",
            FindingKind::Always(_) => "constant-condition",
            FindingKind::SameSides(_) => "same-sides",
            FindingKind::ConstantFault => "constant-fault",
        }
    }

    /// How grave it is. Closures that share names are written everywhere, so they are no error.
    pub fn severity(&self) -> Severity {
        match self {
            FindingKind::IllFormed(_)
            | FindingKind::Barred(_)
            | FindingKind::Undeclared(_)
            | FindingKind::DeclaredLater(_, _)
            | FindingKind::Ended(_, _)
            | FindingKind::Unseen(_, _)
            | FindingKind::UnseenConstant(_, _)
            | FindingKind::UndeclaredGlobal(_)
            | FindingKind::ConstantFault => Severity::Error,
            _ => Severity::Warning,
        }
    }
}

impl Display for Severity {
    fn fmt<W: Write>(&self, f: &mut fmt::Formatter<W>) -> fmt::Result {
        f.write_str(match self {
            Severity::Error => "error",
            Severity::Warning => "warning",
        })
    }
}

/// A line and a column, in print `4:5`.
#[derive(Clone, Copy, Debug, PartialEq, Eq)]
pub struct Place(pub Position);

impl Display for Place {
    fn fmt<W: Write>(&self, f: &mut fmt::Formatter<W>) -> fmt::Result {
        let line = self.0.line().unwrap_or(0);
        let column = self.0.position().unwrap_or(0);
        write!(f, "{line}:{column}")
    }
}

/// Numbers of parameters, in print `1 or 2`.
#[derive(Debug, Drop, PartialEq, Eq)]
pub struct Counts(pub Vec<usize>);

impl Display for Counts {
    fn fmt<W: Write>(&self, f: &mut fmt::Formatter<W>) -> fmt::Result {
        let mut before = "";
        for count in self.0.as_slice() {
            write!(f, "{before}{count}")?;
            before = " or ";
        }
        Ok(())
    }
}

/// What is found, and where.
#[derive(Debug, Drop, PartialEq, Eq, Error)]
#[error("{kind}")]
pub struct Finding {
    /// What it is.
    pub kind: FindingKind,
    /// Where the node stands.
    pub position: Position,
}
