//! What a reader of a script is told of it: faults, what has no meaning, names that nothing in sight declares or asks for,
//! values that go, answers that are known beforehand, and statements that never run; each with its place, a code and how
//! grave it is.
#![tactic(auto)]

mod closures;
mod dead;
mod finding;
mod functions;
mod globals;
mod look;
mod nodes;
mod scopes;
mod script;
mod values;
mod walk;

pub use finding::{Counts, Finding, FindingKind, Place, Severity};
pub use script::findings;
