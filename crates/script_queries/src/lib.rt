//! What may be asked of a script: its nodes, what its functions say of themselves, and its literal variables.
#![tactic(auto)]

mod literals;
mod metadata;
mod script;

pub use literals::LiteralVariables;
pub use metadata::{FnMetadataIter, ScriptFnMetadata};
pub use script::ScriptQueries;
