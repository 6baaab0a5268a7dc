//! The single steps of a run.

mod asking;
mod assigning;
mod machine;
mod methods;
mod parts;
mod placing;
mod variables;
mod words;
mod writing;

pub use machine::Machine;
pub use parts::{Access, Found, PropertyNames};
pub use placing::{Current, Place, at_key};
