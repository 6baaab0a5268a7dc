//! Lists of statements: those that go, since they do nothing or nothing comes to them.
#![tactic(auto)]

mod behind;
mod closing;
mod mark;
mod passes;
mod questions;
mod rules;
mod steps;
mod swept;

pub use closing::is_wanted_at;
pub use mark::ListMark;
pub use passes::sweep;
pub use swept::Swept;
