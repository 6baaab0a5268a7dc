//! Whether two scripts are the same but for how they are spelled, and whether they say the same beside what runs.
#![tactic(auto)]

mod captures;
mod closures;
mod constants;
mod dressed;
mod forms;
mod listed;
mod marks;
mod nodes;
mod order;
mod scripts;
mod tables;

pub use dressed::dressed_alike;
pub use scripts::{spelled_alike, spelled_alike_but_names};
