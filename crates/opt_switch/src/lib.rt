//! The rules at a `switch`: over a constant what its arms decide, and tables that get smaller in their own memory.
#![tactic(auto)]

mod arms;
mod choice;
mod decide;
mod forget;
mod narrow;
mod shrink;
mod step;
mod tables;
mod tried;

pub use decide::decide_switch;
pub use step::step_switch;
