//! The rules at assignments and at shared names, in their place. Where none fires nothing is moved. None takes memory.

mod assignment;
mod leaves_names;
mod share;

pub use assignment::step_assignment;
pub use share::step_share;
