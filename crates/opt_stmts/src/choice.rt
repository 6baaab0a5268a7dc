//! The rules at an `if` whose parts are optimised already, in its place. Where none fires nothing is moved, and no
//! memory is taken.

mod choice;
mod nested;
mod step;

pub use choice::is_empty;
pub use step::{decide_if, step_if};
