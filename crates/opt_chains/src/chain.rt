//! The rules at a chain whose parts are reduced: a part of a constant, of a literal or of a known name takes its place.

mod chain;
mod onward;

pub use chain::step_chain;
pub use opt_base::{OptimizerState, Place};
