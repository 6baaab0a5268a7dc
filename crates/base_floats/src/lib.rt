//! The digits of floats: the fewest that are read as the float.
#![tactic(auto)]

mod digits;
mod layout;

pub use layout::write_float;
