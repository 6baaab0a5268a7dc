//! Boxes and lists, which contracts see as what they hold.
#![tactic(auto)]

mod boxed;
mod rest;
mod seq;

pub use boxed::Boxed;
pub use rest::Rest;
pub use seq::Seq;
