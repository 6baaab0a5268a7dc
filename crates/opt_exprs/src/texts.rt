//! The rules of interpolated texts and of map literals.

mod joining;
mod nodes;
mod parts;

pub use nodes::{step_map, step_text};
