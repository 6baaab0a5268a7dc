//! What a run does as lines of parts, which no script can forge: texts are literals, and a line end or a tab of a script's
//! stands nowhere in them.
#![tactic(auto)]

mod letters;
mod lines;
mod values;

pub use lines::push_parts;
pub use values::push_literal;
