//! Rules at expressions: operators that see constants, texts and maps, and calls whose answer is known.
#![tactic(auto)]

mod calls;
mod operands;
mod texts;

pub use calls::{step_call, step_call_statement};
pub use operands::step_operands;
pub use texts::{step_map, step_text};
