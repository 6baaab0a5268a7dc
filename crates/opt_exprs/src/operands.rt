//! The rules over the operands of `&&`, `||` and `??`, in their own memory.

mod few;
mod nodes;
mod operation;
mod pass;

pub use nodes::step_operands;
