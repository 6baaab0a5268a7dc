//! Calls over constants: operators that are built in, and the language's own functions. Each becomes the constant that
//! it answers.

mod answers;
mod calls;
mod putting;
mod steps;

pub use steps::{step_call, step_call_statement};
