//! Rules at statements: blocks, loops, `try`, `if`, assignments, shares.
#![tactic(auto)]

mod assign;
mod block;
mod choice;
mod expression;
mod loops;
mod made;
mod try_catch;

pub use assign::{step_assignment, step_share};
pub use block::step_block;
pub use choice::{decide_if, step_if};
pub use expression::{open_braces, step_expression};
pub use loops::step_while;
pub use try_catch::step_try;
