//! The evaluator: what the run meaning says of trees, done over them. Its single steps are those of `run_steps`.
#![tactic(auto)]

mod assigning;
mod calling;
mod chains;
mod choosing;
mod counting;
mod evaluator;
mod exits;
mod invoking;
mod logic;
mod loops;
mod methods;
mod modules;
mod statements;
mod targets;

pub use evaluator::Evaluator;
