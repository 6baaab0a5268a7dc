//! Reduces lists of statements in their place: the recursion over every node, until no rule fires at any.
#![tactic(auto)]

mod blocks;
mod cycle;
mod leaf;
mod lists;
mod names;
mod pass;

pub use cycle::Optimizer;
