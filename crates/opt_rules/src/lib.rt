//! The rewrite rules at a node whose parts are optimised already, one after another until none fires.
#![tactic(auto)]

mod expressions;
mod names;
mod nodes;

pub use nodes::{decide_stmt, reduce_expr, reduce_stmt};
pub use opt_base::{OptimizerState, Place};
