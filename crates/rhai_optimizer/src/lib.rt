//! The optimiser of scripts: their statements and functions, over the recursion of opt_reducer.
#![tactic(auto)]

mod functions;
mod optimizer;
mod passes;
mod start;

pub use opt_base::{KnownNames, OptimizationLevel, OptimizerState};
pub use optimizer::{optimize_ast, optimize_counted, optimize_into_ast};
