//! What the rules stand on: the names that are known and whether a rule has fired; what operators over constants answer;
//! one step at a node; and what is asked of nodes at any depth, by reference and without memory.
#![tactic(auto)]

mod bindings;
mod captures;
mod constants;
mod evals;
mod exports;
mod folding;
mod known;
mod level;
mod names;
mod place;
mod putting;
mod state;
mod step;
mod surely_unit;
mod whole;

pub use captures::captures_nothing;
pub use constants::constant_bool;
pub use evals::calls_no_eval;
pub use exports::exports_nothing;
pub use folding::folded;
pub use known::known_value;
pub use level::OptimizationLevel;
pub use names::KnownNames;
pub use place::{Place, may_be_unit, may_stand};
pub use putting::{fold_constant, note_fired, put_constant, put_nothing, put_unit};
pub use state::OptimizerState;
pub use step::{NodeStep, step_of};
pub use surely_unit::is_surely_unit;
pub use whole::has_whole_parts;
