//! Scripts whose closures have other names. Closures are functions without a name of their own (`anon$..`); constants
//! point to them.
#![tactic(auto)]

mod functions;
mod naming;
mod nodes;
mod steps;
mod values;

pub use functions::renamed_function;
pub use naming::{Names, is_anonymous};
pub use nodes::{renamed_block, renamed_expr, renamed_stmts};
pub use values::renamed_value;
