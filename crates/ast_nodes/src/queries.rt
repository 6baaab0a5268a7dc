//! What may be asked of a tree, by reference and without memory: the recursions beneath the queries of `rhai_ast`.

mod block_dependence;
mod constants;
mod floatless;
mod internal_purity;
mod operators;
mod positions;
mod purity;
mod switch_table;

pub use block_dependence::is_block_dependent;
pub use constants::{are_constant, is_constant};
pub use floatless::{are_floatless, is_floatless};
pub use internal_purity::is_internally_pure;
pub use operators::{is_call_of, operands};
pub use positions::{position, start_position, stmt_position};
pub use purity::{is_pure, is_pure_expr};
pub use switch_table::{is_table, table_refusal};
