//! Short ways to make the nodes that every parser makes. Each takes the position of its node.
#![tactic(auto)]

mod expressions;
mod functions;
mod statements;

pub use expressions::{array, block_expr, call, fn_call, index, integer, operator, text, variable};
pub use functions::function;
pub use statements::{assignment, block_stmt, call_stmt, declaration, expr_stmt, ident};
