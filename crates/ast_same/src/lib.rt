//! Whether two scripts are the same, node by node: all that the meaning's trees hold is compared, and nothing else.
//! Positions, indices of variables and modules, doc comments, access, sources and room for more items are not. No call
//! takes memory, and each takes time linear in the first tree.
#![tactic(auto)]

mod hashes;
mod leaves;
mod names;
mod nodes;
mod parts;
mod scripts;
mod tables;

pub use hashes::function_hash;
pub use scripts::{same_but_name, same_expr, same_function, same_script, same_stmt, same_stmts};
