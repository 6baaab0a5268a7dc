//! The tests of a tree: what stands beneath `check_tree` and `is_plain` of `rhai_ast`.

mod alone;
mod around;
mod check;
mod error;
mod map_keys;
mod plain;
mod shape;

pub use check::{check_functions, check_stmts};
pub use error::TreeError;
pub use map_keys::test_keys;
pub use plain::{are_plain, are_plain_functions, is_barred_call};
pub use shape::{is_formed, is_rest};
