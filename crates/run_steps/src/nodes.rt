//! What the run reads off a node: the operator a call stands for, links of chains, left sides, names.

mod catching;
mod left_sides;
mod links;
mod maps;
mod operators;
mod variables;

pub use catching::catch_name;
pub use left_sides::{LeftSide, ends_in_call, named_side, part_side};
pub use links::{Link, Rest, is_chain};
pub use maps::{insert, is_map};
pub use operators::{
    asks_assigning, assigning_name, assigning_operator, builtin, fault_text, is_callable,
    operator_called, two_operands,
};
pub use variables::{Root, latest_constant, module_at, named_root, position, qualified, root_of};
