//! What a run is made of beneath its recursion: its single steps, what they read off a node, and the steps of chains.
#![tactic(auto)]

mod chains;
mod nodes;
mod receivers;
mod steps;

pub use chains::{
    assign_index, assign_place, assign_property, direct_root, direct_value, follow_root,
    index_step, property_step, set_at,
};
pub use nodes::{
    LeftSide, Rest, Root, assigning_operator, catch_name, ends_in_call, insert, is_callable,
    is_chain, is_map, operator_called, qualified, root_of, two_operands,
};
pub use receivers::{left_side, put_back};
pub use steps::{Access, Current, Found, Machine, Place, PropertyNames, at_key};
