//! The steps of chains: parts of what a chain has come to, found, written, and assigned to by an operator.

mod assigning;
mod direct;
mod finding;
mod following;
mod setting;

pub use assigning::{assign_index, assign_place, assign_property};
pub use direct::{direct_root, direct_value};
pub use finding::{index_step, property_step};
pub use following::follow_root;
pub use setting::set_at;
