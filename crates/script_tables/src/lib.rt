//! Tables of functions, and the parts that scripts are put together from.
#![tactic(auto)]

mod filter;
mod fn_lib;
mod fn_table;
mod id;
mod parts;

pub use filter::{chosen_functions, kept_functions, shared_functions};
pub use fn_lib::{
    FnLib, SharedLib, allocator_of, copy_of_id, replaced, take_id, unshared, with_all, without_id,
};
pub use fn_table::{FnKey, FnLibIter};
pub use id::name_of;
pub use parts::{
    Doc, append, joined, no_functions, only_chosen, own_copy, put_all, put_chosen, retained,
    take_name,
};
