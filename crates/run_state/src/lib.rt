//! The state of a run, how its parts end, and what they make of values; the language's own words.
#![tactic(auto)]

mod counting;
mod entries;
mod exits;
mod pointers;
mod state;
mod values;
mod words;

pub use counting::{declare_count, next_count, nth, rounds_before, rounds_through};
pub use entries::{Entry, EntryKind};
pub use exits::{
    body_ended, branch_ended, declare_caught, ends_at, function_ended, function_exit, loop_exit,
    round_ended, run_end,
};
pub use pointers::{curried, pointed, pointed_with, pointer_to};
pub use state::{Interrupt, Mark, State};
pub use values::{constant, joined_text, some_value, truth};
pub use words::{Word, is_shared, is_shared_by};
