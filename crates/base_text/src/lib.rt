//! Shared texts, and maps from them, which contracts see as what they hold.
#![tactic(auto)]

mod immutable_string;
mod string_map;

pub use immutable_string::ImmutableString;
pub use string_map::StringMap;
