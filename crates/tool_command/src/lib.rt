//! The command over files: what its words ask, and what it answers.
#![tactic(auto)]

mod answer;
mod bad_value;
mod command;
mod constants;
mod diff;
mod entry;
mod files;
mod folders;
mod heads;
mod line_ends;
mod listed;
mod marks;
mod places;
mod printed;
mod promise;
mod reach;
mod request;
mod runs;
mod stack;
mod task;
mod words;

pub use command::run_words;
pub use files::{Files, Found};
