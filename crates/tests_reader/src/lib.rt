//! Reads what is asked for tests, by notation_read, and what a run is given. Asks the questions of rows, and takes
//! what is said to them.
#![tactic(auto)]

mod blocks;
mod following;
mod joined;
mod odd;
mod questions;
mod reading;
mod rows;
mod said;
mod stops;

pub use blocks::{Block, BlockQuestion, ask_blocks, blocks_of};
pub use following::parting;
pub use notation_read::Script;
pub use questions::{Answers, ask_all};
pub use rows::{AnswerRow, read_answer, read_binding};
pub use said::{Said, split};
pub use stops::{Stops, Told};
