//! Reads scripts, statements and values in the notation of notation_print. What is read prints as the text that was
//! read, byte by byte, where the last line may lack its end; and each node stands where its text does. An error says
//! where the text stops being one that is printed.
#![tactic(auto)]

mod error;
mod floats;
mod forms;
mod functions;
mod joined;
mod letters;
mod marks;
mod names;
mod nodes;
mod parts;
mod place;
mod tables;
mod texts;
mod tree;
mod values;

pub use error::ReadError;
pub use functions::{Script, read_parts};
pub use marks::{Marks, NoMarks};
pub use place::position_behind;
pub use texts::{read_script, read_statements, read_value};
pub use tree::read_lines;
pub use values::parse_value;
