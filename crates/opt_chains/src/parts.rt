//! What a step of a chain answers: by value at a constant or at a known name, a part of a constant, which is moved out, or
//! one of a literal, found by reference and then taken out.

mod answers;
mod known;
mod literals;
mod moved;

pub use answers::constant_answer;
pub use known::known_answer;
pub use literals::{Found, literal_answer, take_part};
pub use moved::move_part;
