//! The receiver of a chain's step: what the host answers for it, and where its new value goes; what an expression is
//! as a left side.

mod asking;
mod left_sides;

pub use asking::{ask_for, put_back, set_by_host};
pub use left_sides::left_side;
