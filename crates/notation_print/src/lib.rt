//! How nodes and scripts are printed in the notation. A refused call can leave a part of what it appends.
#![tactic(auto)]

mod constants;
mod names;
mod nodes;
mod printed;
mod scripts;
mod tables;

pub use printed::{Notation, Printed};
pub use scripts::{push_lines, push_script};
