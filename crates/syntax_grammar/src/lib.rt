//! Whether a text spells an expression or a script: one walk over the tree, which goes past the words of the text.
#![tactic(auto)]

mod atoms;
mod blanks;
mod chains;
mod covered;
mod decimals;
mod ends;
mod exprs;
mod floats;
mod functions;
mod letters;
mod lists;
mod marks;
mod memory;
mod names;
mod numbers;
mod parens;
mod parts;
mod paths;
mod quoted;
mod scripts;
mod simple;
mod statements;
mod words;

pub use exprs::is_spelled;
pub use scripts::{covers, covers_script, is_one_expression, is_one_script, is_script_spelled};
