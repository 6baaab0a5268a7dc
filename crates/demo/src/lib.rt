//! The program as a library: the scripts that it knows by their names, the host of its runs, what it can be asked and what
//! it prints.
#![tactic(auto)]

mod builtin;
mod constants;
mod expressions;
mod lines;
mod merge;
mod modules;
mod names;
mod program;
mod program_host;
mod request;
mod statements;
mod switch;

pub use builtin::BuiltinScript;
pub use program::{both_reports, run_words};
pub use program_host::ProgramHost;
pub use request::Request;
