//! Scripts as texts: they are read, optimised, merged and printed. What is printed in rhai's own syntax is read again
//! and compared before it is handed out.
#![tactic(auto)]

mod entry;
mod error;
mod known;
mod merged;
mod optimized;
mod printed;
mod reader;
mod reasons;
mod refusal;
mod syntax;

pub use entry::entered;
pub use error::SourceError;
pub use known::constants;
pub use merged::merge;
pub use optimized::{OptimizedText, optimize_text, optimize_text_by};
pub use printed::{Written, push_source, source, source_by};
pub use reader::Reader;
pub use reasons::refusals;
pub use refusal::{Refusal, Why};
pub use syntax::{Syntax, read, write};
pub use syntax_print::{SpellError, Unspelled};

/// The version of all that stands here.
pub const VERSION: &str = "0.1.0";
