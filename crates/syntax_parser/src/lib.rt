//! Reads scripts in rhai's own syntax: a text becomes a script whose nodes stand where the text's do. The page
//! docs/SYNTAX.md has the grammar.
#![tactic(auto)]

mod assignments;
mod calls;
mod chains;
mod closures;
mod declarations;
mod error;
mod errors;
mod exits;
mod expressions;
mod flow;
mod functions;
mod inside;
mod literals;
mod nodes;
mod operators;
mod options;
mod parser;
mod script;
mod statements;
mod switches;
mod tables;
mod texts;
mod variables;

pub use error::{LexError, ParseError, ParseErrorType};
pub use errors::parse_errors;
pub use options::ParseOptions;
pub use script::{compile, compile_expression, compile_expression_with, compile_with};
