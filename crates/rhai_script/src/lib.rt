//! Scripts: statements with a table of functions.
#![tactic(auto)]

mod apart;
mod ast;
mod check;
mod tables;

pub use ast::{AST, AstParts};
pub use script_names::Names;
pub use script_tables::{Doc, FnKey, FnLib, FnLibIter, SharedLib};
