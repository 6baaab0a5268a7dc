//! What the parts of a syntax tree are told apart by: tokens, assignments, names, flags, positions; and refusals.
#![tactic(auto)]

mod error;
mod flags;
mod fn_name;
mod ident;
mod namespace;
mod op_assignment;
mod position;
mod token;

pub use error::{AstError, Fault, OutOfMemory, TreeFault};
pub use flags::ASTFlags;
pub use fn_name::{FnName, is_among, is_reserved};
pub use ident::Ident;
pub use namespace::Namespace;
pub use op_assignment::OpAssignment;
pub use position::{Position, Span};
pub use token::Token;
