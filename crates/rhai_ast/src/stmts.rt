//! What may be asked of statements.
//!
//! The calls stand here with their contracts; the recursions over a tree that they are made of stand in crates below.

mod stmt;

pub use stmt::StmtQueries;
