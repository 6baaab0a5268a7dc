//! The traits that carry calls which are inherent to their types in rhai: `use rhai_lang::prelude::*;` brings them.

pub use bitflags::Flags;
pub use notation_print::Notation;
pub use rhai_ast::{
    CallQueries, ExprQueries, FromStmt, IntoExpr, Literals, NodeQueries, SetPosition, StmtQueries,
    SwitchCases, Take, Walk,
};
pub use script_queries::ScriptQueries;
