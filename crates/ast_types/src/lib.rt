//! The syntax tree: its declared types, copies of trees, and which tree of the meaning each stands for.
#![tactic(auto)]

mod block;
mod copy;
mod expr;
mod script_fn;
mod stmt;
mod switch;

pub use block::{StmtBlock, StmtBlockContainer};
pub use expr::{BinaryExpr, Expr, FnCallExpr};
pub use script_fn::{FnAccess, FnNamespace, ScriptFuncDef};
pub use stmt::{FlowControl, Stmt};
pub use switch::{SwitchBlock, SwitchCasesCollection};
