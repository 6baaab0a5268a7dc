//! The syntax tree of scripts: its nodes, what may be asked of them, and the tests of a tree.
//!
//! The calls stand here with their contracts; the recursions over a tree that they are made of stand in crates below.
#![tactic(auto)]

mod block;
mod check;
mod exprs;
mod faults;
mod node;
mod place;
mod stmts;
mod switch;
mod take;
mod walk;
mod walker;

pub use ast_types::{
    BinaryExpr, Expr, FlowControl, FnAccess, FnCallExpr, FnNamespace, ScriptFuncDef, Stmt,
    StmtBlock, StmtBlockContainer, SwitchBlock, SwitchCasesCollection,
};
pub use block::FromStmt;
pub use check::{check_tree, is_plain};
pub use exprs::{CallQueries, ExprQueries, IntoExpr, Literals};
pub use faults::{
    TreeError, check_functions, check_stmts, is_barred_call, is_formed, is_rest, test_keys,
};
pub use node::NodeQueries;
pub use place::SetPosition;
pub use rhai_base::{CaseBlocksList, Cases, TreeFault};
pub use stmts::StmtQueries;
pub use switch::SwitchCases;
pub use take::Take;
pub use walk::Walk;
pub use walker::{
    ASTNode, ChainType, Children, NodeTest, every_below, every_body, every_statement,
    walk_statements,
};
