//! What may be asked of expressions and of calls, the values of literals, and calls as expressions.
//!
//! The calls stand here with their contracts; the recursions over a tree that they are made of stand in crates below.

mod call;
mod expr;
mod into_expr;
mod literals;

pub use call::CallQueries;
pub use expr::ExprQueries;
pub use into_expr::IntoExpr;
pub use literals::Literals;
