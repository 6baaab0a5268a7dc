//! The children of a node, one after another, and walks over trees: what goes down a tree asks for the children of a
//! node, and not for its kind.

mod arms;
mod children;
mod every;
mod node;
mod parts;
mod stop;
mod walk;

pub use children::Children;
pub use every::{NodeTest, every_below, every_body, every_statement};
pub use node::{ASTNode, ChainType, Child, Spot};
pub use walk::{walk_expr, walk_statements, walk_stmt};
