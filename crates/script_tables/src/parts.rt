//! What scripts are made of: doc texts, lists of statements and tables of functions, joined and chosen from.

mod statements;
mod tables;
mod text;

pub use statements::{append, joined};
pub use tables::{no_functions, only_chosen, own_copy, put_all, put_chosen, retained, take_name};
pub use text::Doc;
