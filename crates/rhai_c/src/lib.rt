//! The library for C, and for whatever calls C: texts in, and texts out into the caller's room. `bindings/c/balvuzsom.h`
//! says what a caller owes; `bindings/rust` wraps it.
#![tactic(auto)]

mod asked;
mod calls;
mod codes;
mod options;
mod room;

pub use calls::{
    balvuzsom_check, balvuzsom_merge, balvuzsom_optimize, balvuzsom_run, balvuzsom_version,
};
pub use options::BalvuzsomOptions;
pub use room::BalvuzsomRefusal;
