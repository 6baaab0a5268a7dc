//! A host that answers what rhai's standard packages have over integers, texts, arrays, maps and ranges, without calling
//! back.
#![tactic(auto)]

mod arrays;
mod bits;
mod forms;
mod maps;
mod numbers;
mod parts;
mod reading;
mod standard_host;
mod texts;

pub use standard_host::StandardHost;
