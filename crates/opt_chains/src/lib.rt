//! Rules at chains: what constants answer that are asked for a part, and chains that lose their first links.
#![tactic(auto)]

mod chain;
mod parts;

pub use chain::step_chain;
