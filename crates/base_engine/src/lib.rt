//! The engine's record: what an engine fixes for every script, below the evaluator and the optimiser.
#![tactic(auto, using(crate::proofs::Overrides::steps, crate::proofs::Latest::latest))]

mod engine_info;

pub use engine_info::{EngineConstants, EngineInfo};
