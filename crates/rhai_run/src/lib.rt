//! A plain evaluator. Passes on the engine's record, which fixes what holds for every script, and what a run asks and
//! reports.
#![tactic(auto)]

mod run;

pub use base_engine::EngineInfo;
pub use run::plain_run;
pub use run_host::{Export, Host, HostAnswer, HostCall, RunEnd, RunReport, Stuck, Variable};
