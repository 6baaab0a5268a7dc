//! What a run asks its host, and what it reports; a report in print.
#![tactic(auto)]

mod host;
mod print;
mod report;
mod text;
mod unit_host;

pub use host::{Host, HostAnswer, HostCall, ask};
pub use print::push_report;
pub use report::{Export, RunEnd, RunReport, Stuck, Variable};
pub use text::push_text;
pub use unit_host::UnitHost;
