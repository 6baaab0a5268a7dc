//! What the steps of a run stand on.

#![tactic(auto, using(ast_types::specs::Reading::shapes, rhai_base::specs::Reading::kinds))]

ghost use Rattle.std.specs.Prelude.{◌≡◌, ◌<◌};

use base_engine::EngineInfo;
use run_host::Host;
use script_tables::FnLib;
use std::alloc::Global;

/// What the steps of a run stand on: the engine's record, what answers the host's calls, and the script's functions.
#[derive(Drop)]
pub struct Machine<'a, H> {
    /// Where values are made.
    pub alloc: Global,
    /// The engine's record.
    pub info: &'a EngineInfo,
    /// What answers the host's calls.
    pub host: &'a H,
    /// The script's functions.
    pub functions: &'a FnLib,
}

impl<'a, H: Host> Machine<'a, H> {
    /// The same machine, which borrows the same.
    pub fn again(&self) -> Machine<'a, H>
        ensures { result ≡ self.now }
    {
        Machine {
            alloc: self.alloc,
            info: self.info,
            host: self.host,
            functions: self.functions,
        }
    }
}
