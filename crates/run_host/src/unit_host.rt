//! A host for looking at what a script asks.
#![tactic(auto, using(rhai_base::specs::Reading::kinds))]

ghost use Rattle.std.specs.Prelude.{None};
ghost use Rattle.rhai_base.specs.Value.{UnitV};
ghost use Rattle.theory_meaning.specs.Act.{Answers};
ghost use Rattle.run_host.specs.Host.{no_modules};

use crate::{Host, HostAnswer, HostCall};
use rhai_base::{Dynamic, ImmutableString, OutOfMemory};
use std::alloc::Global;

/// Answers each call by unit, and has no modules.
#[derive(Clone, Copy, Debug, PartialEq, Eq)]
pub struct UnitHost;

impl Host for UnitHost {
    ghost answers = { λ host past call. Answers UnitV None };

    ghost modules = { λ host. no_modules };

    fn answer(
        &self,
        _alloc: Global,
        _past: &[HostCall],
        _call: &HostCall,
    ) -> Result<HostAnswer, OutOfMemory> {
        Ok(HostAnswer::Value {
            value: Dynamic::Unit,
            receiver: None,
        })
    }

    fn module_value(
        &self,
        _alloc: Global,
        _qualified: &str,
    ) -> Result<Option<Dynamic>, OutOfMemory> {
        Ok(None)
    }

    fn module(&self, _alloc: Global, _path: &str) -> Result<Option<ImmutableString>, OutOfMemory> {
        Ok(None)
    }
}
