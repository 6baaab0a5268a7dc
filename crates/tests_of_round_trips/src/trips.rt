//! A script that is optimised, printed, and read again.

use crate::runs::report;
use rhai_base::OutOfMemory;
use rhai_optimizer::{OptimizationLevel, optimize_ast};
use rhai_run::EngineInfo;
use rhai_script::AST;
use std::alloc::{AllocError, Global};
use syntax_source::{Refusal, SourceError, Syntax, Why, Written, optimize_text, source};

/// What comes of a script at a level.
#[derive(Drop)]
pub(crate) enum Trip {
    /// It is printed.
    Printed(Again),
    /// It is not, for this reason.
    Refused(String),
}

/// What a printed text is once it is read.
#[derive(Clone, Copy)]
pub(crate) struct Again {
    /// Whether it is printed by the same letters.
    pub(crate) is_stable: bool,
    /// Whether it is optimised to the same letters.
    pub(crate) is_settled: bool,
    /// Whether it runs as the script that was printed.
    pub(crate) is_alike: bool,
}

/// What comes of a script at a level.
pub(crate) fn trip_of(
    alloc: Global,
    info: &EngineInfo,
    script: &AST,
    level: OptimizationLevel,
) -> Result<Trip, AllocError> {
    let script = script.clone()?;
    let script = kept(optimize_ast(alloc, info, None, script, level))?;
    match source(alloc, &script) {
        Ok(written) => Ok(Trip::Printed(Again {
            is_stable: is_stable(alloc, &written)?,
            is_settled: is_settled(alloc, info, &written, level)?,
            is_alike: report(alloc, info, &script)? == report(alloc, info, &written.script)?,
        })),
        Err(SourceError::OutOfMemory) => Err(AllocError),
        Err(error) => Ok(Trip::Refused(format!(in alloc; "{error}")?)),
    }
}

fn is_stable(alloc: Global, written: &Written) -> Result<bool, AllocError> {
    match source(alloc, &written.script) {
        Ok(again) => Ok(again.text == written.text),
        Err(SourceError::OutOfMemory) => Err(AllocError),
        Err(_) => Ok(false),
    }
}

fn is_settled(
    alloc: Global,
    info: &EngineInfo,
    written: &Written,
    level: OptimizationLevel,
) -> Result<bool, AllocError> {
    match optimize_text(alloc, Syntax::default(), written.text.as_str(), info, level) {
        Ok(again) => Ok(again.text == written.text),
        Err(
            Refusal {
                why: Why::OutOfMemory,
                ..
            },
        ) => Err(AllocError),
        Err(_) => Ok(false),
    }
}

pub(crate) fn kept<T>(made: Result<T, OutOfMemory>) -> Result<T, AllocError> {
    match made {
        Ok(made) => Ok(made),
        Err(OutOfMemory) => Err(AllocError),
    }
}
