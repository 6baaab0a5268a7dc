//! What calls answer, as texts.

ghost use Rattle.std.specs.Prelude.{◌≡◌, IfOk, string_bytes};
ghost use Rattle.rhai_c.specs.Options.{IsMerged, IsOptimized};

use crate::codes::Failure;
use crate::options::BalvuzsomOptions;
use base_engine::EngineInfo;
use rhai_base::{Position, Scope};
use rhai_run::plain_run;
use run_host::UnitHost;
use std::alloc::{AllocError, Global};
use std::fmt::Write;
use std::str;
use syntax_source::{OptimizedText, Written, constants, merge, optimize_text, read};
use tool_findings::findings;
use tool_report::push_parts;

/// The text of an optimised script.
pub(crate) fn optimized(
    alloc: Global,
    source: &[u8],
    known: &[u8],
    options: &BalvuzsomOptions,
) -> Result<String, Failure>
    ensures { IfOk result (λ text. IsOptimized options.now source.now (string_bytes text)) }
{
    let (syntax, level) = options.chosen()?;
    let source = text_of(source)?;
    let info = record_of(alloc, known)?;
    let OptimizedText { text, .. } = optimize_text(alloc, syntax, source, &info, level)?;
    Ok(text)
}

/// What is found in a script, on a line each: the line and the column, and what it is.
pub(crate) fn checked(
    alloc: Global,
    source: &[u8],
    known: &[u8],
    options: &BalvuzsomOptions,
) -> Result<String, Failure> {
    let (syntax, _) = options.chosen()?;
    let script = read(alloc, syntax, text_of(source)?)?;
    let info = record_of(alloc, known)?;
    let mut text = String::new(alloc);
    for finding in &findings(alloc, &script, &info)? {
        push_place(finding.position, &mut text)?;
        writeln!(text, "{finding}")?;
    }
    Ok(text)
}

/// What a run of a script reports, with a host that answers each call by unit.
pub(crate) fn reported(
    alloc: Global,
    source: &[u8],
    known: &[u8],
    options: &BalvuzsomOptions,
) -> Result<String, Failure> {
    let (syntax, _) = options.chosen()?;
    let script = read(alloc, syntax, text_of(source)?)?;
    let info = record_of(alloc, known)?;
    let scope = Scope::new(alloc);
    let report = plain_run(alloc, &script, &info, &UnitHost, &scope, options.turns)?;
    let mut text = String::new(alloc);
    push_parts(&report, &mut text)?;
    Ok(text)
}

/// The text of two scripts as one.
pub(crate) fn merged(
    alloc: Global,
    first: &[u8],
    second: &[u8],
    options: &BalvuzsomOptions,
) -> Result<String, Failure>
    ensures { IfOk result (λ text. IsMerged options.now first.now second.now (string_bytes text)) }
{
    let (syntax, _) = options.chosen()?;
    let (first, second) = (text_of(first)?, text_of(second)?);
    let Written { text, .. } = merge(alloc, syntax, first, second)?;
    Ok(text)
}

/// Bytes as a text.
fn text_of(bytes: &[u8]) -> Result<&str, Failure>
    ensures { IfOk result (λ text. text.now ≡ bytes.now) }
{
    match str::from_utf8(bytes) {
        Ok(text) => Ok(text),
        Err(_) => Err(Failure::Bytes),
    }
}

/// The record with the constants that are known.
fn record_of(alloc: Global, known: &[u8]) -> Result<EngineInfo, Failure> {
    let known = text_of(known)?;
    match constants(alloc, known) {
        Ok(info) => Ok(info),
        Err(refusal) => Err(Failure::Constants(refusal)),
    }
}

/// The line and the column, 0 of what stands nowhere.
fn push_place(position: Position, to: &mut String) -> Result<(), AllocError> {
    let line = position.line().unwrap_or(0);
    let column = position.position().unwrap_or(0);
    write!(to, "{line}:{column}: ")
}
