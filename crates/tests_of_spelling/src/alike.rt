//! Scripts of the notation, printed in rhai's own syntax and read again: they run as they did, and so does what both are
//! optimised to.

use crate::spelled::{optimized, read_again};
use demo::ProgramHost;
use notation_read::read_script;
use rhai_base::{OutOfMemory, Scope};
use rhai_run::{EngineInfo, plain_run};
use rhai_script::AST;
use run_host::push_report;
use std::alloc::{AllocError, Global};
use std::fmt::Write;
use syntax_source::{SourceError, Written, push_source, source};
use tests_reader::{Block, blocks_of};

/// How many turns a run has.
const TURNS: u64 = 50;

/// What comes of a script.
#[derive(Clone, Copy)]
enum Ended {
    /// It is printed as a text that is known to do the same, and runs as that does.
    Alike,
    /// Its text is not known to do the same, by the order of a table's arms alone, and runs as it does.
    Reordered,
    /// No text spells it.
    Refused,
    /// The notation's reader does not read it.
    Unread,
    /// Something else.
    Other,
}

/// How many scripts came to each end.
#[derive(Clone, Copy)]
struct Counts {
    alike: usize,
    reordered: usize,
    refused: usize,
    unread: usize,
}

/// Says of which scripts something else comes, and how many come to each other end.
pub(crate) fn ask(alloc: Global, rows: &str) -> Result<String, AllocError> {
    let mut said = String::new(alloc);
    let mut counts = Counts {
        alike: 0,
        reordered: 0,
        refused: 0,
        unread: 0,
    };
    for block in blocks_of(alloc, rows)? {
        match end_of(alloc, block)? {
            Ended::Alike => counts.alike = counts.alike.saturating_add(1),
            Ended::Reordered => counts.reordered = counts.reordered.saturating_add(1),
            Ended::Refused => counts.refused = counts.refused.saturating_add(1),
            Ended::Unread => counts.unread = counts.unread.saturating_add(1),
            Ended::Other => writeln!(said, "==== {}\n{}", block.head, block.text)?,
        }
    }
    let Counts {
        alike,
        reordered,
        refused,
        unread,
    } = counts;
    writeln!(
        said,
        "alike: {alike} alike, {reordered} reordered, {refused} refused, {unread} not read"
    )?;
    Ok(said)
}

fn end_of(alloc: Global, block: Block<'_>) -> Result<Ended, AllocError> {
    let Ok(script) = read_script(alloc, block.text) else {
        return Ok(Ended::Unread);
    };
    match source(alloc, &script) {
        Ok(written) => printed(alloc, script, written),
        Err(error) => refused(alloc, script, error),
    }
}

/// What comes of a script that is handed out so.
fn printed(alloc: Global, script: AST, written: Written) -> Result<Ended, AllocError> {
    let Written {
        text,
        script: again,
    } = written;
    if !is_pushed(alloc, &script, text.as_str())? {
        return Ok(Ended::Other);
    }
    compared(alloc, script, again, Ended::Alike)
}

/// What comes of one that is not.
fn refused(alloc: Global, script: AST, error: SourceError) -> Result<Ended, AllocError> {
    match error {
        SourceError::Unspelled(_spelling) => Ok(Ended::Refused),
        SourceError::Unread(_reason) => Ok(Ended::Other),
        SourceError::AnotherScript => reordered(alloc, script),
        SourceError::OutOfMemory => Ok(Ended::Other),
    }
}

/// Whether a script's text is appended as it is handed out.
fn is_pushed(alloc: Global, script: &AST, text: &str) -> Result<bool, AllocError> {
    let mut pushed = String::new(alloc);
    pushed.push_str("before ")?;
    let is_done = push_source(script, &mut pushed).is_ok();
    Ok(is_done && pushed.as_str().strip_prefix("before ") == Some(text))
}

fn reordered(alloc: Global, script: AST) -> Result<Ended, AllocError> {
    match read_again(alloc, &script)? {
        Ok(again) => compared(alloc, script, again, Ended::Reordered),
        Err(_) => Ok(Ended::Other),
    }
}

/// This end, if two scripts run alike, as they are and optimised.
fn compared(alloc: Global, first: AST, second: AST, end: Ended) -> Result<Ended, AllocError> {
    let is_alike = report(alloc, &first)? == report(alloc, &second)?;
    let (first, second) = (optimized(alloc, first)?, optimized(alloc, second)?);
    if is_alike && report(alloc, &first)? == report(alloc, &second)? {
        return Ok(end);
    }
    Ok(Ended::Other)
}

fn report(alloc: Global, script: &AST) -> Result<String, AllocError> {
    let (info, scope) = (EngineInfo::new(alloc), Scope::new(alloc));
    let report = kept(plain_run(alloc, script, &info, &ProgramHost, &scope, TURNS))?;
    let mut text = String::new(alloc);
    kept(push_report(&report, &mut text))?;
    Ok(text)
}

fn kept<T>(made: Result<T, OutOfMemory>) -> Result<T, AllocError> {
    match made {
        Ok(made) => Ok(made),
        Err(OutOfMemory) => Err(AllocError),
    }
}
