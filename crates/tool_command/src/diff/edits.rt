//! What became of each line.

use super::anchors::anchors;
use std::alloc::{AllocError, Global};

/// What became of a line.
#[derive(Clone, Copy, Debug, PartialEq, Eq)]
pub(crate) enum Change {
    /// It stayed.
    Kept,
    /// It went.
    Went,
    /// It came.
    Came,
}

/// A line, and what became of it.
#[derive(Clone, Copy)]
pub(crate) struct Edit<'a> {
    pub(crate) change: Change,
    pub(crate) line: &'a str,
}

/// What turns the old lines into the new ones. Lines that stand once in both and in one order stay; between two of
/// these, those that the lists begin and end with alike do too.
pub(crate) fn edits<'a>(
    alloc: Global,
    old: &[&'a str],
    new: &[&'a str],
) -> Result<Vec<Edit<'a>>, AllocError> {
    let mut edits = Vec::new(alloc);
    let (mut old_from, mut new_from): (usize, usize) = (0, 0);
    for (old_at, new_at) in &anchors(alloc, old, new)? {
        let went = between(old, old_from, *old_at);
        let came = between(new, new_from, *new_at);
        push_gap(went, came, &mut edits)?;
        old_from = *old_at;
        new_from = *new_at;
    }
    let went = between(old, old_from, old.len());
    let came = between(new, new_from, new.len());
    push_gap(went, came, &mut edits)?;
    Ok(edits)
}

/// The lines from one place up to another.
fn between<'s, 'a>(lines: &'s [&'a str], from: usize, to: usize) -> &'s [&'a str] {
    let to = to.min(lines.len());
    &lines[from.min(to)..to]
}

/// The edits between two lines that stay: what the lists begin and end with alike stays, the rest goes and comes.
fn push_gap<'a>(
    old: &[&'a str],
    new: &[&'a str],
    edits: &mut Vec<Edit<'a>>,
) -> Result<(), AllocError> {
    let start = alike_from_start(old, new);
    let old_rest = between(old, start, old.len());
    let new_rest = between(new, start, new.len());
    let end = alike_to_end(old_rest, new_rest);
    let old_end = old.len().saturating_sub(end);
    let new_end = new.len().saturating_sub(end);
    push_each(Change::Kept, between(old, 0, start), edits)?;
    push_each(Change::Went, between(old, start, old_end), edits)?;
    push_each(Change::Came, between(new, start, new_end), edits)?;
    push_each(Change::Kept, between(old, old_end, old.len()), edits)
}

fn push_each<'a>(
    change: Change,
    lines: &[&'a str],
    edits: &mut Vec<Edit<'a>>,
) -> Result<(), AllocError> {
    for line in lines {
        edits.push(Edit {
            change,
            line: *line,
        })?;
    }
    Ok(())
}

/// How many lines both begin with.
fn alike_from_start(old: &[&str], new: &[&str]) -> usize {
    let mut count: usize = 0;
    for (line, other) in old.iter().zip(new.iter()) {
        if *line != *other {
            break;
        }
        count = count.saturating_add(1);
    }
    count
}

/// How many lines both end with.
fn alike_to_end(old: &[&str], new: &[&str]) -> usize {
    let mut count: usize = 0;
    for (line, other) in old.iter().rev().zip(new.iter().rev()) {
        if *line != *other {
            break;
        }
        count = count.saturating_add(1);
    }
    count
}
