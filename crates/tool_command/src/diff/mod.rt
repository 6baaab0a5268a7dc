//! The lines that went and came, as `diff -u` shows them.

mod anchors;
mod edits;
mod hunks;

use edits::edits;
use hunks::push_hunks;
use std::alloc::{AllocError, Global};
use std::fmt::Write;

/// Appends what turns the old text of a file of this name into the new one; nothing where they are the same.
pub(crate) fn push_diff(
    alloc: Global,
    name: &str,
    old: &str,
    new: &str,
    to: &mut String,
) -> Result<(), AllocError> {
    if old == new {
        return Ok(());
    }
    let old: Vec<&str> = old.split_inclusive('\n').collect(alloc)?;
    let new: Vec<&str> = new.split_inclusive('\n').collect(alloc)?;
    let edits = edits(alloc, old.as_slice(), new.as_slice())?;
    writeln!(to, "--- {name}\n+++ {name}")?;
    push_hunks(alloc, edits.as_slice(), to)
}
