//! Edits in print: those that change something, with some lines around them.

use super::edits::{Change, Edit};
use std::alloc::{AllocError, Global};
use std::fmt::{self, Display, Write};

/// How many lines that stayed are shown around those that did not.
const CONTEXT: usize = 3;

/// Appends the edits that change something, and what stands around them.
pub(crate) fn push_hunks(
    alloc: Global,
    edits: &[Edit<'_>],
    to: &mut String,
) -> Result<(), AllocError> {
    let shown = shown(alloc, edits)?;
    let mut hunk = Hunk::new(alloc);
    for (edit, is_shown) in edits.iter().zip(shown.iter()) {
        if !*is_shown {
            hunk.end(to)?;
        }
        hunk.take(*edit, *is_shown)?;
    }
    hunk.end(to)
}

/// Which edits are shown: those near one that changes something.
fn shown(alloc: Global, edits: &[Edit<'_>]) -> Result<Vec<bool>, AllocError> {
    let mut before = Vec::new(alloc);
    let mut distance = FAR;
    for edit in edits.iter().rev() {
        distance = farther(distance, *edit);
        before.push(distance <= CONTEXT)?;
    }
    let mut shown = Vec::new(alloc);
    distance = FAR;
    for (edit, is_before) in edits.iter().zip(before.as_slice().iter().rev()) {
        distance = farther(distance, *edit);
        shown.push(*is_before || distance <= CONTEXT)?;
    }
    Ok(shown)
}

/// Farther from a change than what is shown.
const FAR: usize = CONTEXT + 1;

/// How far an edit is from a change, where the one beside it is so far.
fn farther(distance: usize, edit: Edit<'_>) -> usize {
    match edit.change {
        Change::Kept => distance.saturating_add(1),
        Change::Went | Change::Came => 0,
    }
}

/// Lines shown together: how many there were before them in both texts, how many of both they are, and the lines.
#[derive(Drop)]
struct Hunk {
    old: Range,
    new: Range,
    lines: String,
}

/// Lines of a text.
#[derive(Clone, Copy)]
struct Range {
    before: u64,
    count: u64,
}

impl Range {
    const START: Range = Range {
        before: 0,
        count: 0,
    };

    /// With one line more.
    fn longer(self) -> Range {
        Range {
            before: self.before,
            count: self.count.saturating_add(1),
        }
    }

    /// Nothing, behind these.
    fn ended(self) -> Range {
        Range {
            before: self.before.saturating_add(self.count),
            count: 0,
        }
    }
}

/// The first line and how many there are, where it is not one; of none the line before them.
impl Display for Range {
    fn fmt<W: Write>(&self, f: &mut fmt::Formatter<W>) -> fmt::Result {
        let first = self.before.saturating_add(1);
        match self.count {
            0 => write!(f, "{},0", self.before),
            1 => write!(f, "{first}"),
            count => write!(f, "{first},{count}"),
        }
    }
}

impl Hunk {
    fn new(alloc: Global) -> Hunk {
        Hunk {
            old: Range::START,
            new: Range::START,
            lines: String::new(alloc),
        }
    }

    /// Takes a line, which is shown or is not.
    fn take(&mut self, edit: Edit<'_>, is_shown: bool) -> Result<(), AllocError> {
        if edit.change != Change::Came {
            self.old = self.old.longer();
        }
        if edit.change != Change::Went {
            self.new = self.new.longer();
        }
        if is_shown {
            self.push_line(edit)?;
        } else {
            self.old = self.old.ended();
            self.new = self.new.ended();
        }
        Ok(())
    }

    fn push_line(&mut self, edit: Edit<'_>) -> Result<(), AllocError> {
        self.lines.push_str(match edit.change {
            Change::Kept => " ",
            Change::Went => "-",
            Change::Came => "+",
        })?;
        self.lines.push_str(edit.line)?;
        if !edit.line.ends_with('\n') {
            self.lines.push_str("\n\\ No newline at end of file\n")?;
        }
        Ok(())
    }

    /// Appends the lines, if there are any, behind a line that says where they stand, and goes on behind them.
    fn end(&mut self, to: &mut String) -> Result<(), AllocError> {
        if !self.lines.is_empty() {
            writeln!(to, "@@ -{} +{} @@", self.old, self.new)?;
            to.push_str(self.lines.as_str())?;
            self.lines.clear();
        }
        self.old = self.old.ended();
        self.new = self.new.ended();
        Ok(())
    }
}
