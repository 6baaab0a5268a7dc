//! Lines that are too long, broken at the commas of their brackets.

use crate::marks::{Bracket, Kind, Mark, Marks, marks_of};
use std::alloc::{AllocError, Global};

/// How many bytes a line has at most, where it can be broken.
const MOST: usize = 100;

/// How many bytes the items of a bracket have at most that are left on their line.
const SHORT: usize = 30;

/// A text as it is laid out.
#[derive(Drop)]
struct Layout<'s> {
    text: &'s str,
    laid: String,
    /// How much of the text is laid out.
    copied: usize,
    /// Where the line that is laid out begins in the text, how far it is indented, and what it has before this place.
    start: usize,
    indent: usize,
    before: usize,
    /// Where it ends, unless a bracket is broken.
    end: usize,
    /// The brackets around that are broken.
    broken: Vec<Broken>,
}

/// A bracket that is broken.
#[derive(Clone, Copy)]
struct Broken {
    bracket: usize,
    /// How far the line is indented on which it opens.
    indent: usize,
    /// Where the item ends that is laid out.
    item_end: usize,
}

/// A printed text with its long lines broken, an item on a line.
pub(crate) fn broken_lines(alloc: Global, text: String) -> Result<String, AllocError> {
    let is_short = text.as_str().split('\n').all(|line| line.len() <= MOST);
    if is_short {
        return Ok(text);
    }
    let marks = marks_of(alloc, text.as_str())?;
    laid_out(alloc, text.as_str(), &marks)
}

fn laid_out(alloc: Global, text: &str, marks: &Marks) -> Result<String, AllocError> {
    let mut layout = Layout {
        text,
        laid: String::new(alloc),
        copied: 0,
        start: 0,
        indent: 0,
        before: 0,
        end: marks.first_line,
        broken: Vec::new(alloc),
    };
    for mark in marks.marks.as_slice() {
        layout.mark(*mark, marks.brackets.as_slice())?;
    }
    layout.copy_to(text.len())?;
    let Layout {
        text: _text,
        laid,
        copied: _copied,
        start: _start,
        indent: _indent,
        before: _before,
        end: _end,
        broken: _broken,
    } = layout;
    Ok(laid)
}

impl<'s> Layout<'s> {
    fn mark(&mut self, mark: Mark, brackets: &[Bracket]) -> Result<(), AllocError> {
        match mark.kind {
            Kind::Open => {
                let bracket = brackets.get(mark.bracket).copied();
                if let Some(bracket) = bracket {
                    if self.is_too_long() && is_breakable(mark, bracket) {
                        return self.open(mark);
                    }
                }
                Ok(())
            }
            Kind::Comma if self.breaks(mark) => self.comma(mark),
            Kind::Close if self.breaks(mark) => self.close(mark),
            Kind::Comma | Kind::Close => Ok(()),
            Kind::Line => {
                self.line(mark);
                Ok(())
            }
        }
    }

    /// Whether the line that is laid out is too long.
    fn is_too_long(&self) -> bool {
        let end = match self.broken.last() {
            Some(broken) => broken.item_end.saturating_add(1),
            None => self.end,
        };
        self.before.saturating_add(end.saturating_sub(self.start)) > MOST
    }

    /// Whether a mark is one of the innermost bracket that is broken.
    fn breaks(&self, mark: Mark) -> bool {
        matches!(self.broken.last(), Some(broken) if broken.bracket == mark.bracket)
    }

    fn open(&mut self, mark: Mark) -> Result<(), AllocError> {
        let behind = mark.place.saturating_add(1);
        self.broken.push(Broken {
            bracket: mark.bracket,
            indent: self.indent,
            item_end: mark.item_end,
        })?;
        self.copy_to(behind)?;
        self.begin(behind, self.indent.saturating_add(4))
    }

    fn comma(&mut self, mark: Mark) -> Result<(), AllocError> {
        let behind = mark.place.saturating_add(1);
        if let Some(broken) = self.broken.last_mut() {
            broken.item_end = mark.item_end;
        }
        self.copy_to(behind)?;
        let rest = self.text.get(behind..).unwrap_or("");
        let blank = if rest.starts_with(' ') { 1 } else { 0 };
        self.begin(behind.saturating_add(blank), self.indent)
    }

    fn close(&mut self, mark: Mark) -> Result<(), AllocError> {
        self.copy_to(mark.place)?;
        match self.broken.pop() {
            Some(broken) => self.begin(mark.place, broken.indent),
            None => Ok(()),
        }
    }

    /// Notes that a line begins in the text.
    fn line(&mut self, mark: Mark) {
        let behind = mark.place.saturating_add(1);
        let rest = self.text.get(behind..).unwrap_or("");
        self.start = behind;
        self.before = 0;
        self.indent = rest
            .len()
            .saturating_sub(rest.trim_start_matches(' ').len());
        self.end = mark.item_end;
    }

    /// Begins a line that is not one in the text.
    fn begin(&mut self, start: usize, indent: usize) -> Result<(), AllocError> {
        self.laid.push('\n')?;
        for _ in 0..indent {
            self.laid.push(' ')?;
        }
        self.copied = start;
        self.start = start;
        self.indent = indent;
        self.before = indent;
        Ok(())
    }

    /// Lays out the text up to there as it is.
    fn copy_to(&mut self, place: usize) -> Result<(), AllocError> {
        let letters = self.text.get(self.copied..place).unwrap_or("");
        self.laid.push_str(letters)?;
        self.copied = place;
        Ok(())
    }
}

/// Whether a bracket has several items on one line, and these are not short.
fn is_breakable(open: Mark, bracket: Bracket) -> bool {
    bracket.has_commas && bracket.is_on_line && bracket.end.saturating_sub(open.place) > SHORT
}
