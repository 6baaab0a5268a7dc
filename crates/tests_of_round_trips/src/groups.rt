//! Groups of lines whose brackets are closed in them.

use std::alloc::{AllocError, Global};

/// Some lines of a text, one behind the other.
#[derive(Drop)]
pub(crate) struct Group {
    /// How many lines stand before it.
    pub(crate) before: usize,
    /// How many it has.
    pub(crate) length: usize,
    /// Its lines, with an end between any two.
    pub(crate) text: String,
}

impl Group {
    /// The shortest group behind so many lines of a text in which no bracket stays open.
    pub(crate) fn behind(alloc: Global, before: usize, text: &str) -> Result<Group, AllocError> {
        let length = length_of(before, text);
        let mut group = String::new(alloc);
        for (index, line) in text.lines().skip(before).take(length).enumerate() {
            group.push_str(if index == 0 { "" } else { "\n" })?;
            group.push_str(line)?;
        }
        Ok(Group {
            before,
            length,
            text: group,
        })
    }

    /// The text with other lines in place of these.
    pub(crate) fn replaced(
        &self,
        alloc: Global,
        text: &str,
        lines: &str,
    ) -> Result<String, AllocError> {
        let mut changed = String::new(alloc);
        for line in text.lines().take(self.before) {
            push_line(&mut changed, line)?;
        }
        push_line(&mut changed, lines)?;
        push_rest(&mut changed, text, self.before.saturating_add(self.length))?;
        Ok(changed)
    }
}

/// Adds all lines of a text but so many.
fn push_rest(changed: &mut String, text: &str, before: usize) -> Result<(), AllocError> {
    for line in text.lines().skip(before) {
        push_line(changed, line)?;
    }
    Ok(())
}

fn push_line(changed: &mut String, line: &str) -> Result<(), AllocError> {
    changed.push_str(line)?;
    changed.push('\n')
}

/// How many lines behind so many it takes until no bracket that they open is open.
fn length_of(before: usize, text: &str) -> usize {
    let mut open: i64 = 0;
    let mut length: usize = 0;
    for line in text.lines().skip(before) {
        open = open.saturating_add(opened_in(line));
        length = length.saturating_add(1);
        if open <= 0 {
            return length;
        }
    }
    length
}

/// How many brackets more a line opens than it closes.
fn opened_in(line: &str) -> i64 {
    let mut open: i64 = 0;
    for letter in line.chars() {
        match letter {
            '{' | '(' | '[' => open = open.saturating_add(1),
            '}' | ')' | ']' => open = open.saturating_sub(1),
            _ => {}
        }
    }
    open
}
