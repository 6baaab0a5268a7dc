//! Blocks headed by the words that are asked, with a file's text and what is answered.

use crate::shelf::Shelf;
use std::alloc::{AllocError, Global};
use std::fmt::Write;
use std::str;
use tests_reader::{Block, Stops, Told, blocks_of};
use tool_command::run_words;

/// Says of each block what is answered, where that is not what is wanted, or where with less room something else than a
/// beginning is written; and then how many blocks are met, and in how many cases there was less room.
pub(crate) fn ask(alloc: Global, rows: &str) -> Result<String, AllocError> {
    let mut said = String::new(alloc);
    let (mut met, mut cuts): (usize, usize) = (0, 0);
    for block in blocks_of(alloc, rows)? {
        let (whole, written) = tell(alloc, block, usize::MAX)?;
        let cut = cuts_of(alloc, block, &whole)?;
        let told = text_of(alloc, &whole, written.as_str())?;
        if told.as_str().trim() == block.wanted.trim() && cut.is_some() {
            met = met.saturating_add(1);
            cuts = cuts.saturating_add(cut.unwrap_or(0));
        } else {
            writeln!(said, "==== {}\n{}\n---- is\n{told}", block.head, block.text)?;
        }
    }
    writeln!(said, "command: {met} met, cut short {cuts} times")?;
    Ok(said)
}

/// What the command tells where either side has room for so many bytes, and what it writes to files.
fn tell(alloc: Global, block: Block<'_>, room: usize) -> Result<(Told, String), AllocError> {
    let mut words = Vec::new(alloc);
    for word in block.head.split_whitespace() {
        words.push(String::from_str(alloc, word)?)?;
    }
    let mut shelf = Shelf::new(alloc, block.text);
    let mut out = Stops::new(alloc, room, true);
    let mut err = Stops::new(alloc, room, true);
    let status = run_words(alloc, words.as_slice(), &mut shelf, &mut out, &mut err);
    let written = String::from_str(alloc, shelf.written())?;
    Ok((Told { status, out, err }, written))
}

/// In how many cases there was less room, some forty of a long answer, if each of them ended with status 2 and wrote a
/// beginning.
fn cuts_of(alloc: Global, block: Block<'_>, whole: &Told) -> Result<Option<usize>, AllocError> {
    let most = whole.most();
    let mut cuts: usize = 0;
    for room in (0..most).step_by(most / 40 + 1) {
        cuts = cuts.saturating_add(1);
        let (cut, _) = tell(alloc, block, room)?;
        if cut.status != 2 || !cut.begins(whole) {
            return Ok(None);
        }
    }
    Ok(Some(cuts))
}

/// What was told in print, with `\r` as these two letters.
fn text_of(alloc: Global, told: &Told, written: &str) -> Result<String, AllocError> {
    let out = str::from_utf8(told.out.taken.as_slice()).unwrap_or("no text");
    let err = str::from_utf8(told.err.taken.as_slice()).unwrap_or("no text");
    let mut text = format!(in alloc; "status {}\n{out}", told.status)?;
    for line in err.lines() {
        let space = if line.is_empty() { "" } else { " " };
        writeln!(text, "!{space}{line}")?;
    }
    text.push_str(written)?;
    text.as_str().replace(alloc, "\r", "\\r")
}
