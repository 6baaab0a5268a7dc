//! Files that stand nowhere.

use std::alloc::{AllocError, Global};
use std::io;
use tool_command::{Files, Found};

/// Files by name:
///
/// - `a.rhai` with a text, which standard input has too; `windows.rhai` with the same in lines that end by `\r\n`;
/// - `b.rhai` with a line, also below the folders `scripts` and `scripts/more`;
/// - `c.rhai`, which is no text; `full.rhai`, which can't be written to; a folder `empty`; and no other.
#[derive(Drop)]
pub(crate) struct Shelf<'a> {
    alloc: Global,
    text: &'a str,
    /// What was written: `> NAME`, and then the text.
    written: String,
}

const LINE: &str = "let b = 1 + 1;\n";

impl<'a> Shelf<'a> {
    pub(crate) fn new(alloc: Global, text: &'a str) -> Shelf<'a> {
        Shelf {
            alloc,
            text,
            written: String::new(alloc),
        }
    }

    pub(crate) fn written(&self) -> &str {
        self.written.as_str()
    }
}

impl<'a> Files for Shelf<'a> {
    fn text(&mut self, name: &str) -> io::Result<String> {
        let text = match name {
            "a.rhai" | "-" => self.text,
            "windows.rhai" => return Ok(self.text.replace(self.alloc, "\n", "\r\n")?),
            "b.rhai" | "full.rhai" | "scripts/b.rhai" | "scripts/more/b.rhai" => LINE,
            "c.rhai" => return Err(io::Error::from(io::ErrorKind::InvalidData)),
            _ => return Err(io::Error::from(io::ErrorKind::NotFound)),
        };
        Ok(String::from_str(self.alloc, text)?)
    }

    fn put(&mut self, name: &str, text: &str) -> io::Result<()> {
        if name == "full.rhai" {
            return Err(io::Error::from(io::ErrorKind::StorageFull));
        }
        Ok(write!(self.written, "> {name}\n{text}")?)
    }

    fn inside(&mut self, name: &str) -> io::Result<Option<Vec<Found>>> {
        let names = match name {
            "scripts" => "scripts/notes.md scripts/more scripts/b.rhai",
            "scripts/more" => "scripts/more/b.rhai",
            "empty" => "",
            "locked" => return Err(io::Error::from(io::ErrorKind::PermissionDenied)),
            _ => return Ok(None),
        };
        Ok(Some(found(self.alloc, names)?))
    }
}

fn found(alloc: Global, names: &str) -> Result<Vec<Found>, AllocError> {
    let mut found = Vec::new(alloc);
    for name in names.split_whitespace() {
        let name = String::from_str(alloc, name)?;
        let is_folder = !name.as_str().contains('.');
        found.push(Found { name, is_folder })?;
    }
    Ok(found)
}
