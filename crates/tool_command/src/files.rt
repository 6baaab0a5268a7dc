//! Where texts come from and go to.

use std::io;

/// What has files by name.
pub trait Files {
    /// The text of a file; that of `-` is standard input.
    fn text(&mut self, name: &str) -> io::Result<String>;

    /// Puts a text in the place of a file's, or makes the file. Where that fails, the file is as it was.
    fn put(&mut self, name: &str, text: &str) -> io::Result<()>;

    /// What lies in a folder; nothing, where the name is that of none.
    fn inside(&mut self, name: &str) -> io::Result<Option<Vec<Found>>>;
}

/// What lies in a folder.
#[derive(Debug, Drop)]
pub struct Found {
    /// Its name, behind that of the folder.
    pub name: String,
    /// Whether it is a folder itself, and no link to one.
    pub is_folder: bool,
}
