//! Doc texts of scripts.
ghost use Rattle.std.specs.Prelude.{◌≡◌, [], IfOk};
ghost use Rattle.script_tables.specs.Text.{join_docs};

use crate::name_of;
use rhai_base::{ImmutableString, OutOfMemory};
use std::alloc::{AllocError, Global};
use std::marker::Model;

/// The doc text of a script, seen as its bytes. An empty one takes no memory.
pub struct Doc {
    text: Option<ImmutableString>,
}

impl Drop for Doc {
    fn drop(self) {
        let Doc { text: _text } = self;
    }
}

impl Model for Doc {
    ghost use Rattle.std.specs.Prelude.{List, ℕ};
    ghost use Rattle.script_tables.specs.Text.{text_or_empty};

    ghost Value = { List ℕ };

    ghost view = { λ d. text_or_empty d.text };
}

impl Clone for Doc {
    ghost is_clone = { λ d e. e ≡ d };

    fn clone(&self) -> Result<Doc, AllocError> {
        Ok(Doc {
            text: self.text.clone()?,
        })
    }
}

impl Doc {
    /// No text.
    pub fn none() -> Doc
        ensures { result ≡ [] }
    {
        Doc { text: None }
    }

    /// A copy of a text.
    pub fn new(alloc: Global, text: &str) -> Result<Doc, OutOfMemory>
        ensures { IfOk result (λ d. d ≡ text.now) }
    {
        Ok(Doc {
            text: name_of(alloc, text)?,
        })
    }

    /// The text itself.
    pub fn as_str(&self) -> &str
        ensures { result.now ≡ self.now }
    {
        match &self.text {
            Some(text) => text.as_str(),
            None => "",
        }
    }

    /// Both, with a newline between them, or the one that is not empty.
    pub fn joined(&self, alloc: Global, other: &Doc) -> Result<Doc, OutOfMemory>
        ensures { IfOk result (λ d. d ≡ join_docs self.now other.now) }
    {
        if self.as_str().is_empty() {
            return Ok(other.clone()?);
        }
        if other.as_str().is_empty() {
            return Ok(self.clone()?);
        }
        let mut both = String::new(alloc);
        both.push_str(self.as_str())?;
        both.push('\n')?;
        both.push_str(other.as_str())?;
        Doc::new(alloc, both.as_str())
    }
}
