//! What texts begin with before their scripts.

use std::alloc::{AllocError, Global};
use syntax_source::Syntax;

/// The byte order mark.
pub(crate) const MARK: char = '\u{feff}';

/// What was made of a text, behind what the text has before its script: a byte order mark, and a first line `#!`.
pub(crate) fn headed_as(
    alloc: Global,
    syntax: Syntax,
    given: &str,
    made: String,
) -> Result<String, AllocError> {
    if syntax == Syntax::Notation {
        return Ok(made);
    }
    let mut headed = String::new(alloc);
    let rest = match given.strip_prefix(MARK) {
        Some(rest) => {
            headed.push(MARK)?;
            rest
        }
        None => given,
    };
    if rest.starts_with("#!") {
        headed.push_str(rest.split_inclusive('\n').next().unwrap_or(""))?;
    }
    headed.push_str(made.as_str())?;
    Ok(headed)
}
