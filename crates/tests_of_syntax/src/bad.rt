//! Where and why texts are no scripts, by the first fault and by all that are found.

use crate::places::line_and_column;
use std::alloc::{AllocError, Global};
use syntax_parser::{ParseError, ParseErrorType, ParseOptions, compile, parse_errors};

/// Line, column and the name of the reason, by which a text is refused.
pub(crate) fn told(alloc: Global, text: &str) -> Result<String, AllocError> {
    match compile(alloc, text) {
        Ok(_) => format!(in alloc; "none"),
        Err(error) => reason_of(alloc, &error),
    }
}

/// A line of each fault.
pub(crate) fn told_all(alloc: Global, text: &str) -> Result<String, AllocError> {
    let errors = parse_errors(alloc, text, ParseOptions::new()).map_err(|_| AllocError)?;
    if errors.is_empty() {
        return format!(in alloc; "none");
    }
    let mut told = String::new(alloc);
    for error in &errors {
        told.push_str(reason_of(alloc, error)?.as_str())?;
        told.push('\n')?;
    }
    Ok(told)
}

fn reason_of(alloc: Global, error: &ParseError) -> Result<String, AllocError> {
    let (line, column) = line_and_column(error.position());
    let reason = match error.err_type() {
        ParseErrorType::BadInput(input) => format!(in alloc; "{input:?}")?,
        reason => format!(in alloc; "{reason:?}")?,
    };
    let (name, _) = reason
        .as_str()
        .split_once('(')
        .unwrap_or((reason.as_str(), ""));
    format!(in alloc; "{line} {column} {name}")
}
