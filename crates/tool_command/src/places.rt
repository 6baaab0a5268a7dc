//! Places in print.

use rhai_base::Position;
use serde_json::{Value, json};
use std::alloc::{AllocError, Global};
use std::fmt::{Display, Write};
use tool_findings::Severity;

/// Where something stands: `FILE:LINE:COLUMN: `, or `FILE: ` of what stands nowhere.
pub(crate) fn push_place(
    name: &str,
    position: Position,
    to: &mut String,
) -> Result<(), AllocError> {
    match position.line() {
        None => write!(to, "{name}: "),
        Some(line) => {
            let column = position.position().unwrap_or(0);
            write!(to, "{name}:{line}:{column}: ")
        }
    }
}

/// Appends what is said of a place as a line of JSON; the line and the column are null of what stands nowhere, and the
/// code and the severity of what is no finding.
pub(crate) fn push_json<T: Display>(
    alloc: Global,
    name: &str,
    position: Position,
    mark: Option<(&str, Severity)>,
    what: &T,
    to: &mut String,
) -> Result<(), AllocError> {
    let text = format!(in alloc; "{what}")?;
    let line = number(position.line());
    let column = number(position.position());
    let (code, severity) = marked(alloc, mark)?;
    let value = json!(in alloc; {
        "file": name,
        "line": line,
        "column": column,
        "code": code,
        "severity": severity,
        "text": text
    })?;
    to.push_str(value.to_string(alloc)?.as_str())?;
    to.push_str("\n")
}

/// The code and the severity.
fn marked(alloc: Global, mark: Option<(&str, Severity)>) -> Result<(Value, Value), AllocError> {
    match mark {
        Some((code, severity)) => {
            let severity = format!(in alloc; "{severity}")?;
            Ok((json!(in alloc; code)?, json!(in alloc; severity)?))
        }
        None => Ok((Value::Null, Value::Null)),
    }
}

fn number(number: Option<usize>) -> Value {
    match number {
        Some(number) => Value::from(number),
        None => Value::Null,
    }
}
