//! Lists what is wrong with scripts in rhai's own syntax: each finding on a line FILE:LINE:COLUMN: TEXT.
#![tactic(auto)]

use rhai_lang::{EngineInfo, OutOfMemory, Position, compile, findings};
use std::alloc::{AllocError, Global};
use std::fmt::{Display, Write};
use std::process::ExitCode;
use std::{env, fs, io};

/// Appends the line of a finding; what stands nowhere has neither line nor column.
fn push_finding<T: Display>(
    file: &str,
    position: Position,
    what: &T,
    lines: &mut String,
) -> Result<(), OutOfMemory> {
    match position.line() {
        Some(line) => {
            let column = position.position().unwrap_or(0); // 0 is before the first letter
            writeln!(lines, "{file}:{line}:{column}: {what}")?;
        }
        None => writeln!(lines, "{file}: {what}")?,
    }
    Ok(())
}

/// Appends what is found in the text of a file: why it is no script, or what is wrong with the script.
fn lint_text(alloc: Global, file: &str, text: &str, lines: &mut String) -> Result<(), OutOfMemory> {
    let script = match compile(alloc, text) {
        Ok(script) => script,
        Err(error) => return push_finding(file, error.position(), error.err_type(), lines),
    };
    let info = EngineInfo::new(alloc); // an engine that has no constants of its own
    for finding in &findings(alloc, &script, &info)? {
        push_finding(file, finding.position, finding, lines)?;
    }
    Ok(())
}

/// Appends what is found in a file: why it cannot be read, or what is found in its text.
fn lint_file(rt: &HostRuntime, file: &str, lines: &mut String) -> Result<(), OutOfMemory> {
    match fs::read_to_string(rt, file) {
        Ok(text) => lint_text(rt.alloc(), file, text.as_str(), lines),
        Err(error) => push_finding(file, Position::NONE, &error, lines),
    }
}

/// Prints what is found in the files that the words name. The status is 1 where that is something.
fn main(rt: HostRuntime) -> io::Result<ExitCode> {
    let mut lines = String::new(rt.alloc());
    for file in env::args(&rt)?.skip(1) {
        lint_file(&rt, file.as_str(), &mut lines).map_err(|_| AllocError)?;
    }
    rt.print(lines.as_str())?;
    if lines.is_empty() {
        Ok(ExitCode::SUCCESS)
    } else {
        Ok(ExitCode::FAILURE)
    }
}
