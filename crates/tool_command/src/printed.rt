//! What a run prints.

use rhai_base::{Dynamic, OutOfMemory};
use run_host::{HostCall, RunReport};
use tool_report::push_literal;

/// Appends what `print` and `debug` were given, each on a line: a text as it is by `print`, as a literal by `debug`.
pub(crate) fn push_printed(report: &RunReport, to: &mut String) -> Result<(), OutOfMemory> {
    for call in report.calls.as_slice() {
        if is_printing(call) {
            push_line(call, to)?;
        }
    }
    Ok(())
}

/// Whether a call prints: of more than one value none does.
fn is_printing(call: &HostCall) -> bool {
    let values = call
        .args
        .len()
        .saturating_add(usize::from(call.receiver.is_some()));
    values < 2 && matches!(call.name.as_str(), "print" | "debug")
}

fn push_line(call: &HostCall, to: &mut String) -> Result<(), OutOfMemory> {
    let values = call.args.as_slice();
    if let Some(value) = call.receiver.as_ref().or(values.first()) {
        push_value(call.name.as_str() == "debug", value, to)?;
    }
    to.push_str("\n")?;
    Ok(())
}

fn push_value(as_literal: bool, value: &Dynamic, to: &mut String) -> Result<(), OutOfMemory> {
    if as_literal {
        push_literal(value, to)?;
    } else {
        value.push_text(to)?;
    }
    Ok(())
}
