//! Whether the run of what a script is optimised to follows that of the script.

use run_host::{HostCall, RunEnd, RunReport};

/// What keeps a run from following the one before; none where it follows. A run that ended is followed by one that
/// ends so, with the same variables, exports and calls and at least as many turns left; one that did not end by one
/// whose calls begin with its calls.
pub fn parting(before: &RunReport, after: &RunReport) -> Option<&'static str> {
    match &before.run_end {
        RunEnd::Value(_) | RunEnd::Thrown(_) => parting_from_end(before, after),
        RunEnd::Stuck(_) | RunEnd::OutOfTurns => {
            if begins(before.calls.as_slice(), after.calls.as_slice()) {
                None
            } else {
                Some("other calls")
            }
        }
    }
}

fn parting_from_end(before: &RunReport, after: &RunReport) -> Option<&'static str> {
    if after.run_end != before.run_end {
        Some("another end")
    } else if after.variables != before.variables {
        Some("other variables")
    } else if after.exports != before.exports {
        Some("other exports")
    } else if after.calls != before.calls {
        Some("other calls")
    } else if after.turns_left < before.turns_left {
        Some("fewer turns left")
    } else {
        None
    }
}

fn begins(start: &[HostCall], calls: &[HostCall]) -> bool {
    calls.get(..start.len()) == Some(start)
}
