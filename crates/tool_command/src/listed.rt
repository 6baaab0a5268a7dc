//! Findings in print.

use std::fmt::{self, Display, Write};
use tool_findings::{FindingKind, Severity};

/// What is found, with its code behind it, and a word before it where it is no error.
#[derive(Clone, Copy)]
pub(crate) struct Listed<'f>(pub(crate) &'f FindingKind);

impl<'f> Display for Listed<'f> {
    fn fmt<W: Write>(&self, f: &mut fmt::Formatter<W>) -> fmt::Result {
        let severity = self.0.severity();
        if severity != Severity::Error {
            write!(f, "{severity}: ")?;
        }
        write!(f, "{} [{}]", self.0, self.0.code())
    }
}
