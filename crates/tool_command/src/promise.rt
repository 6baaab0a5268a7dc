//! What is promised of scripts.

use std::fmt::{self, Display, Write};
use tool_findings::{Finding, FindingKind};

/// What is promised of a script.
#[derive(Clone, Copy)]
pub(crate) enum Promise<'f> {
    /// Everything.
    Everything,
    /// Everything, until a run comes to what has no meaning.
    Until(&'f FindingKind),
}

impl<'f> Promise<'f> {
    /// What is promised where this is found, if it ends what is promised of a run that comes there.
    pub(crate) fn until(finding: &'f Finding) -> Option<Promise<'f>> {
        match &finding.kind {
            kind @ (FindingKind::Barred(_) | FindingKind::Shared) => Some(Promise::Until(kind)),
            _ => None,
        }
    }
}

impl<'f> Display for Promise<'f> {
    fn fmt<W: Write>(&self, f: &mut fmt::Formatter<W>) -> fmt::Result {
        match self {
            Promise::Everything => f.write_str("promised: everything"),
            Promise::Until(kind @ FindingKind::Shared) => {
                write!(
                    f,
                    "promised until a run comes to a closure that captures, first here: {kind}"
                )
            }
            Promise::Until(kind) => write!(f, "promised until a run comes here: {kind}"),
        }
    }
}
