//! Why a call does not answer, and its number.

ghost use Rattle.std.specs.Prelude.{◌≡◌, ◌<ℤ◌, pos};
ghost use Rattle.rhai_c.specs.Codes.{code_meant, refused_code, stands_at};

use rhai_base::{OutOfMemory, Position};
use std::alloc::AllocError;
use std::fmt::{self, Display, Write};
use syntax_source::{Refusal, Why};

/// Why a call does not answer.
#[derive(Debug, Drop)]
pub(crate) enum Failure {
    /// The options are those of another version.
    Size,
    /// There is no such level.
    Level,
    /// There are no such flags.
    Flags,
    /// A text is not in UTF-8.
    Bytes,
    /// The constants are refused.
    Constants(Refusal),
    /// The text is.
    Text(Refusal),
    /// There was no memory.
    OutOfMemory,
}

impl Failure {
    /// Its number for a caller: -1 for options, -2 for bytes that are no text, -3 for constants, -4 for a text that is
    /// no script, -5 for a script that has no text, -6 for want of memory.
    pub(crate) fn code(&self) -> i64
        ensures negative { result <ℤ pos 0 }
        ensures code { result ≡ code_meant self.now }
    {
        match self {
            Failure::Size | Failure::Level | Failure::Flags => -1,
            Failure::Bytes => -2,
            Failure::Constants(refusal) => code_of(refusal, -3),
            Failure::Text(refusal) => code_of(refusal, -4),
            Failure::OutOfMemory => -6,
        }
    }

    /// Where it stands in its text.
    pub(crate) fn position(&self) -> Position
        ensures { result ≡ stands_at self.now }
    {
        match self {
            Failure::Constants(refusal) | Failure::Text(refusal) => refusal.position,
            Failure::Size
            | Failure::Level
            | Failure::Flags
            | Failure::Bytes
            | Failure::OutOfMemory => Position::NONE,
        }
    }
}

/// The number of a refusal, where that of another one is this.
fn code_of(refusal: &Refusal, otherwise: i64) -> i64
    requires { otherwise <ℤ pos 0 }
    ensures negative { result <ℤ pos 0 }
    ensures code { result ≡ refused_code otherwise refusal.now.why }
{
    match &refusal.why {
        Why::OutOfMemory => -6,
        Why::NoText(_) | Why::AnotherScript => -5,
        Why::NoScript(_) | Why::NoNotation(_) | Why::NoConstant | Why::NoFunction => otherwise,
    }
}

/// The reason, without the place.
impl Display for Failure {
    fn fmt<W: Write>(&self, f: &mut fmt::Formatter<W>) -> fmt::Result {
        match self {
            Failure::Size => f.write_str("the options should have a size of 48"),
            Failure::Level => f.write_str("there is no such level: 0, 1 and 2 are"),
            Failure::Flags => f.write_str("there are no such flags: 0 and 1 are"),
            Failure::Bytes => f.write_str("the text is not in UTF-8"),
            Failure::Constants(refusal) | Failure::Text(refusal) => write!(f, "{}", refusal.why),
            Failure::OutOfMemory => f.write_str("out of memory"),
        }
    }
}

impl From<Refusal> for Failure {
    fn from(refusal: Refusal) -> Failure {
        Failure::Text(refusal)
    }
}

impl From<OutOfMemory> for Failure {
    fn from(_: OutOfMemory) -> Failure {
        Failure::OutOfMemory
    }
}

impl From<AllocError> for Failure {
    fn from(_: AllocError) -> Failure {
        Failure::OutOfMemory
    }
}
