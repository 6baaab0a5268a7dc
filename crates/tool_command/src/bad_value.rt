//! Values of options that are none.

use std::fmt::{self, Display, Write};
use syntax_source::{Refusal, Why};
use thiserror::Error;

/// Why the value of an option is none, and where in it.
#[derive(Drop)]
pub(crate) struct BadValue<'a> {
    pub(crate) option: Valued,
    pub(crate) value: &'a str,
    pub(crate) column: Option<usize>,
    pub(crate) reason: Reason,
}

/// An option whose value is a text of the language.
#[derive(Clone, Copy)]
pub(crate) enum Valued {
    Constant,
    Entry,
}

impl Display for Valued {
    fn fmt<W: Write>(&self, f: &mut fmt::Formatter<W>) -> fmt::Result {
        f.write_str(match self {
            Valued::Constant => "--constant <NAME=VALUE>",
            Valued::Entry => "--entry <CALL>",
        })
    }
}

/// Why a value is none.
#[derive(Debug, Drop, Error)]
pub(crate) enum Reason {
    #[error("there is no `=` in it")]
    NoEquals,
    #[error("a constant of this name is given already")]
    Twice,
    #[error("expected one name with one value that is known beforehand")]
    NoConstant,
    #[error("expected the name of a function, or a call such as `f(1, \"a\")`")]
    NoCall,
    #[error("{0}")]
    Refused(Why),
}

impl<'a> BadValue<'a> {
    /// For a reason, at no place.
    pub(crate) fn new(option: Valued, value: &'a str, reason: Reason) -> BadValue<'a> {
        BadValue {
            option,
            value,
            column: None,
            reason,
        }
    }

    /// For what a text is refused for, in which the value stands in this line, behind so many characters.
    pub(crate) fn refused(
        option: Valued,
        value: &'a str,
        refusal: Refusal,
        (line, before): (usize, usize),
    ) -> BadValue<'a> {
        let Refusal { why, position } = refusal;
        let column = match (position.line(), position.position()) {
            (Some(at), Some(column)) if at == line => column.checked_sub(before),
            _ => None,
        };
        let reason = match why {
            Why::NoConstant => Reason::NoConstant,
            why => Reason::Refused(why),
        };
        BadValue {
            option,
            value,
            column,
            reason,
        }
    }
}

impl<'a> Display for BadValue<'a> {
    fn fmt<W: Write>(&self, f: &mut fmt::Formatter<W>) -> fmt::Result {
        write!(f, "invalid value '{}' for '{}': ", self.value, self.option)?;
        if let Some(column) = self.column {
            write!(f, "column {column}: ")?;
        }
        write!(f, "{}", self.reason)
    }
}
