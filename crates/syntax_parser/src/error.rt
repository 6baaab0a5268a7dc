//! Why a text is no script. The names are rhai's.

use rhai_base::{Position, TreeFault};
use std::fmt::{self, Display, Write};
use thiserror::Error;

/// Why letters are no word of the language.
#[derive(Debug, Drop, PartialEq, Eq, Error)]
pub enum LexError {
    /// No word begins so, or none that may stand there.
    #[error("unexpected `{0}`")]
    UnexpectedInput(String),
    /// A text without an end.
    #[error("this text has no end")]
    UnterminatedString,
    /// A text longer than the options allow.
    #[error("this text is longer than {0} bytes")]
    StringTooLong(usize),
    /// No escape.
    #[error("there is no such escape in a text")]
    MalformedEscapeSequence,
    /// No number, or an integer with a base and more than 64 bits.
    #[error("`{0}` is no number")]
    MalformedNumber(String),
    /// No character, or several.
    #[error("{0} is not one character")]
    MalformedChar(String),
    /// No name.
    #[error("`{0}` is no name: it has no letter, or a digit before it")]
    MalformedIdentifier(String),
    /// A sign that cannot stand there, and what may be meant.
    #[error("`{0}` cannot stand here: {1}")]
    ImproperSymbol(String, &'static str),
}

/// Why a text is no script.
#[derive(Debug, Drop, PartialEq, Eq, Error)]
pub enum ParseErrorType {
    /// The text ends where something should follow.
    #[error("the text ends where an expression should follow")]
    UnexpectedEOF,
    /// What stands there is no word of the language, or cannot stand there.
    #[error("{0}")]
    BadInput(LexError),
    /// This token should stand there, for this.
    #[error("expected `{0}` {1}")]
    MissingToken(&'static str, &'static str),
    /// What stands there cannot be an index of this base.
    #[error("malformed index: {0}")]
    MalformedIndexExpr(&'static str),
    /// A method cannot see the names of its caller.
    #[error("the method `{0}` cannot see its caller's names")]
    MalformedCapture(String),
    /// A map has this name twice.
    #[error("the property `{0}` stands twice in this map")]
    DuplicatedProperty(String),
    /// A loop has this name twice.
    #[error("the variable `{0}` stands twice in this loop")]
    DuplicatedVariable(String),
    /// An integer behind a range that stays one.
    #[error("an integer cannot stand behind a range in a `switch`")]
    WrongSwitchIntegerCase,
    /// A float as a case, or in one. It is not in rhai.
    #[error("a float is no case of a `switch` here")]
    WrongSwitchFloatCase,
    /// A default that is not last.
    #[error("the default comes last in a `switch`")]
    WrongSwitchDefaultCase,
    /// A default with a condition.
    #[error("the default of a `switch` has no condition")]
    WrongSwitchCaseCondition,
    /// The name of a property should stand there.
    #[error("expected the name of a property")]
    PropertyExpected,
    /// The name of a variable should stand there.
    #[error("expected a name")]
    VariableExpected,
    /// A word that is no name.
    #[error("`{0}` is a word of the language, and no name")]
    Reserved(String),
    /// A value of this kind should stand there, and not of that one.
    #[error("expected {0}, found {1}")]
    MismatchedType(&'static str, &'static str),
    /// Such an expression should stand there.
    #[error("expected {0}")]
    ExprExpected(&'static str),
    /// A function within something else.
    #[error("a function stands at the top level alone")]
    WrongFnDefinition,
    /// A function that stands twice: its name and how many parameters it has.
    #[error("the function `{0}` with {1} parameters stands twice")]
    FnDuplicatedDefinition(String, usize),
    /// A function without a name.
    #[error("expected the name of a function")]
    FnMissingName,
    /// A function without parameters: its name.
    #[error("expected the parameters of the function `{0}`")]
    FnMissingParams(String),
    /// A parameter that stands twice: the function, nothing of a closure, and the parameter.
    #[error("the parameter `{1}` stands twice")]
    FnDuplicatedParam(String, String),
    /// A function without a block: its name.
    #[error("expected the block of the function `{0}`")]
    FnMissingBody(String),
    /// An export within something else.
    #[error("an export stands at the top level alone")]
    WrongExport,
    /// An assignment to a constant, or to a literal, which has no name.
    #[error("an assignment to the constant `{0}`")]
    AssignmentToConstant(String),
    /// An assignment to what is no place.
    #[error("an assignment to what is no place")]
    AssignmentToInvalidLHS,
    /// Nested more deeply than the options allow.
    #[error("nested more deeply than is read: 64 levels, 32 in functions, if nothing else is asked for")]
    ExprTooDeep,
    /// A way out of a loop where there is none.
    #[error("there is no loop around this")]
    LoopBreak,
    /// The tree would not be well-formed. No text is known that comes to this.
    #[error("{0}")]
    IllFormed(TreeFault),
    /// By the grammar the text does not spell what was read. No text is known that comes to this.
    #[error("this is a fault of the reader, please report it: the text does not spell what was read")]
    NotAsRead,
    /// There was no memory.
    #[error("out of memory")]
    OutOfMemory,
}

/// Why a text is no script, and where.
#[derive(Debug, Drop, PartialEq, Eq, Error)]
#[error("{place}: {0}", place = Place(*.1))]
pub struct ParseError(pub ParseErrorType, pub Position);

impl ParseError {
    /// The reason.
    pub fn err_type(&self) -> &ParseErrorType {
        &self.0
    }

    /// Where it stands.
    pub fn position(&self) -> Position {
        self.1
    }
}

/// A position in print.
#[derive(Clone, Copy)]
struct Place(Position);

impl Display for Place {
    fn fmt<W: Write>(&self, f: &mut fmt::Formatter<W>) -> fmt::Result {
        let line = self.0.line().unwrap_or(0);
        let column = self.0.position().unwrap_or(0);
        write!(f, "line {line}, column {column}")
    }
}
