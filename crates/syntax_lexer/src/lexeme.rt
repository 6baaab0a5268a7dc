//! What a text is made of.

use crate::written::Written;
use base_tokens::Token;

/// What stands next in a text.
#[derive(Clone, Copy, Debug)]
pub enum Lexeme<'a> {
    /// An integer.
    Integer(i64),
    /// A float, or an integer of more than 64 bits: its letters.
    Float(&'a str),
    /// `true`, `false`
    Bool(bool),
    /// `'c'`
    Char(char),
    /// `"text"`, from behind the opening quote on.
    Text(Written<'a>),
    /// `#"text"#`: what stands between the quotes.
    Raw(&'a str),
    /// The back-tick that begins a text; the text, from behind it on.
    BackTick(Written<'a>),
    /// A name.
    Name(&'a str),
    /// A word that is no name of a variable: one of the language's, or one that is kept for later.
    Reserved(&'a str),
    /// A word of the grammar.
    Keyword(Keyword),
    /// An operator, an assignment's sign, or what joins a chain.
    Operator(Token),
    /// Another sign.
    Mark(Mark),
    /// `/// line`, `/** block */`
    Doc(&'a str),
    /// `//! line`
    ScriptDoc(&'a str),
    /// What is no word: why, and its letters.
    Bad(Misread, &'a str),
    /// The end of the text.
    End,
}

/// A word of the grammar.
#[derive(Clone, Copy, Debug, PartialEq, Eq)]
pub enum Keyword {
    /// `let`
    Let,
    /// `const`
    Const,
    /// `if`
    If,
    /// `else`
    Else,
    /// `switch`
    Switch,
    /// `do`
    Do,
    /// `while`
    While,
    /// `until`
    Until,
    /// `loop`
    Loop,
    /// `for`
    For,
    /// `in`
    In,
    /// `!in`
    NotIn,
    /// `continue`
    Continue,
    /// `break`
    Break,
    /// `return`
    Return,
    /// `throw`
    Throw,
    /// `try`
    Try,
    /// `catch`
    Catch,
    /// `fn`
    Fn,
    /// `private`
    Private,
    /// `import`
    Import,
    /// `export`
    Export,
    /// `as`
    As,
}

/// A sign that is no operator.
#[derive(Clone, Copy, Debug, PartialEq, Eq)]
pub enum Mark {
    /// `{`
    LeftBrace,
    /// `}`
    RightBrace,
    /// `)`
    RightParen,
    /// `]`
    RightBracket,
    /// `#{`
    MapStart,
    /// `;`
    SemiColon,
    /// `,`
    Comma,
    /// `:`
    Colon,
    /// `=>`
    DoubleArrow,
    /// `&&`
    And,
    /// `||`
    Or,
    /// `??`
    DoubleQuestion,
    /// `_`
    Underscore,
}

/// Why letters are no word. The names are rhai's.
#[derive(Clone, Copy, Debug, PartialEq, Eq)]
pub enum Misread {
    /// No word begins so.
    UnexpectedInput,
    /// A text without an end.
    UnterminatedString,
    /// No escape.
    MalformedEscapeSequence,
    /// No digits of its base, or more than 64 bits.
    MalformedNumber,
    /// No character, or several.
    MalformedChar,
    /// No name.
    MalformedIdentifier,
    /// A sign that is kept for later.
    ImproperSymbol,
}
