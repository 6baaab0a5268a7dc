//! Which parts a node's text has, in which order.

use rhai_base::ASTFlags;

/// A part of a node's text.
#[derive(Clone, Copy)]
pub(crate) enum Part {
    /// These letters.
    Letters(&'static str),
    /// An expression.
    Expr,
    /// What stands at the right of a `.`
    Link,
    /// An expression after a word that leaves, if there is one.
    Maybe,
    /// A sign of an assignment with its right side, if there is one.
    Assigned,
    /// Expressions up to a `)`.
    Operands,
    /// Expressions up to a `]`.
    Items,
    /// A key with its expression.
    Pair,
    /// Pairs up to a `}`.
    Pairs,
    /// A condition with its answer.
    Arm,
    /// Arms up to the end of their `switch`.
    Arms,
    /// A statement.
    Statement,
    /// Statements up to the end of their block.
    Statements,
    /// A block.
    Body,
    /// The other block.
    Branch,
    /// What no part of a tree stands in.
    Flat(Flat),
}

/// A part that no other node stands in.
#[derive(Clone, Copy)]
pub(crate) enum Flat {
    /// No letters, and this flag.
    Flag(ASTFlags),
    /// A name.
    Name,
    /// Another name, which may be empty.
    Alias,
    /// The name of a loop, or with that of its counter in parentheses.
    LoopNames,
    /// Names with commas between.
    Names,
    /// The word before a condition that stands behind its loop.
    Until,
    /// How a step of a chain ends it.
    Ending,
    /// What is called, up to the `(`.
    Callee,
    /// The word `catch`, and a name or none.
    Caught,
    /// What a `switch` chooses by.
    Table,
}

/// What an expression is.
#[derive(Clone, Copy)]
pub(crate) enum ExprKind {
    Array,
    Map,
    Text,
    And,
    Or,
    Coalesce,
    This,
    Dot,
    Index,
    Call,
    Variable,
    Property,
    Method,
}

/// What a statement is.
#[derive(Clone, Copy)]
pub(crate) enum StmtKind {
    Noop,
    If,
    Switch,
    While,
    Do,
    For,
    Var,
    Call,
    Block,
    Try,
    Expr,
    Leave,
    Return,
    Import,
    Export,
    Share,
}

/// An expression's kind with its parts.
pub(crate) type ExprForm = (ExprKind, &'static [Part]);

/// A statement's kind with its parts.
pub(crate) type StmtForm = (StmtKind, &'static [Part]);

/// The form in the row of a word.
pub(crate) fn form_of<K: Copy>(
    rows: &'static [(&'static str, K, &'static [Part])],
    word: &str,
) -> Option<(K, &'static [Part])> {
    for (name, kind, parts) in rows {
        if *name == word {
            return Some((*kind, *parts));
        }
    }
    None
}

pub(crate) static ITEMS: [Part; 1] = [Part::Items];

pub(crate) static PAIRS: [Part; 1] = [Part::Pairs];

pub(crate) static OPERANDS: [Part; 1] = [Part::Operands];

pub(crate) static STATEMENTS: [Part; 1] = [Part::Statements];

/// An expression as a statement, or an assignment to it.
pub(crate) static ALONE: [Part; 2] = [Part::Expr, Part::Assigned];

/// Expressions by their words, which have their parts in parentheses.
pub(crate) static EXPRS: [(&str, ExprKind, &[Part]); 6] = [
    ("text", ExprKind::Text, &[OPEN, Part::Operands]),
    ("and", ExprKind::And, &[OPEN, Part::Operands]),
    ("or", ExprKind::Or, &[OPEN, Part::Operands]),
    ("coalesce", ExprKind::Coalesce, &[OPEN, Part::Operands]),
    (
        "Dot",
        ExprKind::Dot,
        &[ENDING, OPEN, Part::Expr, COMMA, Part::Link, CLOSE],
    ),
    (
        "Index",
        ExprKind::Index,
        &[ENDING, OPEN, Part::Expr, COMMA, Part::Expr, CLOSE],
    ),
];

/// The same at the right of a `.`
pub(crate) static LINKS: [(&str, ExprKind, &[Part]); 2] = [
    (
        "Dot",
        ExprKind::Dot,
        &[ENDING, OPEN, Part::Link, COMMA, Part::Link, CLOSE],
    ),
    (
        "Index",
        ExprKind::Index,
        &[ENDING, OPEN, Part::Link, COMMA, Part::Expr, CLOSE],
    ),
];

/// Words of statements that may be names of variables too.
pub(crate) static NAMES: [&str; 4] = ["noop", "call", "block", "share"];

const OPEN: Part = Part::Letters("(");

const COMMA: Part = Part::Letters(", ");

const CLOSE: Part = Part::Letters(")");

const ENDING: Part = Part::Flat(Flat::Ending);

const BREAK: Part = Part::Flat(Flat::Flag(ASTFlags::BREAK));

const CONSTANT: Part = Part::Flat(Flat::Flag(ASTFlags::CONSTANT));

const EXPORTED: Part = Part::Flat(Flat::Flag(ASTFlags::EXPORTED));

const BLANK: Part = Part::Letters(" ");

const NAME: Part = Part::Flat(Flat::Name);

const ALIAS: Part = Part::Flat(Flat::Alias);

const IS: Part = Part::Letters(" = ");

const AS: Part = Part::Letters(" as ");

/// Statements by their words.
pub(crate) static STMTS: [(&str, StmtKind, &[Part]); 19] = [
    ("noop", StmtKind::Noop, &[]),
    (
        "if",
        StmtKind::If,
        &[
            BLANK,
            Part::Expr,
            BLANK,
            Part::Body,
            Part::Letters(" else "),
            Part::Branch,
        ],
    ),
    (
        "switch",
        StmtKind::Switch,
        &[
            BLANK,
            Part::Expr,
            Part::Letters(" { "),
            Part::Flat(Flat::Table),
            Part::Arms,
        ],
    ),
    (
        "while",
        StmtKind::While,
        &[BLANK, Part::Expr, BLANK, Part::Body],
    ),
    ("loop", StmtKind::While, &[BLANK, Part::Body]),
    (
        "do",
        StmtKind::Do,
        &[BLANK, Part::Body, Part::Flat(Flat::Until), Part::Expr],
    ),
    (
        "for",
        StmtKind::For,
        &[
            BLANK,
            Part::Flat(Flat::LoopNames),
            Part::Letters(" in "),
            Part::Expr,
            BLANK,
            Part::Body,
        ],
    ),
    ("let", StmtKind::Var, &[BLANK, NAME, IS, Part::Expr]),
    (
        "const",
        StmtKind::Var,
        &[CONSTANT, BLANK, NAME, IS, Part::Expr],
    ),
    (
        "call",
        StmtKind::Call,
        &[BLANK, Part::Flat(Flat::Callee), Part::Operands],
    ),
    ("block", StmtKind::Block, &[BLANK, Part::Body]),
    (
        "try",
        StmtKind::Try,
        &[BLANK, Part::Body, Part::Flat(Flat::Caught), Part::Branch],
    ),
    ("continue", StmtKind::Leave, &[Part::Maybe]),
    ("break", StmtKind::Leave, &[BREAK, Part::Maybe]),
    ("return", StmtKind::Return, &[Part::Maybe]),
    ("throw", StmtKind::Return, &[BREAK, Part::Maybe]),
    ("import", StmtKind::Import, &[BLANK, Part::Expr, AS, ALIAS]),
    ("export", StmtKind::Export, &[BLANK, NAME, AS, ALIAS]),
    ("share", StmtKind::Share, &[BLANK, Part::Flat(Flat::Names)]),
];

/// Declarations behind the word `export`.
pub(crate) static EXPORTS: [(&str, StmtKind, &[Part]); 2] = [
    (" let ", StmtKind::Var, &[EXPORTED, NAME, IS, Part::Expr]),
    (
        " const ",
        StmtKind::Var,
        &[EXPORTED, CONSTANT, NAME, IS, Part::Expr],
    ),
];
