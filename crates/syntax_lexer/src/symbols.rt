//! Signs.

use crate::lexeme::{Keyword, Lexeme, Mark, Misread};
use crate::place::{Kind, Place, run_of};
use base_tokens::Token;

/// A sign and what it is; one that is nothing is kept for later.
type Sign = (&'static str, Option<Lexeme<'static>>);

static STAR: [Sign; 5] = [
    ("**=", Some(Lexeme::Operator(Token::PowerOfAssign))),
    ("**", Some(Lexeme::Operator(Token::PowerOf))),
    ("*=", Some(Lexeme::Operator(Token::MultiplyAssign))),
    ("*)", None),
    ("*", Some(Lexeme::Operator(Token::Multiply))),
];

static LESS: [Sign; 6] = [
    ("<<=", Some(Lexeme::Operator(Token::LeftShiftAssign))),
    ("<=", Some(Lexeme::Operator(Token::LessThanEqualsTo))),
    ("<<", Some(Lexeme::Operator(Token::LeftShift))),
    ("<-", None),
    ("<|", None),
    ("<", Some(Lexeme::Operator(Token::LessThan))),
];

static GREATER: [Sign; 4] = [
    (">>=", Some(Lexeme::Operator(Token::RightShiftAssign))),
    (">=", Some(Lexeme::Operator(Token::GreaterThanEqualsTo))),
    (">>", Some(Lexeme::Operator(Token::RightShift))),
    (">", Some(Lexeme::Operator(Token::GreaterThan))),
];

static DOT: [Sign; 4] = [
    ("..=", Some(Lexeme::Operator(Token::InclusiveRange))),
    ("...", None),
    ("..", Some(Lexeme::Operator(Token::ExclusiveRange))),
    (".", Some(Lexeme::Operator(Token::Period))),
];

static EQUAL: [Sign; 4] = [
    ("===", None),
    ("==", Some(Lexeme::Operator(Token::EqualsTo))),
    ("=>", Some(Lexeme::Mark(Mark::DoubleArrow))),
    ("=", Some(Lexeme::Operator(Token::Equals))),
];

static BANG: [Sign; 4] = [
    ("!==", None),
    ("!=", Some(Lexeme::Operator(Token::NotEqualsTo))),
    ("!.", None),
    ("!", Some(Lexeme::Operator(Token::Bang))),
];

static COLON: [Sign; 5] = [
    ("::<", None),
    ("::", Some(Lexeme::Operator(Token::DoubleColon))),
    (":=", None),
    (":;", None),
    (":", Some(Lexeme::Mark(Mark::Colon))),
];

static PARENTHESIS: [Sign; 3] = [
    ("()", Some(Lexeme::Operator(Token::Unit))),
    ("(*", None),
    ("(", Some(Lexeme::Operator(Token::LeftParen))),
];

static QUESTION: [Sign; 4] = [
    ("?.", Some(Lexeme::Operator(Token::Elvis))),
    ("?[", Some(Lexeme::Operator(Token::QuestionBracket))),
    ("??", Some(Lexeme::Mark(Mark::DoubleQuestion))),
    ("?", None),
];

static PLUS: [Sign; 3] = [
    ("+=", Some(Lexeme::Operator(Token::PlusAssign))),
    ("++", None),
    ("+", Some(Lexeme::Operator(Token::Plus))),
];

static MINUS: [Sign; 4] = [
    ("-=", Some(Lexeme::Operator(Token::MinusAssign))),
    ("->", None),
    ("--", None),
    ("-", Some(Lexeme::Operator(Token::Minus))),
];

static SLASH: [Sign; 2] = [
    ("/=", Some(Lexeme::Operator(Token::DivideAssign))),
    ("/", Some(Lexeme::Operator(Token::Divide))),
];

static PERCENT: [Sign; 2] = [
    ("%=", Some(Lexeme::Operator(Token::ModuloAssign))),
    ("%", Some(Lexeme::Operator(Token::Modulo))),
];

static AMPERSAND: [Sign; 3] = [
    ("&=", Some(Lexeme::Operator(Token::AndAssign))),
    ("&&", Some(Lexeme::Mark(Mark::And))),
    ("&", Some(Lexeme::Operator(Token::Ampersand))),
];

static PIPE: [Sign; 4] = [
    ("|=", Some(Lexeme::Operator(Token::OrAssign))),
    ("||", Some(Lexeme::Mark(Mark::Or))),
    ("|>", None),
    ("|", Some(Lexeme::Operator(Token::Pipe))),
];

static CARET: [Sign; 2] = [
    ("^=", Some(Lexeme::Operator(Token::XOrAssign))),
    ("^", Some(Lexeme::Operator(Token::XOr))),
];

static HASH: [Sign; 3] = [
    ("#{", Some(Lexeme::Mark(Mark::MapStart))),
    ("#!", None),
    ("#", None),
];

/// Signs of one letter that begins no other.
static ALONE: [Sign; 11] = [
    ("[", Some(Lexeme::Operator(Token::LeftBracket))),
    ("{", Some(Lexeme::Mark(Mark::LeftBrace))),
    ("}", Some(Lexeme::Mark(Mark::RightBrace))),
    (")", Some(Lexeme::Mark(Mark::RightParen))),
    ("]", Some(Lexeme::Mark(Mark::RightBracket))),
    (";", Some(Lexeme::Mark(Mark::SemiColon))),
    (",", Some(Lexeme::Mark(Mark::Comma))),
    ("~", None),
    ("@", None),
    ("$", None),
    ("\\", None),
];

/// The signs that may begin with a byte, the longest first.
fn signs_of(first: u8) -> &'static [Sign] {
    match first {
        b'*' => STAR.as_slice(),
        b'<' => LESS.as_slice(),
        b'>' => GREATER.as_slice(),
        b'.' => DOT.as_slice(),
        b'=' => EQUAL.as_slice(),
        b'!' => BANG.as_slice(),
        b':' => COLON.as_slice(),
        b'(' => PARENTHESIS.as_slice(),
        b'?' => QUESTION.as_slice(),
        b'+' => PLUS.as_slice(),
        b'-' => MINUS.as_slice(),
        b'/' => SLASH.as_slice(),
        b'%' => PERCENT.as_slice(),
        b'&' => AMPERSAND.as_slice(),
        b'|' => PIPE.as_slice(),
        b'^' => CARET.as_slice(),
        b'#' => HASH.as_slice(),
        _ => ALONE.as_slice(),
    }
}

/// The sign that stands next.
pub(crate) fn symbol_at(place: Place<'_>) -> (Lexeme<'_>, Place<'_>) {
    if is_not_in(place) {
        return (Lexeme::Keyword(Keyword::NotIn), place.behind(3));
    }
    let first = place.rest().as_bytes().first().copied().unwrap_or(0);
    for (letters, lexeme) in signs_of(first) {
        if place.starts(letters) {
            let (symbol, behind) = place.split(letters.len());
            let improper = Lexeme::Bad(Misread::ImproperSymbol, symbol);
            return (lexeme.unwrap_or(improper), behind);
        }
    }
    let length = match place.letter() {
        Some(letter) => letter.len_utf8(),
        None => 0,
    };
    let (letter, behind) = place.split(length);
    (Lexeme::Bad(Misread::UnexpectedInput, letter), behind)
}

/// Whether `!in` stands next, which is one word.
fn is_not_in(place: Place<'_>) -> bool {
    place.starts("!in") && run_of(place.behind(1).rest().as_bytes(), Kind::OfNames) == 2
}
