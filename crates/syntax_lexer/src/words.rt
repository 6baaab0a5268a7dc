//! Names and words.

use crate::lexeme::{Keyword, Lexeme, Mark, Misread};
use crate::place::{Kind, Place, run_of};

/// A word and what it is in the grammar; one that is nothing there is kept for later, or the language's own.
type Word = (&'static str, Option<Keyword>);

static A_WORDS: [Word; 3] = [("as", Some(Keyword::As)), ("async", None), ("await", None)];

static B_WORDS: [Word; 1] = [("break", Some(Keyword::Break))];

static C_WORDS: [Word; 6] = [
    ("const", Some(Keyword::Const)),
    ("continue", Some(Keyword::Continue)),
    ("catch", Some(Keyword::Catch)),
    ("case", None),
    ("call", None),
    ("curry", None),
];

static D_WORDS: [Word; 3] = [
    ("do", Some(Keyword::Do)),
    ("default", None),
    ("debug", None),
];

static E_WORDS: [Word; 3] = [
    ("else", Some(Keyword::Else)),
    ("export", Some(Keyword::Export)),
    ("eval", None),
];

static FN_WORDS: [Word; 1] = [("Fn", None)];

static F_WORDS: [Word; 2] = [("for", Some(Keyword::For)), ("fn", Some(Keyword::Fn))];

static G_WORDS: [Word; 2] = [("goto", None), ("go", None)];

static I_WORDS: [Word; 7] = [
    ("if", Some(Keyword::If)),
    ("in", Some(Keyword::In)),
    ("import", Some(Keyword::Import)),
    ("is", None),
    ("is_shared", None),
    ("is_def_var", None),
    ("is_def_fn", None),
];

static L_WORDS: [Word; 2] = [("let", Some(Keyword::Let)), ("loop", Some(Keyword::Loop))];

static M_WORDS: [Word; 2] = [("match", None), ("module", None)];

static N_WORDS: [Word; 3] = [("new", None), ("null", None), ("nil", None)];

static P_WORDS: [Word; 5] = [
    ("private", Some(Keyword::Private)),
    ("public", None),
    ("protected", None),
    ("package", None),
    ("print", None),
];

static R_WORDS: [Word; 1] = [("return", Some(Keyword::Return))];

static S_WORDS: [Word; 6] = [
    ("switch", Some(Keyword::Switch)),
    ("static", None),
    ("shared", None),
    ("super", None),
    ("spawn", None),
    ("sync", None),
];

static T_WORDS: [Word; 5] = [
    ("throw", Some(Keyword::Throw)),
    ("try", Some(Keyword::Try)),
    ("thread", None),
    ("this", None),
    ("type_of", None),
];

static U_WORDS: [Word; 2] = [("until", Some(Keyword::Until)), ("use", None)];

static V_WORDS: [Word; 2] = [("var", None), ("void", None)];

static W_WORDS: [Word; 2] = [("while", Some(Keyword::While)), ("with", None)];

static Y_WORDS: [Word; 1] = [("yield", None)];

/// The words that begin with a byte.
fn words_of(first: u8) -> &'static [Word] {
    match first {
        b'a' => A_WORDS.as_slice(),
        b'b' => B_WORDS.as_slice(),
        b'c' => C_WORDS.as_slice(),
        b'd' => D_WORDS.as_slice(),
        b'e' => E_WORDS.as_slice(),
        b'F' => FN_WORDS.as_slice(),
        b'f' => F_WORDS.as_slice(),
        b'g' => G_WORDS.as_slice(),
        b'i' => I_WORDS.as_slice(),
        b'l' => L_WORDS.as_slice(),
        b'm' => M_WORDS.as_slice(),
        b'n' => N_WORDS.as_slice(),
        b'p' => P_WORDS.as_slice(),
        b'r' => R_WORDS.as_slice(),
        b's' => S_WORDS.as_slice(),
        b't' => T_WORDS.as_slice(),
        b'u' => U_WORDS.as_slice(),
        b'v' => V_WORDS.as_slice(),
        b'w' => W_WORDS.as_slice(),
        b'y' => Y_WORDS.as_slice(),
        _ => &[],
    }
}

/// The word that stands next, which begins with a letter or a `_`.
pub(crate) fn word_at(place: Place<'_>) -> (Lexeme<'_>, Place<'_>) {
    let (word, behind) = place.split(run_of(place.rest().as_bytes(), Kind::OfNames));
    (lexeme_of(word), behind)
}

fn lexeme_of(word: &str) -> Lexeme<'_> {
    match word {
        "_" => return Lexeme::Mark(Mark::Underscore),
        "true" => return Lexeme::Bool(true),
        "false" => return Lexeme::Bool(false),
        _ => {}
    }
    if !is_identifier(word) {
        return Lexeme::Bad(Misread::MalformedIdentifier, word);
    }
    let first = word.as_bytes().first().copied().unwrap_or(0);
    for (letters, keyword) in words_of(first) {
        if *letters == word {
            return match keyword {
                Some(keyword) => Lexeme::Keyword(*keyword),
                None => Lexeme::Reserved(word),
            };
        }
    }
    Lexeme::Name(word)
}

/// Whether what follows any number of `_` begins with a letter.
fn is_identifier(word: &str) -> bool {
    let underscores = run_of(word.as_bytes(), Kind::Only(b'_'));
    match word.as_bytes().get(underscores) {
        Some(first) => first.is_ascii_alphabetic(),
        None => false,
    }
}
