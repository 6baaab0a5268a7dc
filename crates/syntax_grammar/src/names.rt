//! Names.
#![tactic(auto, using(crate::proofs::LetterSteps::word_letters))]

ghost use Rattle.std.specs.Prelude.{◌≡◌};
ghost use Rattle.base_tokens.specs.Names as names;
ghost use Rattle.theory_grammar.specs.Words as words;
ghost use Rattle.theory_grammar.specs.Grammar.{is_function, is_method};

use crate::letters::{is_letter, is_word};
use base_tokens::is_among;

/// Words that are no names.
const KEPT: [&str; 61] = [
    "true",
    "false",
    "as",
    "async",
    "await",
    "break",
    "const",
    "continue",
    "catch",
    "case",
    "call",
    "curry",
    "do",
    "default",
    "debug",
    "else",
    "export",
    "eval",
    "Fn",
    "for",
    "fn",
    "goto",
    "go",
    "if",
    "in",
    "import",
    "is",
    "is_shared",
    "is_def_var",
    "is_def_fn",
    "let",
    "loop",
    "match",
    "module",
    "new",
    "null",
    "nil",
    "private",
    "public",
    "protected",
    "package",
    "print",
    "return",
    "switch",
    "static",
    "shared",
    "super",
    "spawn",
    "sync",
    "throw",
    "try",
    "thread",
    "this",
    "type_of",
    "until",
    "use",
    "var",
    "void",
    "while",
    "with",
    "yield",
];

/// Those of them that functions have.
const OWN_FUNCTIONS: [&str; 10] = [
    "eval",
    "Fn",
    "call",
    "curry",
    "is_shared",
    "is_def_var",
    "is_def_fn",
    "type_of",
    "print",
    "debug",
];

/// And methods.
const OWN_METHODS: [&str; 4] = ["call", "curry", "is_shared", "type_of"];

/// Whether a variable may have the name.
pub(crate) fn is_name(name: &str) -> bool
    ensures { result ≡ words.is_name name.now }
{
    is_identifier(name.as_bytes()) && !is_kept(name)
}

fn is_kept(name: &str) -> bool
    ensures { result ≡ names.is_among name.now words.kept }
{
    is_among(name, &KEPT)
}

/// Whether a function that is called may have the name.
pub(crate) fn is_function(name: &str) -> bool
    ensures { result ≡ is_function name.now }
{
    is_name(name) || is_own_function(name)
}

fn is_own_function(name: &str) -> bool
    ensures { result ≡ names.is_among name.now words.own_functions }
{
    is_among(name, &OWN_FUNCTIONS)
}

/// Whether a method that is called may have the name.
pub(crate) fn is_method(name: &str) -> bool
    ensures { result ≡ is_method name.now }
{
    is_name(name) || is_own_method(name)
}

fn is_own_method(name: &str) -> bool
    ensures { result ≡ names.is_among name.now words.own_methods }
{
    is_among(name, &OWN_METHODS)
}

/// Whether it is any number of `_`, a letter, and then letters, digits and `_`.
fn is_identifier(name: &[u8]) -> bool
    ensures { result ≡ names.is_identifier name.now }
{
    let mut rest = name;
    while let Some((first, others)) = rest.split_first() {
        if *first != b'_' {
            return is_letter(*first) && are_words(others);
        }
        rest = others;
    }
    false
}

/// Whether all are letters, digits or `_`.
fn are_words(name: &[u8]) -> bool
    ensures { result ≡ names.are_all names.is_word name.now }
{
    for letter in name {
        if !is_word(*letter) {
            return false;
        }
    }
    true
}
