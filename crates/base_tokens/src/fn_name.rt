//! Names of functions.
#![tactic(auto, using(crate::proofs::Words::words))]

ghost use Rattle.std.specs.Prelude.{◌≡◌, MatchOption, map, nat_eq, Some, true, false};
ghost use Rattle.std.specs.Hash as fed;
ghost use Rattle.std.specs.Cmp.Lexicographic.{pointwise, nat_list_eq_equiv};
ghost use Rattle.std.specs.Cmp.Rules.{hashing};
ghost use Rattle.std.specs.Cmp;
ghost use Rattle.std.proofs.Common.{rules};
ghost use Rattle.base_tokens.specs.Names as names;

use base_text::ImmutableString;
use std::alloc::AllocError;
use std::hash::{Hash, Hasher};
use std::marker::Model;

/// The names that are the language's own.
const RESERVED: [&str; 11] = [
    "eval",
    "Fn",
    "call",
    "curry",
    "is_shared",
    "is_def_var",
    "is_def_fn",
    "type_of",
    "this",
    "print",
    "debug",
];

/// A name that a function may have: none that the language reserves; any number of `_`, an ASCII letter,
/// and then ASCII letters, digits and `_`; or `anon$` before one or more of these.
#[derive(Drop, Debug)]
pub struct FnName {
    name: ImmutableString,
}

impl Model for FnName {
    ghost use Rattle.std.specs.Prelude.{◌≡◌, List, ℕ, true};
    ghost use Rattle.base_tokens.specs.Names.{is_valid_name};

    ghost Value = { List ℕ };

    ghost view = { λ n. n.name };

    ghost invariant = { λ n. is_valid_name n.name ≡ true };
}

impl FnName {
    /// The name, where a function may have it. It takes no memory.
    pub fn new(name: ImmutableString) -> Option<FnName>
        ensures { MatchOption result (names.is_valid_name name ≡ false) (λ n.
            (n ≡ name) × (names.is_valid_name name ≡ true)) }
    {
        if is_valid_name(name.as_str()) {
            Some(FnName { name })
        } else {
            None
        }
    }

    /// The name as text.
    pub fn as_str(&self) -> &str
        ensures text { result.now ≡ self.now }
        ensures valid { names.is_valid_name self.now ≡ true }
    {
        self.name.as_str()
    }

    /// The name, taken out. It is not in rhai.
    pub fn into_name(self) -> ImmutableString
        ensures text { result ≡ self }
        ensures valid { names.is_valid_name self ≡ true }
    {
        self.name
    }
}

impl Clone for FnName {
    ghost is_clone = { λ n m. m ≡ n };

    fn clone(&self) -> Result<FnName, AllocError> {
        Ok(FnName {
            name: self.name.clone()?,
        })
    }
}

impl PartialEq for FnName {
    ghost eq = { λ x y. pointwise nat_eq x y };

    ghost laws = { Cmp.partial_equiv_from_equiv nat_list_eq_equiv };

    fn eq(&self, other: &Self) -> bool {
        self.name.eq(&other.name)
    }
}

impl Eq for FnName {
    ghost laws = { nat_list_eq_equiv };
}

impl Hash for FnName {
    ghost hash_input = { λ n. fed.str n };

    ghost respects_eq = { Prim.search (hashing, rules) };

    fn hash<H: Hasher>(&self, state: &mut H) {
        self.name.hash(state);
    }
}

/// Whether a function may have the name.
fn is_valid_name(name: &str) -> bool
    ensures { result ≡ names.is_valid_name name.now }
{
    !is_reserved(name) && (is_identifier(name.as_bytes()) || is_anonymous(name))
}

/// Whether the name is the language's own.
pub fn is_reserved(name: &str) -> bool
    ensures { result ≡ names.is_among name.now names.reserved }
{
    is_among(name, &RESERVED)
}

/// Whether the name is one of these.
pub fn is_among(name: &str, words: &[&str]) -> bool
    ensures { result ≡ names.is_among name.now (map (λ word. word.now) words.now) }
{
    for word in words {
        if *word == name {
            return true;
        }
    }
    false
}

/// Whether it is any number of `_`, a letter, and then letters, digits and `_`.
fn is_identifier(name: &[u8]) -> bool
    ensures { result ≡ names.is_identifier name.now }
{
    let mut rest = name;
    while let Some((first, others)) = rest.split_first() {
        if *first != b'_' {
            return is_letter(*first) && are_words(others);
        }
        rest = others;
    }
    false
}

/// Whether it is `anon$` before one or more letters, digits and `_`.
fn is_anonymous(name: &str) -> bool
    ensures { result ≡ names.are_some_words (names.after names.anonymous name.now) }
{
    match name.strip_prefix("anon$") {
        Some(words) => !words.is_empty() && are_words(words.as_bytes()),
        None => false,
    }
}

/// Whether all are letters, digits or `_`.
fn are_words(name: &[u8]) -> bool
    ensures { result ≡ names.are_all names.is_word name.now }
{
    for c in name {
        if !is_word(*c) {
            return false;
        }
    }
    true
}

/// Whether it is a letter, a digit or `_`.
fn is_word(c: u8) -> bool
    ensures { result ≡ names.is_word c }
{
    c.is_ascii_alphanumeric() || c == b'_'
}

/// Whether it is a letter.
fn is_letter(c: u8) -> bool
    ensures { result ≡ names.is_letter c }
{
    c.is_ascii_alphabetic()
}
