//! What chains have between their parts.
#![tactic(auto, using(crate::proofs::ExprSteps::link_steps))]

ghost use Rattle.std.specs.Prelude.{◌≡◌, ◌++◌, IfSome, IsTrue, drop, codes};
ghost use Rattle.ast_types.specs.Reading.{chain_flags, has_bits, property_names};
ghost use Rattle.theory_meaning.specs.Tree.{Property};
ghost use Rattle.theory_grammar.specs.Words.{Next, Sign};
ghost use Rattle.theory_grammar.specs.Grammar.{Dotted, Indexed, ReadsMember, link_flags, link_sign};

use crate::letters::past_all;
use crate::names::is_name;
use crate::words::{past_letters, past_sign};
use base_text::ImmutableString;
use base_tokens::ASTFlags;
use bitflags::Flags;

/// The place behind the `.` or `?.` of a member.
pub(crate) fn past_dot(text: &[u8], at: usize, negated: bool) -> Option<usize>
    ensures { IfSome result (λ next. Next (drop at text.now) (Sign (link_sign (Dotted negated))) (drop next text.now)) }
{
    if negated {
        past_sign(text, at, "?.", "")
    } else {
        past_sign(text, at, ".", ".")
    }
}

/// The place behind the `[` or `?[` of an index.
pub(crate) fn past_bracket(text: &[u8], at: usize, negated: bool) -> Option<usize>
    ensures { IfSome result (λ next. Next (drop at text.now) (Sign (link_sign (Indexed negated))) (drop next text.now)) }
{
    if negated {
        past_sign(text, at, "?[", "")
    } else {
        past_sign(text, at, "[", "")
    }
}

/// Whether a step of a chain ends it at a unit, by flags that else say no more than whether it is an index at the end.
pub(crate) fn negation(flags: ASTFlags, breaks: bool) -> Option<bool>
    ensures { IfSome result (λ negated. chain_flags flags ≡ link_flags negated breaks) }
{
    if has(ASTFlags::EXPORTED, flags) || has(ASTFlags::BREAK, flags) != breaks {
        return None;
    }
    Some(has(ASTFlags::NEGATED, flags))
}

fn has(flag: ASTFlags, flags: ASTFlags) -> bool
    ensures { result ≡ has_bits flag.0 flags }
{
    flags.contains(flag)
}

/// The place behind the name of a property, whose functions are named by it.
pub(crate) fn property(
    text: &[u8],
    at: usize,
    names: &(ImmutableString, ImmutableString, ImmutableString),
) -> Option<usize>
    ensures { IfSome result (λ next. ReadsMember (drop at text.now) (Property (property_names names.now)) (drop next text.now)) }
{
    let name = names.2.as_str();
    if !is_joined(names.0.as_str(), "get$", name) || !is_joined(names.1.as_str(), "set$", name) {
        return None;
    }
    if is_name(name) {
        past_letters(text, at, name)
    } else {
        None
    }
}

/// Whether a text is made of these two.
fn is_joined(text: &str, before: &str, name: &str) -> bool
    ensures { IsTrue result → text.now ≡ before.now ++ name.now }
{
    let letters = text.as_bytes();
    let Some(middle) = past_all(letters, 0, before.as_bytes()) else {
        return false;
    };
    match past_all(letters, middle, name.as_bytes()) {
        Some(end) => end >= letters.len(),
        None => false,
    }
}
