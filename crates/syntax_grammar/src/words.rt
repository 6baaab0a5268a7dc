//! Words.
#![tactic(auto, using(crate::proofs::WordSteps::word_steps))]

ghost use Rattle.std.specs.Prelude.{◌≡◌, IfSome, drop};
ghost use Rattle.theory_grammar.specs.Words.{Letters, Next, Sign, longer};

use crate::blanks::behind_blanks;
use crate::letters::{goes_on_as_word, goes_on_with, past_all};

/// The place behind a word of letters that stands next.
pub(crate) fn past_letters(text: &[u8], at: usize, letters: &str) -> Option<usize>
    ensures { IfSome result (λ next. Next (drop at text.now) (Letters letters.now) (drop next text.now)) }
{
    let start = behind_blanks(text, at);
    let next = past_all(text, start, letters.as_bytes())?;
    if goes_on_as_word(text, next) {
        return None;
    }
    Some(next)
}

/// The place behind a sign that stands next; the letters behind which it is a longer one are given.
pub(crate) fn past_sign(text: &[u8], at: usize, sign: &str, others: &str) -> Option<usize>
    requires { others.now ≡ longer sign.now }
    ensures { IfSome result (λ next. Next (drop at text.now) (Sign sign.now) (drop next text.now)) }
{
    let start = behind_blanks(text, at);
    let next = past_all(text, start, sign.as_bytes())?;
    if goes_on_with(text, next, others.as_bytes()) {
        return None;
    }
    Some(next)
}
