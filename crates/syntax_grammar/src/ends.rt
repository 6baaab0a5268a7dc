//! Where a text begins and ends, and what stands behind a range without an end.
#![tactic(auto, using(crate::proofs::EndSteps::end_steps))]

ghost use Rattle.std.specs.Prelude.{◌≡◌, [], IfSome, IsTrue, true, drop};
ghost use Rattle.base_tokens.specs.Names.{is_among};
ghost use Rattle.theory_grammar.specs.Words.{longer};
ghost use Rattle.theory_grammar.specs.Grammar.{Closes, Opens, closing};

use crate::blanks::{behind_blanks, line_end};
use crate::letters::{letter_at, past_all};
use crate::words::past_sign;

/// The place behind a byte order mark and a first line `#!`.
pub(crate) fn beginning(text: &[u8]) -> usize
    ensures { Opens text.now (drop result text.now) }
{
    let start = past_mark(text);
    match past_first(text, start) {
        Some(next) => next,
        None => start,
    }
}

fn past_mark(text: &[u8]) -> usize
    ensures { Opens text.now (drop result text.now) }
{
    match past_all(text, 0, b"\xEF\xBB\xBF") {
        Some(next) => next,
        None => 0,
    }
}

fn past_first(text: &[u8], at: usize) -> Option<usize>
    ensures { IfSome result (λ next. Opens text.now (drop at text.now) → Opens text.now (drop next text.now)) }
{
    let behind = past_all(text, at, b"#!")?;
    line_end(text, behind)
}

/// Whether the text ends at a place.
pub(crate) fn is_end(text: &[u8], at: usize) -> bool
    ensures { IsTrue result → drop at text.now ≡ [] }
{
    match letter_at(text, at) {
        None => true,
        Some(_) => false,
    }
}

/// Whether a range without its last end may end there.
pub(crate) fn closes(text: &[u8], at: usize) -> bool
    ensures { IsTrue result → Closes (drop at text.now) }
{
    is_last(text, at)
        || is_before(text, at, ")")
        || is_before(text, at, "]")
        || is_before(text, at, "}")
        || is_before(text, at, ",")
        || is_before(text, at, ";")
        || is_before(text, at, "=>")
        || is_before(text, at, "{")
}

/// Whether nothing follows.
fn is_last(text: &[u8], at: usize) -> bool
    ensures { IsTrue result → Closes (drop at text.now) }
{
    is_end(text, behind_blanks(text, at))
}

/// Whether such a sign stands next.
fn is_before(text: &[u8], at: usize, sign: &str) -> bool
    requires alone { [] ≡ longer sign.now }
    requires closing { is_among sign.now closing ≡ true }
    ensures { IsTrue result → Closes (drop at text.now) }
{
    match past_sign(text, at, sign, "") {
        Some(_) => true,
        None => false,
    }
}
