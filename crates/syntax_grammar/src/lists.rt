//! What stands between the items of a list.
#![tactic(auto, using(crate::proofs::ExprSteps::list_steps, crate::proofs::PairSteps::pair_steps))]

ghost use Rattle.std.specs.Prelude.{◌≡◌, [], IfSome, drop, false};
ghost use Rattle.base_text.specs.Text.{Text};
ghost use Rattle.theory_meaning.specs.Tree.{Exprs, Pairs, no_exprs, no_pairs};
ghost use Rattle.theory_grammar.specs.Words.{longer};
ghost use Rattle.theory_grammar.specs.Grammar.{ReadsItems, ReadsKey, ReadsPairs};

use crate::names::is_name;
use crate::quoted::past_text;
use crate::words::{past_letters, past_sign};

/// The place behind a comma, where one is owed.
pub(crate) fn behind_comma(text: &[u8], at: usize, owed: bool) -> Option<usize>
    ensures { IfSome result (λ next. (m rest : Text) (es : Exprs) → ReadsItems m false (drop next text.now) es rest
        → ReadsItems m owed (drop at text.now) es rest) }
{
    if owed {
        past_sign(text, at, ",", "")
    } else {
        Some(at)
    }
}

/// The place behind the end of a list, before which a comma may stand behind an item.
pub(crate) fn end_of_items(text: &[u8], at: usize, owed: bool, end: &str) -> Option<usize>
    requires { [] ≡ longer end.now }
    ensures { IfSome result (λ next. ReadsItems end.now owed (drop at text.now) no_exprs (drop next text.now)) }
{
    if owed {
        if let Some(behind) = past_sign(text, at, ",", "") {
            return past_sign(text, behind, end, "");
        }
    }
    past_sign(text, at, end, "")
}

/// The place behind a comma before a pair, where one is owed.
pub(crate) fn behind_pair(text: &[u8], at: usize, owed: bool) -> Option<usize>
    ensures { IfSome result (λ next. (rest : Text) (ps : Pairs) → ReadsPairs false (drop next text.now) ps rest
        → ReadsPairs owed (drop at text.now) ps rest) }
{
    if owed {
        past_sign(text, at, ",", "")
    } else {
        Some(at)
    }
}

/// The place behind the end of a map, before which a comma may stand behind a pair.
pub(crate) fn end_of_pairs(text: &[u8], at: usize, owed: bool) -> Option<usize>
    ensures { IfSome result (λ next. ReadsPairs owed (drop at text.now) no_pairs (drop next text.now)) }
{
    if owed {
        if let Some(behind) = past_sign(text, at, ",", "") {
            return past_sign(text, behind, "}", "");
        }
    }
    past_sign(text, at, "}", "")
}

/// The place behind the name of a property and its `:`.
pub(crate) fn past_key(text: &[u8], at: usize, name: &str) -> Option<usize>
    ensures { IfSome result (λ next. ReadsKey (drop at text.now) name.now (drop next text.now)) }
{
    if is_name(name) {
        if let Some(next) = past_letters(text, at, name) {
            return Some(next);
        }
    }
    past_text(text, at, name.as_bytes())
}
