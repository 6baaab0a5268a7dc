//! Parentheses before an expression.
#![tactic(auto, using(crate::proofs::Steps::paren_steps))]

ghost use Rattle.std.specs.Prelude.{◌≡◌, drop};
ghost use Rattle.base_text.specs.Text.{Text};
ghost use Rattle.theory_meaning.specs.Tree.{Expr};
ghost use Rattle.syntax_grammar.specs.Open.{Opened, ReadsOpen};

use crate::words::past_sign;

/// An expression that was found.
#[derive(Clone, Copy)]
pub(crate) struct Found {
    /// How many of the parentheses before it are open.
    pub(crate) open: usize,
    /// The highest level at which it may stand.
    pub(crate) level: u32,
    /// The place behind it.
    pub(crate) next: usize,
}

/// How many parentheses are opened at a place, and the place behind them.
pub(crate) fn opened(text: &[u8], at: usize) -> (usize, usize)
    ensures { Opened result.0 (drop at text.now) (drop result.1 text.now) }
{
    let mut place = at;
    for count in 0..text.len() {
        match past_sign(text, place, "(", ")*") {
            Some(next) => place = next,
            None => return (count, place),
        }
    }
    (text.len(), place)
}

/// The parentheses that are closed there belong to what was found.
pub(crate) fn closed(text: &[u8], found: Found) -> Found
    ensures { (ws : Text) (e : Expr) → ReadsOpen found.open found.level ws e (drop found.next text.now)
        → ReadsOpen result.open result.level ws e (drop result.next text.now) }
{
    if found.open == 0 {
        return found;
    }
    match past_sign(text, found.next, ")", "") {
        Some(next) => closed(
            text,
            Found {
                open: found.open - 1,
                level: 255,
                next,
            },
        ),
        None => found,
    }
}
