//! Expressions that hold no other.
#![tactic(auto, using(ast_types::specs::Reading::shapes, crate::proofs::Steps::paren_steps, crate::proofs::Steps::operator_steps, crate::proofs::ExprSteps::atom_steps))]

ghost use Rattle.std.specs.Prelude.{◌≡◌, ℕ, [], IfSome, drop};
ghost use Rattle.ast_types.specs.Reading.{expr_of, path_of};
ghost use Rattle.theory_meaning.specs.Tree.{BoolConstant, FloatConstant, IntegerConstant, UnitConstant, Variable};
ghost use Rattle.theory_grammar.specs.Grammar.{Reads, of_signs, other_sign};
ghost use Rattle.syntax_grammar.specs.Open.{ReadsOpen};

use crate::floats::{past_float, past_greatest};
use crate::memory::Memory;
use crate::numbers::past_number;
use crate::parens::{Found, closed, opened};
use crate::paths::past_path;
use crate::quoted::past_text;
use crate::words::{past_letters, past_sign};
use ast_types::Expr;
use base_text::ImmutableString;
use base_tokens::Namespace;
use std::num::NonZeroUsize;

/// An expression of one word.
pub(crate) fn plain(text: &[u8], at: usize, expr: &Expr) -> Option<usize>
    ensures { IfSome result (λ next. (l : ℕ) → Reads l (drop at text.now) (expr_of expr.now) (drop next text.now)) }
{
    match expr {
        Expr::BoolConstant(value, _) => truth(text, at, *value),
        Expr::StringConstant(value, _) => past_text(text, at, value.as_str().as_bytes()),
        Expr::Variable(parts, _, _) => variable(text, at, parts.get()),
        Expr::ThisPtr(_) => past_letters(text, at, "this"),
        _ => None,
    }
}

fn truth(text: &[u8], at: usize, value: bool) -> Option<usize>
    ensures { IfSome result (λ next. (l : ℕ) → Reads l (drop at text.now) (BoolConstant value) (drop next text.now)) }
{
    if value {
        past_letters(text, at, "true")
    } else {
        past_letters(text, at, "false")
    }
}

fn variable(
    text: &[u8],
    at: usize,
    parts: &(Option<NonZeroUsize>, ImmutableString, Namespace),
) -> Option<usize>
    ensures { IfSome result (λ next. (l : ℕ) → Reads l (drop at text.now)
        (Variable (path_of parts.now.2) parts.now.1) (drop next text.now)) }
{
    past_path(text, at, &parts.2, parts.1.as_str())
}

/// A unit.
pub(crate) fn unit(text: &[u8], at: usize) -> Option<Found>
    ensures { IfSome result (λ f. ReadsOpen f.open f.level (drop at text.now) UnitConstant (drop f.next text.now)) }
{
    let (open, inner) = opened(text, at);
    if let Some(next) = past_sign(text, inner, "()", "") {
        return Some(Found {
            open,
            level: 255,
            next,
        });
    }
    if open == 0 {
        return None;
    }
    let next = past_sign(text, inner, ")", "")?;
    Some(Found {
        open: open - 1,
        level: 255,
        next,
    })
}

/// An integer, with so many signs at most.
#[cycle(signs)]
pub(crate) fn integer(text: &[u8], at: usize, value: i64, signs: u32) -> Option<Found>
    ensures { IfSome result (λ f. ReadsOpen f.open f.level (drop at text.now) (IntegerConstant value) (drop f.next text.now)) }
{
    let (open, inner) = opened(text, at);
    if let Some(next) = past_number(text, inner, value) {
        return Some(Found {
            open,
            level: 255,
            next,
        });
    }
    if signs == 0 {
        return None;
    }
    if let Some(behind) = past_sign(text, inner, "+", "=+") {
        let next = signed(text, behind, value, signs - 1)?;
        return Some(Found {
            open,
            level: 220,
            next,
        });
    }
    let behind = past_sign(text, inner, "-", "=>-")?;
    if value == i64::MIN {
        let next = past_greatest(text, behind)?;
        return Some(Found {
            open,
            level: 220,
            next,
        });
    }
    let next = signed(text, behind, value.checked_neg()?, signs - 1)?;
    Some(Found {
        open,
        level: 220,
        next,
    })
}

/// The operand of a sign that is an integer.
#[cycle(signs)]
fn signed(text: &[u8], at: usize, value: i64, signs: u32) -> Option<usize>
    ensures { IfSome result (λ next. Reads of_signs (drop at text.now) (IntegerConstant value) (drop next text.now)) }
{
    let found = closed(text, integer(text, at, value, signs)?);
    if found.open == 0 && found.level >= 220 {
        Some(found.next)
    } else {
        None
    }
}

/// A float, with so many signs at most.
#[cycle(float_signs)]
pub(crate) fn float(memory: &Memory, text: &[u8], at: usize, bits: u64, signs: u32) -> Option<Found>
    ensures { IfSome result (λ f. ReadsOpen f.open f.level (drop at text.now) (FloatConstant bits) (drop f.next text.now)) }
{
    let (open, inner) = opened(text, at);
    if let Some(next) = past_float(memory, text, inner, bits) {
        return Some(Found {
            open,
            level: 255,
            next,
        });
    }
    if signs == 0 {
        return None;
    }
    if let Some(behind) = past_sign(text, inner, "+", "=+") {
        let next = signed_float(memory, text, behind, bits, signs - 1)?;
        return Some(Found {
            open,
            level: 220,
            next,
        });
    }
    let behind = past_sign(text, inner, "-", "=>-")?;
    if bits == 0x43E0_0000_0000_0000 {
        if let Some(next) = signed(text, behind, i64::MIN, signs) {
            return Some(Found {
                open,
                level: 220,
                next,
            });
        }
    }
    let next = signed_float(memory, text, behind, other_sign(bits), signs - 1)?;
    Some(Found {
        open,
        level: 220,
        next,
    })
}

/// The operand of a sign that is a float.
#[cycle(float_signs)]
fn signed_float(memory: &Memory, text: &[u8], at: usize, bits: u64, signs: u32) -> Option<usize>
    ensures { IfSome result (λ next. Reads of_signs (drop at text.now) (FloatConstant bits) (drop next text.now)) }
{
    let found = closed(text, float(memory, text, at, bits, signs)?);
    if found.open == 0 && found.level >= 220 {
        Some(found.next)
    } else {
        None
    }
}

/// The bits of the float with the other sign.
fn other_sign(bits: u64) -> u64
    ensures { result ≡ other_sign bits }
{
    if bits < 9_223_372_036_854_775_808 {
        bits + 9_223_372_036_854_775_808
    } else {
        bits - 9_223_372_036_854_775_808
    }
}
