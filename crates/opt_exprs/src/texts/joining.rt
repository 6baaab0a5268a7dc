//! One pass over the parts of an interpolated text, in the list's own memory: empty ones go, and neighbouring texts
//! are joined. Each text is copied once.

#![tactic(auto, using(ast_types::specs::Reading::shapes))]

ghost use Rattle.std.specs.Prelude.{◌≡◌, ◌<◌, ◌≤◌, ◌+◌, IfOk, OnOk, false, length, drop};
ghost use Rattle.theory_meaning.specs.Tree.{InterpolatedString, StringConstant};
ghost use Rattle.ast_types.specs.Reading.{exprs_of};
ghost use Rattle.opt_exprs.specs.Parts as spec;
ghost use Rattle.opt_exprs.specs.Parts.{AreTexts, Joins, JoinedAt, NodeChange, PartsChange, PutText};

use crate::texts::parts::{is_empty_part, is_text, push_written};
use ast_nodes::put_expr;
use rhai_ast::{Expr, ExprQueries};
use rhai_base::{ImmutableString, OutOfMemory, Seq};
use std::alloc::Global;

/// Units and empty texts go.
fn empty_go(parts: &mut Seq<Expr>)
    ensures { PartsChange spec.first_goes parts.old parts.new }
{
    let mut kept = 0;
    for at in 0..parts.len() {
        if !is_empty_part(&parts.as_slice()[at]) {
            parts.move_down(at, kept);
            kept += 1;
        }
    }
    parts.truncate(kept);
}

/// The place behind the texts that stand side by side from a place on, or behind what else stands there.
fn run_end(parts: &[Expr], at: usize) -> usize
    requires { at < length parts.now }
    ensures above { at < result }
    ensures inside { result ≤ length parts.now }
    ensures texts { at + 1 < result → AreTexts parts.now at result }
    ensures alone { result ≡ at + 1 → spec.first_joins (exprs_of (drop at parts.now)) ≡ false }
{
    let mut end = at + 1;
    if !is_text(&parts[at]) {
        return end;
    }
    while end < parts.len() && is_text(&parts[end]) {
        end += 1;
    }
    end
}

/// The texts from a place up to another as one text.
fn joined(
    alloc: Global,
    parts: &[Expr],
    at: usize,
    end: usize,
) -> Result<ImmutableString, OutOfMemory>
    requires above { at < end }
    requires inside { end ≤ length parts.now }
    requires texts { AreTexts parts.now at end }
    ensures { IfOk result (λ t. Joins parts.now at end (StringConstant t)) }
{
    let mut text = String::new(alloc);
    for i in at..end {
        push_written(&parts[i], &mut text)?;
    }
    Ok(ImmutableString::from_string(text)?)
}

/// Neighbouring texts are joined, at the place of the first. The answer is the place behind them.
fn texts_join(alloc: Global, parts: &mut Seq<Expr>, at: usize) -> Result<usize, OutOfMemory>
    requires { at < length parts.old }
    ensures { IfOk result (λ end. JoinedAt spec.first_joins at end parts.old parts.new) }
{
    let end = run_end(parts.as_slice(), at);
    if at + 1 == end {
        return Ok(end);
    }
    let text = joined(alloc, parts.as_slice(), at, end)?;
    put_text(parts, at, text);
    Ok(end)
}

/// Puts a text in the place of a part.
fn put_text(parts: &mut Seq<Expr>, at: usize, text: ImmutableString)
    requires { at < length parts.old }
    ensures { PutText at text parts.old parts.new }
{
    if let Some(part) = parts.get_mut(at) {
        let pos = part.position();
        put_expr(part, Expr::StringConstant(text, pos));
    }
}

/// Texts that stand side by side are joined.
fn join_all(alloc: Global, parts: &mut Seq<Expr>) -> Result<(), OutOfMemory>
    ensures { OnOk result (PartsChange spec.first_joins parts.old parts.new) }
{
    let mut at = 0;
    let mut kept = 0;
    while at < parts.len() {
        let end = texts_join(alloc, parts, at)?;
        parts.move_down(at, kept);
        kept += 1;
        at = end;
    }
    parts.truncate(kept);
    Ok(())
}

/// Of the parts of an interpolated text units and empty texts go, and neighbouring texts are joined. The answer is
/// whether any went.
pub(crate) fn text_changes(alloc: Global, parts: &mut Seq<Expr>) -> Result<bool, OutOfMemory>
    ensures { IfOk result (λ b.
        NodeChange b (InterpolatedString (exprs_of parts.old)) (InterpolatedString (exprs_of parts.new))) }
{
    let len = parts.len();
    empty_go(parts);
    join_all(alloc, parts)?;
    Ok(parts.len() != len)
}
