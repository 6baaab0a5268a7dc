//! Expressions.
#![tactic(auto, using(ast_types::specs::Reading::shapes, ast_types::proofs::ItemLists::steps, crate::proofs::Steps::paren_steps, crate::proofs::Steps::operator_steps, crate::proofs::ExprSteps::expr_steps, crate::proofs::PairSteps::map_steps))]

ghost use Rattle.std.specs.Prelude.{◌≡◌, ◌≤◌, ◌∷◌, [], ℕ, zero, IfOk, IfSome, IsTrue, true, false, drop, codes};
ghost use Rattle.ast_types.specs.Reading.{callee_of, chain_flags, expr_of, exprs_of, keys_of, pairs_of};
ghost use Rattle.theory_meaning.specs.Tree as tree;
ghost use Rattle.theory_meaning.specs.Tree.{ArrayOf, Dot, FnCall, Index, MapOf, MethodCall, UnitConstant, expr, no_exprs};
ghost use Rattle.base_tokens.specs.declared.token.Token.TheVariants as tokens;
ghost use Rattle.theory_grammar.specs.Words.{longer};
ghost use Rattle.theory_grammar.specs.Grammar.{Dotted, Indexed, Reads, ReadsArgs, ReadsChain, ReadsItems, ReadsMember, ReadsMore, ReadsPairs, ReadsRight, ReadsStep, Run, Spells, contains, is_range, marked, run_level, run_of, run_sign};
ghost use Rattle.syntax_grammar.specs.Open.{ReadsOpen};

use crate::atoms::{float, integer, plain, unit};
use crate::blanks::behind_blanks;
use crate::chains::{negation, past_bracket, past_dot, property};
use crate::ends::{beginning, closes, is_end};
use crate::lists::{behind_comma, behind_pair, end_of_items, end_of_pairs, past_key};
use crate::marks::{
    is_apart, is_first, is_left_out, is_marked, is_not, least_left, least_right, past_operator,
    precedence, sign_of,
};
use crate::memory::Memory;
use crate::names::is_method;
use crate::parens::{Found, closed, opened};
use crate::paths::{is_called, is_contains, past_callee};
use crate::words::{past_letters, past_sign};
use ast_types::{BinaryExpr, Expr, FnCallExpr};
use base_tokens::{ASTFlags, Ident, Token};
use rhai_base::{Dynamic, StringMap};
use std::alloc::{AllocError, Global};

/// Whether a text, all of it, spells an expression.
pub fn is_spelled(alloc: Global, text: &str, expr: &Expr) -> Result<bool, AllocError>
    ensures { IfOk result (λ yes. IsTrue yes → Spells text.now (expr_of expr.now)) }
{
    let memory = Memory::new(alloc);
    let answer = is_read(&memory, text.as_bytes(), expr);
    if memory.has_run_out() {
        Err(AllocError)
    } else {
        Ok(answer)
    }
}

/// The same where there is memory.
fn is_read(memory: &Memory, text: &[u8], expr: &Expr) -> bool
    ensures { IsTrue result → Spells text.now (expr_of expr.now) }
{
    match whole(memory, text, beginning(text), expr, 0) {
        Some(next) => is_end(text, behind_blanks(text, next)),
        None => false,
    }
}

/// An expression; parentheses before it may stay open.
#[cycle(grammar)]
fn begun(memory: &Memory, text: &[u8], at: usize, expr: &Expr) -> Option<Found>
    ensures { IfSome result (λ f. ReadsOpen f.open f.level (drop at text.now) (expr_of expr.now) (drop f.next text.now)) }
{
    let found = found(memory, text, at, expr)?;
    Some(closed(text, found))
}

/// The same before the parentheses behind it.
#[cycle(grammar)]
fn found(memory: &Memory, text: &[u8], at: usize, expr: &Expr) -> Option<Found>
    ensures { IfSome result (λ f. ReadsOpen f.open f.level (drop at text.now) (expr_of expr.now) (drop f.next text.now)) }
{
    match expr {
        Expr::IntegerConstant(value, _) => integer(text, at, *value, 1000),
        Expr::FloatConstant(value, _) => float(memory, text, at, value.bits(), 1000),
        Expr::Unit(_) => unit(text, at),
        Expr::FnCall(call, _) => called(memory, text, at, call.get()),
        Expr::And(operands, _) => list(memory, text, at, "&&", 60, operands.get().as_slice()),
        Expr::Or(operands, _) => list(memory, text, at, "||", 30, operands.get().as_slice()),
        Expr::Coalesce(operands, _) => list(memory, text, at, "??", 135, operands.get().as_slice()),
        Expr::Dot(sides, flags, _) => dot(memory, text, at, *flags, sides.get()),
        Expr::Index(sides, flags, _) => index(memory, text, at, *flags, sides.get()),
        Expr::Array(items, _) => array(memory, text, at, items.get().as_slice()),
        Expr::Map(parts, _) => map(memory, text, at, parts.get().0.as_slice(), &parts.get().1),
        _ => alone(text, at, expr),
    }
}

/// An expression at a level, all of its parentheses closed.
#[cycle(grammar)]
pub(crate) fn whole(
    memory: &Memory,
    text: &[u8],
    at: usize,
    expr: &Expr,
    least: u32,
) -> Option<usize>
    ensures { IfSome result (λ next. Reads least (drop at text.now) (expr_of expr.now) (drop next text.now)) }
{
    let found = begun(memory, text, at, expr)?;
    if found.open == 0 && least <= found.level {
        Some(found.next)
    } else {
        None
    }
}

/// An expression of one word or two.
fn alone(text: &[u8], at: usize, expr: &Expr) -> Option<Found>
    ensures { IfSome result (λ f. ReadsOpen f.open f.level (drop at text.now) (expr_of expr.now) (drop f.next text.now)) }
{
    let (open, inner) = opened(text, at);
    let next = plain(text, inner, expr)?;
    Some(Found {
        open,
        level: 255,
        next,
    })
}

#[cycle(grammar)]
fn array(memory: &Memory, text: &[u8], at: usize, exprs: &[Expr]) -> Option<Found>
    ensures { IfSome result (λ f. ReadsOpen f.open f.level (drop at text.now) (ArrayOf (exprs_of exprs.now)) (drop f.next text.now)) }
{
    let (open, inner) = opened(text, at);
    let behind = past_sign(text, inner, "[", "")?;
    let next = items(memory, text, behind, exprs, "]")?;
    Some(Found {
        open,
        level: 255,
        next,
    })
}

#[cycle(grammar)]
fn map(
    memory: &Memory,
    text: &[u8],
    at: usize,
    pairs: &[(Ident, Expr)],
    template: &StringMap<Dynamic>,
) -> Option<Found>
    ensures { IfSome result (λ f. ReadsOpen f.open f.level (drop at text.now)
        (MapOf (pairs_of pairs.now) (keys_of template.now)) (drop f.next text.now)) }
{
    if template.len() != pairs.len() {
        return None;
    }
    let (open, inner) = opened(text, at);
    let behind = past_sign(text, inner, "#{", "")?;
    let next = properties(memory, text, behind, pairs)?;
    Some(Found {
        open,
        level: 255,
        next,
    })
}

/// The pairs of a map up to its end.
#[cycle(grammar)]
fn properties(memory: &Memory, text: &[u8], at: usize, pairs: &[(Ident, Expr)]) -> Option<usize>
    ensures { IfSome result (λ next. ReadsPairs false (drop at text.now) (pairs_of pairs.now) (drop next text.now)) }
{
    let mut place = at;
    let mut owed = false;
    for pair in pairs {
        let start = behind_pair(text, place, owed)?;
        let mid = past_key(text, start, pair.0.as_str())?;
        let behind = past_sign(text, mid, ":", ":=;")?;
        place = whole(memory, text, behind, &pair.1, 0)?;
        owed = true;
    }
    let next = end_of_pairs(text, place, owed)?;
    Some(next)
}

/// A call, of an operator or by a name.
#[cycle(grammar)]
fn called(memory: &Memory, text: &[u8], at: usize, call: &FnCallExpr) -> Option<Found>
    ensures { IfSome result (λ f. ReadsOpen f.open f.level (drop at text.now)
        (FnCall (callee_of call.now) (exprs_of call.now.args)) (drop f.next text.now)) }
{
    match call.op_token {
        Some(token) => operation(memory, text, at, token, call),
        None => by_name(memory, text, at, call),
    }
}

/// A call by a name, or of `in`.
#[cycle(grammar)]
fn by_name(memory: &Memory, text: &[u8], at: usize, call: &FnCallExpr) -> Option<Found>
    ensures { IfSome result (λ f. ReadsOpen f.open f.level (drop at text.now)
        (FnCall (callee_of call.now) (exprs_of call.now.args)) (drop f.next text.now)) }
{
    if let Some(found) = named(memory, text, at, call) {
        return Some(found);
    }
    if is_contains(call) {
        contained(memory, text, at, call.args.as_slice())
    } else {
        None
    }
}

#[cycle(grammar)]
fn named(memory: &Memory, text: &[u8], at: usize, call: &FnCallExpr) -> Option<Found>
    ensures { IfSome result (λ f. ReadsOpen f.open f.level (drop at text.now)
        (FnCall (callee_of call.now) (exprs_of call.now.args)) (drop f.next text.now)) }
{
    let (open, inner) = opened(text, at);
    let behind = past_callee(text, inner, call)?;
    let next = arguments(memory, text, behind, call.args.as_slice())?;
    Some(Found {
        open,
        level: 255,
        next,
    })
}

/// `in` between two operands.
#[cycle(grammar)]
fn contained(memory: &Memory, text: &[u8], at: usize, operands: &[Expr]) -> Option<Found>
    ensures { IfSome result (λ f. ReadsOpen f.open f.level (drop at text.now)
        (FnCall contains (exprs_of operands.now)) (drop f.next text.now)) }
{
    let [whole_one, part] = operands else {
        return None;
    };
    let left = begun(memory, text, at, part)?;
    if left.level < 110 {
        return None;
    }
    let behind = past_letters(text, left.next, "in")?;
    let next = whole(memory, text, behind, whole_one, 111)?;
    Some(Found {
        open: left.open,
        level: 110,
        next,
    })
}

/// `!in` between two operands.
#[cycle(grammar)]
fn not_contained(memory: &Memory, text: &[u8], at: usize, operands: &[Expr]) -> Option<Found>
    ensures { IfSome result (λ f. ReadsOpen f.open f.level (drop at text.now)
        (FnCall (marked tokens.Bang) (expr (FnCall contains (exprs_of operands.now)) no_exprs)) (drop f.next text.now)) }
{
    let [whole_one, part] = operands else {
        return None;
    };
    let left = begun(memory, text, at, part)?;
    if left.level < 110 {
        return None;
    }
    let behind = past_letters(text, left.next, "!in")?;
    let next = whole(memory, text, behind, whole_one, 111)?;
    Some(Found {
        open: left.open,
        level: 110,
        next,
    })
}

#[cycle(grammar)]
fn operation(
    memory: &Memory,
    text: &[u8],
    at: usize,
    token: Token,
    call: &FnCallExpr,
) -> Option<Found>
    ensures { IfSome result (λ f. ReadsOpen f.open f.level (drop at text.now)
        (FnCall (callee_of call.now) (exprs_of call.now.args)) (drop f.next text.now)) }
{
    if !is_marked(call, token) {
        return None;
    }
    match call.args.as_slice() {
        [operand] => alone_signed(memory, text, at, token, operand),
        operands => between(memory, text, at, token, operands),
    }
}

/// An operator between two operands.
#[cycle(grammar)]
fn between(
    memory: &Memory,
    text: &[u8],
    at: usize,
    token: Token,
    operands: &[Expr],
) -> Option<Found>
    ensures { IfSome result (λ f. ReadsOpen f.open f.level (drop at text.now)
        (FnCall (marked token) (exprs_of operands.now)) (drop f.next text.now)) }
{
    let [lhs, rhs] = operands else {
        return None;
    };
    if is_left_out(token, lhs) {
        if let Some(found) = open_range(memory, text, at, token, rhs) {
            return Some(found);
        }
    }
    let level = precedence(token);
    let left = begun(memory, text, at, lhs)?;
    if level == 0 || left.level < least_left(token) {
        return None;
    }
    let behind = past_operator(text, left.next, token)?;
    let next = right_side(memory, text, behind, token, rhs)?;
    Some(Found {
        open: left.open,
        level,
        next,
    })
}

/// A range without its first end.
#[cycle(grammar)]
fn open_range(memory: &Memory, text: &[u8], at: usize, token: Token, rhs: &Expr) -> Option<Found>
    requires { is_range token ≡ true }
    ensures { IfSome result (λ f. ReadsOpen f.open f.level (drop at text.now)
        (FnCall (marked token) (expr UnitConstant (expr (expr_of rhs.now) no_exprs))) (drop f.next text.now)) }
{
    let (open, inner) = opened(text, at);
    let behind = past_operator(text, inner, token)?;
    let next = right_side(memory, text, behind, token, rhs)?;
    Some(Found {
        open,
        level: precedence(token),
        next,
    })
}

/// What stands behind an operator.
#[cycle(grammar)]
fn right_side(memory: &Memory, text: &[u8], at: usize, token: Token, rhs: &Expr) -> Option<usize>
    ensures { IfSome result (λ next. ReadsRight token (drop at text.now) (expr_of rhs.now) (drop next text.now)) }
{
    if let Some(next) = whole(memory, text, at, rhs, least_right(token)) {
        return Some(next);
    }
    if is_left_out(token, rhs) && closes(text, at) {
        return Some(at);
    }
    None
}

/// A sign over an operand, or `!in`.
#[cycle(grammar)]
fn alone_signed(
    memory: &Memory,
    text: &[u8],
    at: usize,
    token: Token,
    operand: &Expr,
) -> Option<Found>
    ensures { IfSome result (λ f. ReadsOpen f.open f.level (drop at text.now)
        (FnCall (marked token) (expr (expr_of operand.now) no_exprs)) (drop f.next text.now)) }
{
    if let Some(found) = signed(memory, text, at, token, operand) {
        return Some(found);
    }
    match operand {
        Expr::FnCall(call, _) => {
            let call = call.get();
            if is_not(token) && is_contains(call) {
                not_contained(memory, text, at, call.args.as_slice())
            } else {
                None
            }
        }
        _ => None,
    }
}

/// A sign over an operand.
#[cycle(grammar)]
fn signed(memory: &Memory, text: &[u8], at: usize, token: Token, operand: &Expr) -> Option<Found>
    ensures { IfSome result (λ f. ReadsOpen f.open f.level (drop at text.now)
        (FnCall (marked token) (expr (expr_of operand.now) no_exprs)) (drop f.next text.now)) }
{
    let sign = sign_of(token)?;
    if !is_apart(token, operand) {
        return None;
    }
    let (open, inner) = opened(text, at);
    let behind = past_operator(text, inner, sign)?;
    let next = whole(memory, text, behind, operand, 220)?;
    Some(Found {
        open,
        level: 220,
        next,
    })
}

/// A list of operands with a sign between them.
#[cycle(grammar)]
fn list(
    memory: &Memory,
    text: &[u8],
    at: usize,
    sign: &str,
    level: u32,
    operands: &[Expr],
) -> Option<Found>
    requires sign { [] ≡ longer sign.now }
    requires level { level ≤ 200 }
    ensures { IfSome result (λ f. (k : Run) → sign.now ≡ run_sign k → level ≡ run_level k
        → ReadsOpen f.open f.level (drop at text.now) (run_of k (exprs_of operands.now)) (drop f.next text.now)) }
{
    let [first, _, ..] = operands else {
        return None;
    };
    let left = begun(memory, text, at, first)?;
    if !is_first(level, left.level, first) {
        return None;
    }
    let next = further(memory, text, left.next, sign, level, operands)?;
    Some(Found {
        open: left.open,
        level,
        next,
    })
}

/// The operands of a list behind the first.
#[cycle(grammar)]
fn further(
    memory: &Memory,
    text: &[u8],
    at: usize,
    sign: &str,
    level: u32,
    operands: &[Expr],
) -> Option<usize>
    requires sign { [] ≡ longer sign.now }
    requires level { level ≤ 200 }
    ensures { IfSome result (λ next. (k : Run) → sign.now ≡ run_sign k → level ≡ run_level k
        → ReadsMore k (drop at text.now) (exprs_of (drop 1 operands.now)) (drop next text.now)) }
{
    let mut place = at;
    for i in 1..operands.len() {
        let behind = past_sign(text, place, sign, "")?;
        place = whole(memory, text, behind, &operands[i], level + 1)?;
    }
    Some(place)
}

/// Arguments in their parentheses.
#[cycle(grammar)]
fn arguments(memory: &Memory, text: &[u8], at: usize, exprs: &[Expr]) -> Option<usize>
    ensures { IfSome result (λ next. ReadsArgs (drop at text.now) (exprs_of exprs.now) (drop next text.now)) }
{
    if exprs.is_empty() {
        if let Some(next) = past_sign(text, at, "()", "") {
            return Some(next);
        }
    }
    let behind = past_sign(text, at, "(", ")*")?;
    items(memory, text, behind, exprs, ")")
}

/// The items of a list up to the sign that ends it.
#[cycle(grammar)]
fn items(memory: &Memory, text: &[u8], at: usize, exprs: &[Expr], end: &str) -> Option<usize>
    requires { [] ≡ longer end.now }
    ensures { IfSome result (λ next. ReadsItems end.now false (drop at text.now) (exprs_of exprs.now) (drop next text.now)) }
{
    let mut place = at;
    let mut owed = false;
    for expr in exprs {
        let start = behind_comma(text, place, owed)?;
        place = whole(memory, text, start, expr, 0)?;
        owed = true;
    }
    let next = end_of_items(text, place, owed, end)?;
    Some(next)
}

// ---- chains

/// A chain that goes on by a `.`
#[cycle(grammar)]
fn dot(
    memory: &Memory,
    text: &[u8],
    at: usize,
    flags: ASTFlags,
    sides: &BinaryExpr,
) -> Option<Found>
    ensures { IfSome result (λ f. ReadsOpen f.open f.level (drop at text.now)
        (Dot (chain_flags flags) (expr_of sides.now.lhs) (expr_of sides.now.rhs)) (drop f.next text.now)) }
{
    let base = begun(memory, text, at, &sides.lhs)?;
    if base.level < 230 {
        return None;
    }
    let next = dotted(memory, text, base.next, flags, &sides.rhs)?;
    Some(Found {
        open: base.open,
        level: 220,
        next,
    })
}

/// A chain that goes on by a `[`
#[cycle(grammar)]
fn index(
    memory: &Memory,
    text: &[u8],
    at: usize,
    flags: ASTFlags,
    sides: &BinaryExpr,
) -> Option<Found>
    ensures { IfSome result (λ f. ReadsOpen f.open f.level (drop at text.now)
        (Index (chain_flags flags) (expr_of sides.now.lhs) (expr_of sides.now.rhs)) (drop f.next text.now)) }
{
    let base = begun(memory, text, at, &sides.lhs)?;
    if base.level < 230 {
        return None;
    }
    let next = indexed(memory, text, base.next, flags, &sides.rhs)?;
    Some(Found {
        open: base.open,
        level: 220,
        next,
    })
}

/// The steps of a chain behind a base, of which the first is a member's.
#[cycle(grammar)]
fn dotted(memory: &Memory, text: &[u8], at: usize, flags: ASTFlags, rest: &Expr) -> Option<usize>
    ensures { IfSome result (λ next. (a : tree.Expr) → ReadsChain (drop at text.now) a (Dot (chain_flags flags) a (expr_of rest.now)) (drop next text.now)) }
{
    let negated = negation(flags, false)?;
    match rest {
        Expr::Dot(sides, others, _) => {
            let next = member(memory, text, at, negated, &sides.get().lhs)?;
            dotted(memory, text, next, *others, &sides.get().rhs)
        }
        Expr::Index(sides, others, _) => {
            let next = member(memory, text, at, negated, &sides.get().lhs)?;
            indexed(memory, text, next, *others, &sides.get().rhs)
        }
        _ => member(memory, text, at, negated, rest),
    }
}

/// The steps of a chain behind a base, of which the first is an index.
#[cycle(grammar)]
fn indexed(memory: &Memory, text: &[u8], at: usize, flags: ASTFlags, rest: &Expr) -> Option<usize>
    ensures { IfSome result (λ next. (a : tree.Expr) → ReadsChain (drop at text.now) a (Index (chain_flags flags) a (expr_of rest.now)) (drop next text.now)) }
{
    if let Some(negated) = negation(flags, true) {
        return bracketed(memory, text, at, negated, rest);
    }
    let negated = negation(flags, false)?;
    match rest {
        Expr::Dot(sides, others, _) => {
            let next = bracketed(memory, text, at, negated, &sides.get().lhs)?;
            dotted(memory, text, next, *others, &sides.get().rhs)
        }
        Expr::Index(sides, others, _) => {
            let next = bracketed(memory, text, at, negated, &sides.get().lhs)?;
            indexed(memory, text, next, *others, &sides.get().rhs)
        }
        _ => None,
    }
}

/// A property or a method behind its sign.
#[cycle(grammar)]
fn member(memory: &Memory, text: &[u8], at: usize, negated: bool, step: &Expr) -> Option<usize>
    ensures { IfSome result (λ next. ReadsStep (Dotted negated) (drop at text.now) (expr_of step.now) (drop next text.now)) }
{
    let behind = past_dot(text, at, negated)?;
    match step {
        Expr::Property(names, _) => property(text, behind, names.get()),
        Expr::MethodCall(call, _) => method(memory, text, behind, call.get()),
        _ => None,
    }
}

#[cycle(grammar)]
fn method(memory: &Memory, text: &[u8], at: usize, call: &FnCallExpr) -> Option<usize>
    ensures { IfSome result (λ next. ReadsMember (drop at text.now)
        (MethodCall (callee_of call.now) (exprs_of call.now.args)) (drop next text.now)) }
{
    let name = call.name.as_str();
    if !is_called(call) || !is_method(name) {
        return None;
    }
    let behind = past_letters(text, at, name)?;
    arguments(memory, text, behind, call.args.as_slice())
}

/// An index in its brackets.
#[cycle(grammar)]
fn bracketed(memory: &Memory, text: &[u8], at: usize, negated: bool, step: &Expr) -> Option<usize>
    ensures { IfSome result (λ next. ReadsStep (Indexed negated) (drop at text.now) (expr_of step.now) (drop next text.now)) }
{
    let behind = past_bracket(text, at, negated)?;
    let next = whole(memory, text, behind, step, 0)?;
    past_sign(text, next, "]", "")
}
