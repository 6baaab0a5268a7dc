//! What statements have between their expressions and blocks.
#![tactic(auto, using(ast_types::specs::Reading::shapes, crate::proofs::PartSteps::part_steps))]

ghost use Rattle.std.specs.Prelude.{◌≡◌, [], IfSome, IsTrue, Some, None, drop};
ghost use Rattle.base_text.specs.Text.{Text};
ghost use Rattle.rhai_base.specs.Builtin.{operator_of};
ghost use Rattle.ast_types.specs.Reading.{counter_of, expr_of, path_of};
ghost use Rattle.theory_meaning.specs.Tree.{UnitConstant, Variable};
ghost use Rattle.theory_grammar.specs.Words.{Letters, Next};
ghost use Rattle.theory_grammar.specs.Statements.{Parted, ReadsAlias, ReadsAssign, ReadsCaught, ReadsLoopNames, ReadsName, declaring, leaving, repeating};

use crate::marks::past_operator;
use crate::names::is_name;
use crate::words::{past_letters, past_sign};
use ast_types::Expr;
use base_tokens::{Ident, Namespace, OpAssignment, Token};

/// The place behind any number of `;`, if one stands there where one is owed.
pub(crate) fn past_semicolons(text: &[u8], at: usize, owed: bool) -> Option<usize>
    ensures { IfSome result (λ next. Parted owed (drop at text.now) (drop next text.now)) }
{
    let mut place = at;
    let mut lacking = owed;
    for _ in 0..text.len() {
        match past_sign(text, place, ";", "") {
            Some(next) => {
                place = next;
                lacking = false;
            }
            None => break,
        }
    }
    if lacking { None } else { Some(place) }
}

/// The place behind a name.
pub(crate) fn past_name(text: &[u8], at: usize, name: &str) -> Option<usize>
    ensures { IfSome result (λ next. ReadsName (drop at text.now) name.now (drop next text.now)) }
{
    if is_name(name) {
        past_letters(text, at, name)
    } else {
        None
    }
}

/// The place behind the word of a declaration.
pub(crate) fn past_declaring(text: &[u8], at: usize, constant: bool) -> Option<usize>
    ensures { IfSome result (λ next. Next (drop at text.now) (Letters (declaring constant)) (drop next text.now)) }
{
    if constant {
        past_letters(text, at, "const")
    } else {
        past_letters(text, at, "let")
    }
}

/// The place behind the word of a `return` or a `throw`.
pub(crate) fn past_leaving(text: &[u8], at: usize, throws: bool) -> Option<usize>
    ensures { IfSome result (λ next. Next (drop at text.now) (Letters (leaving throws)) (drop next text.now)) }
{
    if throws {
        past_letters(text, at, "throw")
    } else {
        past_letters(text, at, "return")
    }
}

/// The place behind the word before the condition of a `do`.
pub(crate) fn past_repeating(text: &[u8], at: usize, until: bool) -> Option<usize>
    ensures { IfSome result (λ next. Next (drop at text.now) (Letters (repeating until)) (drop next text.now)) }
{
    if until {
        past_letters(text, at, "until")
    } else {
        past_letters(text, at, "while")
    }
}

/// The place behind the sign of an assignment.
pub(crate) fn past_assign(text: &[u8], at: usize, sign: &OpAssignment) -> Option<usize>
    ensures { IfSome result (λ next. ReadsAssign (drop at text.now) (operator_of sign.now.op) (drop next text.now)) }
{
    match sign.get_op_assignment_info() {
        Some((form, _, _, _)) => past_operator(text, at, *form),
        None => past_operator(text, at, Token::Equals),
    }
}

/// The place behind an `as` and a name; where the name is empty there is neither.
pub(crate) fn past_alias(text: &[u8], at: usize, name: &str) -> Option<usize>
    ensures { IfSome result (λ next. ReadsAlias (drop at text.now) name.now (drop next text.now)) }
{
    if name.is_empty() {
        return Some(at);
    }
    let behind = past_letters(text, at, "as")?;
    past_name(text, behind, name)
}

/// The place behind the variable of a loop and its counter.
pub(crate) fn past_loop_names(
    text: &[u8],
    at: usize,
    name: &Ident,
    counter: &Option<Ident>,
) -> Option<usize>
    ensures { IfSome result (λ next. ReadsLoopNames (drop at text.now) name.now.name (counter_of counter.now) (drop next text.now)) }
{
    match counter {
        Some(counter) => past_counted(text, at, name.as_str(), counter.as_str()),
        None => past_name(text, at, name.as_str()),
    }
}

fn past_counted(text: &[u8], at: usize, name: &str, counter: &str) -> Option<usize>
    ensures { IfSome result (λ next. ReadsLoopNames (drop at text.now) name.now (Some counter.now) (drop next text.now)) }
{
    let first = past_sign(text, at, "(", ")*")?;
    let second = past_name(text, first, name)?;
    let third = past_sign(text, second, ",", "")?;
    let last = past_name(text, third, counter)?;
    past_sign(text, last, ")", "")
}

/// The place behind the variable of a `catch`.
pub(crate) fn past_caught(text: &[u8], at: usize, expr: &Expr) -> Option<usize>
    ensures { IfSome result (λ next. ReadsCaught (drop at text.now) (expr_of expr.now) (drop next text.now)) }
{
    match expr {
        Expr::Unit(_) => Some(at),
        Expr::Variable(parts, _, _) => {
            let (_, name, namespace) = parts.get();
            past_variable(text, at, namespace, name.as_str())
        }
        _ => None,
    }
}

/// The place behind a variable of no module in parentheses.
fn past_variable(text: &[u8], at: usize, namespace: &Namespace, name: &str) -> Option<usize>
    ensures { IfSome result (λ next. ReadsCaught (drop at text.now) (Variable (path_of namespace.now) name.now) (drop next text.now)) }
{
    if !namespace.is_empty() {
        return None;
    }
    let first = past_sign(text, at, "(", ")*")?;
    let behind = past_name(text, first, name)?;
    past_sign(text, behind, ")", "")
}

/// Whether an expression is unit.
pub(crate) fn is_unit(expr: &Expr) -> bool
    ensures { IsTrue result → expr_of expr.now ≡ UnitConstant }
{
    match expr {
        Expr::Unit(_) => true,
        _ => false,
    }
}
