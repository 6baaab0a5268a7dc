//! The values of literals.

#![tactic(auto, using(ast_types::specs::Reading::shapes, rhai_base::specs::Reading::kinds, ast_types::proofs::ItemLists::steps, crate::proofs::LiteralLists::literals), unfolding(rhai_base::specs::Operators::binary))]

ghost use Rattle.std.specs.Prelude.{◌≡◌, ◌++◌, IfOk, OnOk};
ghost use Rattle.std.specs.Cow.{cow_value};
ghost use Rattle.std.specs.Option.{option_map};
ghost use Rattle.rhai_base.specs.Builtin.{binary_at};
ghost use Rattle.rhai_base.specs.Reading.{members_of, value_of};
ghost use Rattle.rhai_base.specs.Value.{fields, text_of};
ghost use Rattle.theory_meaning.specs.Elements.{with_entry};
ghost use Rattle.std.specs.String.{string_bytes};
ghost use Rattle.ast_nodes.specs.Lent.{lent_value};
ghost use Rattle.ast_nodes.specs.Ranges.{range_made};
ghost use Rattle.ast_types.specs.Reading.{callee_of, expr_of, exprs_of, pairs_of};
ghost use Rattle.theory_meaning.specs.Constants as constants;
ghost use Rattle.theory_meaning.specs.Tree.{FnCall, expr, no_exprs};

use crate::queries::{are_floatless, is_constant};
use ast_types::{Expr, FnCallExpr};
use rhai_base::{
    Dynamic, Fault, FnPtr, Ident, ImmutableString, OutOfMemory, Seq, StringMap, Token,
    builtin_binary_op,
};
use std::alloc::Global;
use std::borrow::Cow;

/// The value of a literal.
pub fn literal_value(alloc: Global, expr: &Expr) -> Result<Option<Dynamic>, OutOfMemory>
    ensures { IfOk result (λ v. option_map value_of v ≡ constants.literal_value (expr_of expr.now)) }
{
    match constant_value(alloc, expr)? {
        Some(value) => Ok(Some(owned(value)?)),
        None => call_value(alloc, expr),
    }
}

/// The value of a constant, lent where the tree holds it whole. A literal of parts is first asked whether it is one:
/// what is none takes no memory.
pub fn constant_value(alloc: Global, expr: &Expr) -> Result<Option<Cow<'_, Dynamic>>, OutOfMemory>
    ensures { IfOk result (λ v. lent_value v ≡ constants.constant_value (expr_of expr.now)) }
{
    match expr {
        Expr::InterpolatedString(_, _) | Expr::Array(_, _) | Expr::Map(_, _)
            if !is_constant(expr) => { Ok(None) }
        _ => lend_value(alloc, expr),
    }
}

fn call_value(alloc: Global, expr: &Expr) -> Result<Option<Dynamic>, OutOfMemory>
    ensures { IfOk result (λ v. option_map value_of v ≡ constants.call_value (expr_of expr.now)) }
{
    match expr {
        Expr::FnCall(call, _) => unqualified_value(alloc, call.get()),
        _ => Ok(None),
    }
}

fn unqualified_value(alloc: Global, call: &FnCallExpr) -> Result<Option<Dynamic>, OutOfMemory>
    ensures { IfOk result (λ v. option_map value_of v
        ≡ constants.call_value (FnCall (callee_of call.now) (exprs_of call.now.args))) }
{
    if call.namespace.is_empty() {
        named_value(alloc, call)
    } else {
        Ok(None)
    }
}

/// The value of a constant; what is none may take memory too.
#[cycle(lend_value)]
fn lend_value(alloc: Global, expr: &Expr) -> Result<Option<Cow<'_, Dynamic>>, OutOfMemory>
    ensures { IfOk result (λ v. lent_value v ≡ constants.constant_value (expr_of expr.now)) }
{
    match expr {
        Expr::DynamicConstant(value, _) => Ok(Some(Cow::Borrowed(value.get()))),
        Expr::BoolConstant(b, _) => Ok(Some(Cow::Owned(Dynamic::Bool(*b)))),
        Expr::IntegerConstant(n, _) => Ok(Some(Cow::Owned(Dynamic::Int(*n)))),
        Expr::FloatConstant(x, _) => Ok(Some(Cow::Owned(Dynamic::Float(*x)))),
        Expr::CharConstant(c, _) => Ok(Some(Cow::Owned(Dynamic::Char(*c)))),
        Expr::StringConstant(text, _) => Ok(Some(Cow::Owned(Dynamic::Str(text.clone()?)))),
        Expr::Unit(_) => Ok(Some(Cow::Owned(Dynamic::Unit))),
        Expr::InterpolatedString(parts, _) => joined_value(alloc, parts.get().as_slice()),
        Expr::Array(items, _) => array_value(alloc, items.get().as_slice()),
        Expr::Map(map, _) => map_value(alloc, map.get().0.as_slice()),
        Expr::Variable(_, _, _)
        | Expr::ThisPtr(_)
        | Expr::Property(_, _)
        | Expr::MethodCall(_, _)
        | Expr::Stmt(_)
        | Expr::FnCall(_, _)
        | Expr::Dot(_, _, _)
        | Expr::Index(_, _, _)
        | Expr::And(_, _)
        | Expr::Or(_, _)
        | Expr::Coalesce(_, _) => Ok(None),
    }
}

/// A value that was lent or is held, as one that is held.
pub fn owned(value: Cow<'_, Dynamic>) -> Result<Dynamic, OutOfMemory>
    ensures { IfOk result (λ v. v ≡ cow_value value.entry) }
{
    Ok(value.into_owned()?)
}

#[cycle(lend_value)]
fn array_value<'a>(
    alloc: Global,
    items: &'a [Expr],
) -> Result<Option<Cow<'a, Dynamic>>, OutOfMemory>
    ensures { IfOk result (λ v. lent_value v ≡ constants.array_value (constants.constant_values (exprs_of items.now))) }
{
    let mut values = Vec::with_capacity(alloc, items.len())?;
    for item in items {
        match lend_value(alloc, item)? {
            Some(value) => values.push(owned(value)?)?,
            None => return Ok(None),
        }
    }
    Ok(Some(Cow::Owned(Dynamic::Array(Seq::from_vec(values)))))
}

/// The value of an interpolated text; one with a float is the host's to write.
#[cycle(lend_value)]
fn joined_value<'a>(
    alloc: Global,
    parts: &'a [Expr],
) -> Result<Option<Cow<'a, Dynamic>>, OutOfMemory>
    ensures { IfOk result (λ v. lent_value v
        ≡ constants.joined_value (constants.text_constants (exprs_of parts.now))) }
{
    if !are_floatless(parts) {
        return Ok(None);
    }
    let mut text = String::new(alloc);
    for part in parts {
        match lend_value(alloc, part)? {
            Some(value) => push_text(&value, &mut text)?,
            None => return Ok(None),
        }
    }
    let text = ImmutableString::from_string(text)?;
    Ok(Some(Cow::Owned(Dynamic::Str(text))))
}

fn push_text(value: &Cow<'_, Dynamic>, text: &mut String) -> Result<(), OutOfMemory>
    ensures { OnOk result (string_bytes text.new ≡ string_bytes text.old ++ text_of (value_of (cow_value value.now))) }
{
    value.push_text(text)?;
    Ok(())
}

/// The value of a map's literal, from its pairs alone.
#[cycle(lend_value)]
fn map_value<'a>(
    alloc: Global,
    members: &'a [(Ident, Expr)],
) -> Result<Option<Cow<'a, Dynamic>>, OutOfMemory>
    ensures { IfOk result (λ v. lent_value v
        ≡ constants.map_value (constants.constant_entries (pairs_of members.now))) }
{
    let mut map = StringMap::new(alloc);
    for member in members {
        match lend_value(alloc, &member.1)? {
            Some(value) => put(&mut map, &member.0, value)?,
            None => return Ok(None),
        }
    }
    Ok(Some(Cow::Owned(Dynamic::Map(map))))
}

/// Puts a value under a name, in place of what was there.
#[tactic(auto, using(crate::proofs::Entries::insert_is))]
fn put(
    map: &mut StringMap<Dynamic>,
    name: &Ident,
    value: Cow<'_, Dynamic>,
) -> Result<(), OutOfMemory>
    ensures { OnOk result (fields (members_of map.new)
        ≡ with_entry (fields (members_of map.old)) name.now.name (value_of (cow_value value.entry))) }
{
    let name = name.name.clone()?;
    map.insert(name, owned(value)?)?;
    Ok(())
}

fn named_value(alloc: Global, call: &FnCallExpr) -> Result<Option<Dynamic>, OutOfMemory>
    ensures { IfOk result (λ v. option_map value_of v ≡ constants.named_value call.now.name (exprs_of call.now.args)) }
{
    match call.args.as_slice() {
        [name] => pointer_value(alloc, call.name.as_str(), name),
        [from, to] => range_value(alloc, call.name.as_str(), from, to),
        _ => Ok(None),
    }
}

/// The pointer that `Fn("name")` makes.
fn pointer_value(alloc: Global, function: &str, name: &Expr) -> Result<Option<Dynamic>, OutOfMemory>
    ensures { IfOk result (λ v. option_map value_of v
        ≡ constants.named_value function.now (expr (expr_of name.now) no_exprs)) }
{
    if function == "Fn" {
        pointer_literal(alloc, name)
    } else {
        Ok(None)
    }
}

fn pointer_literal(alloc: Global, name: &Expr) -> Result<Option<Dynamic>, OutOfMemory>
    ensures { IfOk result (λ v. option_map value_of v ≡ constants.pointer_literal (expr_of name.now)) }
{
    match name {
        Expr::StringConstant(text, _) => Ok(pointer(alloc, text.clone()?)),
        _ => Ok(None),
    }
}

fn pointer(alloc: Global, name: ImmutableString) -> Option<Dynamic>
    ensures { option_map value_of result ≡ constants.pointer_to name }
{
    let pointer = FnPtr::new(alloc, name)?;
    Some(Dynamic::FnPtr(pointer))
}

/// The range that `..` or `..=` makes.
fn range_value(
    alloc: Global,
    function: &str,
    from: &Expr,
    to: &Expr,
) -> Result<Option<Dynamic>, OutOfMemory>
    ensures { IfOk result (λ v. option_map value_of v
        ≡ constants.named_value function.now (expr (expr_of from.now) (expr (expr_of to.now) no_exprs))) }
{
    if function == ".." {
        range_literal(alloc, Token::ExclusiveRange, from, to)
    } else if function == "..=" {
        range_literal(alloc, Token::InclusiveRange, from, to)
    } else {
        Ok(None)
    }
}

/// An end of a range, where it is written out or left out.
fn range_end(end: &Expr) -> Option<Dynamic>
    ensures { option_map value_of result ≡ constants.range_end (expr_of end.now) }
{
    match end {
        Expr::IntegerConstant(n, _) => Some(Dynamic::Int(*n)),
        Expr::Unit(_) => Some(Dynamic::Unit),
        _ => None,
    }
}

/// What the operator of ranges makes of two ends, if they are written out.
fn range_literal(
    alloc: Global,
    op: Token,
    from: &Expr,
    to: &Expr,
) -> Result<Option<Dynamic>, OutOfMemory>
    ensures { IfOk result (λ v. option_map value_of v
        ≡ range_made op (constants.range_end (expr_of from.now)) (constants.range_end (expr_of to.now))) }
{
    match (range_end(from), range_end(to)) {
        (Some(from), Some(to)) => range_between(alloc, op, &from, &to),
        _ => Ok(None),
    }
}

fn range_between(
    alloc: Global,
    op: Token,
    from: &Dynamic,
    to: &Dynamic,
) -> Result<Option<Dynamic>, OutOfMemory>
    ensures { IfOk result (λ v. option_map value_of v
        ≡ constants.computed_value (binary_at op (value_of from.now) (value_of to.now))) }
{
    match builtin_binary_op(alloc, &op, from, to)? {
        Some(Ok(range)) => Ok(Some(range)),
        Some(Err(Fault::Arithmetic)) | None => Ok(None),
    }
}
