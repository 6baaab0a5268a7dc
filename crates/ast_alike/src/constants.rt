//! Values, written out by literals.
#![tactic(auto, using(ast_types::specs::Reading::shapes, rhai_base::specs::Reading::kinds))]

ghost use Rattle.std.specs.Prelude.{◌≡◌, ◌++◌, [], IfOk, Some, map, true};
ghost use Rattle.std.specs.Cmp.Lexicographic.{slice_cmp};
ghost use Rattle.std.specs.List.Sorted.{IsStrictlySortedBy};
ghost use Rattle.std.specs.Ordering.{nat_cmp};
ghost use Rattle.theory_spelling.specs.Bare.{bare_constant, curried_call, entries_of, literal_of, literals_of, pointer_literal};
ghost use Rattle.rhai_base.specs.Reading.{members_of, value_of};
ghost use Rattle.rhai_base.specs.Value.{MapV, PointerV, fields, no_values, values};
ghost use Rattle.ast_make.specs.Trees.{operation};
ghost use Rattle.theory_meaning.specs.Constants.{pointer_call};
ghost use Rattle.theory_meaning.specs.Tree.{ArrayOf, DynamicConstant, IntegerConstant};
ghost use Rattle.base_tokens.specs.Names.{is_valid_name};
ghost use Rattle.base_tokens.specs.Symbols.{token_text};
ghost use Rattle.ast_types.specs.Reading.{expr_of, exprs_of, keys_of, mark_of, pairs_of};

use crate::forms::{both, pushed};
use ast_make::{call, integer, operator, text};
use ast_types::Expr;
use rhai_base::{
    Boxed, Dynamic, FnPtr, INT, Ident, ImmutableString, OutOfMemory, Position, Seq, StringMap,
    Token,
};
use script_names::is_anonymous;
use std::alloc::Global;

/// A constant, written out; a constant unit stays, as it has no meaning.
pub(crate) fn bare_constant(alloc: Global, value: &Dynamic) -> Result<Expr, OutOfMemory>
    ensures { IfOk result (λ e. expr_of e ≡ bare_constant (value_of value.now)) }
{
    if value.is_unit() {
        let unit = Boxed::new(alloc, Dynamic::Unit)?;
        return Ok(Expr::DynamicConstant(unit, Position::NONE));
    }
    literal_of(alloc, value)
}

#[cycle(written)]
fn literal_of(alloc: Global, value: &Dynamic) -> Result<Expr, OutOfMemory>
    ensures { IfOk result (λ e. expr_of e ≡ literal_of (value_of value.now)) }
{
    match value {
        Dynamic::Unit => Ok(Expr::Unit(Position::NONE)),
        Dynamic::Bool(value) => Ok(Expr::BoolConstant(*value, Position::NONE)),
        Dynamic::Int(value) => Ok(Expr::IntegerConstant(*value, Position::NONE)),
        Dynamic::Float(value) => Ok(Expr::FloatConstant(*value, Position::NONE)),
        Dynamic::Char(value) => Ok(Expr::CharConstant(*value, Position::NONE)),
        Dynamic::Str(value) => Ok(Expr::StringConstant(value.clone()?, Position::NONE)),
        Dynamic::Array(items) => array_literal(alloc, items.as_slice()),
        Dynamic::Map(members) => map_literal(alloc, members),
        Dynamic::FnPtr(pointer) => pointer_literal(alloc, pointer),
        Dynamic::Range(from, to) => range_literal(alloc, Token::ExclusiveRange, *from, *to),
        Dynamic::RangeInclusive(from, to) => {
            range_literal(alloc, Token::InclusiveRange, *from, *to)
        }
    }
}

#[cycle(written)]
fn literals_of(alloc: Global, items: &[Dynamic]) -> Result<Seq<Expr>, OutOfMemory>
    ensures { IfOk result (λ es. exprs_of es ≡ literals_of (values (map value_of items.now))) }
{
    let mut literals = Seq::with_capacity(alloc, items.len())?;
    for item in items {
        let (made, literal) = both(literals, literal_of(alloc, item))?;
        literals = pushed(made, literal)?;
    }
    Ok(literals)
}

#[cycle(written)]
fn array_literal(alloc: Global, items: &[Dynamic]) -> Result<Expr, OutOfMemory>
    ensures { IfOk result (λ e. expr_of e ≡ ArrayOf (literals_of (values (map value_of items.now)))) }
{
    let items = Boxed::new(alloc, literals_of(alloc, items)?)?;
    Ok(Expr::Array(items, Position::NONE))
}

#[cycle(written)]
fn map_literal(alloc: Global, members: &StringMap<Dynamic>) -> Result<Expr, OutOfMemory>
    ensures { IfOk result (λ e. expr_of e ≡ literal_of (MapV (fields (members_of members.now)))) }
{
    let entries = entries_of(alloc, members)?;
    let parts = both(entries, template_of(alloc, members))?;
    Ok(Expr::Map(Boxed::new(alloc, parts)?, Position::NONE))
}

#[cycle(written)]
fn entries_of(
    alloc: Global,
    members: &StringMap<Dynamic>,
) -> Result<Seq<(Ident, Expr)>, OutOfMemory>
    ensures { IfOk result (λ es. pairs_of es ≡ entries_of (fields (members_of members.now))) }
{
    let mut entries = Seq::with_capacity(alloc, members.len())?;
    for (key, member) in members.iter() {
        let start = both(entries, literal_of(alloc, member))?;
        let ((made, literal), name) = both(start, key.clone())?;
        let pos = Position::NONE;
        entries = pushed(made, (Ident { name, pos }, literal))?;
    }
    Ok(entries)
}

/// A map with these keys.
fn template_of(
    alloc: Global,
    members: &StringMap<Dynamic>,
) -> Result<StringMap<Dynamic>, OutOfMemory>
    ensures keys { IfOk result (λ made. keys_of made ≡ keys_of members.now) }
    ensures ordered { IsStrictlySortedBy (slice_cmp nat_cmp) (keys_of members.now) }
{
    let mut template = StringMap::new(alloc);
    for (key, _) in members.iter() {
        template.insert(key.clone()?, Dynamic::Unit)?;
    }
    Ok(template)
}

#[cycle(written)]
fn pointer_literal(alloc: Global, pointer: &FnPtr) -> Result<Expr, OutOfMemory>
    ensures { IfOk result (λ e.
        expr_of e ≡ literal_of (PointerV pointer.now.name (values (map value_of pointer.now.curried)))) }
{
    let values = literals_of(alloc, pointer.curry())?;
    curried_call(alloc, pointer, values)
}

/// The call that adds values to a pointer, where there are some.
fn curried_call(alloc: Global, pointer: &FnPtr, values: Seq<Expr>) -> Result<Expr, OutOfMemory>
    ensures call { IfOk result (λ e. expr_of e ≡ curried_call pointer.now.name (exprs_of values)) }
    ensures valid { is_valid_name pointer.now.name ≡ true }
{
    let is_alone = values.is_empty();
    let (values, pointer) = both(values, pointer_alone(alloc, pointer))?;
    if is_alone {
        return Ok(pointer);
    }
    let (values, args) = both(values, Seq::from_array(alloc, [pointer]))?;
    call(alloc, "curry", joined(args, values)?, Position::NONE)
}

/// A pointer without its values: the call that makes it; one to a closure's function stays.
fn pointer_alone(alloc: Global, pointer: &FnPtr) -> Result<Expr, OutOfMemory>
    ensures call { IfOk result (λ e. expr_of e ≡ pointer_literal pointer.now.name) }
    ensures valid { is_valid_name pointer.now.name ≡ true }
{
    if is_anonymous(pointer.fn_name()) {
        pointer_constant(alloc, pointer)
    } else {
        pointer_call(alloc, pointer.fn_name())
    }
}

fn pointer_constant(alloc: Global, pointer: &FnPtr) -> Result<Expr, OutOfMemory>
    ensures { IfOk result (λ e. expr_of e ≡ DynamicConstant (PointerV pointer.now.name no_values)) }
{
    let value = Dynamic::FnPtr(without_values(alloc, pointer)?);
    let value = Boxed::new(alloc, value)?;
    Ok(Expr::DynamicConstant(value, Position::NONE))
}

fn without_values(alloc: Global, pointer: &FnPtr) -> Result<FnPtr, OutOfMemory>
    ensures name { IfOk result (λ p. p.name ≡ pointer.now.name) }
    ensures curried { IfOk result (λ p. p.curried ≡ []) }
{
    let name = ImmutableString::new(alloc, pointer.fn_name())?;
    match FnPtr::new(alloc, name) {
        Some(alone) => Ok(alone),
        None => Ok(pointer.clone()?),
    }
}

/// The call that makes a pointer.
fn pointer_call(alloc: Global, name: &str) -> Result<Expr, OutOfMemory>
    ensures { IfOk result (λ e. expr_of e ≡ pointer_call name.now) }
{
    let name = text(alloc, name, Position::NONE)?;
    call(alloc, "Fn", Seq::from_array(alloc, [name])?, Position::NONE)
}

fn range_literal(alloc: Global, token: Token, from: INT, to: INT) -> Result<Expr, OutOfMemory>
    ensures { IfOk result (λ e.
        expr_of e ≡ operation (token_text token) (mark_of (Some token)) (IntegerConstant from) (IntegerConstant to)) }
{
    let from = integer(from, Position::NONE);
    let to = integer(to, Position::NONE);
    operator(alloc, token, from, to, Position::NONE)
}

fn joined(mut first: Seq<Expr>, second: Seq<Expr>) -> Result<Seq<Expr>, OutOfMemory>
    ensures { IfOk result (λ es. es ≡ first ++ second) }
{
    first.append(second.into_vec())?;
    Ok(first)
}
