//! The values of constants, into which what their parts hold is moved.

#![tactic(auto, using(ast_types::specs::Reading::shapes, rhai_base::specs::Reading::kinds, ast_types::proofs::ItemLists::steps, crate::proofs::LiteralLists::literals))]

ghost use Rattle.std.specs.Prelude.{◌≡◌, IfOk, OnOk, Some, true};
ghost use Rattle.std.specs.Option.{option_map};
ghost use Rattle.rhai_base.specs.Reading.{members_of, value_of};
ghost use Rattle.rhai_base.specs.Value.{fields};
ghost use Rattle.theory_meaning.specs.Elements.{with_entry};
ghost use Rattle.ast_types.specs.Reading.{expr_of, exprs_of, pairs_of};
ghost use Rattle.theory_meaning.specs.Constants as constants;

use crate::literals::constant_value;
use ast_types::Expr;
use rhai_base::{Dynamic, Ident, OutOfMemory, Seq, StringMap};
use std::alloc::Global;

/// The value of a constant, into which what its parts hold is moved: of constants in constants each text and each
/// inner value stays in its memory, so that it takes linear time, however deep they stand.
pub fn value_of_constant(alloc: Global, expr: Expr) -> Result<Dynamic, OutOfMemory>
    requires { constants.is_constant (expr_of expr) ≡ true }
    ensures { IfOk result (λ v. constants.constant_value (expr_of expr) ≡ Some (value_of v)) }
{
    match taken_value(alloc, expr)? {
        Some(value) => Ok(value),
        // It is a constant, as is asked by reference before it is taken out.
        None => unreachable!(),
    }
}

fn taken_value(alloc: Global, expr: Expr) -> Result<Option<Dynamic>, OutOfMemory>
    ensures { IfOk result (λ v. option_map value_of v ≡ constants.constant_value (expr_of expr)) }
{
    match expr {
        Expr::Array(items, _) => taken_array(alloc, items.into_inner()),
        Expr::Map(parts, _) => taken_map(alloc, parts.into_inner().0),
        other => held_value(alloc, other),
    }
}

/// The value that a constant holds, moved out; of a literal of parts that of a copy.
fn held_value(alloc: Global, expr: Expr) -> Result<Option<Dynamic>, OutOfMemory>
    ensures { IfOk result (λ v. option_map value_of v ≡ constants.constant_value (expr_of expr)) }
{
    match expr {
        Expr::DynamicConstant(value, _) => Ok(Some(value.into_inner())),
        Expr::StringConstant(text, _) => Ok(Some(Dynamic::Str(text))),
        other => copied_value(alloc, &other),
    }
}

fn copied_value(alloc: Global, expr: &Expr) -> Result<Option<Dynamic>, OutOfMemory>
    ensures { IfOk result (λ v. option_map value_of v ≡ constants.constant_value (expr_of expr.now)) }
{
    match constant_value(alloc, expr)? {
        Some(value) => Ok(Some(value.into_owned()?)),
        None => Ok(None),
    }
}

fn taken_array(alloc: Global, items: Seq<Expr>) -> Result<Option<Dynamic>, OutOfMemory>
    ensures { IfOk result (λ v.
        option_map value_of v ≡ constants.array_value (constants.constant_values (exprs_of items))) }
{
    let mut values = Vec::with_capacity(alloc, items.len())?;
    let mut rest = items.into_rest();
    while let Some(item) = rest.next() {
        match held_value(alloc, item)? {
            Some(value) => values.push(value)?,
            None => return Ok(None),
        }
    }
    Ok(Some(Dynamic::Array(Seq::from_vec(values))))
}

fn taken_map(alloc: Global, members: Seq<(Ident, Expr)>) -> Result<Option<Dynamic>, OutOfMemory>
    ensures { IfOk result (λ v.
        option_map value_of v ≡ constants.map_value (constants.constant_entries (pairs_of members))) }
{
    let mut map = StringMap::new(alloc);
    let mut rest = members.into_rest();
    while let Some((name, value)) = rest.next() {
        match held_value(alloc, value)? {
            Some(value) => put_under(&mut map, name, value)?,
            None => return Ok(None),
        }
    }
    Ok(Some(Dynamic::Map(map)))
}

/// Puts a value under a name, in place of what was there.
#[tactic(auto, using(crate::proofs::Entries::insert_is))]
fn put_under(map: &mut StringMap<Dynamic>, name: Ident, value: Dynamic) -> Result<(), OutOfMemory>
    ensures { OnOk result
        (fields (members_of map.new) ≡ with_entry (fields (members_of map.old)) name.name (value_of value)) }
{
    let Ident { name, pos: _pos } = name;
    map.insert(name, value)?;
    Ok(())
}
