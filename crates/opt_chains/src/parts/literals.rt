//! Parts of the literals of arrays and maps: which one a step answers, by reference, and then that one out of its
//! place. The others stay where they are.

#![tactic(auto, using(ast_types::specs::Reading::shapes, rhai_base::specs::Reading::kinds, crate::proofs::OtherParts::kinds_of_values))]

ghost use Rattle.std.specs.Prelude.{◌≡◌, ◌<◌, IfOk, IfSome, Some};
ghost use Rattle.std.specs.Option.{option_map};
ghost use Rattle.rhai_base.specs.Reading.{value_of};
ghost use Rattle.ast_types.specs.Reading.{expr_of, exprs_of, pairs_of};
ghost use Rattle.theory_meaning.specs.Constants as constants;
ghost use Rattle.theory_meaning.specs.Elements as elements;
ghost use Rattle.theory_meaning.specs.Queries as queries;
ghost use Rattle.theory_rewriting.specs.Indexing as indexing;
ghost use Rattle.rhai_ast.specs.Nodes.{is_dot};
ghost use Rattle.opt_chains.specs.Literals as literals;

use ast_nodes::place_expr;
use rhai_ast::{ChainType, Expr, ExprQueries, Literals, Take};
use rhai_base::{Dynamic, INT, Ident, OutOfMemory, Position, Seq};
use std::alloc::Global;

/// A part of a literal.
#[derive(Clone, Copy)]
pub enum Found {
    /// The one at a place.
    At(usize),
    /// A missing entry, which is unit.
    Missing,
}

/// Of so many things the place of the one at an index, from the end where it is negative.
pub(crate) fn place_in(count: usize, index: INT) -> Option<usize>
    ensures place { result ≡ elements.index_in count index }
    ensures below { IfSome result (λ place. place < count) }
{
    if index < 0 {
        return count.checked_sub(index.unsigned_abs() as usize);
    }
    let place = index as usize;
    if place < count { Some(place) } else { None }
}

fn integer_in(value: &Dynamic) -> Option<INT>
    ensures { result ≡ literals.integer_of (Some (value_of value.now)) }
{
    match value {
        Dynamic::Int(number) => Some(*number),
        _ => None,
    }
}

/// The integer that a constant is.
pub(crate) fn integer_of(expr: &Expr) -> Option<INT>
    ensures { result ≡ literals.integer_of (constants.constant_value (expr_of expr.now)) }
{
    match expr {
        Expr::IntegerConstant(number, _) => Some(*number),
        Expr::DynamicConstant(value, _) => integer_in(value.get()),
        _ => None,
    }
}

fn element_at(items: &[Expr], index: INT) -> Option<Found>
    ensures { option_map (literals.found_item (exprs_of items.now)) result
        ≡ literals.element_for (exprs_of items.now) (Some index) }
{
    match place_in(items.len(), index) {
        Some(place) => Some(Found::At(place)),
        None => None,
    }
}

/// A constant index of an array literal, in range, is the element there.
fn element_of_array(items: &[Expr], index: &Expr) -> Option<Found>
    ensures { option_map (literals.found_item (exprs_of items.now)) result
        ≡ literals.element_for (exprs_of items.now)
        (literals.integer_of (constants.constant_value (expr_of index.now))) }
{
    match integer_of(index) {
        Some(index) => element_at(items, index),
        None => None,
    }
}

/// The last member of a key.
fn member_for(members: &[(Ident, Expr)], key: &str) -> Found
    ensures { literals.found_member (pairs_of members.now) result
        ≡ indexing.or_unit (indexing.pair_for (pairs_of members.now) key.now) }
{
    let mut left = members;
    while let Some((member, earlier)) = left.split_last() {
        if member.0.name.as_str() == key {
            return Found::At(earlier.len());
        }
        left = earlier;
    }
    Found::Missing
}

/// A property of a map literal is the last member of its name, and unit where there is none.
fn property_of_map(members: &[(Ident, Expr)], member: &Expr) -> Option<Found>
    ensures { option_map (literals.found_member (pairs_of members.now)) result
        ≡ literals.property_for (pairs_of members.now) (expr_of member.now) }
{
    match member {
        Expr::Property(names, _) => Some(member_for(members, names.get().2.as_str())),
        _ => None,
    }
}

fn entry_at(members: &[(Ident, Expr)], index: &Dynamic) -> Option<Found>
    ensures { option_map (literals.found_member (pairs_of members.now)) result
        ≡ literals.entry_for (pairs_of members.now) (Some (value_of index.now)) }
{
    match index {
        Dynamic::Str(key) => Some(member_for(members, key.as_str())),
        _ => None,
    }
}

/// So is an index of it that is a constant text.
fn entry_of_map(
    alloc: Global,
    members: &[(Ident, Expr)],
    index: &Expr,
) -> Result<Option<Found>, OutOfMemory>
    ensures { IfOk result (λ found.
        option_map (literals.found_member (pairs_of members.now)) found
        ≡ literals.entry_for (pairs_of members.now) (constants.constant_value (expr_of index.now))) }
{
    match index.constant_value(alloc)? {
        Some(index) => Ok(entry_at(members, &index)),
        None => Ok(None),
    }
}

fn array_part(access: ChainType, items: &[Expr], argument: &Expr) -> Option<Found>
    ensures { option_map (literals.found_item (exprs_of items.now)) result
        ≡ literals.array_part (is_dot access) (exprs_of items.now) (expr_of argument.now) }
{
    match access {
        ChainType::Dotting => None,
        ChainType::Indexing => element_of_array(items, argument),
    }
}

fn map_part(
    alloc: Global,
    access: ChainType,
    members: &[(Ident, Expr)],
    argument: &Expr,
) -> Result<Option<Found>, OutOfMemory>
    ensures { IfOk result (λ found.
        option_map (literals.found_member (pairs_of members.now)) found
        ≡ literals.map_part (is_dot access) (pairs_of members.now) (expr_of argument.now)) }
{
    match access {
        ChainType::Dotting => Ok(property_of_map(members, argument)),
        ChainType::Indexing => entry_of_map(alloc, members, argument),
    }
}

/// Which part of a literal a step answers.
fn literal_part(
    alloc: Global,
    access: ChainType,
    base: &Expr,
    argument: &Expr,
) -> Result<Option<Found>, OutOfMemory>
    ensures { IfOk result (λ found.
        option_map (literals.found_part (expr_of base.now)) found
        ≡ literals.literal_part (is_dot access) (expr_of base.now) (expr_of argument.now)) }
{
    match base {
        Expr::Array(items, _) => Ok(array_part(access, items.get().as_slice(), argument)),
        Expr::Map(map, _) => map_part(alloc, access, map.get().0.as_slice(), argument),
        _ => Ok(None),
    }
}

fn is_unit_item(items: &[Expr], found: Found) -> bool
    ensures { result ≡ queries.is_unit (literals.found_item (exprs_of items.now) found) }
{
    match found {
        Found::At(place) => match items.get(place) {
            Some(item) => item.is_unit(),
            None => true,
        },
        Found::Missing => true,
    }
}

fn is_unit_member(members: &[(Ident, Expr)], found: Found) -> bool
    ensures { result ≡ queries.is_unit (literals.found_member (pairs_of members.now) found) }
{
    match found {
        Found::At(place) => match members.get(place) {
            Some(member) => member.1.is_unit(),
            None => true,
        },
        Found::Missing => true,
    }
}

/// Whether a part of a literal is unit.
fn is_unit_part(base: &Expr, found: Found) -> bool
    ensures { result ≡ queries.is_unit (literals.found_part (expr_of base.now) found) }
{
    match base {
        Expr::Array(items, _) => is_unit_item(items.get().as_slice(), found),
        Expr::Map(map, _) => is_unit_member(map.get().0.as_slice(), found),
        _ => true,
    }
}

/// Which part of a literal whose parts are pure a step answers, where it may stand: unit not everywhere.
pub fn literal_answer(
    alloc: Global,
    unit: bool,
    access: ChainType,
    base: &Expr,
    argument: &Expr,
) -> Result<Option<Found>, OutOfMemory>
    ensures { IfOk result (λ found.
        option_map (literals.found_part (expr_of base.now)) found
        ≡ literals.literal_answer unit (is_dot access) (expr_of base.now) (expr_of argument.now)) }
{
    match literal_part(alloc, access, base, argument)? {
        Some(found) if (unit || !is_unit_part(base, found)) && base.is_pure() => Ok(Some(found)),
        _ => Ok(None),
    }
}

fn take_item(items: &mut Seq<Expr>, found: Found) -> Expr
    ensures { expr_of result ≡ literals.found_item (exprs_of items.old) found }
{
    match found {
        Found::At(place) => match items.get_mut(place) {
            Some(item) => item.take(),
            None => Expr::Unit(Position::NONE),
        },
        Found::Missing => Expr::Unit(Position::NONE),
    }
}

fn take_member(members: &mut Seq<(Ident, Expr)>, found: Found) -> Expr
    ensures { expr_of result ≡ literals.found_member (pairs_of members.old) found }
{
    match found {
        Found::At(place) => match members.get_mut(place) {
            Some(member) => member.1.take(),
            None => Expr::Unit(Position::NONE),
        },
        Found::Missing => Expr::Unit(Position::NONE),
    }
}

fn take_found(base: &mut Expr, found: Found) -> Expr
    ensures { expr_of result ≡ literals.found_part (expr_of base.old) found }
{
    match base {
        Expr::Array(items, _) => take_item(items.get_mut(), found),
        Expr::Map(map, _) => take_member(&mut map.get_mut().0, found),
        _ => Expr::Unit(Position::NONE),
    }
}

/// Takes a part of a literal out of its place; it stands where the literal did.
#[tactic(auto, using(ast_nodes::proofs::Placing::placing))]
pub fn take_part(base: &mut Expr, found: Found) -> Expr
    ensures { expr_of result ≡ literals.found_part (expr_of base.old) found }
{
    let pos = base.position();
    let mut part = take_found(base, found);
    place_expr(&mut part, pos);
    part
}
