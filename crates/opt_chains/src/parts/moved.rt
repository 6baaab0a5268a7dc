//! Parts of constants that a step answers, moved out of their place, where unit stands then. What is no such part is left
//! to `answers`.

#![tactic(auto, using(ast_types::specs::Reading::shapes, rhai_base::specs::Reading::kinds))]

ghost use Rattle.std.specs.Prelude.{◌≡◌, IfSome, Some, None, Bool, map};
ghost use Rattle.rhai_base.specs.Reading.{members_of, value_of};
ghost use Rattle.rhai_base.specs.Value.{ArrayV, Fields, MapV, fields, values};
ghost use Rattle.ast_types.specs.Reading.{expr_of};
ghost use Rattle.theory_meaning.specs.Elements as elements;
ghost use Rattle.theory_meaning.specs.Engine.{Engine};
ghost use Rattle.opt_chains.specs.Answers as answers;
ghost use Rattle.rhai_ast.specs.Nodes.{is_dot};

use crate::parts::literals::{integer_of, place_in};
use rhai_ast::{ChainType, Expr};
use rhai_base::{Dynamic, INT, ImmutableString, Seq, StringMap};
use std::mem::replace;

/// Moves a value out of its place, where it may stand: unit not everywhere.
fn move_out(place: &mut Dynamic, unit: bool) -> Option<Dynamic>
    ensures moved { IfSome result (λ v. answers.allowed unit (Some (value_of place.old)) ≡ Some (value_of v)) }
    ensures kept { result ≡ None → place.new ≡ place.old }
{
    if !unit && place.is_unit() {
        return None;
    }
    Some(replace(place, Dynamic::Unit))
}

fn move_element(items: &mut Seq<Dynamic>, index: INT, unit: bool) -> Option<Dynamic>
    ensures moved { IfSome result (λ v.
        answers.allowed unit (elements.element (values (map value_of items.old)) index) ≡ Some (value_of v)) }
    ensures kept { result ≡ None → items.new ≡ items.old }
{
    let Some(place) = place_in(items.len(), index) else {
        return None;
    };
    match items.get_mut(place) {
        Some(item) => move_out(item, unit),
        None => None,
    }
}

fn move_entry(
    members: &mut StringMap<Dynamic>,
    key: &ImmutableString,
    unit: bool,
) -> Option<Dynamic>
    ensures moved { IfSome result (λ v.
        answers.allowed unit (Some (elements.entry (fields (members_of members.old)) key.now))
        ≡ Some (value_of v)) }
    ensures kept { result ≡ None → members.new ≡ members.old }
{
    match members.get_mut(key) {
        Some(member) => move_out(member, unit),
        None => None,
    }
}

/// The key that a step names as it is written: a property, or an index that is a text.
fn key_of(access: ChainType, argument: &Expr) -> Option<&ImmutableString>
    ensures { IfSome result (λ key.
        (r : Engine) (optional : Bool) (fs : Fields)
        → answers.answer_at r (is_dot access) optional (MapV fs) (expr_of argument.now)
        ≡ Some (elements.entry fs key.now)) }
{
    match access {
        ChainType::Dotting => match argument {
            Expr::Property(names, _) => Some(&names.get().2),
            _ => None,
        },
        ChainType::Indexing => match argument {
            Expr::StringConstant(key, _) => Some(key),
            _ => None,
        },
    }
}

fn move_from_map(
    access: ChainType,
    members: &mut StringMap<Dynamic>,
    argument: &Expr,
    unit: bool,
) -> Option<Dynamic>
    ensures moved { IfSome result (λ v.
        (r : Engine) (optional : Bool)
        → answers.allowed unit
        (answers.answer_at r (is_dot access) optional (MapV (fields (members_of members.old)))
        (expr_of argument.now))
        ≡ Some (value_of v)) }
    ensures kept { result ≡ None → members.new ≡ members.old }
{
    match key_of(access, argument) {
        Some(key) => move_entry(members, key, unit),
        None => None,
    }
}

fn move_from_array(
    access: ChainType,
    items: &mut Seq<Dynamic>,
    argument: &Expr,
    unit: bool,
) -> Option<Dynamic>
    ensures moved { IfSome result (λ v.
        (r : Engine) (optional : Bool)
        → answers.allowed unit
        (answers.answer_at r (is_dot access) optional (ArrayV (values (map value_of items.old)))
        (expr_of argument.now))
        ≡ Some (value_of v)) }
    ensures kept { result ≡ None → items.new ≡ items.old }
{
    match access {
        ChainType::Dotting => None,
        ChainType::Indexing => match integer_of(argument) {
            Some(index) => move_element(items, index, unit),
            None => None,
        },
    }
}

fn move_from(access: ChainType, value: &mut Dynamic, argument: &Expr, unit: bool) -> Option<Dynamic>
    ensures moved { IfSome result (λ v.
        (r : Engine) (optional : Bool)
        → answers.allowed unit
        (answers.answer_at r (is_dot access) optional (value_of value.old) (expr_of argument.now))
        ≡ Some (value_of v)) }
    ensures kept { result ≡ None → value.new ≡ value.old }
{
    match value {
        Dynamic::Map(members) => move_from_map(access, members, argument, unit),
        Dynamic::Array(items) => move_from_array(access, items, argument, unit),
        _ => None,
    }
}

/// The part of a constant that a step answers, moved out of its place; where there is none, all stays.
pub fn move_part(access: ChainType, base: &mut Expr, argument: &Expr, unit: bool) -> Option<Dynamic>
    ensures moved { IfSome result (λ v.
        (r : Engine) (optional : Bool)
        → answers.allowed unit
        (answers.constant_answer r (is_dot access) optional (expr_of base.old) (expr_of argument.now))
        ≡ Some (value_of v)) }
    ensures kept { result ≡ None → base.new ≡ base.old }
{
    match base {
        Expr::DynamicConstant(value, _) => move_from(access, value.get_mut(), argument, unit),
        _ => None,
    }
}
