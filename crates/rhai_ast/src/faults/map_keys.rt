//! The keys of a map literal and of its template.

ghost use Rattle.std.specs.Prelude.{◌≡◌, ◌&&◌, true, IfOk, IsPermutation};
ghost use Rattle.rhai_ast.specs.MapKeys.{names_of, texts_of};
ghost use Rattle.rhai_ast.specs.Refusals.{Finds};
ghost use Rattle.theory_meaning.specs.Faults as faults;
ghost use Rattle.theory_meaning.specs.Shape.{are_among, are_distinct};
ghost use Rattle.base_tokens.specs.Names.{is_among};
ghost use Rattle.ast_types.specs.Reading.{keys_of};

use ast_types::Expr;
use rhai_base::{Dynamic, Ident, StringMap, TreeFault};
use std::alloc::Global;
use std::collections::HashSet;

/// So many members are compared with one another, which takes no memory.
const FEW: usize = 8;

/// Whether the keys of a literal differ, and are those of its template.
pub fn test_keys(
    alloc: Global,
    members: &[(Ident, Expr)],
    template: &StringMap<Dynamic>,
) -> Result<(), TreeFault>
    ensures { Finds (faults.map_fault (names_of members.now) (keys_of template.now)) result }
{
    if members.len() <= FEW {
        test_few(members, template)
    } else {
        test_many(alloc, members, template)
    }
}

// ---- few

fn test_few(members: &[(Ident, Expr)], template: &StringMap<Dynamic>) -> Result<(), TreeFault>
    ensures { Finds (faults.map_fault (names_of members.now) (keys_of template.now)) result }
{
    if !differ(members) {
        return Err(TreeFault::DuplicateMapKey);
    }
    if are_members(members, template) {
        Ok(())
    } else {
        Err(TreeFault::MapTemplate)
    }
}

/// Whether no two have one name.
fn differ(members: &[(Ident, Expr)]) -> bool
    ensures { result ≡ are_distinct (names_of members.now) }
{
    let mut rest = members;
    while let Some((first, others)) = rest.split_first() {
        if has_name(others, first.0.as_str()) {
            return false;
        }
        rest = others;
    }
    true
}

/// Whether one has this name.
fn has_name(members: &[(Ident, Expr)], name: &str) -> bool
    ensures { result ≡ is_among name.now (names_of members.now) }
{
    let mut rest = members;
    while let Some((first, others)) = rest.split_first() {
        if first.0.as_str() == name {
            return true;
        }
        rest = others;
    }
    false
}

/// Whether the template has the keys of these members, which differ, and no others.
fn are_members(members: &[(Ident, Expr)], template: &StringMap<Dynamic>) -> bool
    requires { are_distinct (names_of members.now) ≡ true }
    ensures { result ≡ (are_among (names_of members.now) (keys_of template.now)
        && are_among (keys_of template.now) (names_of members.now)) }
{
    members.len() == template.len() && has_members(members, template)
}

fn has_members(members: &[(Ident, Expr)], template: &StringMap<Dynamic>) -> bool
    ensures { result ≡ are_among (keys_of template.now) (names_of members.now) }
{
    for (key, _) in template.iter() {
        if !has_name(members, key.as_str()) {
            return false;
        }
    }
    true
}

// ---- many

fn test_many(
    alloc: Global,
    members: &[(Ident, Expr)],
    template: &StringMap<Dynamic>,
) -> Result<(), TreeFault>
    ensures { Finds (faults.map_fault (names_of members.now) (keys_of template.now)) result }
{
    let names = distinct_names(alloc, members)?;
    if are_keys(&names, template) {
        Ok(())
    } else {
        Err(TreeFault::MapTemplate)
    }
}

/// The names of the members; refused where two are equal.
fn distinct_names<'a>(
    alloc: Global,
    members: &'a [(Ident, Expr)],
) -> Result<HashSet<&'a str>, TreeFault>
    ensures finds { Finds (faults.unless (are_distinct (names_of members.now)) faults.DuplicateMapKey) result }
    ensures names { IfOk result (λ s. IsPermutation (names_of members.now) (texts_of s)) }
{
    let mut names = HashSet::new(alloc);
    for member in members {
        if !names.insert(member.0.as_str())? {
            return Err(TreeFault::DuplicateMapKey);
        }
    }
    Ok(names)
}

/// Whether the template has these keys and no others.
fn are_keys(names: &HashSet<&str>, template: &StringMap<Dynamic>) -> bool
    ensures { result ≡ (are_among (texts_of names.now) (keys_of template.now)
        && are_among (keys_of template.now) (texts_of names.now)) }
{
    names.len() == template.len() && has_each(names, template)
}

fn has_each(names: &HashSet<&str>, template: &StringMap<Dynamic>) -> bool
    ensures { result ≡ are_among (keys_of template.now) (texts_of names.now) }
{
    for (key, _) in template.iter() {
        if !names.contains(key.as_str()) {
            return false;
        }
    }
    true
}
