//! Map literals.

ghost use Rattle.std.specs.Prelude.{◌≡◌, IfOk, OnOk};
ghost use Rattle.rhai_base.specs.Reading.{members_of, value_of};
ghost use Rattle.rhai_base.specs.Value.{fields};
ghost use Rattle.ast_types.specs.Reading.{keys_of, pairs_of};
ghost use Rattle.theory_meaning.specs.Elements.{with_entry};
ghost use Rattle.theory_meaning.specs.Shape as shape;

use rhai_ast::{Expr, TreeFault, test_keys};
use rhai_base::{Dynamic, Ident, OutOfMemory, StringMap};
use std::alloc::{AllocError, Global};

/// Whether a literal's keys are distinct, and those of its template.
pub fn is_map(
    alloc: Global,
    members: &[(Ident, Expr)],
    template: &StringMap<Dynamic>,
) -> Result<bool, OutOfMemory>
    ensures { IfOk result (λ b. shape.is_map (keys_of template.now) (pairs_of members.now) ≡ b) }
{
    match test_keys(alloc, members, template) {
        Ok(()) => Ok(true),
        Err(TreeFault::OutOfMemory) => Err(OutOfMemory),
        Err(_) => Ok(false),
    }
}

/// Puts a member's value under its key.
pub fn insert(map: &mut StringMap<Dynamic>, key: &Ident, value: Dynamic) -> Result<(), AllocError>
    ensures { OnOk result
        (fields (members_of map.new) ≡ with_entry (fields (members_of map.old)) key.now.name (value_of value)) }
{
    map.insert(key.name.clone()?, value)
}
