//! Ids of tables, and names of sources, which they follow.
ghost use Rattle.std.specs.Prelude.{◌≡◌, IfOk};
ghost use Rattle.script_tables.specs.Ids.{named};

use rhai_base::{ImmutableString, OutOfMemory};
use std::alloc::Global;

/// A name as it is kept: an empty one is none.
pub fn name_of(alloc: Global, name: &str) -> Result<Option<ImmutableString>, OutOfMemory>
    ensures { IfOk result (λ n. n ≡ named name.now) }
{
    if name.is_empty() {
        return Ok(None);
    }
    Ok(Some(ImmutableString::new(alloc, name)?))
}
