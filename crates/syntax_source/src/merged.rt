//! Two scripts as one.

ghost use Rattle.std.specs.Prelude.{IfOk, string_bytes};
ghost use Rattle.rhai_script.specs.Script.{script_of};
ghost use Rattle.syntax_source.specs.Texts.{AreMerged};

use crate::printed::Written;
use crate::refusal::Refusal;
use crate::syntax::{Syntax, read, write};
use std::alloc::Global;

/// The text of two scripts as one: the statements of the second behind those of the first, and a function of the
/// second in the place of one of the first with its key. As `AST::merge` of rhai.
pub fn merge(alloc: Global, syntax: Syntax, first: &str, second: &str) -> Result<Written, Refusal>
    ensures { IfOk result (λ made.
        AreMerged syntax first.now second.now (string_bytes made.text) (script_of made.script)) }
{
    let first = read(alloc, syntax, first)?;
    let second = read(alloc, syntax, second)?;
    write(alloc, syntax, first.merge(&second)?)
}
