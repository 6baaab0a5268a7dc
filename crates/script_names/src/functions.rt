//! Functions by the new names.
ghost use Rattle.std.specs.Prelude.{◌≡◌, IfOk};
ghost use Rattle.script_names.specs.Functions.{IsRenamed};
ghost use Rattle.script_names.specs.Names.{stands};

use crate::Names;
use crate::nodes::renamed_block;
use crate::steps::both;
use ast_types::ScriptFuncDef;
use rhai_base::{ImmutableString, OutOfMemory, Seq};
use std::alloc::Global;

/// A copy of a function by the new names, its own too.
pub fn renamed_function(
    alloc: Global,
    names: &Names,
    function: &ScriptFuncDef,
) -> Result<ScriptFuncDef, OutOfMemory>
    ensures { IfOk result (λ f. IsRenamed (stands names.now) function.now f) }
{
    let body = renamed_block(alloc, names, &function.body)?;
    let start = both(body, names.name_for(alloc, &function.name))?;
    let start = both(start, copy_type(&function.this_type))?;
    let start = both(start, copy_texts(&function.params))?;
    let ((((body, name), this_type), params), comments) = both(
        start,
        copy_texts(&function.comments),
    )?;
    Ok(ScriptFuncDef {
        body,
        name,
        this_type,
        access: function.access,
        params,
        comments,
    })
}

fn copy_type(this_type: &Option<ImmutableString>) -> Result<Option<ImmutableString>, OutOfMemory>
    ensures { IfOk result (λ copy. copy ≡ this_type.now) }
{
    Ok(this_type.clone()?)
}

#[tactic(auto, using(base_lists::proofs::Copies::copies))]
fn copy_texts(texts: &Seq<ImmutableString>) -> Result<Seq<ImmutableString>, OutOfMemory>
    ensures { IfOk result (λ copy. copy ≡ texts.now) }
{
    Ok(texts.clone()?)
}
