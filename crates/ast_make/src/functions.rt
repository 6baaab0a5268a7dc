//! Functions.
#![tactic(auto, using(ast_types::specs::Reading::shapes, crate::proofs::NameLists::steps))]

ghost use Rattle.std.specs.Prelude.{◌≡◌, [], IfOk, None, map};
ghost use Rattle.ast_types.specs.Reading.{function_of, stmts_of};
ghost use Rattle.ast_types.specs.Defaults.{nowhere};
ghost use Rattle.ast_types.specs.declared.script_fn.FnAccess.TheVariants as access;

use ast_types::{FnAccess, ScriptFuncDef, Stmt, StmtBlock};
use rhai_base::{ImmutableString, OutOfMemory, Seq, Span};
use std::alloc::Global;

/// A function that other scripts see, for a receiver of any type, without a comment. Its block has no span.
pub fn function(
    alloc: Global,
    name: &str,
    params: &[&str],
    body: Vec<Stmt>,
) -> Result<ScriptFuncDef, OutOfMemory>
    ensures means { IfOk result (λ f.
        function_of f
        ≡ record {
          name = name.now;
          this_type = None;
          params = map (λ param. param.now) params.now;
          body = stmts_of body.items;
        }) }
    ensures keeps { IfOk result (λ f. (f.access ≡ access.Public) × (f.comments ≡ [])) }
    ensures stands { IfOk result (λ f. (f.body.span.start ≡ nowhere) × (f.body.span.end ≡ nowhere)) }
{
    Ok(ScriptFuncDef {
        body: StmtBlock::new_with_span(body, Span::NONE),
        name: ImmutableString::new(alloc, name)?,
        this_type: None,
        access: FnAccess::Public,
        params: texts(alloc, params)?,
        comments: Seq::new(alloc),
    })
}

/// The names, one by one.
fn texts(alloc: Global, names: &[&str]) -> Result<Seq<ImmutableString>, OutOfMemory>
    ensures { IfOk result (λ made. made ≡ map (λ name. name.now) names.now) }
{
    let mut made = Seq::new(alloc);
    for name in names {
        made.push(ImmutableString::new(alloc, name)?)?;
    }
    Ok(made)
}
