//! Constants that are known beforehand, as a text.

use crate::refusal::{Refusal, Why};
use base_engine::EngineInfo;
use bitflags::Flags;
use rhai_ast::{Expr, Literals, Stmt, StmtQueries};
use rhai_base::{ASTFlags, Ident};
use rhai_optimizer::{OptimizationLevel, optimize_ast};
use std::alloc::Global;
use std::num::NonZeroUsize;
use syntax_parser::compile;

/// An engine's record with the constants of a text of declarations `const NAME = VALUE;` in rhai's own syntax, and
/// nothing else set. A value may name the constants before it and use operators that are built in. Refused at the first
/// statement that is none.
pub fn constants(alloc: Global, text: &str) -> Result<EngineInfo, Refusal> {
    let mut info = EngineInfo::new(alloc);
    let script = compile(alloc, text)?;
    let script = optimize_ast(alloc, &info, None, script, OptimizationLevel::Simple)?;
    for statement in script.statements() {
        match statement {
            Stmt::Var(parts, options, _) if options.contains(ASTFlags::CONSTANT) => {
                add_constant(alloc, &mut info, parts.get())?;
            }
            other => return Err(Refusal::at(Why::NoConstant, other.position())),
        }
    }
    Ok(info)
}

fn add_constant(
    alloc: Global,
    info: &mut EngineInfo,
    parts: &(Ident, Expr, Option<NonZeroUsize>),
) -> Result<(), Refusal> {
    match parts.1.get_literal_value(alloc)? {
        Some(value) => Ok(info.add_constant(parts.0.name.clone()?, value)?),
        None => Err(Refusal::at(Why::NoConstant, parts.0.pos)),
    }
}
