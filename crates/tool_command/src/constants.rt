//! Constants that are known beforehand.

use crate::bad_value::{BadValue, Reason, Valued};
use crate::places::push_place;
use base_engine::EngineInfo;
use rhai_ast::Stmt;
use rhai_script::AST;
use std::alloc::{AllocError, Global};
use std::fmt::Write;
use syntax_source::{Why, constants};

/// What stands before a word where it is declared.
const BEFORE: &str = "const ";

/// The record in which the constants that these words give are known.
pub(crate) fn known<'a>(alloc: Global, words: &[&'a str]) -> Result<EngineInfo, BadValue<'a>> {
    let mut declared = String::new(alloc);
    let mut info = EngineInfo::new(alloc);
    for word in words {
        info = with_constant(alloc, &mut declared, &info, *word)?;
    }
    Ok(info)
}

/// The same record with one constant more, whose declaration joins those before it.
fn with_constant<'a>(
    alloc: Global,
    declared: &mut String,
    info: &EngineInfo,
    word: &'a str,
) -> Result<EngineInfo, BadValue<'a>> {
    let bad = |reason| BadValue::new(Valued::Constant, word, reason);
    let Some((name, _)) = word.split_once('=') else {
        return Err(bad(Reason::NoEquals));
    };
    if info.constant_named(name.trim()).is_some() {
        return Err(bad(Reason::Twice));
    }
    let line = declared.as_str().lines().count().saturating_add(1);
    if declare(declared, word).is_err() {
        return Err(bad(Reason::Refused(Why::OutOfMemory)));
    }
    match constants(alloc, declared.as_str()) {
        Ok(more) => {
            if !is_one_more(info, &more) {
                return Err(bad(Reason::NoConstant));
            }
            Ok(more)
        }
        Err(refusal) => {
            let place = (line, BEFORE.len());
            Err(BadValue::refused(Valued::Constant, word, refusal, place))
        }
    }
}

fn declare(declared: &mut String, word: &str) -> Result<(), AllocError> {
    for part in [BEFORE, word, ";\n"] {
        declared.push_str(part)?;
    }
    Ok(())
}

fn is_one_more(info: &EngineInfo, more: &EngineInfo) -> bool {
    more.constants().count() == info.constants().count().saturating_add(1)
}

/// Says where a script's own statements declare a name that is known beforehand.
pub(crate) fn push_idle(
    name: &str,
    script: &AST,
    info: &EngineInfo,
    to: &mut String,
) -> Result<(), AllocError> {
    for statement in script.statements() {
        if let Stmt::Var(parts, _, _) = statement {
            let ident = &parts.get().0;
            let declared = ident.as_str();
            if info.constant_named(declared).is_some() {
                push_place(name, ident.pos, to)?;
                writeln!(
                    to,
                    "the script declares `{declared}`: the given constant is idle behind it"
                )?;
            }
        }
    }
    Ok(())
}
