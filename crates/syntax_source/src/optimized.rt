//! Scripts optimised from text to text.

ghost use Rattle.std.specs.Prelude.{◌≡◌, IfOk, string_bytes};
ghost use Rattle.base_engine.specs.EngineInfo.{engine_of};
ghost use Rattle.rhai_script.specs.Script.{script_of};
ghost use Rattle.syntax_source.specs.declared.syntax.Syntax.TheVariants as syntax;
ghost use Rattle.syntax_source.specs.Texts.{BecomesRead, BecomesText, IsReadAs};

use crate::printed::{Written, source_by};
use crate::reader::Reader;
use crate::refusal::Refusal;
use crate::syntax::{Syntax, read, write};
use base_engine::EngineInfo;
use rhai_optimizer::{OptimizationLevel, optimize_ast};
use rhai_script::AST;
use std::alloc::Global;

/// A text that was optimised.
#[derive(Drop)]
pub struct OptimizedText {
    /// The script that the given text is read as.
    pub given: AST,
    /// The text.
    pub text: String,
    /// The script that this one is read as.
    pub script: AST,
}

/// The text of a script, optimised under an engine's record. The script that the answer is read as refines the one that
/// the given text is read as; between them stands what `optimize_ast` and `write` promise.
pub fn optimize_text(
    alloc: Global,
    syntax: Syntax,
    text: &str,
    info: &EngineInfo,
    level: OptimizationLevel,
) -> Result<OptimizedText, Refusal>
    ensures { IfOk result (λ made.
        IsReadAs syntax text.now (script_of made.given)
        × BecomesText (engine_of info.now) syntax level (script_of made.given) (string_bytes made.text)
        (script_of made.script)) }
{
    match syntax {
        Syntax::Rhai(options) => optimize_text_by(alloc, &options, text, info, level),
        Syntax::Notation => optimize_notation(alloc, text, info, level),
    }
}

/// The same in rhai's own syntax, as this reader reads it: it reads the text that is given and the one that is made.
pub fn optimize_text_by<R: Reader>(
    alloc: Global,
    reader: &R,
    text: &str,
    info: &EngineInfo,
    level: OptimizationLevel,
) -> Result<OptimizedText, Refusal>
    ensures reads { IfOk result (λ made. R.reads reader.now text.now (script_of made.given)) }
    ensures becomes { IfOk result (λ made.
        BecomesRead (engine_of info.now) level (script_of made.given) (script_of made.script)) }
    ensures reads_again { IfOk result (λ made.
        R.reads reader.now (string_bytes made.text) (script_of made.script)) }
{
    let given = reader.read(alloc, text)?;
    let optimized = optimize_ast(alloc, info, None, given.clone()?, level)?;
    let Written { text, script } = source_by(alloc, reader, &optimized)?;
    Ok(OptimizedText {
        given,
        text,
        script,
    })
}

/// The same in the notation of trees.
fn optimize_notation(
    alloc: Global,
    text: &str,
    info: &EngineInfo,
    level: OptimizationLevel,
) -> Result<OptimizedText, Refusal>
    ensures { IfOk result (λ made.
        IsReadAs syntax.Notation text.now (script_of made.given)
        × BecomesText (engine_of info.now) syntax.Notation level (script_of made.given) (string_bytes made.text)
        (script_of made.script)) }
{
    let given = read(alloc, Syntax::Notation, text)?;
    let optimized = optimize_ast(alloc, info, None, given.clone()?, level)?;
    let Written { text, script } = write(alloc, Syntax::Notation, optimized)?;
    Ok(OptimizedText {
        given,
        text,
        script,
    })
}
