//! The two ways in which a script is written.

ghost use Rattle.std.specs.Prelude.{◌≡◌, IfOk, string_bytes};
ghost use Rattle.rhai_script.specs.Script.{script_of};
ghost use Rattle.syntax_source.specs.Texts.{IsReadAs, IsWrittenAs};

use crate::printed::{Written, source_by};
use crate::refusal::Refusal;
use notation_print::push_script;
use notation_read::read_script;
use rhai_script::AST;
use std::alloc::Global;
use syntax_parser::{ParseOptions, compile_with};

/// How a script is written.
#[derive(Clone, Copy, Debug, PartialEq, Eq)]
pub enum Syntax {
    /// In rhai's own syntax, read within these bounds.
    Rhai(ParseOptions),
    /// In the notation of trees.
    Notation,
}

impl Default for Syntax {
    /// rhai's own, within rhai's bounds.
    fn default() -> Syntax {
        Syntax::Rhai(ParseOptions::new())
    }
}

/// The script of a text.
pub fn read(alloc: Global, syntax: Syntax, text: &str) -> Result<AST, Refusal>
    ensures { IfOk result (λ script. IsReadAs syntax text.now (script_of script)) }
{
    match syntax {
        Syntax::Rhai(options) => Ok(compile_with(alloc, text, options)?),
        Syntax::Notation => Ok(read_script(alloc, text)?),
    }
}

/// The text of a script, and the script that it is read as, which does the same. Refused where no text spells the
/// script.
pub fn write(alloc: Global, syntax: Syntax, script: AST) -> Result<Written, Refusal>
    ensures { IfOk result (λ made.
        IsWrittenAs syntax (script_of script) (string_bytes made.text) (script_of made.script)) }
{
    match syntax {
        Syntax::Rhai(options) => Ok(source_by(alloc, &options, &script)?),
        Syntax::Notation => {
            let mut text = String::new(alloc);
            push_script(&script, &mut text)?;
            Ok(Written { text, script })
        }
    }
}
