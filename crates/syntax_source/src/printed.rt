//! Scripts in print, read again.

ghost use Rattle.std.specs.Prelude.{◌≡◌, ◌++◌, List, ℕ, IfOk, IsTrue, OnErr, OnOk, string_bytes};
ghost use Rattle.rhai_script.specs.Contents.{contents};
ghost use Rattle.rhai_script.specs.Script.{script_of};
ghost use Rattle.ast_alike.specs.Dressed.{DressedAlike};
ghost use Rattle.theory_spelling.specs.Runs.{DoTheSame};

use crate::error::SourceError;
use crate::reader::Reader;
use ast_alike::{dressed_alike, spelled_alike, spelled_alike_but_names};
use rhai_base::{ImmutableString, OutOfMemory};
use rhai_script::AST;
use std::alloc::Global;
use syntax_parser::ParseOptions;
use syntax_print::{Printed, spelled, spelled_in_order};

/// A script that was written.
#[derive(Drop)]
pub struct Written {
    /// Its text.
    pub text: String,
    /// The script that the text is read as.
    pub script: AST,
}

/// A script's text in rhai's own syntax, and the script that this is read as: the same but for positions, how it is
/// spelled, the order of functions, and names of closures; closures that nothing points to are left out. The script's
/// doc, and access and comments of functions that have names of their own, are the same. Refused where no text spells
/// the script, by the node's position, and for want of memory.
///
/// rhai prints no scripts.
pub fn source(alloc: Global, script: &AST) -> Result<Written, SourceError>
    ensures same { IfOk result (λ made. DoTheSame (script_of script.now) (script_of made.script)) }
    ensures dressed { IfOk result (λ made. DressedAlike (contents script.now) (contents made.script)) }
{
    source_by(alloc, &ParseOptions::new(), script)
}

/// The same, where the text is read by this reader.
pub fn source_by<R: Reader>(alloc: Global, reader: &R, script: &AST) -> Result<Written, SourceError>
    ensures same { IfOk result (λ made. DoTheSame (script_of script.now) (script_of made.script)) }
    ensures dressed { IfOk result (λ made. DressedAlike (contents script.now) (contents made.script)) }
    ensures read { IfOk result (λ made. R.reads reader.now (string_bytes made.text) (script_of made.script)) }
{
    match read_back(alloc, reader, script, spelled(script)?) {
        Err(SourceError::AnotherScript) => {
            read_back(alloc, reader, script, spelled_in_order(script)?)
        }
        made => made,
    }
}

/// A script, and what its text is read as, if that does the same.
fn read_back<R: Reader>(
    alloc: Global,
    reader: &R,
    script: &AST,
    printed: Printed,
) -> Result<Written, SourceError>
    ensures same { IfOk result (λ made. DoTheSame (script_of script.now) (script_of made.script)) }
    ensures dressed { IfOk result (λ made. DressedAlike (contents script.now) (contents made.script)) }
    ensures read { IfOk result (λ made. R.reads reader.now (string_bytes made.text) (script_of made.script)) }
{
    let Printed { text, closures } = printed;
    match reader.read_printed(alloc, text.as_str()) {
        Ok(read) => compared(alloc, script, text, read, closures.as_slice()),
        Err(error) => Err(SourceError::Unread(error)),
    }
}

/// A script, its text, and what this was read as, if that does the same.
fn compared(
    alloc: Global,
    script: &AST,
    text: String,
    read: AST,
    closures: &[ImmutableString],
) -> Result<Written, SourceError>
    ensures same { IfOk result (λ made. DoTheSame (script_of script.now) (script_of made.script)) }
    ensures dressed { IfOk result (λ made. DressedAlike (contents script.now) (contents made.script)) }
    ensures text { IfOk result (λ made. string_bytes made.text ≡ string_bytes text) }
    ensures script { IfOk result (λ made. script_of made.script ≡ script_of read) }
{
    let is_same = do_the_same(alloc, script, &read, closures)?;
    if is_same && dressed_alike(script, &read)? {
        return Ok(Written { text, script: read });
    }
    Err(SourceError::AnotherScript)
}

/// Appends the text that `source` gives. A refused call leaves the text as it was.
pub fn push_source(script: &AST, text: &mut String) -> Result<(), SourceError>
    ensures ok { OnOk result ((printed : List ℕ) × (string_bytes text.new ≡ string_bytes text.old ++ printed)) }
    ensures err { OnErr result (string_bytes text.new ≡ string_bytes text.old) }
{
    let alloc = *text.allocator();
    let made = source(alloc, script)?;
    text.push_str(made.text.as_str())
        .map_err(|_| SourceError::OutOfMemory)
}

/// Whether two scripts are the same but for how they are spelled, or for names too; with the names that the second
/// one's closures have in the first.
fn do_the_same(
    alloc: Global,
    first: &AST,
    second: &AST,
    closures: &[ImmutableString],
) -> Result<bool, OutOfMemory>
    ensures { IfOk result (λ same. IsTrue same → DoTheSame (script_of first.now) (script_of second.now)) }
{
    let is_alike = spelled_alike(alloc, first, second)?;
    if is_alike {
        return Ok(true);
    }
    spelled_alike_but_names(alloc, first, second, closures)
}
