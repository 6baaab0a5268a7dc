//! The calls for users.

ghost use Rattle.std.specs.Prelude.{◌≡◌, ◌++◌, List, ℕ, None, OnErr, OnOk, string_bytes};
ghost use Rattle.rhai_script.specs.Script.{script_of};
ghost use Rattle.theory_meaning.specs.Faults.{script_fault};

use crate::breaking::broken_lines;
use crate::error::{SpellError, Unspelled};
use crate::printer::{Printed, Printer};
use rhai_base::Position;
use rhai_script::AST;
use script_tables::allocator_of;

/// Appends the source of a script. A parser reads it that sets no bound to the depth.
///
/// A script is refused for the first node that no text spells, and where it is not well-formed. A refused call leaves
/// the text as it was.
pub fn push_spelled(script: &AST, text: &mut String) -> Result<(), SpellError>
    ensures formed { OnOk result (script_fault (script_of script.now) ≡ None) }
    ensures ok { OnOk result ((printed : List ℕ) × (string_bytes text.new ≡ string_bytes text.old ++ printed)) }
    ensures err { OnErr result (string_bytes text.new ≡ string_bytes text.old) }
{
    let spelled = spelled(script)?;
    text.push_str(spelled.text.as_str())?;
    Ok(())
}

/// The same as a text of its own, with the functions of its closures.
pub fn spelled(script: &AST) -> Result<Printed, SpellError>
    ensures { OnOk result (script_fault (script_of script.now) ≡ None) }
{
    script.check()?;
    printed(script, false)
}

/// The same, behind statements that run nothing and name the functions of closures in the order of the script's table. So
/// they have these names again when the text is read, where they are numbered in this order.
pub fn spelled_in_order(script: &AST) -> Result<Printed, SpellError>
    ensures { OnOk result (script_fault (script_of script.now) ≡ None) }
{
    script.check()?;
    printed(script, true)
}

/// The functions stand where their positions say, or, where a closure would take another name for one of theirs, behind
/// all statements.
fn printed(script: &AST, is_in_order: bool) -> Result<Printed, SpellError> {
    match placed(script, is_in_order, true) {
        Err(
            SpellError::Unspelled {
                what: Unspelled::Share,
                position: _,
            },
        ) => placed(script, is_in_order, false),
        printed => printed,
    }
}

fn placed(script: &AST, is_in_order: bool, are_among: bool) -> Result<Printed, SpellError> {
    let printer = Printer::new(script.shared_lib());
    printer.script_doc(script.doc());
    if is_in_order {
        printer.closures_in_order(script.shared_lib());
    }
    printer.own_lines(script.statements(), are_among);
    printer.functions_before(Position::NONE);
    let Printed { text, closures } = printer.into_printed()?;
    let text = broken_lines(allocator_of(script.shared_lib()), text)?;
    Ok(Printed { text, closures })
}
