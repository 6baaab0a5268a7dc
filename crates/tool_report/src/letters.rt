//! Texts as they stand in a literal. A refused call can leave a part of what it appends.

ghost use Rattle.std.specs.Prelude.{◌≡◌, ◌++◌, ◌<◌, OnOk, string_bytes};
ghost use Rattle.std.specs.Str.{chars};
ghost use Rattle.tool_report.specs.Literals.{coded, escape, escaped};

use std::alloc::AllocError;
use std::fmt::Write;

/// Appends a text without its quotes.
pub(crate) fn push_escaped(text: &str, to: &mut String) -> Result<(), AllocError>
    ensures { OnOk result (string_bytes to.new ≡ string_bytes to.old ++ escaped (chars text.now)) }
{
    for letter in text.chars() {
        push_letter(letter, to)?;
    }
    Ok(())
}

/// Appends a letter: behind a backslash what ends a text, a line or a part, and what controls a screen.
pub(crate) fn push_letter(letter: char, to: &mut String) -> Result<(), AllocError>
    ensures { OnOk result (string_bytes to.new ≡ string_bytes to.old ++ escape letter) }
{
    match letter {
        '"' => to.push_str("\\\""),
        '\\' => to.push_str("\\\\"),
        '\n' => to.push_str("\\n"),
        '\r' => to.push_str("\\r"),
        '\t' => to.push_str("\\t"),
        '\u{0}'..='\u{1f}' | '\u{7f}'..='\u{9f}' => push_code(u32::from(letter), to),
        _ => to.push(letter),
    }
}

/// Appends a letter below 256 by the digits of its code.
fn push_code(code: u32, to: &mut String) -> Result<(), AllocError>
    requires { code < 256 }
    ensures { OnOk result (string_bytes to.new ≡ string_bytes to.old ++ coded code) }
{
    write!(to, "\\u00{code:02x}")
}
