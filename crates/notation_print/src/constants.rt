//! Constants in the notation.
#![tactic(auto, unfolding(rhai_base::specs::Value::form))]

ghost use Rattle.std.specs.Prelude.{◌≡◌, ◌++◌, OnOk, codes, string_bytes};
ghost use Rattle.rhai_base.specs.Value.{BoolV, CharV, FloatV, IntV, TextV, UnitV, written};
ghost use Rattle.rhai_base.specs.Reading.{value_of};

use rhai_base::{Dynamic, FloatWrapper, INT, OutOfMemory};

/// Appends a value that no other constant stands for.
#[tactic(auto)]
pub(crate) fn push_value(value: &Dynamic, text: &mut String) -> Result<(), OutOfMemory>
    ensures { OnOk result
        (string_bytes text.new ≡ string_bytes text.old ++ (codes "<" ++ written (value_of value.now) ++ codes ">")) }
{
    text.push_str("<")?;
    value.push_written(text)?;
    text.push_str(">")?;
    Ok(())
}

pub(crate) fn push_bool(value: bool, text: &mut String) -> Result<(), OutOfMemory>
    ensures { OnOk result (string_bytes text.new ≡ string_bytes text.old ++ written (BoolV value)) }
{
    if value {
        text.push_str("true")?;
    } else {
        text.push_str("false")?;
    }
    Ok(())
}

pub(crate) fn push_integer(value: INT, text: &mut String) -> Result<(), OutOfMemory>
    ensures { OnOk result (string_bytes text.new ≡ string_bytes text.old ++ written (IntV value)) }
{
    write!(text, "{value}")?;
    Ok(())
}

pub(crate) fn push_float(value: FloatWrapper, text: &mut String) -> Result<(), OutOfMemory>
    ensures { OnOk result (string_bytes text.new ≡ string_bytes text.old ++ written (FloatV value.bits)) }
{
    write!(text, "{value}")?;
    Ok(())
}

pub(crate) fn push_unit(text: &mut String) -> Result<(), OutOfMemory>
    ensures { OnOk result (string_bytes text.new ≡ string_bytes text.old ++ written UnitV) }
{
    text.push_str("()")?;
    Ok(())
}

/// Appends a character in quotes.
pub(crate) fn push_char(value: char, text: &mut String) -> Result<(), OutOfMemory>
    ensures { OnOk result (string_bytes text.new ≡ string_bytes text.old ++ written (CharV value)) }
{
    write!(text, "'{value}'")?;
    Ok(())
}

/// Appends a text in quotes.
pub(crate) fn push_quoted(value: &str, text: &mut String) -> Result<(), OutOfMemory>
    ensures { OnOk result (string_bytes text.new ≡ string_bytes text.old ++ written (TextV value.now)) }
{
    write!(text, "\"{value}\"")?;
    Ok(())
}
