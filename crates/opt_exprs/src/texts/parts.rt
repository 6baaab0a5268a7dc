//! What is asked of a part of an interpolated text.

#![tactic(auto, using(ast_types::specs::Reading::shapes, rhai_base::specs::Reading::kinds))]

ghost use Rattle.std.specs.Prelude.{◌≡◌, ◌++◌, OnOk};
ghost use Rattle.std.specs.String.{string_bytes};
ghost use Rattle.rhai_base.specs.Reading.{value_of};
ghost use Rattle.ast_types.specs.Reading.{expr_of};
ghost use Rattle.opt_exprs.specs.Parts as spec;

use rhai_ast::Expr;
use rhai_base::{Dynamic, OutOfMemory};

/// Is it an empty text, or unit?
fn is_empty_value(value: &Dynamic) -> bool
    ensures { result ≡ spec.is_empty_value (value_of value.now) }
{
    match value {
        Dynamic::Unit => true,
        Dynamic::Str(text) => text.as_str().is_empty(),
        Dynamic::Bool(_)
        | Dynamic::Int(_)
        | Dynamic::Float(_)
        | Dynamic::Char(_)
        | Dynamic::Array(_)
        | Dynamic::Map(_)
        | Dynamic::FnPtr(_)
        | Dynamic::Range(_, _)
        | Dynamic::RangeInclusive(_, _) => false,
    }
}

/// Is it a constant that adds nothing to a text: unit, or an empty text?
pub(crate) fn is_empty_part(part: &Expr) -> bool
    ensures { result ≡ spec.is_empty_part (expr_of part.now) }
{
    match part {
        Expr::Unit(_) => true,
        Expr::StringConstant(text, _) => text.as_str().is_empty(),
        Expr::DynamicConstant(value, _) => is_empty_value(value.get()),
        _ => false,
    }
}

/// Is it a text as written?
pub(crate) fn is_text(part: &Expr) -> bool
    ensures { result ≡ spec.is_text (expr_of part.now) }
{
    matches!(part, Expr::StringConstant(_, _))
}

/// Adds a text as written to another; of what is none, nothing.
pub(crate) fn push_written(part: &Expr, text: &mut String) -> Result<(), OutOfMemory>
    ensures { OnOk result (string_bytes text.new ≡ string_bytes text.old ++ spec.written (expr_of part.now)) }
{
    if let Expr::StringConstant(written, _) = part {
        text.push_str(written.as_str())?;
    }
    Ok(())
}
