//! Names and words in the notation.
#![tactic(auto, using(ast_types::specs::Reading::shapes, crate::proofs::NameLists::names))]

ghost use Rattle.std.specs.Prelude.{◌≡◌, ◌++◌, [], OnOk, string_bytes};
ghost use Rattle.rhai_base.specs.Builtin.{operator_of};
ghost use Rattle.theory_meaning.specs.Desugar.{qualified};
ghost use Rattle.theory_meaning.specs.Tree.{Variable};
ghost use Rattle.ast_types.specs.Reading.{callee_of, chain_flags, counter_of, expr_of, is_const, is_exported, path_of, shared_names};
ghost use Rattle.notation_print.specs.Nodes.{assigning_text, callee_text, catch_text, declaration_text, flags_text, loop_names, names_text};

use bitflags::Flags;
use rhai_ast::{Expr, FnCallExpr};
use rhai_base::{ASTFlags, Ident, ImmutableString, Namespace, OpAssignment, OutOfMemory};
use std::num::NonZeroUsize;

/// Appends one word.
pub(crate) fn push_word(word: &str, text: &mut String) -> Result<(), OutOfMemory>
    ensures { OnOk result (string_bytes text.new ≡ string_bytes text.old ++ word.now) }
{
    text.push_str(word)?;
    Ok(())
}

/// Appends a name after its modules.
pub(crate) fn push_qualified(
    modules: &Namespace,
    name: &str,
    text: &mut String,
) -> Result<(), OutOfMemory>
    ensures { OnOk result (string_bytes text.new ≡ string_bytes text.old ++ qualified (path_of modules.now) name.now) }
{
    for module in modules.path.as_slice() {
        text.push_str(module.as_str())?;
        text.push_str("::")?;
    }
    text.push_str(name)?;
    Ok(())
}

/// Appends what is called.
pub(crate) fn push_callee(call: &FnCallExpr, text: &mut String) -> Result<(), OutOfMemory>
    ensures { OnOk result (string_bytes text.new ≡ string_bytes text.old ++ callee_text (callee_of call.now)) }
{
    push_qualified(&call.namespace, call.name.as_str(), text)?;
    if call.capture_parent_scope {
        text.push_str("!")?;
    }
    Ok(())
}

/// Appends how a step of a chain ends it.
pub(crate) fn push_flags(options: ASTFlags, text: &mut String) -> Result<(), OutOfMemory>
    ensures { OnOk result (string_bytes text.new ≡ string_bytes text.old ++ flags_text (chain_flags options)) }
{
    if options.contains(ASTFlags::NEGATED) {
        text.push_str("?")?;
    }
    if options.contains(ASTFlags::BREAK) {
        text.push_str("!")?;
    }
    Ok(())
}

/// Appends the names of a `for`.
pub(crate) fn push_loop_names(
    name: &Ident,
    counter: &Option<Ident>,
    text: &mut String,
) -> Result<(), OutOfMemory>
    ensures { OnOk result
        (string_bytes text.new ≡ string_bytes text.old ++ loop_names name.now.name (counter_of counter.now)) }
{
    match counter {
        Some(counter) => write!(text, "({}, {})", name.as_str(), counter.as_str())?,
        None => text.push_str(name.as_str())?,
    }
    Ok(())
}

/// Appends the words before a declared name.
pub(crate) fn push_declaration(options: ASTFlags, text: &mut String) -> Result<(), OutOfMemory>
    ensures { OnOk result
        (string_bytes text.new ≡ string_bytes text.old ++ declaration_text (is_const options) (is_exported options)) }
{
    if options.contains(ASTFlags::EXPORTED) {
        text.push_str("export ")?;
    }
    if options.contains(ASTFlags::CONSTANT) {
        text.push_str("const ")?;
    } else {
        text.push_str("let ")?;
    }
    Ok(())
}

/// Appends the sign of an assignment.
pub(crate) fn push_assigning(op: &OpAssignment, text: &mut String) -> Result<(), OutOfMemory>
    ensures { OnOk result (string_bytes text.new ≡ string_bytes text.old ++ assigning_text (operator_of op.now.op)) }
{
    text.push_str(" ")?;
    if let Some((_, _, _, operator)) = op.get_op_assignment_info() {
        text.push_str(operator)?;
    }
    text.push_str("= ")?;
    Ok(())
}

/// Appends what stands between the blocks of a `try`.
pub(crate) fn push_catch(name: &Expr, text: &mut String) -> Result<(), OutOfMemory>
    ensures { OnOk result (string_bytes text.new ≡ string_bytes text.old ++ catch_text (expr_of name.now)) }
{
    match name {
        Expr::Variable(parts, _, _) => push_caught(&parts.get().2, parts.get().1.as_str(), text),
        Expr::DynamicConstant(_, _)
        | Expr::BoolConstant(_, _)
        | Expr::IntegerConstant(_, _)
        | Expr::FloatConstant(_, _)
        | Expr::CharConstant(_, _)
        | Expr::StringConstant(_, _)
        | Expr::InterpolatedString(_, _)
        | Expr::Array(_, _)
        | Expr::Map(_, _)
        | Expr::Unit(_)
        | Expr::ThisPtr(_)
        | Expr::Property(_, _)
        | Expr::MethodCall(_, _)
        | Expr::Stmt(_)
        | Expr::FnCall(_, _)
        | Expr::Dot(_, _, _)
        | Expr::Index(_, _, _)
        | Expr::And(_, _)
        | Expr::Or(_, _)
        | Expr::Coalesce(_, _) => push_word(" catch ", text),
    }
}

/// Appends the catch name, which has no modules.
fn push_caught(modules: &Namespace, name: &str, text: &mut String) -> Result<(), OutOfMemory>
    ensures { OnOk result
        (string_bytes text.new ≡ string_bytes text.old ++ catch_text (Variable (path_of modules.now) name.now)) }
{
    text.push_str(" catch ")?;
    if modules.is_empty() {
        text.push_str(name)?;
        text.push_str(" ")?;
    }
    Ok(())
}

/// Appends names with commas between them.
pub fn push_names(names: &[ImmutableString], text: &mut String) -> Result<(), OutOfMemory>
    ensures { OnOk result (string_bytes text.new ≡ string_bytes text.old ++ names_text [] names.now) }
{
    let mut before = "";
    for name in names {
        text.push_str(before)?;
        text.push_str(name.as_str())?;
        before = ", ";
    }
    Ok(())
}

/// Appends shared names with commas between them.
pub(crate) fn push_shared(
    names: &[(Ident, Option<NonZeroUsize>)],
    text: &mut String,
) -> Result<(), OutOfMemory>
    ensures { OnOk result (string_bytes text.new ≡ string_bytes text.old ++ names_text [] (shared_names names.now)) }
{
    let mut before = "";
    for shared in names {
        text.push_str(before)?;
        text.push_str(shared.0.as_str())?;
        before = ", ";
    }
    Ok(())
}
