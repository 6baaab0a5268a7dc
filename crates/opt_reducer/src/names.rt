//! The names that statements declare, also in loops and catches.

#![tactic(auto, using(ast_types::specs::Reading::shapes))]

ghost use Rattle.std.specs.Prelude.{◌≡◌, ◌≤◌, ◌∷◌, ◌++◌, length, IfOk, OnOk};
ghost use Rattle.std.specs.Cow.{cow_value};
ghost use Rattle.std.specs.Option.{option_map};
ghost use Rattle.rhai_base.specs.Reading.{value_of};
ghost use Rattle.opt_base.specs.Bindings.{read};
ghost use Rattle.opt_base.specs.State.{progress};
ghost use Rattle.ast_types.specs.Reading.{counter_of, expr_of, is_const, stmt_of};
ghost use Rattle.theory_meaning.specs.Act.{OfName};
ghost use Rattle.theory_meaning.specs.Shape.{catch_name};
ghost use Rattle.theory_rewriting.specs.Steps.{variable, loop_front, catch_front};
ghost use Rattle.opt_reducer.specs.Going.{known_at};
ghost use Rattle.opt_reducer.specs.Parts.{declared_value};
ghost use Rattle.theory_rewriting.specs.Context.{known_behind};
ghost use Rattle.theory_rewriting.specs.Evals as evals;

use ast_nodes::owned;
use bitflags::Flags;
use opt_base::calls_no_eval;
use opt_rules::OptimizerState;
use rhai_ast::{Expr, Literals, Stmt, StmtQueries};
use rhai_base::{ASTFlags, Dynamic, Ident, ImmutableString, OutOfMemory};
use std::alloc::Global;
use std::borrow::Cow;

/// The value of a declared name, where it is a constant.
fn declared(alloc: Global, flags: ASTFlags, expr: &Expr) -> Result<Option<Dynamic>, OutOfMemory>
    ensures { IfOk result (λ v. option_map value_of v ≡ declared_value (is_const flags) (expr_of expr.now)) }
{
    if !flags.contains(ASTFlags::CONSTANT) {
        return Ok(None);
    }
    match expr.constant_value(alloc)? {
        Some(value) => Ok(Some(owned(value)?)),
        None => Ok(None),
    }
}

/// A value that the state holds itself.
fn held<'a>(value: Option<Dynamic>) -> Option<Cow<'a, Dynamic>>
    ensures { read result ≡ value }
{
    match value {
        Some(value) => Some(Cow::Owned(value)),
        None => None,
    }
}

/// Notes a name, a constant with its value.
fn note(
    alloc: Global,
    state: &mut OptimizerState<'_>,
    name: &Ident,
    flags: ASTFlags,
    expr: &Expr,
) -> Result<(), OutOfMemory>
    ensures { OnOk result
        ((state.new.is_dirty ≡ state.old.is_dirty)
        × ((progress state.new).known
        ≡ record { root = OfName name.now.name; value = declared_value (is_const flags) (expr_of expr.now) }
        ∷ (progress state.old).known)) }
{
    let value = declared(alloc, flags, expr)?;
    state.push_var(name.name.clone()?, held(value))
}

/// Notes what a statement declares, for those that come after it.
pub(crate) fn declare(
    alloc: Global,
    state: &mut OptimizerState<'_>,
    statement: &Stmt,
) -> Result<(), OutOfMemory>
    ensures { OnOk result
        ((state.new.is_dirty ≡ state.old.is_dirty)
        × ((progress state.new).known ≡ known_behind (stmt_of statement.now) (progress state.old).known)) }
{
    match statement {
        Stmt::Var(parts, flags, _) => {
            let (name, expr, _) = parts.get();
            note(alloc, state, name, *flags, expr)
        }
        _ => Ok(()),
    }
}

/// Do names stay known behind a statement? Behind a call of `eval` they do not.
fn keeps_names(statement: &Stmt) -> bool
    ensures { result ≡ evals.keeps_names (stmt_of statement.now) }
{
    calls_no_eval(statement) || statement.is_pure()
}

/// Are names known at a place of a list? They were at the one before, whose statement is asked here: the last one of a list
/// never is, so that conditions which are joined are not gone over at each depth.
pub(crate) fn are_known_at(are_known: bool, statements: &[Stmt], at: usize) -> bool
    requires { at ≤ length statements.now }
    ensures { result ≡ known_at are_known statements.now at }
{
    if at == 0 {
        return are_known;
    }
    are_known && keeps_names(&statements[at - 1])
}

/// Notes a name of which nothing is known.
fn push_variable(state: &mut OptimizerState<'_>, name: &ImmutableString) -> Result<(), OutOfMemory>
    ensures { OnOk result
        ((state.new.is_dirty ≡ state.old.is_dirty)
        × ((progress state.new).known ≡ variable name.now ∷ (progress state.old).known)) }
{
    state.push_var(name.clone()?, None)
}

/// Notes the names of a `for`: its counter's, if it has one, and its own.
pub(crate) fn push_loop_names(
    state: &mut OptimizerState<'_>,
    name: &Ident,
    counter: &Option<Ident>,
) -> Result<(), OutOfMemory>
    ensures { OnOk result
        ((state.new.is_dirty ≡ state.old.is_dirty)
        × ((progress state.new).known
        ≡ loop_front name.now.name (counter_of counter.now) ++ (progress state.old).known)) }
{
    match counter {
        Some(counter) => {
            push_variable(state, &counter.name)?;
            push_variable(state, &name.name)
        }
        None => push_variable(state, &name.name),
    }
}

/// Notes a catch name, if it is one.
pub(crate) fn push_catch_name(
    state: &mut OptimizerState<'_>,
    expr: &Expr,
) -> Result<(), OutOfMemory>
    ensures { OnOk result
        ((state.new.is_dirty ≡ state.old.is_dirty)
        × ((progress state.new).known
        ≡ catch_front (catch_name (expr_of expr.now)) ++ (progress state.old).known)) }
{
    match expr {
        Expr::Variable(parts, _, _) => {
            let (_, name, namespace) = parts.get();
            if !namespace.is_empty() {
                return Ok(());
            }
            push_variable(state, name)
        }
        _ => Ok(()),
    }
}
