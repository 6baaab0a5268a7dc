//! A `switch` that its subject decides: an answer, an `if`, or the default.

#![tactic(auto, using(ast_types::specs::Reading::shapes))]

ghost use Rattle.std.specs.Prelude.{◌≡◌, Bool, IfOk, Some};
ghost use Rattle.std.specs.Option.{option_map};
ghost use Rattle.rhai_base.specs.Reading.{value_of};
ghost use Rattle.opt_base.specs.State.{progress};
ghost use Rattle.theory_meaning.specs.Constants as constants;
ghost use Rattle.theory_meaning.specs.Engine.{Engine};
ghost use Rattle.theory_meaning.specs.Tree.{ExprStmt};
ghost use Rattle.ast_types.specs.Reading.{arms_of, cases_of, expr_of, expressions_of, stmt_of, subject_of, table_of};
ghost use Rattle.theory_rewriting.specs.Tables as tables;
ghost use Rattle.opt_switch.specs.Deciding as deciding;
ghost use Rattle.opt_switch.specs.Steps.{switch_of};

use crate::arms::{take_answer, take_arm, take_default};
use crate::choice::{Choice, choice_for};
use ast_nodes::{block_statement, expression_statement, if_answers, put_stmt};
use opt_base::{OptimizerState, note_fired};
use rhai_ast::{Expr, Literals, Stmt, StmtBlock, StmtQueries, SwitchBlock, SwitchCasesCollection};
use rhai_base::{Dynamic, OutOfMemory, Position};
use std::alloc::Global;

/// An open arm that is the default too stays.
fn but_default(default: Option<usize>, choice: Choice) -> Choice
    ensures { result ≡ deciding.but_default default choice }
{
    match choice {
        Choice::Only(place) if default == Some(place) => Choice::Several,
        _ => choice,
    }
}

/// What is left for a constant subject, unless it holds a pointer.
fn choice_of_subject(table: &SwitchCasesCollection, subject: &Dynamic) -> Choice
    ensures { result
        ≡ deciding.choice_over (arms_of (expressions_of table.now)) (table_of table.now)
        (deciding.hashable (Some (value_of subject.now))) }
{
    if !subject.is_hashable() {
        return Choice::Several;
    }
    but_default(table.def_case, choice_for(table, subject))
}

/// What is left of a `switch`; several arms where its subject is not constant.
fn choice_over(alloc: Global, switch: &SwitchBlock) -> Result<Choice, OutOfMemory>
    ensures { IfOk result (λ c.
        c
        ≡ deciding.choice_over (arms_of (expressions_of (cases_of switch.now))) (table_of (cases_of switch.now))
        (deciding.hashable (constants.constant_value (expr_of (subject_of switch.now))))) }
{
    match switch.expr.constant_value(alloc)? {
        Some(subject) => Ok(choice_of_subject(&switch.cases, &subject)),
        None => Ok(Choice::Several),
    }
}

// ---- the rules

/// Of the arms that are left the first is true: its answer.
fn switch_answers(
    alloc: Global,
    table: &mut SwitchCasesCollection,
    place: usize,
) -> Result<Option<Stmt>, OutOfMemory>
    ensures { IfOk result (λ s.
        option_map stmt_of s
        ≡ option_map ExprStmt (tables.answer_of_arm (tables.arm_of (arms_of (expressions_of table.old)) place))) }
{
    match take_answer(&mut table.expressions, place) {
        Some(answer) => Ok(Some(expression_statement(alloc, answer)?)),
        None => Ok(None),
    }
}

/// One arm is left, which is open: an `if`, with the default as its branch.
fn switch_is_if(
    alloc: Global,
    table: &mut SwitchCasesCollection,
    place: usize,
    pos: Position,
) -> Result<Option<Stmt>, OutOfMemory>
    requires { (table_of table.now).default ≡ Some place → ⊥ }
    ensures { IfOk result (λ s.
        option_map stmt_of s
        ≡ option_map
        (deciding.if_of
        (tables.default_answer (arms_of (expressions_of table.old)) (table_of table.old).default))
        (tables.arm_of (arms_of (expressions_of table.old)) place)) }
{
    let default = take_default(table);
    match take_arm(&mut table.expressions, place) {
        Some((condition, answer)) => Ok(Some(if_answers(alloc, condition, answer, default, pos)?)),
        None => Ok(None),
    }
}

/// No arm is left: the default.
fn switch_defaults(
    alloc: Global,
    table: &mut SwitchCasesCollection,
    pos: Position,
) -> Result<Stmt, OutOfMemory>
    ensures { IfOk result (λ s.
        stmt_of s
        ≡ tables.default_stmt
        (tables.default_answer (arms_of (expressions_of table.old)) (table_of table.old).default)) }
{
    match take_default(table) {
        Some(answer) => expression_statement(alloc, answer),
        None => block_statement(alloc, StmtBlock::empty(alloc, pos)),
    }
}

/// What a `switch` becomes that its subject decides; nothing where more than one arm is left.
fn decided_switch(
    alloc: Global,
    switch: &mut SwitchBlock,
    pos: Position,
) -> Result<Option<Stmt>, OutOfMemory>
    ensures { IfOk result (λ made.
        deciding.Becomes (option_map stmt_of made) (switch_of switch.old) (switch_of switch.new)) }
{
    match choice_over(alloc, switch)? {
        Choice::Nothing => Ok(Some(switch_defaults(alloc, &mut switch.cases, pos)?)),
        Choice::Answer(place) => switch_answers(alloc, &mut switch.cases, place),
        Choice::Only(place) => switch_is_if(alloc, &mut switch.cases, place, pos),
        Choice::Several => Ok(None),
    }
}

/// What a statement becomes that is a `switch`, and is decided.
fn decided(alloc: Global, statement: &mut Stmt) -> Result<Option<Stmt>, OutOfMemory>
    ensures { IfOk result (λ made.
        deciding.Becomes (option_map stmt_of made) (stmt_of statement.old) (stmt_of statement.new)) }
{
    match statement {
        Stmt::Switch(switch, pos) => decided_switch(alloc, switch.get_mut(), *pos),
        _ => Ok(None),
    }
}

/// Rewrites a `switch` that its subject decides, and says whether it did. It does so before its arms are reduced as
/// well as after.
pub fn decide_switch(
    alloc: Global,
    state: &mut OptimizerState<'_>,
    statement: &mut Stmt,
) -> Result<bool, OutOfMemory>
    ensures { IfOk result (λ fired.
        (r : Engine) (w : Bool)
        → deciding.Decided fired r w (progress state.old) (progress state.new) (stmt_of statement.old)
        (stmt_of statement.new)) }
{
    let Some(made) = decided(alloc, statement)? else {
        return Ok(false);
    };
    note_fired(state);
    put_stmt(statement, made);
    Ok(true)
}
