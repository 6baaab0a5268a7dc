//! The decisions of a sweep: which rule fires at a statement, asked by reference, and what is known before it then.

#![tactic(auto, using(ast_types::specs::Reading::shapes))]

ghost use Rattle.std.specs.Prelude.{◌≡◌, ◌<◌, ◌+◌, ◌-◌, ◌&&◌, ◌||◌, not, true, false, Some, None, length, take, slice_index_or};
ghost use Rattle.theory_meaning.specs.Queries as queries;
ghost use Rattle.ast_types.specs.Reading.{stmt_of};
ghost use Rattle.theory_rewriting.specs.Context.{wanted};
ghost use Rattle.ast_types.specs.declared.stmt.Stmt.{Stmt};
ghost use Rattle.opt_lists.specs.Marks.{mark_of};
ghost use Rattle.opt_lists.specs.Steps.{MarkedAt, Step, cut};
ghost use Rattle.opt_lists.specs.declared.mark.ListMark.{ListMark};
ghost use Rattle.opt_lists.specs.Sweep as spec;

use crate::behind::{Behind, Fading, Going};
use crate::mark::ListMark;
use crate::questions::{fades_aloud, goes_by, is_quiet, return_fades, returns_value, unit_fades};
use crate::rules::{
    after_leave, last_return, last_return_goes, last_return_noop, last_unit_goes, last_unit_noop,
    lone_goes, pure_goes, pure_inside_goes,
};
use ast_types::Stmt;
use opt_base::is_surely_unit;
use rhai_ast::StmtQueries;
use rhai_base::Seq;

/// A statement goes by a rule, since its value is not wanted.
fn go(mark: ListMark, going: Going, list: &mut Seq<Stmt>, at: usize, behind: Behind) -> Behind
    requires inside { at < length list.old }
    requires unwanted { behind.is_last && wanted (mark_of mark) ≡ false }
    requires goes { (d : Stmt)
        → spec.goes_as going (mark_of mark) behind.is_quiet (stmt_of (slice_index_or list.old at d)) ≡ true }
    ensures { Step (mark_of mark) at list.old list.new behind result }
{
    match going {
        Going::Pure => pure_goes(mark, list, at, behind),
        Going::Lone => lone_goes(mark, list, at, behind),
        Going::PureInside => pure_inside_goes(mark, list, at, behind),
    }
}

/// Is it quiet? Where nothing stands before it that is not asked: a statement in others is asked once, not at each depth.
fn is_heard_quiet(at: usize, statement: &Stmt) -> bool
    ensures quiet { result ≡ true → spec.is_quiet (stmt_of statement.now) ≡ true }
    ensures heard { 0 < at → result ≡ spec.is_quiet (stmt_of statement.now) }
{
    if at == 0 {
        return false;
    }
    is_quiet(statement)
}

/// A statement stays, as the last one of a list whose value is wanted. One that exports and is unit does nothing at once,
/// so that what is before it may go.
fn keep_last(mark: ListMark, list: &mut Seq<Stmt>, at: usize, behind: Behind) -> Behind
    requires inside { at < length list.old }
    requires last { behind.is_last ≡ true }
    requires wanted { wanted (mark_of mark) ≡ true }
    requires stays { (d : Stmt) → queries.is_control_flow_break (stmt_of (slice_index_or list.old at d)) ≡ false }
    ensures { Step (mark_of mark) at list.old list.new behind result }
{
    let statement = &list.as_slice()[at];
    if fades_aloud(mark, statement) {
        last_unit_noop(list, at);
        return Behind {
            is_last: false,
            fading: Some(Fading::LastUnit),
            is_quiet: true,
            has_changed: true,
            is_bared: false,
        };
    }
    Behind {
        is_last: false,
        fading: unit_fades(mark, statement),
        is_quiet: is_heard_quiet(at, statement),
        has_changed: behind.has_changed,
        is_bared: behind.is_bared,
    }
}

/// Those behind a statement that leaves the list go, where any are kept.
fn leave_none_behind(list: &mut Seq<Stmt>, at: usize, is_last: bool)
    requires inside { at < length list.old }
    requires leaves { (d : Stmt) → queries.is_control_flow_break (stmt_of (slice_index_or list.old at d)) ≡ true }
    ensures { list.new ≡ cut is_last at list.old }
{
    if !is_last {
        after_leave(list, at);
    }
}

/// A statement leaves the list: those behind it go. A `return e` of a script or a function becomes `e`.
fn leave(mark: ListMark, list: &mut Seq<Stmt>, at: usize, behind: Behind) -> Behind
    requires inside { at < length list.old }
    requires leaves { (d : Stmt) → queries.is_control_flow_break (stmt_of (slice_index_or list.old at d)) ≡ true }
    ensures { Step (mark_of mark) at list.old list.new behind result }
{
    leave_none_behind(list, at, behind.is_last);
    let statement = &list.as_slice()[at];
    if returns_value(mark, statement) {
        last_return(list, at);
        return Behind {
            is_last: false,
            fading: None,
            is_quiet: false,
            has_changed: true,
            is_bared: true,
        };
    }
    left_by(mark, statement, behind)
}

/// What is known where a statement leaves the list.
fn left_by(mark: ListMark, statement: &Stmt, behind: Behind) -> Behind
    ensures { result
        ≡ record {
          is_last = false;
          fading = spec.return_fades (mark_of mark) (stmt_of statement.now);
          is_quiet = false;
          has_changed = behind.has_changed
              || not behind.is_last;
          is_bared = false;
        } }
{
    let has_changed = behind.has_changed || !behind.is_last;
    Behind {
        is_last: false,
        fading: return_fades(mark, statement),
        is_quiet: false,
        has_changed,
        is_bared: false,
    }
}

/// The last one goes behind unit: behind so many statements.
pub(crate) fn go_last(fading: Fading, list: &mut Seq<Stmt>, len: usize)
    ensures { list.new ≡ take len list.old }
{
    match fading {
        Fading::LastReturn => last_return_goes(list, len),
        Fading::LastUnit => last_unit_goes(list, len),
    }
}

/// The last one does nothing.
fn end_in_noop(fading: Fading, list: &mut Seq<Stmt>)
    requires some { 0 < length list.old }
    requires acts { (d : Stmt) → queries.is_noop (stmt_of (slice_index_or list.old (length list.old - 1) d)) ≡ false }
    ensures { MarkedAt (length list.old - 1) list.old list.new }
{
    match fading {
        Fading::LastReturn => last_return_noop(list),
        Fading::LastUnit => {
            let last = list.len() - 1;
            last_unit_noop(list, last);
        }
    }
}

/// A statement stays before one that fades: behind unit that one goes, else it does nothing.
fn stay_before_fading(fading: Fading, list: &mut Seq<Stmt>, at: usize, behind: Behind) -> Behind
    requires inside { at < length list.old }
    requires fades { behind.fading ≡ Some fading }
    requires stays { (d : Stmt) → queries.is_control_flow_break (stmt_of (slice_index_or list.old at d)) ≡ false }
    ensures { (mark : ListMark)
        → ((d : Stmt) → spec.goes_by (mark_of mark) behind.is_quiet (stmt_of (slice_index_or list.old at d)) ≡ None)
        → Step (mark_of mark) at list.old list.new behind result }
{
    let last = list.len() - 1;
    if is_surely_unit(&list.as_slice()[at]) {
        go_last(fading, list, at + 1);
    } else if list.as_slice()[last].is_noop() {
        return kept_before(behind);
    } else {
        end_in_noop(fading, list);
    }
    Behind {
        is_last: false,
        fading: None,
        is_quiet: false,
        has_changed: true,
        is_bared: false,
    }
}

/// What is known before a statement that stays, whose value is not wanted.
fn kept_before(behind: Behind) -> Behind
    ensures { result
        ≡ record {
          is_last = false;
          fading = None;
          is_quiet = false;
          has_changed = behind.has_changed;
          is_bared = behind.is_bared;
        } }
{
    Behind {
        is_last: false,
        fading: None,
        is_quiet: false,
        has_changed: behind.has_changed,
        is_bared: behind.is_bared,
    }
}

/// Decides the statement at a place of a list; those behind it are decided.
pub(crate) fn decide(mark: ListMark, list: &mut Seq<Stmt>, at: usize, behind: Behind) -> Behind
    requires { at < length list.old }
    ensures { Step (mark_of mark) at list.old list.new behind result }
{
    let statement = &list.as_slice()[at];
    if statement.is_control_flow_break() {
        return leave(mark, list, at, behind);
    }
    if behind.is_last && mark.is_wanted() {
        return keep_last(mark, list, at, behind);
    }
    if let Some(going) = goes_by(mark, behind.is_quiet, statement) {
        return go(mark, going, list, at, behind);
    }
    if let Some(fading) = behind.fading {
        return stay_before_fading(fading, list, at, behind);
    }
    kept_before(behind)
}
