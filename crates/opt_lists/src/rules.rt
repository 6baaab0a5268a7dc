//! The rules of lists, a function each, in the list's own memory. A statement that goes is marked by a `Noop` in its
//! place.

#![tactic(auto, using(ast_types::specs::Reading::shapes))]

ghost use Rattle.std.specs.Prelude.{◌≡◌, ◌<◌, ◌+◌, ◌-◌, ◌&&◌, true, false, ℕ, length, take, drop, slice_index_or};
ghost use Rattle.theory_meaning.specs.Queries as queries;
ghost use Rattle.ast_types.specs.Reading.{stmt_of};
ghost use Rattle.theory_rewriting.specs.Context.{ListKind, Whole, wanted};
ghost use Rattle.ast_types.specs.declared.stmt.Stmt.{Stmt};
ghost use Rattle.opt_lists.specs.Marks.{mark_of};
ghost use Rattle.opt_lists.specs.Steps.{BaredAt, Fires, FiresBehindUnit, MarkedAt, Step, kept};
ghost use Rattle.opt_lists.specs.Sweep as spec;
ghost use Rattle.opt_lists.specs.declared.behind.Fading.TheVariants as fading_kind;

use crate::behind::Behind;
use crate::mark::ListMark;
use ast_nodes::put_stmt;
use ast_types::Stmt;
use rhai_ast::StmtQueries;
use rhai_base::{Position, Seq};
use std::mem::replace;

fn mark_at(list: &mut Seq<Stmt>, at: usize)
    requires { at < length list.old }
    ensures { MarkedAt at list.old list.new }
{
    let going = &mut list.as_mut_slice()[at];
    let pos = going.position();
    put_stmt(going, Stmt::Noop(pos));
}

fn changed(behind: Behind) -> Behind
    ensures { result
        ≡ record {
          is_last = behind.is_last;
          fading = behind.fading;
          is_quiet = behind.is_quiet;
          has_changed = true;
          is_bared = behind.is_bared;
        } }
{
    Behind {
        is_last: behind.is_last,
        fading: behind.fading,
        is_quiet: behind.is_quiet,
        has_changed: true,
        is_bared: behind.is_bared,
    }
}

/// A pure statement goes, since its value is not wanted.
pub(crate) fn pure_goes(mark: ListMark, list: &mut Seq<Stmt>, at: usize, behind: Behind) -> Behind
    requires inside { at < length list.old }
    requires unwanted { behind.is_last && wanted (mark_of mark) ≡ false }
    requires goes { (d : Stmt) → queries.is_pure (stmt_of (slice_index_or list.old at d)) ≡ true }
    ensures { Step (mark_of mark) at list.old list.new behind result }
{
    mark_at(list, at);
    changed(behind)
}

/// So does a name alone.
pub(crate) fn lone_goes(mark: ListMark, list: &mut Seq<Stmt>, at: usize, behind: Behind) -> Behind
    requires inside { at < length list.old }
    requires unwanted { behind.is_last && wanted (mark_of mark) ≡ false }
    requires goes { (d : Stmt) → spec.is_lone (stmt_of (slice_index_or list.old at d)) ≡ true }
    ensures { Step (mark_of mark) at list.old list.new behind result }
{
    mark_at(list, at);
    changed(behind)
}

/// Inside, a declaration or an `import` does too, where nothing that follows reads a name or exports one.
pub(crate) fn pure_inside_goes(
    mark: ListMark,
    list: &mut Seq<Stmt>,
    at: usize,
    behind: Behind,
) -> Behind
    requires inside { at < length list.old }
    requires unwanted { behind.is_last && wanted (mark_of mark) ≡ false }
    requires goes { (d : Stmt)
        → spec.goes_inside (mark_of mark) behind.is_quiet (stmt_of (slice_index_or list.old at d)) ≡ true }
    ensures { Step (mark_of mark) at list.old list.new behind result }
{
    mark_at(list, at);
    changed(behind)
}

/// Those behind a statement that leaves the list go.
pub(crate) fn after_leave(list: &mut Seq<Stmt>, at: usize)
    requires inside { at < length list.old }
    requires leaves { (d : Stmt) → queries.is_control_flow_break (stmt_of (slice_index_or list.old at d)) ≡ true }
    ensures cut { list.new ≡ take (at + 1) list.old }
    ensures rule { (m : ListKind) → spec.is_nothing (kept m (drop (at + 1) list.old)) ≡ false
        → Fires m at list.old list.new }
{
    let len = list.len();
    prove!(at < len);
    list.truncate(at + 1);
}

/// The expression of a `return`, as a statement.
fn expression_of(statement: Stmt) -> Stmt
    requires { spec.whole_returns_value (stmt_of statement) ≡ true }
    ensures { stmt_of result ≡ spec.bared (stmt_of statement) }
{
    match statement {
        Stmt::Return(expr, _, _) => match expr {
            Some(expr) => Stmt::Expr(expr),
            // a `return` of a value, as was asked by reference before it was taken out
            None => unreachable!(),
        },
        _ => unreachable!(),
    }
}

fn bare(list: &mut Seq<Stmt>, at: usize)
    requires inside { at < length list.old }
    requires returns { (d : Stmt) → spec.whole_returns_value (stmt_of (slice_index_or list.old at d)) ≡ true }
    ensures { (d : Stmt) → BaredAt at list.old list.new (slice_index_or list.old at d) }
{
    let Some(place) = list.get_mut(at) else {
        // it is below the length
        unreachable!()
    };
    let statement = replace(place, Stmt::Noop(Position::NONE));
    put_stmt(place, expression_of(statement));
}

/// A last `return e` of a script or a function becomes `e`.
pub(crate) fn last_return(list: &mut Seq<Stmt>, at: usize)
    requires inside { at < length list.old }
    requires returns { (d : Stmt) → spec.whole_returns_value (stmt_of (slice_index_or list.old at d)) ≡ true }
    ensures bared { (d : Stmt) → BaredAt at list.old list.new (slice_index_or list.old at d) }
    ensures rule { spec.is_nothing (kept Whole (drop (at + 1) list.old)) ≡ true → Fires Whole at list.old list.new }
{
    bare(list, at);
}

/// A last `return;` of a script or a function goes behind unit: behind so many statements.
pub(crate) fn last_return_goes(list: &mut Seq<Stmt>, len: usize)
    ensures first { list.new ≡ take len list.old }
    ensures rule { (m : ListKind) → spec.FadesAlone m fading_kind.LastReturn (kept m (drop len list.old))
        → FiresBehindUnit m len list.old list.new }
{
    list.truncate(len);
}

/// A last statement that is pure and surely unit goes behind unit: behind so many statements.
pub(crate) fn last_unit_goes(list: &mut Seq<Stmt>, len: usize)
    ensures first { list.new ≡ take len list.old }
    ensures rule { (m : ListKind) → spec.FadesAlone m fading_kind.LastUnit (kept m (drop len list.old))
        → FiresBehindUnit m len list.old list.new }
{
    list.truncate(len);
}

/// Behind anything else a last `return;` does nothing.
pub(crate) fn last_return_noop(list: &mut Seq<Stmt>)
    requires { 0 < length list.old }
    ensures nothing { MarkedAt (length list.old - 1) list.old list.new }
    ensures rule { (m : ListKind) (n : ℕ) → spec.FadesAlone m fading_kind.LastReturn (kept m (drop n list.old))
        → Fires m n list.old list.new }
{
    let last = list.len() - 1;
    mark_at(list, last);
}

/// Behind anything else a last statement that is pure and surely unit does nothing.
pub(crate) fn last_unit_noop(list: &mut Seq<Stmt>, at: usize)
    requires inside { at < length list.old }
    requires acts { (d : Stmt) → queries.is_noop (stmt_of (slice_index_or list.old at d)) ≡ false }
    ensures nothing { MarkedAt at list.old list.new }
    ensures rule { (m : ListKind) (n : ℕ) → at ≡ length list.old - 1
        → spec.FadesAlone m fading_kind.LastUnit (kept m (drop n list.old)) → Fires m n list.old list.new }
{
    mark_at(list, at);
}
