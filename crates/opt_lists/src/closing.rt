//! Marks that are closed up.

#![tactic(auto, using(ast_types::specs::Reading::shapes))]

ghost use Rattle.std.specs.Prelude.{◌≡◌, ◌<◌, ◌+◌, ◌&&◌, not, length, drop, slice_index_or};
ghost use Rattle.theory_meaning.specs.Queries as queries;
ghost use Rattle.ast_types.specs.Reading.{stmt_of, stmts_of};
ghost use Rattle.theory_rewriting.specs.Context.{wanted_before};
ghost use Rattle.ast_types.specs.declared.stmt.Stmt.{Stmt};
ghost use Rattle.opt_lists.specs.Sweep.{closed_up};

use ast_types::Stmt;
use rhai_ast::StmtQueries;
use rhai_base::Seq;

/// Is the statement at a place a mark: a `Noop` whose value is not wanted?
fn is_mark(is_wanted: bool, list: &[Stmt], at: usize) -> bool
    requires { at < length list.now }
    ensures { (d : Stmt)
        → result
        ≡ queries.is_noop (stmt_of (slice_index_or list.now at d))
        && not (wanted_before is_wanted (stmts_of (drop (at + 1) list.now))) }
{
    list[at].is_noop() && !is_wanted_at(is_wanted, list, at)
}

/// Is the value of the statement at a place wanted?
pub fn is_wanted_at(is_wanted: bool, list: &[Stmt], at: usize) -> bool
    requires { at < length list.now }
    ensures { result ≡ wanted_before is_wanted (stmts_of (drop (at + 1) list.now)) }
{
    is_wanted && at + 1 == list.len()
}

/// The marks of a list go. The answer is how many statements were moved, each once: all that are left.
pub(crate) fn close_up(is_wanted: bool, list: &mut Seq<Stmt>) -> usize
    ensures closed { stmts_of list.new ≡ closed_up is_wanted (stmts_of list.old) }
    ensures moved { result ≡ length list.new }
{
    let mut kept = 0;
    for at in 0..list.len() {
        if !is_mark(is_wanted, list.as_slice(), at) {
            list.move_down(at, kept);
            kept += 1;
        }
    }
    list.truncate(kept);
    kept
}
