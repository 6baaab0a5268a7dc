//! The sweep.

ghost use Rattle.opt_lists.specs.Marks.{mark_of};
ghost use Rattle.opt_lists.specs.Steps.{Decided, Sweeps};

use crate::behind::Behind;
use crate::closing::close_up;
use crate::mark::ListMark;
use crate::steps::{decide, go_last};
use crate::swept::Swept;
use ast_types::Stmt;
use rhai_base::Seq;

/// Decides each statement of a list, from its end.
fn decide_all(mark: ListMark, list: &mut Seq<Stmt>) -> Behind
    ensures { Decided (mark_of mark) list.old list.new result }
{
    let mut at = list.len();
    let mut behind = Behind {
        is_last: true,
        fading: None,
        is_quiet: true,
        has_changed: false,
        is_bared: false,
    };
    while at > 0 {
        at -= 1;
        behind = decide(mark, list, at, behind);
    }
    behind
}

/// One sweep over a list, from its end. It takes no memory, and where nothing goes it moves nothing.
pub fn sweep(mark: ListMark, list: &mut Seq<Stmt>) -> Swept
    ensures { Sweeps (mark_of mark) list.old list.new result }
{
    let behind = decide_all(mark, list);
    if let Some(fading) = behind.fading {
        go_last(fading, list, 0);
        return Swept {
            has_changed: true,
            is_bared: false,
            moved: 0,
        };
    }
    if behind.has_changed {
        let moved = close_up(mark.is_wanted(), list);
        return Swept {
            has_changed: true,
            is_bared: behind.is_bared,
            moved,
        };
    }
    Swept {
        has_changed: false,
        is_bared: behind.is_bared,
        moved: 0,
    }
}
