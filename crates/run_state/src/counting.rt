//! The rounds of a `for`.

#![tactic(auto, using(ast_types::specs::Reading::shapes, rhai_base::specs::Reading::kinds))]

ghost use Rattle.std.specs.Prelude.{◌≡◌, false, ◌^◌, ◌≤ℤ◌, ◌<ℤ◌, ◌+ℤ◌, ◌-ℤ◌, pos, suc};
ghost use Rattle.ast_types.specs.Reading.{counter_of};
ghost use Rattle.theory_meaning.specs.Control.{size};
ghost use Rattle.run_state.specs.Evaluating.{RunsCounted};
ghost use Rattle.run_state.specs.Exits.{count_of};
ghost use Rattle.run_state.specs.Runs.{Setting};
ghost use Rattle.rhai_base.specs.declared.dynamic.Dynamic.TheVariants as value;

use crate::entries::EntryKind;
use crate::state::{Interrupt, State};
use rhai_base::{Dynamic, Ident};
use run_host::Stuck;

/// How many integers there are from one to before another.
pub fn rounds_before(from: i64, end: i64) -> u128
    ensures size { result ≡ size (end -ℤ from) }
    ensures within { (from +ℤ pos result) ≤ℤ pos (2 ^ 63) }
{
    if end <= from {
        return 0;
    }
    (i128::from(end) - i128::from(from)) as u128
}

/// How many integers there are from one to another.
pub fn rounds_through(from: i64, last: i64) -> u128
    ensures size { result ≡ size (last +ℤ pos 1 -ℤ from) }
    ensures within { (from +ℤ pos result) ≤ℤ pos (2 ^ 63) }
{
    if last < from {
        return 0;
    }
    (i128::from(last) - i128::from(from) + 1) as u128
}

/// The integer that is so far behind the first one.
pub fn nth(first: i64, index: u128) -> Dynamic
    requires { (first +ℤ pos index) <ℤ pos (2 ^ 63) }
    ensures { result ≡ value.Int (first +ℤ pos index) }
{
    Dynamic::Int((i128::from(first) + index as i128) as i64)
}

/// The count under the counter's name, if the loop has one; stuck where no integer is that large.
pub fn declare_count(
    state: &mut State,
    counter: &Option<Ident>,
    count: Option<i64>,
) -> Result<(), Interrupt>
    ensures { (here : Setting) (k : _) → count ≡ count_of k
        → RunsCounted here (counter_of counter.now) k state.old result state.new }
{
    let Some(counter) = counter else {
        return Ok(());
    };
    let Some(count) = count else {
        return Err(Interrupt::Stuck(Stuck::CounterTooLarge));
    };
    state.declare(&counter.name, EntryKind::Variable, Dynamic::Int(count))?;
    Ok(())
}

/// The count of the round after; `None` where no integer is that large.
pub fn next_count(count: Option<i64>) -> Option<i64>
    ensures { (k : _) → count ≡ count_of k → result ≡ count_of (suc k) }
{
    count?.checked_add(1)
}
