//! The calls. What each is given crosses as C has it: a slice as a pointer and a length, the allocator as nothing. Each
//! answers how many bytes its text has, of which the room then has as many as it can; or a code below 0, and then the
//! room has the reason, and `refusal` where it stands. So a caller that gave too little room asks again.

ghost use Rattle.std.specs.Prelude.{⊤};
ghost use Rattle.rhai_c.specs.Options.{IsMerged, IsOptimized};
ghost use Rattle.rhai_c.specs.Room.{IsAnswered};

use crate::asked::{checked, merged, optimized, reported};
use crate::options::BalvuzsomOptions;
use crate::room::{BalvuzsomRefusal, answered, refused};
use std::alloc::Global;
use syntax_source::VERSION;

/// The text of a script, optimised; `known` declares constants, on which it may rest. The script that it is read as does
/// what the one that the source is read as does.
#[unsafe(no_mangle)]
pub extern "C" fn balvuzsom_optimize(
    alloc: Global,
    source: &[u8],
    known: &[u8],
    options: &BalvuzsomOptions,
    room: &mut [u8],
    refusal: &mut BalvuzsomRefusal,
) -> i64
    ensures { IsAnswered (IsOptimized options.now source.now) room.old room.new refusal.new result }
{
    match optimized(alloc, source, known, options) {
        Ok(text) => answered(text.as_str(), room, refusal),
        Err(why) => refused(alloc, &why, room, refusal),
    }
}

/// What is found in a script, on a line each, `LINE:COLUMN: TEXT`.
#[unsafe(no_mangle)]
pub extern "C" fn balvuzsom_check(
    alloc: Global,
    source: &[u8],
    known: &[u8],
    options: &BalvuzsomOptions,
    room: &mut [u8],
    refusal: &mut BalvuzsomRefusal,
) -> i64
    ensures { IsAnswered (λ _. ⊤) room.old room.new refusal.new result }
{
    match checked(alloc, source, known, options) {
        Ok(text) => answered(text.as_str(), room, refusal),
        Err(why) => refused(alloc, &why, room, refusal),
    }
}

/// What a run of a script reports, with a host that answers each call by unit, under a record of the known constants: a
/// line for each thing, with a tab between its parts.
#[unsafe(no_mangle)]
pub extern "C" fn balvuzsom_run(
    alloc: Global,
    source: &[u8],
    known: &[u8],
    options: &BalvuzsomOptions,
    room: &mut [u8],
    refusal: &mut BalvuzsomRefusal,
) -> i64
    ensures { IsAnswered (λ _. ⊤) room.old room.new refusal.new result }
{
    match reported(alloc, source, known, options) {
        Ok(text) => answered(text.as_str(), room, refusal),
        Err(why) => refused(alloc, &why, room, refusal),
    }
}

/// The text of two scripts as one.
#[unsafe(no_mangle)]
pub extern "C" fn balvuzsom_merge(
    alloc: Global,
    first: &[u8],
    second: &[u8],
    options: &BalvuzsomOptions,
    room: &mut [u8],
    refusal: &mut BalvuzsomRefusal,
) -> i64
    ensures { IsAnswered (IsMerged options.now first.now second.now) room.old room.new refusal.new result }
{
    match merged(alloc, first, second, options) {
        Ok(text) => answered(text.as_str(), room, refusal),
        Err(why) => refused(alloc, &why, room, refusal),
    }
}

/// The version of the library, as `0.1.0`.
#[unsafe(no_mangle)]
pub extern "C" fn balvuzsom_version(room: &mut [u8], refusal: &mut BalvuzsomRefusal) -> i64
    ensures { IsAnswered (λ _. ⊤) room.old room.new refusal.new result }
{
    answered(VERSION, room, refusal)
}
