//! What is written into a caller's room.

ghost use Rattle.std.specs.Prelude.{◌≡◌};
ghost use Rattle.rhai_c.specs.Codes.{code_meant, stands_at};
ghost use Rattle.rhai_c.specs.Room.{IsAnswered, IsRefused, put_in, shown};

use crate::codes::Failure;
use std::alloc::Global;

/// Why a call does not answer, and where.
#[repr(C)]
#[derive(Clone, Copy, Debug, PartialEq, Eq)]
pub struct BalvuzsomRefusal {
    /// The line from 1 on; 0 for none.
    pub line: u32,
    /// The column from 1 on; 0 for none.
    pub column: u32,
    /// How many bytes the reason has; 0 where nothing is refused.
    pub length: u64,
}

/// Puts as much of a text as there is room for at the beginning of a room.
fn put(text: &[u8], room: &mut [u8])
    ensures { room.new ≡ put_in room.old text.now }
{
    let count = text.len().min(room.len());
    room[..count].copy_from_slice(&text[..count]);
}

/// Answers with a text.
pub(crate) fn answered(text: &str, room: &mut [u8], refusal: &mut BalvuzsomRefusal) -> i64
    ensures { IsAnswered (λ said. said ≡ text.now) room.old room.new refusal.new result }
{
    match i64::try_from(text.len()) {
        Ok(length) => {
            put(text.as_bytes(), room);
            *refusal = BalvuzsomRefusal {
                line: 0,
                column: 0,
                length: 0,
            };
            length
        }
        Err(_) => because("out of memory", &Failure::OutOfMemory, room, refusal),
    }
}

/// Answers with a code, and its reason.
pub(crate) fn refused(
    alloc: Global,
    why: &Failure,
    room: &mut [u8],
    refusal: &mut BalvuzsomRefusal,
) -> i64
    ensures refused { IsRefused (stands_at why.now) room.old room.new refusal.new result }
    ensures code { result ≡ code_meant why.now }
{
    match format!(in alloc; "{why}") {
        Ok(reason) => because(reason.as_str(), why, room, refusal),
        Err(_) => because("out of memory", why, room, refusal),
    }
}

fn because(reason: &str, why: &Failure, room: &mut [u8], refusal: &mut BalvuzsomRefusal) -> i64
    ensures refused { IsRefused (stands_at why.now) room.old room.new refusal.new result }
    ensures code { result ≡ code_meant why.now }
{
    put(reason.as_bytes(), room);
    *refusal = BalvuzsomRefusal {
        line: small(why.position().line()),
        column: small(why.position().position()),
        length: reason.len() as u64,
    };
    why.code()
}

/// A line or a column; 0 for none.
fn small(number: Option<usize>) -> u32
    ensures { result ≡ shown number }
{
    match number {
        Some(number) => u32::try_from(number).unwrap_or(u32::MAX),
        None => 0,
    }
}
