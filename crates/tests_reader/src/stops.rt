//! A writer that runs out of room.

use std::alloc::Global;
use std::io;

/// A writer that takes so many bytes and then fails; a flush fails too where it is to.
#[derive(Drop)]
pub struct Stops {
    pub taken: Vec<u8>,
    room: usize,
    flushes: bool,
}

impl Stops {
    pub fn new(alloc: Global, room: usize, flushes: bool) -> Stops {
        Stops {
            taken: Vec::new(alloc),
            room,
            flushes,
        }
    }
}

impl io::Write for Stops {
    fn write(&mut self, buf: &[u8]) -> io::Result<usize> {
        let count = buf.len().min(self.room);
        if count == 0 {
            return Err(io::Error::from(io::ErrorKind::StorageFull));
        }
        self.taken.extend_from_slice(&buf[..count])?;
        self.room -= count;
        Ok(count)
    }

    fn flush(&mut self) -> io::Result<()> {
        if self.flushes {
            Ok(())
        } else {
            Err(io::Error::from(io::ErrorKind::StorageFull))
        }
    }
}

/// A status, and what was written to either side.
#[derive(Drop)]
pub struct Told {
    pub status: u8,
    pub out: Stops,
    pub err: Stops,
}

impl Told {
    /// How many bytes the longer side took.
    pub fn most(&self) -> usize {
        self.out.taken.len().max(self.err.taken.len())
    }

    /// Whether either side took a beginning of what it takes where there is room.
    pub fn begins(&self, whole: &Told) -> bool {
        begins(&self.out, &whole.out) && begins(&self.err, &whole.err)
    }
}

fn begins(cut: &Stops, whole: &Stops) -> bool {
    whole.taken.as_slice().starts_with(cut.taken.as_slice())
}
