//! Memory for the digits of floats.

use std::alloc::Global;
use std::cell::Cell;

/// Memory, and whether there was none.
#[derive(Drop)]
pub(crate) struct Memory {
    pub(crate) alloc: Global,
    ran_out: Cell<bool>,
}

impl Memory {
    pub(crate) fn new(alloc: Global) -> Memory {
        Memory {
            alloc,
            ran_out: Cell::new(false),
        }
    }

    /// Notes that there was none.
    pub(crate) fn run_out(&self) {
        self.ran_out.set(true);
    }

    /// Whether there was none.
    pub(crate) fn has_run_out(&self) -> bool {
        self.ran_out.get()
    }
}
