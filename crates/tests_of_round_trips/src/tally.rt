//! How many scripts came to what.

use crate::trips::{Again, Trip};
use rhai_optimizer::OptimizationLevel;
use std::alloc::{AllocError, Global};
use std::fmt::Write;

/// All levels.
pub(crate) static LEVELS: [OptimizationLevel; 3] = [
    OptimizationLevel::None,
    OptimizationLevel::Simple,
    OptimizationLevel::Full,
];

/// How many texts were read, and what came of their scripts.
#[derive(Drop)]
pub(crate) struct Tally {
    /// The levels that are asked.
    pub(crate) levels: &'static [OptimizationLevel],
    /// A line for each that came to something else.
    pub(crate) said: String,
    read: usize,
    unread: usize,
    printed: usize,
    refused: usize,
    stable: usize,
    settled: usize,
    alike: usize,
}

impl Tally {
    pub(crate) fn new(alloc: Global, levels: &'static [OptimizationLevel]) -> Tally {
        Tally {
            levels,
            said: String::new(alloc),
            read: 0,
            unread: 0,
            printed: 0,
            refused: 0,
            stable: 0,
            settled: 0,
            alike: 0,
        }
    }

    /// A text was no script.
    pub(crate) fn add_unread(&mut self) {
        self.unread = self.unread.saturating_add(1);
    }

    /// A text was one.
    pub(crate) fn add_read(&mut self) {
        self.read = self.read.saturating_add(1);
    }

    /// What came of the script of this name at a level.
    pub(crate) fn add(
        &mut self,
        name: &str,
        level: OptimizationLevel,
        trip: &Trip,
    ) -> Result<(), AllocError> {
        match trip {
            Trip::Printed(again) => self.add_printed(name, level, *again),
            Trip::Refused(reason) => {
                self.refused = self.refused.saturating_add(1);
                writeln!(self.said, "refused: {name} at {level:?}: {reason}")
            }
        }
    }

    fn add_printed(
        &mut self,
        name: &str,
        level: OptimizationLevel,
        again: Again,
    ) -> Result<(), AllocError> {
        self.printed = self.printed.saturating_add(1);
        self.stable = self.stable.saturating_add(usize::from(again.is_stable));
        self.settled = self.settled.saturating_add(usize::from(again.is_settled));
        self.alike = self.alike.saturating_add(usize::from(again.is_alike));
        self.note(again.is_stable, "printed otherwise", name, level)?;
        self.note(again.is_settled, "optimised otherwise", name, level)?;
        self.note(again.is_alike, "run otherwise", name, level)
    }

    /// Says what came of a script, unless it is as it should be.
    fn note(
        &mut self,
        is_well: bool,
        what: &str,
        name: &str,
        level: OptimizationLevel,
    ) -> Result<(), AllocError> {
        if is_well {
            return Ok(());
        }
        writeln!(self.said, "{what}: {name} at {level:?}")
    }

    /// What was said, and the counts behind it.
    pub(crate) fn told(self, kind: &str) -> Result<String, AllocError> {
        let Tally {
            levels,
            mut said,
            read,
            unread,
            printed,
            refused,
            stable,
            settled,
            alike,
        } = self;
        let levels = levels.len();
        writeln!(said, "{kind}: {read} read, {unread} not read")?;
        writeln!(
            said,
            "{kind}, at {levels} levels: {printed} printed, {refused} refused"
        )?;
        writeln!(
            said,
            "{kind}, read again: {stable} printed the same, {settled} optimised the same, {alike} run alike"
        )?;
        Ok(said)
    }
}
