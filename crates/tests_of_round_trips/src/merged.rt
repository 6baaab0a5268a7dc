//! Texts that are merged.

use crate::runs::report;
use crate::tally::{LEVELS, Tally};
use crate::texts::add_script;
use crate::trips::kept;
use rhai_run::EngineInfo;
use rhai_script::AST;
use std::alloc::{AllocError, Global};
use std::fmt::Write;
use syntax_parser::compile;
use syntax_source::{Refusal, Syntax, Why, merge};
use tests_reader::{Block, blocks_of};

/// With how many texts each is merged.
const REACH: usize = 16;

/// What comes of merged texts, and how many of them run as the two do that are one text.
#[derive(Drop)]
struct Merges {
    tally: Tally,
    info: EngineInfo,
    alike: usize,
    apart: usize,
    refused: usize,
    unjoined: usize,
}

/// Says what comes of the texts of these blocks and those behind them, merged.
pub(crate) fn ask(alloc: Global, rows: &str) -> Result<String, AllocError> {
    let mut merges = Merges::new(alloc);
    for block in blocks_of(alloc, rows)? {
        merges.add(alloc, block.head, block.text, block.wanted)?;
    }
    merges.told("merged")
}

/// Says what comes of the texts of these blocks, each merged with itself and with those behind it, past the last one
/// with the first.
pub(crate) fn ask_pairs(alloc: Global, rows: &str) -> Result<String, AllocError> {
    let blocks = blocks_of(alloc, rows)?;
    let mut merges = Merges::new(alloc);
    for (index, first) in blocks.iter().enumerate() {
        let (before, behind) = blocks.as_slice().split_at(index);
        for second in behind.iter().chain(before).take(REACH) {
            let name = format!(in alloc; "{} + {}", first.head, second.head)?;
            merges.add(alloc, name.as_str(), first.text, second.text)?;
        }
    }
    merges.told("pairs")
}

impl Merges {
    fn new(alloc: Global) -> Merges {
        Merges {
            tally: Tally::new(alloc, &LEVELS),
            info: EngineInfo::new(alloc),
            alike: 0,
            apart: 0,
            refused: 0,
            unjoined: 0,
        }
    }

    /// What comes of two texts.
    fn add(
        &mut self,
        alloc: Global,
        name: &str,
        first: &str,
        second: &str,
    ) -> Result<(), AllocError> {
        match (compile(alloc, first), compile(alloc, second)) {
            (Ok(one), Ok(other)) => {
                let script = kept(one.merge(&other))?;
                add_script(alloc, &mut self.tally, &self.info, name, &script)?;
                self.compare(alloc, name, first, second)
            }
            _ => {
                self.tally.add_unread();
                Ok(())
            }
        }
    }

    /// Whether two texts that are merged and printed run as the two that are one text.
    fn compare(
        &mut self,
        alloc: Global,
        name: &str,
        first: &str,
        second: &str,
    ) -> Result<(), AllocError> {
        let joined = format!(in alloc; "{first}\n;\n{second}")?;
        let Ok(joined) = compile(alloc, joined.as_str()) else {
            self.unjoined = self.unjoined.saturating_add(1);
            return Ok(());
        };
        match merge(alloc, Syntax::default(), first, second) {
            Ok(written) => self.add_joined(alloc, name, &written.script, &joined),
            Err(
                Refusal {
                    why: Why::OutOfMemory,
                    ..
                },
            ) => Err(AllocError),
            Err(error) => {
                self.refused = self.refused.saturating_add(1);
                writeln!(self.tally.said, "refused: {name}: {error}")
            }
        }
    }

    fn add_joined(
        &mut self,
        alloc: Global,
        name: &str,
        merged: &AST,
        joined: &AST,
    ) -> Result<(), AllocError> {
        if report(alloc, &self.info, merged)? == report(alloc, &self.info, joined)? {
            self.alike = self.alike.saturating_add(1);
            return Ok(());
        }
        self.apart = self.apart.saturating_add(1);
        writeln!(self.tally.said, "not as one text: {name}")
    }

    fn told(self, kind: &str) -> Result<String, AllocError> {
        let Merges {
            tally,
            info: _info,
            alike,
            apart,
            refused,
            unjoined,
        } = self;
        let mut said = tally.told(kind)?;
        writeln!(
            said,
            "{kind}, as one text: {alike} run alike, {apart} otherwise, {refused} refused, {unjoined} not read"
        )?;
        Ok(said)
    }
}
