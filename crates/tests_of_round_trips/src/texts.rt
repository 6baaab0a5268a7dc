//! Texts of blocks as they are, each under the constants behind it.

use crate::tally::{LEVELS, Tally};
use crate::trips::trip_of;
use rhai_run::EngineInfo;
use rhai_script::AST;
use std::alloc::{AllocError, Global};
use syntax_parser::compile;
use syntax_source::constants;
use tests_reader::{Block, blocks_of};

/// Says what comes of the texts of these blocks.
pub(crate) fn ask(alloc: Global, rows: &str) -> Result<String, AllocError> {
    let mut tally = Tally::new(alloc, &LEVELS);
    for block in blocks_of(alloc, rows)? {
        add_text(alloc, &mut tally, block)?;
    }
    tally.told("texts")
}

fn add_text(alloc: Global, tally: &mut Tally, block: Block<'_>) -> Result<(), AllocError> {
    match constants(alloc, block.wanted) {
        Ok(info) => add(alloc, tally, &info, block.head, block.text),
        Err(_) => {
            tally.add_unread();
            Ok(())
        }
    }
}

/// What comes of a text under an engine's record.
pub(crate) fn add(
    alloc: Global,
    tally: &mut Tally,
    info: &EngineInfo,
    name: &str,
    text: &str,
) -> Result<(), AllocError> {
    match compile(alloc, text) {
        Ok(script) => add_script(alloc, tally, info, name, &script),
        Err(_) => {
            tally.add_unread();
            Ok(())
        }
    }
}

/// What comes of a script that was read.
pub(crate) fn add_script(
    alloc: Global,
    tally: &mut Tally,
    info: &EngineInfo,
    name: &str,
    script: &AST,
) -> Result<(), AllocError> {
    tally.add_read();
    let levels = tally.levels;
    for level in levels {
        let came = trip_of(alloc, info, script, *level)?;
        tally.add(name, *level, &came)?;
    }
    Ok(())
}
