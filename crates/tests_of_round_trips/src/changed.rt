//! Texts of blocks in which some lines are changed.

use crate::groups::Group;
use crate::tally::Tally;
use crate::texts::add;
use rhai_optimizer::OptimizationLevel;
use rhai_run::EngineInfo;
use std::alloc::{AllocError, Global};
use syntax_source::constants;
use tests_reader::{Block, blocks_of};

/// The levels that differ.
static LEVELS: [OptimizationLevel; 2] = [OptimizationLevel::None, OptimizationLevel::Full];

/// What is done to lines.
#[derive(Clone, Copy)]
enum Change {
    /// They stand in these, at each `@`.
    Framed(&'static str),
    /// Each of two words stands for the other: the second for the first, if that is there.
    Exchanged(&'static str, &'static str),
}

/// All that is done, by names.
static CHANGES: [(&str, Change); 12] = [
    ("dropped", Change::Framed("")),
    ("doubled", Change::Framed("@\n@")),
    ("never", Change::Framed("if false {\n@\n}")),
    ("always", Change::Framed("if true {\n@\n} else {\n@\n}")),
    (
        "chosen",
        Change::Framed("switch 1 {\n1 => {\n@\n}\n_ => {\n@\n}\n}"),
    ),
    ("repeated", Change::Framed("for turn in 0..2 {\n@\n}")),
    ("tried", Change::Framed("try {\n@\n} catch {\n@\n}")),
    ("enclosed", Change::Framed("enclosed(|| {\n@\n});")),
    (
        "listed",
        Change::Framed("let listed = [|| {\n@\n}, || {\n@\n}];"),
    ),
    (
        "mapped",
        Change::Framed("const MAPPED = #{ run: || {\n@\n} };"),
    ),
    ("swapped", Change::Exchanged("true", "false")),
    ("declared", Change::Exchanged("let ", "const ")),
];

impl Change {
    /// Lines that are changed so.
    fn of(self, alloc: Global, lines: &str) -> Result<String, AllocError> {
        match self {
            Change::Framed(frame) => frame.replace(alloc, "@", lines),
            Change::Exchanged(first, second) if lines.contains(first) => {
                lines.replace(alloc, first, second)
            }
            Change::Exchanged(first, second) => lines.replace(alloc, second, first),
        }
    }
}

/// Says what comes of the texts of these blocks in which one group of lines is changed, each by each change.
pub(crate) fn ask(alloc: Global, rows: &str) -> Result<String, AllocError> {
    let mut tally = Tally::new(alloc, &LEVELS);
    for block in blocks_of(alloc, rows)? {
        if let Ok(info) = constants(alloc, block.wanted) {
            add_groups(alloc, &mut tally, &info, block)?;
        }
    }
    tally.told("changed")
}

/// The group that begins at each line of a text.
fn add_groups(
    alloc: Global,
    tally: &mut Tally,
    info: &EngineInfo,
    block: Block<'_>,
) -> Result<(), AllocError> {
    for before in 0..block.text.lines().count() {
        let group = Group::behind(alloc, before, block.text)?;
        if !group.text.as_str().trim().is_empty() {
            add_changes(alloc, tally, info, block, &group)?;
        }
    }
    Ok(())
}

/// Each change of a group that changes it.
fn add_changes(
    alloc: Global,
    tally: &mut Tally,
    info: &EngineInfo,
    block: Block<'_>,
    group: &Group,
) -> Result<(), AllocError> {
    for (word, change) in &CHANGES {
        let lines = change.of(alloc, group.text.as_str())?;
        if lines != group.text {
            let line = group.before.saturating_add(1);
            let name = format!(in alloc; "{}, line {line} {word}", block.head)?;
            let text = group.replaced(alloc, block.text, lines.as_str())?;
            add(alloc, tally, info, name.as_str(), text.as_str())?;
        }
    }
    Ok(())
}
