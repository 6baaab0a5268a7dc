//! The arms of a `switch` as they are written.

use rhai_ast::SwitchCasesCollection;
use rhai_base::{Dynamic, RangeCase};
use std::alloc::{AllocError, Global};

/// What chooses an arm: a key or a range, by its place.
#[derive(Clone, Copy)]
pub(crate) enum Chooser {
    Key(usize),
    Range(usize),
}

/// An arm with what chooses it.
#[derive(Drop)]
pub(crate) struct Row {
    pub(crate) arm: usize,
    pub(crate) choosers: Vec<Chooser>,
}

impl Row {
    /// The first range that chooses the arm, by its place.
    pub(crate) fn first_range(&self) -> Option<usize> {
        for chooser in self.choosers.as_slice() {
            if let Chooser::Range(place) = chooser {
                return Some(*place);
            }
        }
        None
    }
}

/// The arms as they are written: in their order, if a text makes the same table of them, else key by key.
pub(crate) fn rows_of(
    alloc: Global,
    table: &SwitchCasesCollection,
) -> Result<Vec<Row>, AllocError> {
    let mut keys = Vec::new(alloc);
    for (place, list) in table.cases.as_map().values().enumerate() {
        for arm in list.blocks.as_slice() {
            keys.push((*arm, place))?;
        }
    }
    if is_in_order(table) {
        keys.sort()?;
        return rows_in_order(alloc, table, keys.as_slice());
    }
    rows_by_keys(alloc, table)
}

/// The arms in their order, each with its keys and its ranges.
fn rows_in_order(
    alloc: Global,
    table: &SwitchCasesCollection,
    keys: &[(usize, usize)],
) -> Result<Vec<Row>, AllocError> {
    let mut rows: Vec<Row> = Vec::new(alloc);
    let mut keys = keys;
    let mut ranges = table.ranges.as_slice();
    let mut passed: usize = 0;
    for arm in 0..table.expressions.len() {
        let mut choosers = Vec::new(alloc);
        keys = take_keys(keys, arm, &mut choosers)?;
        let rest = take_ranges(ranges, arm, passed, &mut choosers)?;
        passed = passed.saturating_add(ranges.len().saturating_sub(rest.len()));
        ranges = rest;
        if !choosers.is_empty() {
            rows.push(Row { arm, choosers })?;
        }
    }
    Ok(rows)
}

/// Adds the keys of an arm; those behind them.
fn take_keys<'k>(
    keys: &'k [(usize, usize)],
    arm: usize,
    choosers: &mut Vec<Chooser>,
) -> Result<&'k [(usize, usize)], AllocError> {
    let mut taken: usize = 0;
    for (of, place) in keys {
        if *of != arm {
            break;
        }
        choosers.push(Chooser::Key(*place))?;
        taken = taken.saturating_add(1);
    }
    Ok(keys.get(taken..).unwrap_or(keys))
}

/// Adds the ranges of an arm; those behind them.
fn take_ranges<'r>(
    ranges: &'r [RangeCase],
    arm: usize,
    passed: usize,
    choosers: &mut Vec<Chooser>,
) -> Result<&'r [RangeCase], AllocError> {
    let mut taken: usize = 0;
    for range in ranges {
        if range.index() != arm {
            break;
        }
        choosers.push(Chooser::Range(passed.saturating_add(taken)))?;
        taken = taken.saturating_add(1);
    }
    Ok(ranges.get(taken..).unwrap_or(ranges))
}

/// Each key with each of its arms, and then each range; a key without arms has one that answers nothing.
fn rows_by_keys(alloc: Global, table: &SwitchCasesCollection) -> Result<Vec<Row>, AllocError> {
    let mut rows = Vec::new(alloc);
    for (place, list) in table.cases.as_map().values().enumerate() {
        for arm in list.blocks.as_slice() {
            rows.push(single(alloc, *arm, Chooser::Key(place))?)?;
        }
        if list.blocks.is_empty() {
            rows.push(single(alloc, usize::MAX, Chooser::Key(place))?)?;
        }
    }
    for (place, range) in table.ranges.as_slice().iter().enumerate() {
        rows.push(single(alloc, range.index(), Chooser::Range(place))?)?;
    }
    Ok(rows)
}

fn single(alloc: Global, arm: usize, chooser: Chooser) -> Result<Row, AllocError> {
    Ok(Row {
        arm,
        choosers: vec![in alloc; chooser]?,
    })
}

/// Whether a text of the arms in their order makes this table.
fn is_in_order(table: &SwitchCasesCollection) -> bool {
    let last_integer = last_integer_arm(table);
    let first_range = match table.ranges.as_slice().first() {
        Some(range) => range.index(),
        None => usize::MAX,
    };
    let is_default_last = match table.def_case {
        Some(place) => place.saturating_add(1) == table.expressions.len(),
        None => true,
    };
    is_default_last
        && last_integer <= first_range
        && are_lists_in_order(table)
        && are_ranges_in_order(table)
}

/// The last arm that an integer chooses.
fn last_integer_arm(table: &SwitchCasesCollection) -> usize {
    let mut last: usize = 0;
    for (key, list) in table.cases.as_map().iter() {
        if matches!(key, Dynamic::Int(_)) {
            for arm in list.blocks.as_slice() {
                last = last.max(*arm);
            }
        }
    }
    last
}

/// Whether each key has arms, in ascending order, and the keys are in that of their first ones.
fn are_lists_in_order(table: &SwitchCasesCollection) -> bool {
    let mut before: usize = 0;
    for list in table.cases.as_map().values() {
        match list.blocks.as_slice() {
            [first, ..] if *first >= before => before = *first,
            _ => return false,
        }
        if !list.blocks.as_slice().is_sorted() {
            return false;
        }
    }
    true
}

fn are_ranges_in_order(table: &SwitchCasesCollection) -> bool {
    let mut before: usize = 0;
    for range in table.ranges.as_slice() {
        if range.index() < before || range.is_empty() {
            return false;
        }
        before = range.index();
    }
    true
}
