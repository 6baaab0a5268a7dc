//! Lines that stand once in both texts.

use std::alloc::{AllocError, Global};
use std::collections::BTreeMap;

/// Where a line stands, in each text once.
#[derive(Clone, Copy)]
struct Spots {
    /// How often it stands in the old text, and where it does so last.
    old: (usize, usize),
    /// The same of the new one.
    new: (usize, usize),
}

/// A pair of places, and the pair before it in the longest row that ends with it.
#[derive(Clone, Copy)]
struct Link {
    pair: (usize, usize),
    before: Option<usize>,
}

/// The places of lines that stand once in both, as many as can be in one order.
pub(crate) fn anchors<'a>(
    alloc: Global,
    old: &[&'a str],
    new: &[&'a str],
) -> Result<Vec<(usize, usize)>, AllocError> {
    let spots = spots_of(alloc, old, new)?;
    let mut links: Vec<Link> = Vec::new(alloc);
    let mut ends: Vec<usize> = Vec::new(alloc);
    for (at, line) in old.iter().enumerate() {
        if let Some(pair) = single(&spots, *line, at) {
            add_pair(&mut links, &mut ends, pair)?;
        }
    }
    row(alloc, links.as_slice(), ends.last().copied())
}

fn spots_of<'a>(
    alloc: Global,
    old: &[&'a str],
    new: &[&'a str],
) -> Result<BTreeMap<&'a str, Spots>, AllocError> {
    let mut spots = BTreeMap::new(alloc);
    for (at, line) in old.iter().enumerate() {
        let spot = spots.entry(*line)?.or_insert(NOWHERE);
        spot.old = (spot.old.0.saturating_add(1), at);
    }
    for (at, line) in new.iter().enumerate() {
        let spot = spots.entry(*line)?.or_insert(NOWHERE);
        spot.new = (spot.new.0.saturating_add(1), at);
    }
    Ok(spots)
}

const NOWHERE: Spots = Spots {
    old: (0, 0),
    new: (0, 0),
};

/// The places of a line of the old text, where it stands once in both.
fn single<'a>(
    spots: &BTreeMap<&'a str, Spots>,
    line: &'a str,
    at: usize,
) -> Option<(usize, usize)> {
    match spots.get(&line) {
        Some(
            Spots {
                old: (1, _),
                new: (1, new_at),
            },
        ) => Some((at, *new_at)),
        _ => None,
    }
}

/// Adds a pair to the rows: `ends` has for each length the row of that length whose last pair comes first in the new
/// text.
fn add_pair(
    links: &mut Vec<Link>,
    ends: &mut Vec<usize>,
    pair: (usize, usize),
) -> Result<(), AllocError> {
    let length = ends
        .as_slice()
        .partition_point(|end| ends_before(links.as_slice(), *end, pair));
    let before = match length.checked_sub(1) {
        Some(last) => ends.as_slice().get(last).copied(),
        None => None,
    };
    let place = links.len();
    links.push(Link { pair, before })?;
    match ends.as_mut_slice().get_mut(length) {
        Some(end) => {
            *end = place;
            Ok(())
        }
        None => Ok(ends.push(place)?),
    }
}

/// Whether a row ends before a pair in the new text.
fn ends_before(links: &[Link], end: usize, pair: (usize, usize)) -> bool {
    match links.get(end) {
        Some(link) => link.pair.1 < pair.1,
        None => false,
    }
}

/// The pairs of a row from its first on, by its last one.
fn row(
    alloc: Global,
    links: &[Link],
    last: Option<usize>,
) -> Result<Vec<(usize, usize)>, AllocError> {
    let mut pairs = Vec::new(alloc);
    let mut at = last;
    for _ in links {
        let Some(link) = linked(links, at) else {
            break;
        };
        pairs.push(link.pair)?;
        at = link.before;
    }
    pairs.as_mut_slice().reverse();
    Ok(pairs)
}

fn linked(links: &[Link], at: Option<usize>) -> Option<Link> {
    links.get(at?).copied()
}
