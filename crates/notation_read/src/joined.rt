//! What was read, joined with what was read next.

/// The two of them, if both are there.
pub(crate) fn both<A: Drop, B: Drop>(first: Option<A>, second: Option<B>) -> Option<(A, B)> {
    let first = first?;
    Some((first, second?))
}
