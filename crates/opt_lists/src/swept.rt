//! What a sweep did to a list.

/// What a sweep did to a list.
#[derive(Clone, Copy)]
pub struct Swept {
    /// Statements went, or were replaced.
    pub has_changed: bool,
    /// The last one is the expression of a `return` now.
    pub is_bared: bool,
    /// How many statements were moved, each once; none where nothing has changed.
    pub moved: usize,
}
