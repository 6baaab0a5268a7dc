//! What a parser bounds.

/// Bounds of a parse. The names and the defaults are rhai's; a bound of 0 is none, but that no more than `DEEPEST` levels
/// are read, whatever the bound, so that no text takes more stack than there is.
#[derive(Clone, Copy, Debug, PartialEq, Eq)]
pub struct ParseOptions {
    /// How deep expressions and statements may nest outside functions. Each statement and each expression is a level,
    /// and so are each operator, step of a chain and `else if` that follow one another.
    pub max_expr_depth: usize,
    /// How deep they may nest within a function or a closure.
    pub max_function_expr_depth: usize,
    /// How many bytes a text may have.
    pub max_string_size: usize,
    /// The number of the first closure's function. Of two texts whose scripts are put together, the second one's
    /// closures are numbered behind the first one's. rhai has no such bound: its names are hashes.
    pub first_closure: usize,
}

impl ParseOptions {
    /// The levels that are read at most.
    pub const DEEPEST: usize = 1000;

    /// The bounds of an engine that sets none.
    pub fn new() -> ParseOptions {
        ParseOptions {
            max_expr_depth: 64,
            max_function_expr_depth: 32,
            max_string_size: 0,
            first_closure: 1,
        }
    }

    pub(crate) fn levels(self) -> u32 {
        bounded(self.max_expr_depth)
    }

    pub(crate) fn function_levels(self) -> u32 {
        bounded(self.max_function_expr_depth)
    }
}

impl Default for ParseOptions {
    fn default() -> ParseOptions {
        ParseOptions::new()
    }
}

fn bounded(levels: usize) -> u32 {
    match u32::try_from(levels) {
        Ok(levels @ 1..=1000) => levels,
        _ => 1000,
    }
}
