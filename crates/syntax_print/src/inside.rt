//! What is around a node.

ghost use Rattle.std.specs.Prelude.{◌<◌, ◌≡◌, ◌≤◌, IfSome};

/// How deep a script may be: what a text may have, less what a constant takes.
const LEVELS: u32 = 990;

/// What is around a node, and how much deeper it may go: as deep as a parser reads what is printed.
#[derive(Clone, Copy)]
pub(crate) struct Inside {
    /// How many levels are left.
    pub(crate) levels: u32,
    /// How many blocks are around it.
    pub(crate) blocks: usize,
    /// Whether a function or a closure is around it.
    pub(crate) is_function: bool,
    /// Whether the value of its list of statements is used, which its last one gives.
    pub(crate) is_value: bool,
}

impl Inside {
    /// The script's own statements and functions.
    pub(crate) fn script() -> Inside {
        Inside {
            levels: LEVELS,
            blocks: 0,
            is_function: false,
            is_value: false,
        }
    }

    /// What stands within a function or a closure.
    pub(crate) fn function(self) -> Inside
        ensures { result.levels ≡ self.levels }
    {
        Inside {
            levels: self.levels,
            blocks: self.blocks,
            is_function: true,
            is_value: true,
        }
    }

    /// What stands within a block.
    pub(crate) fn block(self) -> Inside
        ensures { result.levels ≡ self.levels }
    {
        Inside {
            levels: self.levels,
            blocks: self.blocks.saturating_add(1),
            is_function: self.is_function,
            is_value: self.is_value,
        }
    }

    /// What is a list whose value is used, or is not.
    pub(crate) fn valued(self, is_value: bool) -> Inside
        ensures { result.levels ≡ self.levels }
    {
        Inside {
            levels: self.levels,
            blocks: self.blocks,
            is_function: self.is_function,
            is_value,
        }
    }

    /// What is so many levels deeper, for signs and brackets that are nodes of the text alone.
    pub(crate) fn past(self, signs: u32) -> Inside
        ensures { result.levels ≤ self.levels }
    {
        Inside {
            levels: self.levels.saturating_sub(signs),
            blocks: self.blocks,
            is_function: self.is_function,
            is_value: self.is_value,
        }
    }

    /// One level deeper; none where no level is left.
    pub(crate) fn deeper(self) -> Option<Inside>
        ensures { IfSome result (λ inside. inside.levels < self.levels) }
    {
        let levels = self.levels.checked_sub(1)?;
        Some(Inside {
            levels,
            blocks: self.blocks,
            is_function: self.is_function,
            is_value: self.is_value,
        })
    }
}
