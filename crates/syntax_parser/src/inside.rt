//! What is around a part of a text.

ghost use Rattle.std.specs.Prelude.{◌<◌, ◌≡◌, ◌≤◌, IfSome};

/// What is around a part of a text, and how much deeper it may go.
#[derive(Clone, Copy)]
pub(crate) struct Inside {
    /// How many levels are left.
    pub(crate) levels: u32,
    /// Whether a loop of the same function is around it.
    pub(crate) is_loop: bool,
    /// Whether a function or a closure is around it.
    pub(crate) is_function: bool,
}

impl Inside {
    /// The script's own statements.
    pub(crate) fn script(levels: u32) -> Inside {
        Inside {
            levels,
            is_loop: false,
            is_function: false,
        }
    }

    /// A function or a closure, which may go so deep and no deeper than what is around it.
    pub(crate) fn function(self, levels: u32) -> Inside
        ensures { result.levels ≤ self.levels }
    {
        Inside {
            levels: levels.min(self.levels),
            is_loop: false,
            is_function: true,
        }
    }

    /// The body of a loop.
    pub(crate) fn body(self) -> Inside
        ensures { result.levels ≡ self.levels }
    {
        Inside {
            levels: self.levels,
            is_loop: true,
            is_function: self.is_function,
        }
    }

    /// One level deeper; none where no level is left.
    pub(crate) fn deeper(self) -> Option<Inside>
        ensures { IfSome result (λ inside. inside.levels < self.levels) }
    {
        let levels = self.levels.checked_sub(1)?;
        Some(Inside {
            levels,
            is_loop: self.is_loop,
            is_function: self.is_function,
        })
    }
}
