//! What a list of statements is to those around it.

/// What a list of statements is to those around it.
#[derive(Clone, Copy)]
pub enum ListMark {
    /// The statements of a script or of a function, whose last value is theirs.
    Whole,
    /// A list in braces; its last value may be wanted or not.
    Inside { is_wanted: bool },
}

impl ListMark {
    ghost use Rattle.std.specs.Prelude.{◌≡◌};
    ghost use Rattle.theory_rewriting.specs.Context.{wanted};
    ghost use Rattle.opt_lists.specs.Marks.{mark_of};

    /// Whether the value of the last statement is wanted.
    pub fn is_wanted(self) -> bool
        ensures { result ≡ wanted (mark_of self) }
    {
        match self {
            ListMark::Whole => true,
            ListMark::Inside { is_wanted } => is_wanted,
        }
    }
}
