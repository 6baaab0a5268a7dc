//! What came of the rules at a statement.

ghost use Rattle.std.specs.Prelude.{◌≡◌};
ghost use Rattle.opt_base.specs.NodeSteps.{step_by};

/// What came of the rules at a statement.
#[derive(Clone, Copy)]
pub enum NodeStep {
    /// None fires.
    Kept,
    /// One fired; what it made has parts that are reduced.
    Rewritten,
    /// One fired; what it made has parts that are to be gone over again.
    Reopened,
}

/// A rule fired; whether what it made has parts that are to be gone over again.
pub fn step_of(reopens: bool) -> NodeStep
    ensures { result ≡ step_by reopens }
{
    if reopens {
        NodeStep::Reopened
    } else {
        NodeStep::Rewritten
    }
}
