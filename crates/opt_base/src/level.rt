//! How much is optimised.

/// How much is optimised.
#[derive(Clone, Copy, Debug, Default, PartialEq, Eq)]
pub enum OptimizationLevel {
    /// Nothing.
    None,
    /// What is known without asking the host.
    #[default]
    Simple,
    /// The same: the host is never asked while a script is optimised.
    Full,
}
