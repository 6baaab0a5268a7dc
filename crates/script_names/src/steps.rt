//! What is made step by step, so that no function holds a tree while it makes the next one.
ghost use Rattle.std.specs.Prelude.{◌≡◌, ◌++◌, ◌∷◌, [], IfOk, Ok};

use rhai_base::{OutOfMemory, Seq};

/// What was made before beside what is made next, where that is not refused.
pub(crate) fn both<A: Drop, B, E: Drop>(first: A, second: Result<B, E>) -> Result<(A, B), E>
    ensures { IfOk result (λ p. (p.0 ≡ first) × (second ≡ Ok p.1)) }
{
    Ok((first, second?))
}

/// The items and one more.
pub(crate) fn pushed<T: Drop>(mut items: Seq<T>, item: T) -> Result<Seq<T>, OutOfMemory>
    ensures { IfOk result (λ longer. longer ≡ items ++ item ∷ []) }
{
    items.push(item)?;
    Ok(items)
}
