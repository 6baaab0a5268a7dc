//! What a call answers when it cannot do what it was asked.
ghost use Rattle.std.specs.Prelude.{◌≡◌};
ghost use Rattle.base_tokens.specs.Refusals.{number_of, number_of_fault};
ghost use Rattle.base_tokens.specs.declared.error.TreeFault.TheVariants as fault;

use std::alloc::{AllocError, AllocFailed};
use thiserror::Error;

/// There was no memory for what had to grow.
#[derive(Clone, Copy, Debug, PartialEq, Eq, Error)]
#[error("out of memory")]
pub struct OutOfMemory;

impl From<AllocError> for OutOfMemory {
    fn from(_: AllocError) -> OutOfMemory {
        OutOfMemory
    }
}

impl<T: Drop> From<AllocFailed<T>> for OutOfMemory {
    fn from(_: AllocFailed<T>) -> OutOfMemory {
        OutOfMemory
    }
}

/// What a built-in operator throws.
#[derive(Clone, Copy, Debug, PartialEq, Eq)]
pub enum Fault {
    /// A result that does not fit 64 bits, or a division by zero.
    Arithmetic,
}

/// Why a part of a tree was refused.
#[derive(Clone, Copy, Debug, PartialEq, Eq, Error)]
pub enum AstError {
    /// The text is no `op=`.
    #[error("not an op-assignment operator")]
    NotAnOpAssignment,
    /// The text is no operator that has an `op=` form.
    #[error("not an operator with an op-assignment form")]
    NotABaseOperator,
    /// A `switch` names an arm past its table.
    #[error("a switch names an arm past its table")]
    SwitchIndex,
    /// The default of a `switch` has a condition.
    #[error("the default of a switch has a condition")]
    SwitchDefaultCondition,
    /// The default of a `switch` is also the arm of a case or a range.
    #[error("the default of a switch is also the arm of a case")]
    SwitchDefaultShared,
    /// A case of a `switch` has a key that cannot be hashed.
    #[error("a case of a switch has a key that cannot be hashed")]
    SwitchKey,
}

impl AstError {
    /// The number of the refusal.
    pub fn number(self) -> u8
        ensures { result ≡ number_of self }
    {
        match self {
            AstError::NotAnOpAssignment => 2,
            AstError::NotABaseOperator => 3,
            AstError::SwitchIndex => 4,
            AstError::SwitchDefaultCondition => 5,
            AstError::SwitchDefaultShared => 6,
            AstError::SwitchKey => 7,
        }
    }
}

/// Why a tree is not well-formed. It is not in rhai.
#[derive(Clone, Copy, Debug, PartialEq, Eq, Error)]
pub enum TreeFault {
    /// Two keys of a map literal are equal.
    #[error("two keys of a map literal are equal")]
    DuplicateMapKey,
    /// The keys of a map's template are not those of its literal.
    #[error("the keys of a map's template are not those of its literal")]
    MapTemplate,
    /// An `&&`, `||` or `??` has no operands.
    #[error("a logical operator has no operands")]
    NoOperands,
    /// A constant of any value holds unit, which has a constant of its own.
    #[error("a constant of any value holds unit")]
    UnitConstant,
    /// A `break` or a `continue` stands in no loop's body of its function.
    #[error("a break or a continue stands outside a loop")]
    BreakOutsideLoop,
    /// A function has a name of the language's own or an operator's symbol.
    #[error("a function has a reserved name")]
    ReservedName,
    /// A chain has not the shape of a chain, or a property or a method stands in none.
    #[error("a chain has not the shape of a chain")]
    ChainShape,
    /// The left side of an assignment is neither a variable, `this` nor a chain.
    #[error("an assignment has a left side of another kind")]
    AssignTarget,
    /// An operator's name, its token and its operands do not belong together.
    #[error("the name, the token and the operands of an operator do not belong together")]
    OperatorName,
    /// The catch of a `try` has something else than an unqualified name, or nothing.
    #[error("a catch has something else than a name")]
    CatchName,
    /// There was no memory for the test.
    #[error("out of memory")]
    OutOfMemory,
    /// The table of a `switch` is one that `SwitchCasesCollection::new` refuses.
    #[error("the table of a switch is none")]
    SwitchTable,
}

impl TreeFault {
    /// The number of the fault.
    pub fn number(self) -> u8
        ensures { result ≡ number_of_fault self }
    {
        match self {
            TreeFault::DuplicateMapKey => 20,
            TreeFault::MapTemplate => 21,
            TreeFault::NoOperands => 22,
            TreeFault::UnitConstant => 23,
            TreeFault::BreakOutsideLoop => 24,
            TreeFault::ReservedName => 25,
            TreeFault::ChainShape => 26,
            TreeFault::AssignTarget => 27,
            TreeFault::OperatorName => 28,
            TreeFault::CatchName => 29,
            TreeFault::OutOfMemory => 30,
            TreeFault::SwitchTable => 31,
        }
    }
}

impl From<AllocError> for TreeFault {
    ghost from_gives = { λ _ f. f ≡ fault.OutOfMemory };

    fn from(_: AllocError) -> TreeFault {
        TreeFault::OutOfMemory
    }
}

impl<T: Drop> From<AllocFailed<T>> for TreeFault {
    ghost from_gives = { λ _ f. f ≡ fault.OutOfMemory };

    fn from(_: AllocFailed<T>) -> TreeFault {
        TreeFault::OutOfMemory
    }
}
