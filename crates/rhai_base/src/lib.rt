//! Script values, floats among them, and scopes; operators that need no engine; the cases of a `switch`, by values and by ranges; and,
//! passed on, names, tokens and lists.
#![tactic(auto)]

mod builtin;
mod cases;
mod dynamic;
mod float_wrapper;
mod fn_ptr;
mod range_case;
mod range_operators;
mod scope;

pub use base_lists::{Boxed, Rest, Seq};
pub use base_text::{ImmutableString, StringMap};
pub use base_tokens::{
    ASTFlags, AstError, Fault, FnName, Ident, Namespace, OpAssignment, OutOfMemory, Position, Span,
    Token, TreeFault,
};
pub use builtin::{builtin_binary_op, builtin_unary_op};
pub use cases::{CaseBlocksList, Cases};
pub use dynamic::{Dynamic, INT};
pub use float_wrapper::{FLOAT, FloatWrapper};
pub use fn_ptr::FnPtr;
pub use range_case::{RangeCase, RangeCaseIter};
pub use scope::{Scope, ScopeEntry, ScopeIter};
