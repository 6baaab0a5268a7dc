//! Prints scripts in rhai's own syntax: each statement on a line, blocks indented by four spaces, functions where they
//! stand among the statements or behind these, long lines broken at commas, and parentheses only where a text needs
//! them. Comments of functions and of the script stand before what they document.
//!
//! What is printed is read as the same tree, but for the names of closures' functions and for what has no literal or is
//! written in one way alone. There the tree that is read runs alike:
//!
//! | tree | source |
//! |---|---|
//! | a constant that is an array, a map or a range | the literal, or the operator |
//! | a pointer | `Fn("f")`, with values `curry(Fn("f"), v)`; of a closure's function the closure |
//! | the least integer | `0x8000000000000000` |
//! | a literal where none of its kind may stand, or behind a sign | a block: `({ 5 })`, `-{ 5 }` |
//! | an index that is written as a bool | a block: `x[{ a && b }]` |
//! | `contains(b, a)`, and `!` over it | `a in b`, `a !in b`, unless the call stands before `a` |
//! | `&&`, `||` or `??` of one operand | with `true`, `false` or `()` as another |
//! | a part of a text that is no block, and no text that stays one | `${ .. }` |
//! | a `Noop` | `{}` |
//! | an arm of a `switch` that answers no block | that of a block |
//! | a `switch` whose arms stand in another order than a text gives them | key by key |
//! | `share n`, and `curry(<Fn(anon$1)>, n)` behind it | `|x| n + x` |
//! | what a closure takes from around it and is known | `{ const A = 1; |x| A + b + x }` |
//! | names that a closure shares, of which its body takes others or in another order | `|x| { false && n && m; x }` |
//! | a second and a third function `anon$N` that is the same as a first one | `|x| { 2; x }`, `|x| { 3; x }` |
//!
//! A closure's function without a pointer to it is left out. All else that no text spells is refused: `Unspelled` has
//! the reasons.
#![tactic(auto)]

mod assignments;
mod breaking;
mod chains;
mod closures;
mod error;
mod expressions;
mod functions;
mod inside;
mod marks;
mod needs;
mod printer;
mod script;
mod statements;
mod switches;
mod table;
mod tables;
mod texts;
mod values;
mod variables;
mod words;

pub use error::{SpellError, Unspelled};
pub use printer::Printed;
pub use script::{push_spelled, spelled, spelled_in_order};
