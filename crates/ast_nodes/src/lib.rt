//! What is asked of nodes in place, and nodes made of others: blocks, calls, constants, literals, tables of a `switch`.
#![tactic(auto)]

mod block;
mod call;
mod constant;
mod drain;
mod literals;
mod making;
mod place;
mod queries;
mod switch;
mod taken;

pub use block::{block_from, if_answers};
pub use call::call_expression;
pub use constant::{constant_for, dynamic_constant};
pub use drain::{StmtDrain, push_stmt};
pub use literals::{constant_value, literal_value, owned};
pub use making::{
    block_statement, blocks_of, expression_statement, followed_by_nothing, only_statement,
    put_expr, put_stmt, statements_of,
};
pub use place::{place_expr, place_stmt};
pub use queries::{
    are_constant, are_floatless, is_block_dependent, is_call_of, is_constant, is_floatless,
    is_internally_pure, is_pure, is_pure_expr, is_table, operands, position, start_position,
    stmt_position,
};
pub use switch::{case_list, switch_table};
pub use taken::value_of_constant;
