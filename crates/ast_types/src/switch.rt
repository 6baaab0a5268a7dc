//! The table of a `switch`.

use crate::{BinaryExpr, Expr};
use rhai_base::{Cases, RangeCase, Seq};

/// All that a `switch` chooses from. It can be made by hand, also a bad one, of which `check_tree` speaks.
#[cycle(tree)]
#[derive(Drop)]
pub struct SwitchCasesCollection {
    /// The arms: conditions with answers.
    pub expressions: Seq<BinaryExpr>,
    /// The cases by their values.
    pub cases: Cases,
    /// The ranges.
    pub ranges: Seq<RangeCase>,
    /// The place of the default arm.
    pub def_case: Option<usize>,
}

/// A subject with the table from which it chooses.
#[cycle(tree)]
#[derive(Drop)]
pub struct SwitchBlock {
    /// The subject.
    pub expr: Expr,
    /// The table.
    pub cases: SwitchCasesCollection,
}
