//! The table of a `switch`.

#![tactic(auto, using(ast_nodes::proofs::SwitchTables::refusal_law))]

ghost use Rattle.ast_nodes.specs.Tables.{IsTableOf};
ghost use Rattle.ast_nodes.specs.SwitchTables.{RefusalLaw};

use ast_nodes::switch_table;
use ast_types::{BinaryExpr, SwitchCasesCollection};
use indexmap::IndexMap;
use rhai_base::{AstError, CaseBlocksList, Dynamic, RangeCase};

/// How the table of a `switch` is made.
pub trait SwitchCases: Sized {
    /// A table of these parts. It takes no memory.
    ///
    /// Refused, in this order: a key that holds a pointer to a function; a place past the table; a default
    /// whose condition is not literally `true`; a default that a case or a range names too. All that is not refused
    /// passes `check_tree` as a table, and nothing else does.
    fn new(
        expressions: Vec<BinaryExpr>,
        cases: IndexMap<Dynamic, CaseBlocksList>,
        ranges: Vec<RangeCase>,
        def_case: Option<usize>,
    ) -> Result<Self, AstError>;
}

impl SwitchCases for SwitchCasesCollection {
    fn new(
        expressions: Vec<BinaryExpr>,
        cases: IndexMap<Dynamic, CaseBlocksList>,
        ranges: Vec<RangeCase>,
        def_case: Option<usize>,
    ) -> Result<SwitchCasesCollection, AstError>
        ensures made { IsTableOf expressions.items cases.entries ranges.items def_case result }
        ensures law { RefusalLaw expressions.items cases.entries ranges.items def_case }
    {
        switch_table(expressions, cases, ranges, def_case)
    }
}
