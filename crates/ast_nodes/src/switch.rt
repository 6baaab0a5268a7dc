//! The table of a `switch`.

#![tactic(auto, using(ast_types::specs::Reading::shapes, rhai_base::specs::Reading::kinds))]

ghost use Rattle.std.specs.Prelude.{◌≡◌, None, cond};
ghost use Rattle.std.specs.Option.{option_copied, option_map};
ghost use Rattle.ast_types.specs.Reading.{table_of};
ghost use Rattle.rhai_base.specs.Reading.{value_of};
ghost use Rattle.rhai_base.specs.Value.{is_hashable};
ghost use Rattle.theory_meaning.specs.Control.{case_for};
ghost use Rattle.ast_nodes.specs.Tables.{IsTableOf};

use crate::queries::table_refusal;
use ast_types::{BinaryExpr, SwitchCasesCollection};
use indexmap::IndexMap;
use rhai_base::{AstError, CaseBlocksList, Cases, Dynamic, RangeCase, Seq};

/// A table of these parts, unless it is refused.
pub fn switch_table(
    expressions: Vec<BinaryExpr>,
    cases: IndexMap<Dynamic, CaseBlocksList>,
    ranges: Vec<RangeCase>,
    def_case: Option<usize>,
) -> Result<SwitchCasesCollection, AstError>
    ensures { IsTableOf expressions.items cases.entries ranges.items def_case result }
{
    let expressions = Seq::from_vec(expressions);
    let cases = Cases::from_map(cases);
    let ranges = Seq::from_vec(ranges);
    match table_refusal(expressions.as_slice(), &cases, ranges.as_slice(), def_case) {
        Some(error) => Err(error),
        None => Ok(SwitchCasesCollection {
            expressions,
            cases,
            ranges,
            def_case,
        }),
    }
}

/// The arms that stand for the subject; a value with a pointer to a function has none.
pub fn case_list<'a>(
    table: &'a SwitchCasesCollection,
    subject: &Dynamic,
) -> Option<&'a CaseBlocksList>
    ensures { option_map (λ l. l.blocks) (option_copied result)
        ≡ cond (is_hashable (value_of subject.now)) (case_for (table_of table.now).cases (value_of subject.now)) None }
{
    if !subject.is_hashable() {
        return None;
    }
    table.cases.as_map().get(subject)
}
