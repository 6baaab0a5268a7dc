//! `switch`.

use crate::inside::Inside;
use crate::needs::Need;
use crate::printer::Printer;
use crate::statements::ends_by_itself;
use crate::tables::{Chooser, Row, rows_of};
use crate::values::Holder;
use rhai_ast::{Expr, Stmt, SwitchBlock, SwitchCasesCollection};
use rhai_base::{INT, Position, RangeCase};

/// How many integers a range has at most that a text makes cases.
const SMALL_SWITCH_RANGE: INT = 16;

impl<'t> Printer<'t> {
    /// A `switch` that stands there, with its arms, each on a line.
    #[cycle(print)]
    pub(crate) fn switch(&self, switch: &'t SwitchBlock, pos: Position, inside: Inside) {
        let table = &switch.cases;
        self.put("switch ");
        self.expr(&switch.expr, Need::Start, inside);
        self.put(" {\n");
        if let Some(rows) = self.made(rows_of(self.alloc, table)) {
            self.rows(rows.as_slice(), table, pos, inside.block());
        }
        self.default(table, inside.block());
        self.begin_line(inside);
        self.put("}");
    }

    #[cycle(print)]
    fn rows(&self, rows: &[Row], table: &'t SwitchCasesCollection, pos: Position, inside: Inside) {
        let mut has_range = false;
        for row in rows {
            let is_small = !has_range && is_small_range(row, table);
            has_range = has_range || row.first_range().is_some();
            self.begin_line(inside);
            self.choosers(row, table, pos, inside);
            self.arm(row, table, is_small, inside);
        }
    }

    /// What chooses an arm, with `|` between.
    #[cycle(print)]
    fn choosers(&self, row: &Row, table: &'t SwitchCasesCollection, pos: Position, inside: Inside) {
        for (index, chooser) in row.choosers.as_slice().iter().enumerate() {
            if index > 0 {
                self.put(" | ");
            }
            match chooser {
                Chooser::Key(place) => self.case(*place, table, pos, inside),
                Chooser::Range(place) => self.range_case(*place, table),
            }
        }
    }

    /// A key by its place.
    #[cycle(print)]
    fn case(&self, place: usize, table: &'t SwitchCasesCollection, pos: Position, inside: Inside) {
        if let Some((key, _)) = table.cases.as_map().get_index(place) {
            let holder = Holder {
                position: pos,
                is_key: true,
            };
            self.value(key, holder, inside);
        }
    }

    /// A range by its place.
    fn range_case(&self, place: usize, table: &SwitchCasesCollection) {
        match table.ranges.as_slice().get(place) {
            Some(RangeCase::ExclusiveInt(range, _)) => self.range(range.start, "..", range.end),
            Some(RangeCase::InclusiveInt(range, _)) => {
                self.range(*range.start(), "..=", *range.end());
            }
            None => {}
        }
    }

    /// The condition and the answer of an arm; a key without arms has one that answers nothing.
    #[cycle(print)]
    fn arm(&self, row: &Row, table: &'t SwitchCasesCollection, is_small: bool, inside: Inside) {
        match table.expressions.as_slice().get(row.arm) {
            Some(arm) => {
                self.condition(&arm.lhs, is_small, inside);
                self.answer(&arm.rhs, inside);
            }
            None => self.put(" if false => {}\n"),
        }
    }

    /// The condition of an arm, where it is one. An arm of a small range has one, so that the range stays.
    #[cycle(print)]
    fn condition(&self, condition: &'t Expr, is_small: bool, inside: Inside) {
        match condition {
            Expr::BoolConstant(true, _) if is_small => self.put(" if ({ true })"),
            Expr::BoolConstant(true, _) => {}
            _ => {
                self.put(" if ");
                self.expr(condition, Need::Condition, inside);
            }
        }
    }

    /// The answer of an arm, which is read as a statement.
    #[cycle(print)]
    fn answer(&self, answer: &'t Expr, inside: Inside) {
        self.put(" => ");
        match answer {
            Expr::Stmt(block) => match block.get().statements() {
                [statement] if answers_alone(statement) => {
                    self.statement(statement, inside);
                    self.put(if ends_by_itself(statement) {
                        "\n"
                    } else {
                        ",\n"
                    });
                }
                _ => {
                    self.block(block.get(), inside.past(1));
                    self.put("\n");
                }
            },
            _ => {
                self.expr(answer, Need::Start, inside.past(1));
                self.put(",\n");
            }
        }
    }

    /// The default arm, where there is one.
    #[cycle(print)]
    fn default(&self, table: &'t SwitchCasesCollection, inside: Inside) {
        let place = table.def_case.unwrap_or(usize::MAX);
        if let Some(arm) = table.expressions.as_slice().get(place) {
            self.begin_line(inside);
            self.put("_");
            self.answer(&arm.rhs, inside);
        }
    }
}

/// Whether a statement is the answer of an arm by itself: it declares nothing, and a block would be taken apart. A
/// `throw` or `break` without a value would take what follows for one.
fn answers_alone(statement: &Stmt) -> bool {
    !matches!(
        statement,
        Stmt::Block(_)
            | Stmt::Noop(_)
            | Stmt::Return(None, ..)
            | Stmt::BreakLoop(None, ..)
            | Stmt::Var(..)
            | Stmt::Import(..)
            | Stmt::Export(..)
            | Stmt::Share(_)
    )
}

/// Whether the first range of an arm is small.
fn is_small_range(row: &Row, table: &SwitchCasesCollection) -> bool {
    let place = row.first_range().unwrap_or(usize::MAX);
    match table.ranges.as_slice().get(place) {
        Some(range) => matches!(range.checked_len(), Some(0..=SMALL_SWITCH_RANGE)),
        None => false,
    }
}
