//! The arms that the table of a `switch` lists.

#![tactic(auto, using(ast_types::specs::Reading::shapes))]

ghost use Rattle.std.specs.Prelude.{◌≡◌, [], ◌∷◌, ◌++◌, MatchOption};
ghost use Rattle.rhai_ast.specs.Arms.{default_of, places_left, ranges_left};
ghost use Rattle.rhai_ast.specs.Standing.{arms_standing, default_standing, listed_standing, sides_standing};
ghost use Rattle.theory_meaning.specs.Walk.{listed};
ghost use Rattle.ast_types.specs.Reading.{expressions_of, table_of};

use ast_types::{BinaryExpr, SwitchCasesCollection};

/// The arms that are still to come, each time that the table lists them: by cases, then by ranges; the default is
/// apart. It counts and holds no list: a walk has room for it at each node that has children.
#[derive(Clone, Copy)]
pub(crate) struct ListedArms<'a> {
    table: &'a SwitchCasesCollection,
    /// The cases that were gone through.
    cases: usize,
    /// How many places were taken of those that the other cases and the ranges list.
    taken: usize,
}

impl<'a> ListedArms<'a> {
    /// Those of a table.
    pub(crate) fn of(table: &'a SwitchCasesCollection) -> ListedArms<'a>
        ensures { arms_standing result
            ≡ listed_standing (expressions_of table.now) (listed (table_of table.now)) }
    {
        ListedArms {
            table,
            cases: 0,
            taken: 0,
        }
    }

    /// Takes the first that the table has. A place past the table names none.
    pub(crate) fn next(&mut self) -> Option<&'a BinaryExpr>
        ensures table { self.new.table ≡ self.old.table }
        ensures standing { MatchOption result (arms_standing self.old ≡ default_standing self.old.table.now) (λ b.
            arms_standing self.old ≡ sides_standing b.now ++ arms_standing self.new) }
    {
        while let Some(place) = self.next_place() {
            if let Some(arm) = self.table.expressions.as_slice().get(place) {
                return Some(arm);
            }
        }
        None
    }

    /// The arm of the default, if the table has it.
    pub(crate) fn default(self) -> Option<&'a BinaryExpr>
        ensures { MatchOption result (default_standing self.entry.table.now ≡ []) (λ b.
            default_standing self.entry.table.now ≡ sides_standing b.now) }
    {
        self.table.expressions.as_slice().get(self.table.def_case?)
    }

    /// Takes the first place that is listed.
    fn next_place(&mut self) -> Option<usize>
        ensures table { self.new.table ≡ self.old.table }
        ensures places { MatchOption result (places_left self.old ≡ default_of self.old.table.now) (λ i.
            places_left self.old ≡ i ∷ places_left self.new) }
    {
        let cases = self.table.cases.as_map();
        while self.cases < cases.len() {
            let list = &cases[self.cases];
            if let Some(place) = list.blocks.as_slice().get(self.taken) {
                self.taken += 1;
                return Some(*place);
            }
            self.cases += 1;
            self.taken -= list.blocks.len();
        }
        self.next_range()
    }

    /// Takes the place of the first range, where no case is left.
    fn next_range(&mut self) -> Option<usize>
        ensures table { self.new.table ≡ self.old.table }
        ensures cases { self.new.cases ≡ self.old.cases }
        ensures places { MatchOption result (ranges_left self.old ≡ default_of self.old.table.now) (λ i.
            ranges_left self.old ≡ i ∷ ranges_left self.new) }
    {
        let range = self.table.ranges.as_slice().get(self.taken)?;
        self.taken += 1;
        Some(range.index())
    }
}
