//! What a `switch` chooses by.

use crate::error::ReadError;
use crate::letters::Letters;
use crate::marks::Marks;
use indexmap::IndexMap;
use rhai_ast::{CaseBlocksList, Cases, SwitchCasesCollection};
use rhai_base::{Dynamic, INT, Position, RangeCase, Seq};

impl<'a, M: Marks> Letters<'a, M> {
    /// Cases, ranges and default, with `|` between them; the table has no arms yet.
    pub(crate) fn table(&self) -> SwitchCasesCollection {
        let cases = self.cases();
        let ranges = self.ranges();
        SwitchCasesCollection {
            expressions: Seq::new(self.alloc),
            cases,
            ranges,
            def_case: self.default(),
        }
    }

    fn cases(&self) -> Cases {
        let mut cases = IndexMap::new(self.alloc);
        for _ in 0..self.most() {
            let position = self.here();
            match self.value() {
                Some(key) => self.case(&mut cases, key, position),
                None => break,
            }
            if !self.skip(", ") {
                break;
            }
        }
        self.expect(" | ");
        Cases::from_map(cases)
    }

    /// Puts the places of a case's arms there, under its value, which should be a new one.
    fn case(
        &self,
        cases: &mut IndexMap<Dynamic, CaseBlocksList>,
        value: Dynamic,
        position: Position,
    ) {
        if let Some(Some(_places)) = self.made(cases.insert(value, self.places())) {
            self.refuse(ReadError::KeyTwice { position });
        }
    }

    /// The places of a case's arms; where there are none a blank may stand for them.
    fn places(&self) -> CaseBlocksList {
        self.expect(":");
        let mut blocks = Vec::new(self.alloc);
        if self.starts("  |") || self.starts(" ,") {
            self.skip(" ");
        }
        for _ in 0..self.most() {
            if self.starts(" |") || !self.skip(" ") {
                break;
            }
            self.push(&mut blocks, Some(self.number()));
        }
        CaseBlocksList {
            blocks: Seq::from_vec(blocks),
        }
    }

    fn ranges(&self) -> Seq<RangeCase> {
        let mut ranges = Vec::new(self.alloc);
        for _ in 0..self.most() {
            match self.integer() {
                Some(start) => self.push(&mut ranges, Some(self.range(start))),
                None => break,
            }
            if !self.skip(", ") {
                break;
            }
        }
        self.expect(" | ");
        Seq::from_vec(ranges)
    }

    /// A range from a start, with the place of its arm.
    fn range(&self, start: INT) -> RangeCase {
        let mut range = if self.skip("..=") {
            RangeCase::from(start..=self.end_of_range())
        } else {
            self.expect("..");
            RangeCase::from(start..self.end_of_range())
        };
        self.expect(": ");
        range.set_index(self.number());
        range
    }

    fn default(&self) -> Option<usize> {
        self.expect("default ");
        let default = if self.skip("-") {
            None
        } else {
            Some(self.number())
        };
        self.expect(" | ");
        default
    }
}
