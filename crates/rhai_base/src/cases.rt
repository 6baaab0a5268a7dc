//! The cases of a `switch` by their values.

ghost use Rattle.std.specs.Prelude.{◌≡◌};

use crate::dynamic::Dynamic;
use base_lists::Seq;
use indexmap::IndexMap;
use std::alloc::AllocError;
use std::marker::Model;

/// The arms of one case, by their places in the table.
#[derive(Drop)]
pub struct CaseBlocksList {
    /// The places.
    pub blocks: Seq<usize>,
}

impl Clone for CaseBlocksList {
    ghost is_clone = { λ b c. c ≡ b };

    #[tactic(auto, using(base_lists::proofs::Copies::copies))]
    fn clone(&self) -> Result<CaseBlocksList, AllocError> {
        let blocks = self.blocks.clone()?;
        Ok(CaseBlocksList { blocks })
    }
}

/// The cases of a `switch` by their values, in the order in which they came.
pub struct Cases {
    map: IndexMap<Dynamic, CaseBlocksList>,
}

/// Written by hand, so that it is proved here alone.
impl Drop for Cases {
    fn drop(self) {
        let Cases { map: _map } = self;
    }
}

impl Model for Cases {
    ghost use Rattle.std.specs.Prelude.{List};
    ghost use Rattle.std.specs.Coded.{coded_list, coded×};
    ghost use Rattle.rhai_base.specs.declared.dynamic.Dynamic.{Dynamic};
    ghost use Rattle.rhai_base.specs.declared.cases.CaseBlocksList.{CaseBlocksList};
    ghost use Rattle.rhai_base.specs.contracts.dynamic.Dynamic as value;
    ghost use Rattle.rhai_base.specs.contracts.cases.CaseBlocksList as blocks;

    ghost Value = { List (Dynamic × CaseBlocksList) };

    ghost coded = { coded_list (coded× value.the_row.coded blocks.the_row.coded) };

    ghost view = { λ c. c.map.entries };
}

impl Clone for Cases {
    ghost is_clone = { λ c d. d ≡ c };

    #[tactic(auto, using(base_lists::proofs::Copies::copies))]
    fn clone(&self) -> Result<Cases, AllocError> {
        let copies = self.map.clone()?;
        Ok(Cases { map: copies })
    }
}

impl Cases {
    /// The cases of a map.
    pub fn from_map(map: IndexMap<Dynamic, CaseBlocksList>) -> Cases
        ensures { result ≡ map.entries }
    {
        Cases { map }
    }

    /// The cases as a map, lent.
    pub fn as_map(&self) -> &IndexMap<Dynamic, CaseBlocksList>
        ensures { result.now.entries ≡ self.now }
    {
        &self.map
    }

    /// Puts another map in place of the cases' own, which it answers. So a table is changed without a copy: an empty
    /// map, which takes no memory, stands there until the changed one is put back.
    pub fn replace_map(
        &mut self,
        map: IndexMap<Dynamic, CaseBlocksList>,
    ) -> IndexMap<Dynamic, CaseBlocksList>
        ensures taken { result.entries ≡ self.old }
        ensures left { self.new ≡ map.entries }
    {
        std::mem::replace(&mut self.map, map)
    }

    /// The map of the cases, taken out.
    pub fn into_map(self) -> IndexMap<Dynamic, CaseBlocksList>
        ensures { result.entries ≡ self }
    {
        let Cases { map } = self;
        map
    }
}
