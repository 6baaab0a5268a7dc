//! The variables and constants that a script starts with.
ghost use Rattle.std.specs.Prelude.{◌≡◌, [], ◌∷◌, ◌++◌, OnOk, OnErr, length, false, true};

use crate::Dynamic;
use base_lists::Seq;
use base_text::ImmutableString;
use base_tokens::OutOfMemory;
use std::alloc::Global;
use std::marker::Model;

/// A name of a scope.
#[derive(Debug, Drop)]
pub struct ScopeEntry {
    name: ImmutableString,
    is_constant: bool,
    value: Dynamic,
}

/// The names of a script's surroundings, in the order in which they were pushed; a later one hides an
/// earlier one of its name. Contracts see the list of its entries.
#[derive(Debug, Drop)]
pub struct Scope {
    entries: Seq<ScopeEntry>,
}

impl Model for Scope {
    ghost use Rattle.std.specs.Prelude.{List};
    ghost use Rattle.std.specs.Coded.{coded_list};
    ghost use Rattle.rhai_base.specs.declared.scope.ScopeEntry.{ScopeEntry};
    ghost use Rattle.rhai_base.specs.contracts.scope.ScopeEntry as entry;

    ghost Value = { List ScopeEntry };

    ghost coded = { coded_list entry.the_row.coded };

    ghost view = { λ s. s.entries };
}

impl Scope {
    ghost use Rattle.rhai_base.specs.declared.scope.ScopeEntry.{ScopeEntry};

    /// A scope without names. It takes no memory.
    pub fn new(alloc: Global) -> Scope
        ensures { result ≡ [] }
    {
        Scope {
            entries: Seq::new(alloc),
        }
    }

    /// Adds a variable at the end.
    pub fn push(&mut self, name: ImmutableString, value: Dynamic) -> Result<(), OutOfMemory>
        ensures ok { OnOk result
            (self.new ≡ self.old ++ record { name = name; is_constant = false; value = value } ∷ []) }
        ensures err { OnErr result (self.new ≡ self.old) }
    {
        self.push_entry(name, false, value)
    }

    /// Adds a constant at the end.
    pub fn push_constant(
        &mut self,
        name: ImmutableString,
        value: Dynamic,
    ) -> Result<(), OutOfMemory>
        ensures ok { OnOk result
            (self.new ≡ self.old ++ record { name = name; is_constant = true; value = value } ∷ []) }
        ensures err { OnErr result (self.new ≡ self.old) }
    {
        self.push_entry(name, true, value)
    }

    fn push_entry(
        &mut self,
        name: ImmutableString,
        is_constant: bool,
        value: Dynamic,
    ) -> Result<(), OutOfMemory>
        ensures ok { OnOk result
            (self.new ≡ self.old ++ record { name = name; is_constant = is_constant; value = value } ∷ []) }
        ensures err { OnErr result (self.new ≡ self.old) }
    {
        self.entries.push(ScopeEntry {
            name,
            is_constant,
            value,
        })?;
        Ok(())
    }

    /// How many names were pushed.
    pub fn len(&self) -> usize
        ensures { result ≡ length self.now }
    {
        self.entries.len()
    }

    /// The names in the order in which they were pushed, each with whether it is a constant, and its
    /// value.
    pub fn iter(&self) -> ScopeIter<'_>
        ensures { result.entries.now ≡ self.now }
    {
        ScopeIter {
            entries: self.entries.as_slice(),
        }
    }
}

/// Goes over the names of a scope.
#[derive(Drop)]
pub struct ScopeIter<'a> {
    entries: &'a [ScopeEntry],
}

impl<'a> Iterator for ScopeIter<'a> {
    ghost use Rattle.std.specs.Iterator.{YieldsFirstBy, item_count};

    type Item = (&'a str, bool, &'a Dynamic);

    ghost next_gives = { YieldsFirstBy (λ e.
        record { name = e.0.now; is_constant = e.1; value = e.2.now }) (λ s. s.entries.now) };

    ghost remaining = { item_count (λ s. s.entries.now) };

    fn next(&mut self) -> Option<(&'a str, bool, &'a Dynamic)> {
        let (first, others) = self.entries.split_first()?;
        self.entries = others;
        Some((first.name.as_str(), first.is_constant, &first.value))
    }
}
