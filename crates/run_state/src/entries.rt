//! What stands in the scope of a run.

ghost use Rattle.std.specs.Prelude.{◌≡◌, ◌&&◌};
ghost use Rattle.theory_meaning.specs.Act as act;
ghost use Rattle.theory_meaning.specs.Desugar.{name_kind};
ghost use Rattle.rhai_base.specs.Value.{same_text};
ghost use Rattle.run_state.specs.Entries.{kind_meant, entry_meant};

use rhai_base::{Dynamic, ImmutableString};

/// What an entry is.
#[derive(Clone, Copy, Debug, PartialEq, Eq)]
pub enum EntryKind {
    /// A name whose value can be replaced.
    Variable,
    /// A name whose value stays.
    Constant,
    /// Another name of a module.
    Alias,
    /// What the list exports.
    Export,
}

impl EntryKind {
    /// That of a name.
    pub fn of_name(is_constant: bool) -> EntryKind
        ensures { kind_meant result ≡ name_kind is_constant }
    {
        if is_constant {
            EntryKind::Constant
        } else {
            EntryKind::Variable
        }
    }

    /// Whether it is a name.
    fn is_name(self) -> bool
        ensures { result ≡ act.is_name (kind_meant self) }
    {
        match self {
            EntryKind::Variable | EntryKind::Constant => true,
            EntryKind::Alias | EntryKind::Export => false,
        }
    }

    /// Whether no write changes it.
    pub fn is_constant(self) -> bool
        ensures { result ≡ act.is_constant (kind_meant self) }
    {
        match self {
            EntryKind::Variable => false,
            EntryKind::Constant | EntryKind::Alias | EntryKind::Export => true,
        }
    }

    /// Whether functions see it as `global::x` where the script's own list declares it.
    pub fn is_published(self) -> bool
        ensures { result ≡ act.is_published (kind_meant self) }
    {
        match self {
            EntryKind::Constant => true,
            EntryKind::Variable | EntryKind::Alias | EntryKind::Export => false,
        }
    }

    /// Whether it is an alias.
    fn is_alias(self) -> bool
        ensures { result ≡ act.is_alias (kind_meant self) }
    {
        match self {
            EntryKind::Alias => true,
            EntryKind::Variable | EntryKind::Constant | EntryKind::Export => false,
        }
    }
}

/// An entry of the scope. An alias has its module's name as a text for its value, an export the exported value.
#[derive(Drop)]
pub struct Entry {
    /// Its name.
    pub name: ImmutableString,
    /// What it is.
    pub kind: EntryKind,
    /// Its value.
    pub value: Dynamic,
}

impl Entry {
    /// Whether it is a name, and this one.
    pub fn is_called(&self, name: &str) -> bool
        ensures { result ≡ act.is_called (entry_meant self.now) name.now }
    {
        self.kind.is_name() && self.name.as_str() == name
    }

    /// Whether it is an alias of this name.
    pub fn is_alias_of(&self, name: &str) -> bool
        ensures { result ≡ (act.is_alias (kind_meant self.now.kind) && same_text self.now.name name.now) }
    {
        self.kind.is_alias() && self.name.as_str() == name
    }
}
