//! The names in sight.

use rhai_base::{OutOfMemory, Position};
use std::alloc::Global;
use std::collections::HashMap;

/// What a name stands for.
#[derive(Clone, Copy, PartialEq, Eq)]
pub(crate) enum NameKind {
    /// A variable or a constant, also of a `catch`.
    Variable,
    /// A variable of a loop, which may only count its rounds.
    Loop,
    /// A parameter of a function.
    Parameter,
    /// An imported module.
    Import,
}

/// A name that is declared.
#[derive(Clone, Copy)]
pub(crate) struct Declared<'a> {
    pub(crate) name: &'a str,
    pub(crate) place: Position,
    pub(crate) kind: NameKind,
    /// Where it was asked for first.
    pub(crate) first_use: Option<Position>,
    /// Where the one of its name stands that it hides.
    hides: Option<usize>,
}

impl<'a> Declared<'a> {
    /// Whether it is asked for, or need not be, as its name may say.
    pub(crate) fn is_spared(&self) -> bool {
        self.first_use.is_some()
            || self.kind == NameKind::Loop
            || self.name.is_empty()
            || self.name.starts_with('_')
    }
}

/// The names that are in sight in a function or in a script's own statements, and those that were.
#[derive(Drop)]
pub(crate) struct Scopes<'a> {
    /// Those in sight, the latest last.
    declared: Vec<Declared<'a>>,
    /// Where the latest of each name stands among them.
    latest: HashMap<&'a str, usize>,
    /// Where each name was declared first.
    first: HashMap<&'a str, Position>,
    /// Where the last of each name was declared whose block ended.
    ended: HashMap<&'a str, Position>,
}

impl<'a> Scopes<'a> {
    /// None.
    pub(crate) fn new(alloc: Global) -> Scopes<'a> {
        Scopes {
            declared: Vec::new(alloc),
            latest: HashMap::new(alloc),
            first: HashMap::new(alloc),
            ended: HashMap::new(alloc),
        }
    }

    /// How many are in sight.
    pub(crate) fn len(&self) -> usize {
        self.declared.len()
    }

    /// Those in sight.
    pub(crate) fn in_sight(&self) -> &[Declared<'a>] {
        self.declared.as_slice()
    }

    /// Declares a name.
    pub(crate) fn declare(
        &mut self,
        name: &'a str,
        place: Position,
        kind: NameKind,
    ) -> Result<(), OutOfMemory> {
        let hides = self.latest.get(&name).copied();
        let at = self.declared.len();
        self.declared.push(Declared {
            name,
            place,
            kind,
            first_use: None,
            hides,
        })?;
        self.latest.insert(name, at)?;
        if !self.first.contains_key(&name) {
            self.first.insert(name, place)?;
        }
        Ok(())
    }

    /// Asks for a name there. Whether it is in sight.
    pub(crate) fn asks(&mut self, name: &'a str, place: Position) -> bool {
        let Some(at) = self.latest.get(&name).copied() else {
            return false;
        };
        if let Some(declared) = self.declared.get_mut(at) {
            declared.first_use = Some(declared.first_use.unwrap_or(place));
        }
        true
    }

    /// Takes the latest name out of sight.
    pub(crate) fn forget(&mut self) -> Result<Option<Declared<'a>>, OutOfMemory> {
        let Some(declared) = self.declared.pop() else {
            return Ok(None);
        };
        match declared.hides {
            Some(at) => {
                self.latest.insert(declared.name, at)?;
            }
            None => {
                self.latest.remove(&declared.name);
            }
        }
        self.ended.insert(declared.name, declared.place)?;
        Ok(Some(declared))
    }

    /// Where a name was declared whose block ended.
    pub(crate) fn ended(&self, name: &'a str) -> Option<Position> {
        self.ended.get(&name).copied()
    }

    /// Where a name was declared first, in sight or not.
    pub(crate) fn first(&self, name: &'a str) -> Option<Position> {
        self.first.get(&name).copied()
    }
}
