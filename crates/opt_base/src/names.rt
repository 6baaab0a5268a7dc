//! Names with what is known of them.
ghost use Rattle.std.specs.Prelude.{◌≡◌, ◌-◌, ◌∷◌, [], length, drop, OnErr, OnOk};
ghost use Rattle.std.specs.Option.{option_copied, option_map};
ghost use Rattle.rhai_base.specs.Reading.{value_of};
ghost use Rattle.theory_rewriting.specs.Known.{look};
ghost use Rattle.opt_base.specs.Bindings.{read};
ghost use Rattle.opt_base.specs.State.{known_of};

use crate::bindings::{Bindings, add, latest, take_newest};
use rhai_base::{Dynamic, ImmutableString, OutOfMemory};
use std::alloc::Global;
use std::borrow::Cow;
use std::collections::BTreeMap;
use std::marker::Model;

/// Names with their values where they are constants, seen as a list, the newest first.
#[derive(Drop)]
pub struct KnownNames<'a> {
    bindings: Bindings<'a>,
    names: Vec<ImmutableString>,
}

impl<'a> Model for KnownNames<'a> {
    ghost use Rattle.std.specs.Prelude.{List, Option, reverse};
    ghost use Rattle.std.specs.Coded.{codes};
    ghost use Rattle.base_text.specs.Text.{Text};
    ghost use Rattle.rhai_base.specs.declared.dynamic.Dynamic.{Dynamic};
    ghost use Rattle.rhai_base.specs.contracts.dynamic.Dynamic as dynamic;
    ghost use Rattle.opt_base.specs.Bindings.{held_in};
    ghost use Rattle.opt_base.specs.State.{Settled, entries_of};

    ghost Value = { List (Text × Option Dynamic) };

    ghost coded = { Prim.hlevel (codes, dynamic.the_row.coded) };

    ghost view = { λ s. entries_of (reverse s.names.items) (held_in s.bindings) };

    ghost invariant = { λ s. Settled (reverse s.names.items) (held_in s.bindings) };
}

impl<'a> KnownNames<'a> {
    /// None. It takes no memory.
    pub fn new(alloc: Global) -> KnownNames<'a>
        ensures { result ≡ [] }
    {
        KnownNames {
            bindings: BTreeMap::new(alloc),
            names: Vec::new(alloc),
        }
    }

    /// How many there are, each as often as it was pushed.
    pub fn len(&self) -> usize
        ensures { result ≡ length self.now }
    {
        self.names.len()
    }

    /// Pushes a name: a constant of this value, or one of which nothing is known. A refused push leaves the names as they
    /// were.
    pub fn push(
        &mut self,
        name: ImmutableString,
        binding: Option<Cow<'a, Dynamic>>,
    ) -> Result<(), OutOfMemory>
        ensures ok { OnOk result (self.new ≡ (name, read binding.entry) ∷ self.old) }
        ensures err { OnErr result (self.new ≡ self.old) }
    {
        self.names.reserve(1)?;
        let alloc = *self.names.allocator();
        add(alloc, &mut self.bindings, name.as_str(), binding)?;
        self.names.push(name)?;
        Ok(())
    }

    /// Forgets the newest name.
    fn forget_newest(&mut self)
        ensures { self.new ≡ drop 1 self.old }
    {
        if let Some(name) = self.names.pop() {
            take_newest(&mut self.bindings, name.as_str());
        }
    }

    /// Keeps the oldest names, so many. Where there are no more, all stay.
    pub fn rewind(&mut self, len: usize)
        ensures { self.new ≡ drop (length self.old - len) self.old }
    {
        while self.len() > len {
            self.forget_newest();
        }
    }

    /// The value of the latest entry of a name, lent; none where nothing is known of it, or where there is no entry.
    pub fn find(&self, name: &str) -> Option<&Dynamic>
        ensures { option_map value_of (option_copied result) ≡ look (known_of self.now) name.now }
    {
        latest(&self.bindings, name)
    }
}
