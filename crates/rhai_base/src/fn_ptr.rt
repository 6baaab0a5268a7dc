//! Pointers to functions.
#![tactic(auto, using(crate::specs::Reading::kinds))]

ghost use Rattle.std.specs.Prelude.{◌≡◌, ◌≢◌, ◌↔◌, ◌++◌, ◌∷◌, [], IsTrue, MatchOption, OnOk, OnErr, true, false};
ghost use Rattle.base_tokens.specs.Names.{is_valid_name};

use crate::Dynamic;
use base_lists::Seq;
use base_text::ImmutableString;
use base_tokens::{FnName, OutOfMemory};
use std::alloc::Global;

/// A pointer to a function, by its name, with the values of its first parameters.
#[cycle(dynamic)]
#[derive(Debug, Drop, PartialEq, Eq, Hash)]
pub struct FnPtr {
    pub(crate) name: FnName,
    pub(crate) curried: Seq<Dynamic>,
}

impl FnPtr {
    /// A pointer to the function of this name, without values, where a function may have the name. It
    /// takes no memory.
    pub fn new(alloc: Global, name: ImmutableString) -> Option<FnPtr>
        ensures { MatchOption result (is_valid_name name ≡ false) (λ p.
            (p.name ≡ name) × (p.curried ≡ []) × (is_valid_name name ≡ true)) }
    {
        let name = FnName::new(name)?;
        Some(FnPtr {
            name,
            curried: Seq::new(alloc),
        })
    }

    /// The function's name.
    pub fn fn_name(&self) -> &str
        ensures name { result.now ≡ self.now.name }
        ensures valid { is_valid_name self.now.name ≡ true }
    {
        self.name.as_str()
    }

    /// The function's name, taken out; the values are dropped. It is not in rhai.
    pub fn into_name(self) -> ImmutableString
        ensures name { result ≡ self.name }
        ensures valid { is_valid_name self.name ≡ true }
    {
        let FnPtr { name, curried: _ } = self;
        name.into_name()
    }

    /// The values of the first parameters.
    pub fn curry(&self) -> &[Dynamic]
        ensures { result.now ≡ self.now.curried }
    {
        self.curried.as_slice()
    }

    /// Adds the value of the next parameter. A refused call gives the value up. rhai answers the pointer.
    pub fn add_curry(&mut self, value: Dynamic) -> Result<(), OutOfMemory>
        ensures name { self.new.name ≡ self.old.name }
        ensures ok { OnOk result (self.new.curried ≡ self.old.curried ++ value ∷ []) }
        ensures err { OnErr result (self.new.curried ≡ self.old.curried) }
    {
        self.curried.push(value)?;
        Ok(())
    }

    /// Whether it has values of parameters.
    pub fn is_curried(&self) -> bool
        ensures { IsTrue result ↔ (self.now.curried ≢ []) }
    {
        !self.curried.is_empty()
    }
}
