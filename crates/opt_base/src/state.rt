//! What changes while a script is optimised.

#![tactic(auto, using(crate::proofs::Globals::looking))]

ghost use Rattle.std.specs.Prelude.{◌≡◌, ◌-◌, ◌∷◌, [], true, false, length, drop, None, Some, OnErr, OnOk};
ghost use Rattle.std.specs.Option.{option_copied, option_map};
ghost use Rattle.std.specs.Map.Iter.{deref};
ghost use Rattle.rhai_base.specs.Reading.{value_of};
ghost use Rattle.theory_rewriting.specs.Known.{look, look_global};
ghost use Rattle.opt_base.specs.Bindings.{read};
ghost use Rattle.opt_base.specs.State.{progress};

use crate::level::OptimizationLevel;
use crate::names::KnownNames;
use base_engine::EngineInfo;
use rhai_base::{Dynamic, ImmutableString, OutOfMemory, Scope};
use std::alloc::Global;
use std::borrow::Cow;
use std::marker::Model;

/// What the optimiser is given, and what changes while it works: whether a rule has fired since the flag was cleared,
/// the names that are known, and the constants of the script's own list that are known where a body is optimised.
#[derive(Drop)]
pub struct OptimizerState<'a> {
    info: &'a EngineInfo,
    scope: Option<&'a Scope>,
    level: OptimizationLevel,
    globals: Option<&'a KnownNames<'a>>,
    is_dirty: bool,
    names: KnownNames<'a>,
}

impl<'a> Model for OptimizerState<'a> {
    ghost use Rattle.std.specs.Coded.{codes};
    ghost use Rattle.std.specs.Option.{option_map};
    ghost use Rattle.std.specs.Map.Iter.{deref};
    ghost use Rattle.rhai_base.specs.contracts.dynamic.Dynamic as dynamic;
    ghost use Rattle.rhai_base.specs.contracts.scope.ScopeEntry as entry;
    ghost use Rattle.base_engine.specs.contracts.engine_info.EngineInfo as engine_info;
    ghost use Rattle.opt_base.specs.State.{Standing};

    ghost Value = { Standing };

    ghost coded = { Prim.hlevel (codes, dynamic.the_row.coded, entry.the_row.coded, engine_info.the_row.coded) };

    ghost view = { λ s. record {
      setting = record { info = s.info.now; scope = option_map deref s.scope; level = s.level; globals = option_map deref s.globals };
      is_dirty = s.is_dirty;
      entries = s.names;
    } };
}

impl<'a> OptimizerState<'a> {
    /// Nothing has changed yet, and nothing is known: the names of the scope are not pushed. It takes no memory.
    pub fn new(
        alloc: Global,
        info: &'a EngineInfo,
        scope: Option<&'a Scope>,
        level: OptimizationLevel,
    ) -> OptimizerState<'a>
        ensures info { result.setting.info ≡ info.now }
        ensures scope { result.setting.scope ≡ option_map deref scope.entry }
        ensures level { result.setting.level ≡ level }
        ensures globals { result.setting.globals ≡ None }
        ensures flag { result.is_dirty ≡ false }
        ensures names { result.entries ≡ [] }
    {
        OptimizerState {
            info,
            scope,
            level,
            globals: None,
            is_dirty: false,
            names: KnownNames::new(alloc),
        }
    }

    /// The same where no name is known and nothing has changed, without a scope. It takes no memory.
    pub fn without_names(&self, alloc: Global) -> OptimizerState<'a>
        ensures level { result.setting.level ≡ self.now.setting.level }
        ensures globals { result.setting.globals ≡ self.now.setting.globals }
        ensures flag { result.is_dirty ≡ false }
        ensures names { result.entries ≡ [] }
    {
        OptimizerState {
            info: self.info,
            scope: None,
            level: self.level,
            globals: self.globals,
            is_dirty: false,
            names: KnownNames::new(alloc),
        }
    }

    /// Lets the constants of the script's own list be known.
    pub fn know_globals(&mut self, globals: &'a KnownNames<'a>)
        ensures globals { self.new.setting ≡ record self.old.setting { globals = Some globals.now } }
        ensures flag { self.new.is_dirty ≡ self.old.is_dirty }
        ensures names { self.new.entries ≡ self.old.entries }
    {
        self.globals = Some(globals);
    }

    /// The engine's record.
    pub fn info(&self) -> &'a EngineInfo
        ensures { result.now ≡ self.now.setting.info }
    {
        self.info
    }

    /// The scope that the script starts with, where it is known.
    pub fn scope(&self) -> Option<&'a Scope>
        ensures { option_map deref result ≡ self.now.setting.scope }
    {
        self.scope
    }

    /// How much is optimised.
    pub fn level(&self) -> OptimizationLevel
        ensures { result ≡ self.now.setting.level }
    {
        self.level
    }

    /// Notes that the tree was changed.
    pub fn set_dirty(&mut self)
        ensures flag { self.new.is_dirty ≡ true }
        ensures names { self.new.entries ≡ self.old.entries }
        ensures setting { self.new.setting ≡ self.old.setting }
    {
        self.is_dirty = true;
    }

    /// Forgets that the tree was changed.
    pub fn clear_dirty(&mut self)
        ensures flag { self.new.is_dirty ≡ false }
        ensures names { self.new.entries ≡ self.old.entries }
        ensures setting { self.new.setting ≡ self.old.setting }
    {
        self.is_dirty = false;
    }

    /// Whether the tree was changed.
    pub fn is_dirty(&self) -> bool
        ensures { result ≡ self.now.is_dirty }
    {
        self.is_dirty
    }

    /// How many names are known, each as often as it was pushed.
    pub fn len(&self) -> usize
        ensures { result ≡ length self.now.entries }
    {
        self.names.len()
    }

    /// Pushes a name: a constant of this value, or a variable. A refused push leaves the names as they were.
    pub fn push_var(
        &mut self,
        name: ImmutableString,
        binding: Option<Cow<'a, Dynamic>>,
    ) -> Result<(), OutOfMemory>
        ensures ok { OnOk result (self.new.entries ≡ (name, read binding.entry) ∷ self.old.entries) }
        ensures err { OnErr result (self.new.entries ≡ self.old.entries) }
        ensures flag { self.new.is_dirty ≡ self.old.is_dirty }
        ensures setting { self.new.setting ≡ self.old.setting }
    {
        self.names.push(name, binding)
    }

    /// Keeps the oldest names, so many. Where there are no more, all stay.
    pub fn rewind_var(&mut self, len: usize)
        ensures names { self.new.entries ≡ drop (length self.old.entries - len) self.old.entries }
        ensures flag { self.new.is_dirty ≡ self.old.is_dirty }
        ensures setting { self.new.setting ≡ self.old.setting }
    {
        self.names.rewind(len);
    }

    /// The value of the latest entry of a name, lent; none where that is a variable, or where there is no entry.
    pub fn find_literal_constant(&self, name: &str) -> Option<&Dynamic>
        ensures { option_map value_of (option_copied result) ≡ look (progress self.now).known name.now }
    {
        self.names.find(name)
    }

    /// The value of a constant of the script's own list, lent; none where it is not known.
    pub fn find_global(&self, name: &str) -> Option<&Dynamic>
        ensures { option_map value_of (option_copied result) ≡ look_global (progress self.now).known name.now }
    {
        self.globals?.find(name)
    }
}
