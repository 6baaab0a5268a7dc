//! What a run changes, and how a part of it ends.

#![tactic(auto, using(crate::proofs::Declared::declaring))]

ghost use Rattle.std.specs.Prelude.{◌≡◌, ◌&&◌, map, IfOk, OnOk, ◌∷◌, [], option_map};
ghost use Rattle.theory_meaning.specs.Act as act;
ghost use Rattle.theory_meaning.specs.Act.{declared, inside, published};
ghost use Rattle.theory_meaning.specs.Desugar.{name_kind};
ghost use Rattle.theory_meaning.specs.Run.{bind, called_from, seen};
ghost use Rattle.theory_meaning.specs.Run.{started as at_start};
ghost use Rattle.rhai_base.specs.Reading.{value_of};
ghost use Rattle.run_state.specs.declared.state.Interrupt.TheVariants.{NoMemory};
ghost use Rattle.run_state.specs.State.{aliased_in, declared_in, outside, store_of, GoesOn, Marks, TakesTurn};
ghost use Rattle.run_host.specs.Entries.{start_scope};
ghost use Rattle.run_host.specs.Entries.{entry_meant as start_entry};
ghost use Rattle.run_state.specs.Entries.{kind_meant, entry_meant, scope_meant};

use crate::entries::{Entry, EntryKind};
use rhai_base::{Dynamic, ImmutableString, OutOfMemory, Scope, Seq};
use run_host::{HostCall, Stuck};
use std::alloc::{AllocError, AllocFailed, Global};

/// Why a part of a run has no value.
#[derive(Drop)]
pub enum Interrupt {
    /// There was no memory.
    NoMemory,
    /// The function is left, or the script, with its value.
    Return(Dynamic),
    /// The loop is left with a value.
    Break(Dynamic),
    /// The round of the loop is left.
    Continue,
    /// A value was thrown.
    Throw(Dynamic),
    /// The run is stuck.
    Stuck(Stuck),
    /// A turn was needed, and none was left.
    OutOfTurns,
}

impl From<OutOfMemory> for Interrupt {
    ghost from_gives = { λ x y. y ≡ NoMemory };

    fn from(_: OutOfMemory) -> Interrupt {
        Interrupt::NoMemory
    }
}

impl From<AllocError> for Interrupt {
    ghost from_gives = { λ x y. y ≡ NoMemory };

    fn from(_: AllocError) -> Interrupt {
        Interrupt::NoMemory
    }
}

impl<T: Drop> From<AllocFailed<T>> for Interrupt {
    ghost from_gives = { λ x y. y ≡ NoMemory };

    fn from(_: AllocFailed<T>) -> Interrupt {
        Interrupt::NoMemory
    }
}

/// The entries of the scope, the constants that functions see, `this`, the calls so far, and the turns left.
#[derive(Drop)]
pub struct State {
    /// The entries of the scope, latest last.
    pub scope: Vec<Entry>,
    /// The constants that functions see as `global::x`, latest last: those that the script's own list has declared.
    pub globals: Vec<Entry>,
    /// Whether the script's own list is run, and no list inside it and no function's body.
    pub is_own: bool,
    /// The value of `this`, where it is bound.
    pub this: Option<Dynamic>,
    /// The calls to the host, in order.
    pub calls: Seq<HostCall>,
    /// The turns left.
    pub turns: u64,
}

/// Where a list inside another one began: how many entries there were, and whether the list around it is the
/// script's own.
#[derive(Clone, Copy)]
pub struct Mark {
    names: usize,
    is_own: bool,
}

impl State {
    /// Where a run starts.
    pub fn new(alloc: Global, scope: &Scope, turns: u64) -> Result<State, AllocError>
        ensures store { IfOk result (λ s.
            store_of s ≡ at_start (start_scope scope.now)) }
        ensures turns { IfOk result (λ s. s.turns ≡ turns) }
    {
        Ok(State {
            scope: entries(alloc, scope)?,
            globals: Vec::new(alloc),
            is_own: true,
            this: None,
            calls: Seq::new(alloc),
            turns,
        })
    }

    /// Takes a turn, if one is left.
    pub fn take_turn(&mut self) -> Result<(), Interrupt>
        ensures { TakesTurn self.old result self.new }
    {
        let Some(left) = self.turns.checked_sub(1) else {
            return Err(Interrupt::OutOfTurns);
        };
        self.turns = left;
        Ok(())
    }

    /// Takes the turn of a round, if its guard holds. Whether it does.
    pub fn goes_on(&mut self, holds: bool) -> Result<bool, Interrupt>
        ensures { GoesOn holds self.old result self.new }
    {
        if !holds {
            return Ok(false);
        }
        self.take_turn()?;
        Ok(true)
    }

    /// Begins a list inside another one.
    pub fn begin_list(&mut self) -> Mark
        ensures store { store_of self.new ≡ inside (store_of self.old) }
        ensures turns { self.new.turns ≡ self.old.turns }
        ensures mark { Marks result (store_of self.old) }
    {
        let mark = Mark {
            names: self.scope.len(),
            is_own: self.is_own,
        };
        self.is_own = false;
        mark
    }

    /// Ends a list that began there: its entries go.
    pub fn end_list(&mut self, mark: Mark)
        ensures store { (old : _) → Marks mark old → store_of self.new ≡ outside old (store_of self.old) }
        ensures turns { self.new.turns ≡ self.old.turns }
    {
        self.scope.truncate(mark.names);
        self.is_own = mark.is_own;
    }

    /// Adds an entry. Functions see a constant of the script's own list.
    pub fn declare(
        &mut self,
        name: &ImmutableString,
        kind: EntryKind,
        value: Dynamic,
    ) -> Result<(), AllocError>
        ensures store { OnOk result
            (store_of self.new ≡ declared name.now (kind_meant kind) (value_of value) (store_of self.old)) }
        ensures turns { OnOk result (self.new.turns ≡ self.old.turns) }
    {
        self.publish(name, kind, &value)?;
        self.scope.push(Entry {
            name: name.clone()?,
            kind,
            value,
        })?;
        Ok(())
    }

    /// Adds a constant of the script's own list to those that functions see.
    fn publish(
        &mut self,
        name: &ImmutableString,
        kind: EntryKind,
        value: &Dynamic,
    ) -> Result<(), AllocError>
        ensures store { OnOk result
            (store_of self.new
            ≡ record (store_of self.old) {
              globals = published (self.old.is_own && act.is_published (kind_meant kind)) name.now
                  (value_of value.now) (store_of self.old).globals;
            }) }
        ensures turns { OnOk result (self.new.turns ≡ self.old.turns) }
    {
        if self.is_own && kind.is_published() {
            self.globals.push(Entry {
                name: name.clone()?,
                kind,
                value: value.clone()?,
            })?;
        }
        Ok(())
    }

    /// Adds a name, and an export of its value where it is exported.
    pub fn declare_name(
        &mut self,
        name: &ImmutableString,
        is_constant: bool,
        is_exported: bool,
        value: Dynamic,
    ) -> Result<(), AllocError>
        ensures store { OnOk result
            (store_of self.new
            ≡ declared_in (name_kind is_constant) is_exported name.now (value_of value) (store_of self.old)) }
        ensures turns { OnOk result (self.new.turns ≡ self.old.turns) }
    {
        let kind = EntryKind::of_name(is_constant);
        if !is_exported {
            return self.declare(name, kind, value);
        }
        let exported = value.clone()?;
        self.declare(name, kind, value)?;
        self.declare(name, EntryKind::Export, exported)
    }

    /// Adds an alias of the module that is meant; without a name there is none.
    pub fn declare_alias(
        &mut self,
        name: &ImmutableString,
        meant: Dynamic,
    ) -> Result<(), AllocError>
        ensures store { OnOk result (store_of self.new ≡ aliased_in name.now (value_of meant) (store_of self.old)) }
        ensures turns { OnOk result (self.new.turns ≡ self.old.turns) }
    {
        if name.as_str().is_empty() {
            return Ok(());
        }
        self.declare(name, EntryKind::Alias, meant)
    }
}

impl State {
    /// Where a function's body starts: with its parameters over a copy of the entries around where the call captures
    /// them, and with the constants that functions see and the calls so far, which go along.
    #[inline(never)]
    pub fn enter(
        &mut self,
        alloc: Global,
        captures: bool,
        params: &[ImmutableString],
        this: Option<Dynamic>,
        args: Seq<Dynamic>,
    ) -> Result<State, AllocError>
        ensures store { IfOk result (λ s.
            store_of s
            ≡ called_from (store_of self.old)
            (bind params.now (map value_of args) (seen captures (store_of self.old).scope))
            (option_map value_of this)) }
        ensures turns { IfOk result (λ s. s.turns ≡ self.old.turns) }
        ensures scope { OnOk result (self.new.scope ≡ self.old.scope) }
        ensures around { OnOk result (self.new.this ≡ self.old.this) }
        ensures own { OnOk result (self.new.is_own ≡ self.old.is_own) }
        ensures turns_stay { OnOk result (self.new.turns ≡ self.old.turns) }
        ensures calls_go { OnOk result (self.new.calls ≡ []) }
    {
        let around = if captures {
            copied(alloc, self.scope.as_slice())?
        } else {
            Vec::new(alloc)
        };
        let scope = bound(around, params, args)?;
        let globals = std::mem::replace(&mut self.globals, Vec::new(alloc));
        let calls = std::mem::replace(&mut self.calls, Seq::new(alloc));
        Ok(State {
            scope,
            globals,
            is_own: false,
            this,
            calls,
            turns: self.turns,
        })
    }

    /// Goes on after a function's body, with the constants that functions see, its calls and turns. The body's last
    /// `this`.
    #[inline(never)]
    pub fn resume(&mut self, body: State) -> Option<Dynamic>
        ensures store { store_of self.new
            ≡ record (store_of self.old) { globals = (store_of body).globals; calls = (store_of body).calls } }
        ensures turns { self.new.turns ≡ body.turns }
        ensures this { result ≡ body.this }
    {
        let State {
            scope: _,
            globals,
            is_own: _,
            this,
            calls,
            turns,
        } = body;
        self.globals = globals;
        self.calls = calls;
        self.turns = turns;
        this
    }
}

/// The same entries.
fn copied(alloc: Global, scope: &[Entry]) -> Result<Vec<Entry>, AllocError>
    ensures { IfOk result (λ vs. vs.items ≡ scope.now) }
{
    let mut copies = Vec::new(alloc);
    for held in scope {
        copies.push(Entry {
            name: held.name.clone()?,
            kind: held.kind,
            value: held.value.clone()?,
        })?;
    }
    Ok(copies)
}

/// Parameters with their values, over other entries.
fn bound(
    around: Vec<Entry>,
    params: &[ImmutableString],
    args: Seq<Dynamic>,
) -> Result<Vec<Entry>, AllocError>
    ensures { IfOk result (λ vs.
        scope_meant vs.items ≡ bind params.now (map value_of args) (scope_meant around.items)) }
{
    let mut scope = around;
    let mut rest = args.into_rest();
    for param in params {
        let Some(arg) = rest.next() else {
            return Ok(scope);
        };
        scope.push(Entry {
            name: param.clone()?,
            kind: EntryKind::Variable,
            value: arg,
        })?;
    }
    Ok(scope)
}

fn entries(alloc: Global, scope: &Scope) -> Result<Vec<Entry>, AllocError>
    ensures { IfOk result (λ es. map entry_meant es.items ≡ map start_entry scope.now) }
{
    let mut entries = Vec::new(alloc);
    for (name, is_constant, value) in scope.iter() {
        entries.push(started(alloc, name, is_constant, value)?)?;
    }
    Ok(entries)
}

/// The entry of a name that a run starts with.
fn started(
    alloc: Global,
    name: &str,
    is_constant: bool,
    value: &Dynamic,
) -> Result<Entry, AllocError>
    ensures { IfOk result (λ e.
        entry_meant e ≡ record { name = name.now; kind = name_kind is_constant; value = value_of value.now }) }
{
    Ok(Entry {
        name: ImmutableString::new(alloc, name)?,
        kind: EntryKind::of_name(is_constant),
        value: value.clone()?,
    })
}
