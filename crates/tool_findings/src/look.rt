//! What is noted while a script is walked.

use crate::finding::{Finding, FindingKind, Place};
use crate::functions::{Functions, is_closure};
use crate::scopes::{Declared, NameKind, Scopes};
use base_engine::EngineInfo;
use rhai_ast::{ScriptFuncDef, Stmt, StmtQueries};
use rhai_base::{Namespace, OutOfMemory, Position};
use std::alloc::Global;
use std::collections::{HashMap, HashSet};
use std::mem;

/// What looks at a script, one function after another, and keeps what it finds.
#[derive(Drop)]
pub(crate) struct Look<'a> {
    pub(crate) alloc: Global,
    pub(crate) info: &'a EngineInfo,
    pub(crate) functions: Functions<'a>,
    /// The names of the function that is looked at.
    pub(crate) scopes: Scopes<'a>,
    /// Of each loop around, whether a `break` ends it.
    pub(crate) loops: Vec<bool>,
    /// Where the function of a closure asks first for each of its parameters.
    pub(crate) closures: HashMap<&'a str, Vec<Position>>,
    /// The first place where a closure shares names.
    pub(crate) shared: Option<Position>,
    /// Whether functions may see the names of their caller, since a call captures.
    pub(crate) captures: bool,
    /// Whether a run may ask for names that are written nowhere, since it calls `eval`.
    pub(crate) evaluates: bool,
    /// The modules that are asked for where none in sight has the name.
    modules: HashSet<&'a str>,
    /// The constants that every script sees.
    given: HashSet<&'a str>,
    /// The constants that the script's own statements declare.
    pub(crate) constants: HashSet<&'a str>,
    /// Those that are asked for by `global::`, and where.
    pub(crate) globals: Vec<(&'a str, Position)>,
    /// The names of the function that nothing in sight declares.
    missing: Vec<Missing<'a>>,
    /// Those of all functions that nothing in theirs declares.
    unseen: Vec<Missing<'a>>,
    /// Variables and parameters that nothing asks for.
    unused: Vec<Finding>,
    found: Vec<Finding>,
}

/// A name that nothing in sight declares.
#[derive(Clone, Copy)]
struct Missing<'a> {
    name: &'a str,
    place: Position,
    /// Where it was declared in a block that ended.
    ended: Option<Position>,
}

impl<'a> Look<'a> {
    /// Nothing is found yet.
    pub(crate) fn new(
        alloc: Global,
        info: &'a EngineInfo,
        functions: Functions<'a>,
    ) -> Result<Look<'a>, OutOfMemory> {
        let mut given: HashSet<&'a str> = HashSet::new(alloc);
        for (name, _) in info.constants() {
            given.insert(name.as_str())?;
        }
        Ok(Look {
            alloc,
            info,
            functions,
            scopes: Scopes::new(alloc),
            loops: Vec::new(alloc),
            closures: HashMap::new(alloc),
            shared: None,
            captures: false,
            evaluates: false,
            modules: HashSet::new(alloc),
            given,
            constants: HashSet::new(alloc),
            globals: Vec::new(alloc),
            missing: Vec::new(alloc),
            unseen: Vec::new(alloc),
            unused: Vec::new(alloc),
            found: Vec::new(alloc),
        })
    }

    /// What it found.
    pub(crate) fn into_found(self) -> Vec<Finding> {
        self.found
    }

    pub(crate) fn find(
        &mut self,
        kind: FindingKind,
        position: Position,
    ) -> Result<(), OutOfMemory> {
        self.found.push(Finding { kind, position })?;
        Ok(())
    }

    pub(crate) fn never_runs(&mut self, statement: Option<&Stmt>) -> Result<(), OutOfMemory> {
        match statement {
            Some(statement) => self.find(FindingKind::NeverRuns, statement.position()),
            None => Ok(()),
        }
    }

    /// Asks for a name: of a variable, a constant that is given, or a function.
    pub(crate) fn ask(&mut self, name: &'a str, place: Position) -> Result<(), OutOfMemory> {
        let is_known = self.scopes.asks(name, place)
            || self.given.contains(&name)
            || self.functions.name(name)?;
        if !is_known {
            let ended = self.scopes.ended(name);
            self.missing.push(Missing { name, place, ended })?;
        }
        Ok(())
    }

    /// Asks for the import of a module, if there are modules before a name. Functions see those of the script's own
    /// statements, and the host may have others.
    pub(crate) fn ask_module(&mut self, namespace: &'a Namespace) -> Result<(), OutOfMemory> {
        if let Some(root) = namespace.path.as_slice().first() {
            if !self.scopes.asks(root.as_str(), root.pos) {
                self.modules.insert(root.as_str())?;
            }
        }
        Ok(())
    }

    /// Takes all names but so many out of sight.
    pub(crate) fn leave(&mut self, count: usize) -> Result<(), OutOfMemory> {
        for _ in count..self.scopes.len() {
            if let Some(declared) = self.scopes.forget()? {
                self.tell(declared)?;
            }
        }
        Ok(())
    }

    /// Ends a function: tells which of its names are idle, and what it misses. What parameters a closure has who calls it
    /// says.
    pub(crate) fn end_function(&mut self, function: &'a ScriptFuncDef) -> Result<(), OutOfMemory> {
        let name = function.name.as_str();
        if is_closure(name) {
            self.note_closure(name)?;
        }
        let scopes = mem::replace(&mut self.scopes, Scopes::new(self.alloc));
        for declared in scopes.in_sight() {
            if declared.kind != NameKind::Parameter || !is_closure(name) {
                self.tell(*declared)?;
            }
        }
        self.settle(&scopes)
    }

    /// Ends the script's own statements, of which the host may read all names but those of imports.
    pub(crate) fn end_script(&mut self) -> Result<(), OutOfMemory> {
        let scopes = mem::replace(&mut self.scopes, Scopes::new(self.alloc));
        for declared in scopes.in_sight() {
            if declared.kind == NameKind::Import {
                self.tell(*declared)?;
            }
        }
        self.settle(&scopes)?;
        self.settle_unseen(&scopes)?;
        self.settle_globals()?;
        if let Some(place) = self.shared {
            self.find(FindingKind::Shared, place)?;
        }
        self.tell_unused()
    }

    /// Tells that nothing calls or names a function, if so.
    pub(crate) fn at_idle(&mut self, function: &ScriptFuncDef) -> Result<(), OutOfMemory> {
        if !self.functions.is_idle(function) {
            return Ok(());
        }
        let name = String::from_str(self.alloc, function.name.as_str())?;
        self.find(FindingKind::UnusedFunction(name), function.body.position())
    }

    /// Notes where a closure asks first for each of its parameters.
    fn note_closure(&mut self, name: &'a str) -> Result<(), OutOfMemory> {
        let mut places = Vec::new(self.alloc);
        for declared in self.scopes.in_sight() {
            places.push(declared.first_use.unwrap_or(Position::NONE))?;
        }
        self.closures.insert(name, places)?;
        Ok(())
    }

    /// Notes that nothing asks for a name, if so.
    fn tell(&mut self, declared: Declared<'a>) -> Result<(), OutOfMemory> {
        if declared.is_spared() || self.modules.contains(&declared.name) {
            return Ok(());
        }
        let name = String::from_str(self.alloc, declared.name)?;
        let kind = match declared.kind {
            NameKind::Variable | NameKind::Loop => FindingKind::UnusedVariable(name),
            NameKind::Parameter => FindingKind::UnusedParameter(name),
            NameKind::Import => FindingKind::UnusedImport(name),
        };
        let position = declared.place;
        self.unused.push(Finding { kind, position })?;
        Ok(())
    }

    /// Says of the names that are missing where these scopes declare them, and keeps those that they do not.
    fn settle(&mut self, scopes: &Scopes<'a>) -> Result<(), OutOfMemory> {
        for missing in mem::replace(&mut self.missing, Vec::new(self.alloc)) {
            let name = String::from_str(self.alloc, missing.name)?;
            match (missing.ended, scopes.first(missing.name)) {
                (Some(place), _) => {
                    self.find(FindingKind::Ended(name, Place(place)), missing.place)?;
                }
                (None, Some(place)) => {
                    self.find(
                        FindingKind::DeclaredLater(name, Place(place)),
                        missing.place,
                    )?;
                }
                (None, None) => self.unseen.push(missing)?,
            }
        }
        Ok(())
    }

    /// Says of the names that no function declares whether the script's own statements do. Where a call captures,
    /// functions may see those.
    fn settle_unseen(&mut self, scopes: &Scopes<'a>) -> Result<(), OutOfMemory> {
        for missing in mem::replace(&mut self.unseen, Vec::new(self.alloc)) {
            let name = String::from_str(self.alloc, missing.name)?;
            let kind = match scopes.first(missing.name) {
                Some(_) if self.captures => continue,
                Some(place) => self.unseen_kind(name, Place(place)),
                None => FindingKind::Undeclared(name),
            };
            self.find(kind, missing.place)?;
        }
        Ok(())
    }

    /// Tells what nothing asks for, unless a run may ask for any name.
    fn tell_unused(&mut self) -> Result<(), OutOfMemory> {
        let unused = mem::replace(&mut self.unused, Vec::new(self.alloc));
        if !self.captures && !self.evaluates {
            for finding in unused {
                self.found.push(finding)?;
            }
        }
        Ok(())
    }
}

/// A place by line and column, for an order.
pub(crate) fn place_of(position: Position) -> (usize, usize) {
    let line = position.line().unwrap_or(0);
    (line, position.position().unwrap_or(0))
}
