//! The functions of a script: by name, those that stand before, and closures in the order in which they end.

use crate::error::{SpellError, Unspelled};
use crate::printer::Printer;
use crate::words::is_anonymous;
use ast_same::{function_hash, same_but_name};
use rhai_ast::ScriptFuncDef;
use rhai_base::{ImmutableString, Position};
use script_tables::FnLib;
use std::alloc::{AllocError, Global};
use std::collections::{HashMap, HashSet};

/// How many letters the copies of closures may have, beside as many as all else that was printed.
const COPIED_LETTERS: usize = 1_000_000;

/// The functions of a script.
#[derive(Drop)]
pub(crate) struct Table<'t> {
    /// Those that stand by themselves, in their order.
    named: Vec<&'t ScriptFuncDef>,
    /// Those of closures, by their names.
    anonymous: HashMap<&'t str, &'t ScriptFuncDef>,
    /// How many of those that stand by themselves were printed.
    printed: usize,
    /// Their names.
    behind: HashSet<&'t str>,
    /// The names of the closures' functions, in the order in which the first closure of each ended.
    ended: Vec<ImmutableString>,
    /// The same names.
    ended_names: HashSet<&'t str>,
    /// How many letters closures have that were printed before, and where the text had come when the one began that is
    /// printed.
    copied: usize,
    copy: Option<usize>,
    /// By hash, functions whose closures were begun, of several that are the same the first one.
    begun: HashMap<u64, Vec<Begun<'t>>>,
    /// How many functions that are the same were begun before these, by their names.
    others: HashMap<&'t str, u32>,
}

/// A function whose closure was begun.
#[derive(Drop)]
struct Begun<'t> {
    function: &'t ScriptFuncDef,
    /// How many functions are the same but for their names, so far.
    count: u32,
}

impl<'t> Table<'t> {
    /// None.
    pub(crate) fn new(alloc: Global) -> Table<'t> {
        Table {
            named: Vec::new(alloc),
            anonymous: HashMap::new(alloc),
            printed: 0,
            behind: HashSet::new(alloc),
            ended: Vec::new(alloc),
            ended_names: HashSet::new(alloc),
            copied: 0,
            copy: None,
            begun: HashMap::new(alloc),
            others: HashMap::new(alloc),
        }
    }

    /// Adds the functions of a script.
    fn add_all(&mut self, lib: &'t FnLib) -> Result<(), AllocError> {
        for function in lib.iter() {
            self.add(function)?;
        }
        Ok(())
    }

    fn add(&mut self, function: &'t ScriptFuncDef) -> Result<(), AllocError> {
        let name = function.name.as_str();
        if !is_anonymous(name) {
            self.named.push(function)?;
            return Ok(());
        }
        if self.anonymous.get(&name).is_none() {
            self.anonymous.insert(name, function)?;
        }
        Ok(())
    }

    /// The next one that stands by itself, which is behind from then on.
    fn pass(&mut self) -> Result<(), AllocError> {
        if let Some(function) = self.named.get(self.printed) {
            let name = function.name.as_str();
            if !self.behind.contains(&name) {
                self.behind.insert(name)?;
            }
        }
        self.printed = self.printed.saturating_add(1);
        Ok(())
    }

    fn end(&mut self, name: &'t ImmutableString) -> Result<(), AllocError> {
        if !self.ended_names.contains(&name.as_str()) {
            self.ended.push(name.clone()?)?;
            self.ended_names.insert(name.as_str())?;
        }
        Ok(())
    }

    /// How many functions that are the same as this one were begun before it, but for their names.
    fn others(&mut self, alloc: Global, function: &'t ScriptFuncDef) -> Result<u32, AllocError> {
        let name = function.name.as_str();
        if let Some(others) = self.others.get(&name) {
            return Ok(*others);
        }
        let others = self.begin(alloc, function)?;
        self.others.insert(name, others)?;
        Ok(others)
    }

    /// How many functions were begun that are the same as this one, which is begun too.
    fn begin(&mut self, alloc: Global, function: &'t ScriptFuncDef) -> Result<u32, AllocError> {
        let hash = function_hash(function);
        let begun = Begun { function, count: 1 };
        let Some(others) = self.begun.get_mut(&hash) else {
            let mut only = Vec::new(alloc);
            only.push(begun)?;
            self.begun.insert(hash, only)?;
            return Ok(0);
        };
        for other in others.as_mut_slice() {
            if same_but_name(other.function, function) {
                let count = other.count;
                other.count = count.saturating_add(1);
                return Ok(count);
            }
        }
        others.push(begun)?;
        Ok(0)
    }

    /// The names of the closures' functions.
    pub(crate) fn into_closures(self) -> Vec<ImmutableString> {
        let Table {
            named: _named,
            anonymous: _anonymous,
            printed: _printed,
            behind: _behind,
            ended,
            ended_names: _ended_names,
            copied: _copied,
            copy: _copy,
            begun: _begun,
            others: _others,
        } = self;
        ended
    }
}

impl<'t> Printer<'t> {
    /// Adds the functions of a script.
    pub(crate) fn add_functions(&self, lib: &'t FnLib) {
        if let Ok(mut table) = self.table.try_borrow_mut() {
            let added = table.add_all(lib);
            self.made(added);
        }
    }

    /// The next function that stands by itself.
    pub(crate) fn next_function(&self) -> Option<&'t ScriptFuncDef> {
        match self.table.try_borrow() {
            Ok(table) => table.named.get(table.printed).copied(),
            Err(_) => None,
        }
    }

    /// How many functions stand by themselves.
    pub(crate) fn count_functions(&self) -> usize {
        match self.table.try_borrow() {
            Ok(table) => table.named.len(),
            Err(_) => 0,
        }
    }

    /// Notes that the next function is behind.
    pub(crate) fn pass_function(&self) {
        if let Ok(mut table) = self.table.try_borrow_mut() {
            let passed = table.pass();
            self.made(passed);
        }
    }

    /// Whether a function that stands before has this name.
    pub(crate) fn is_function(&self, name: &str) -> bool {
        match self.table.try_borrow() {
            Ok(table) => table.behind.contains(&name),
            Err(_) => false,
        }
    }

    /// The function of a closure.
    pub(crate) fn anonymous(&self, name: &str) -> Option<&'t ScriptFuncDef> {
        match self.table.try_borrow() {
            Ok(table) => table.anonymous.get(&name).copied(),
            Err(_) => None,
        }
    }

    /// Begins the closure of a function; whether a copy begins with it. Refused where there are too many copies.
    pub(crate) fn begin_closure(&self, name: &str, pos: Position) -> bool {
        let written = self.written();
        let Ok(mut table) = self.table.try_borrow_mut() else {
            return false;
        };
        if let Some(start) = table.copy {
            let copied = table.copied.saturating_add(written.saturating_sub(start));
            let most = start
                .saturating_sub(table.copied)
                .saturating_add(COPIED_LETTERS);
            if copied > most {
                self.refuse(Unspelled::Copies, pos);
            }
            return false;
        }
        let is_copy = table.ended_names.contains(&name);
        if is_copy {
            table.copy = Some(written);
        }
        is_copy
    }

    /// How many functions that are the same as this one were begun before it.
    pub(crate) fn count_begun(&self, function: &'t ScriptFuncDef) -> u32 {
        match self.table.try_borrow_mut() {
            Ok(mut table) => {
                let others = table.others(self.alloc, function);
                self.made(others).unwrap_or(0)
            }
            Err(_) => 0,
        }
    }

    /// Ends the closure of a function, and with it what began with it.
    pub(crate) fn end_closure(&self, name: &'t ImmutableString, is_copy: bool) {
        let written = self.written();
        if let Ok(mut table) = self.table.try_borrow_mut() {
            if is_copy {
                let start = table.copy.unwrap_or(written);
                let copied = table.copied.saturating_add(written.saturating_sub(start));
                table.copied = copied;
                table.copy = None;
            }
            let ended = table.end(name);
            self.made(ended);
        }
    }
}
