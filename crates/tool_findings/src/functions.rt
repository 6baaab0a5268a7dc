//! The functions of a script, and which of them are named.

use crate::finding::Counts;
use rhai_ast::{FnAccess, ScriptFuncDef};
use rhai_base::{Dynamic, OutOfMemory};
use rhai_script::AST;
use std::alloc::Global;
use std::collections::{HashMap, HashSet};

/// The functions of a script.
#[derive(Drop)]
pub(crate) struct Functions<'a> {
    alloc: Global,
    /// By name, how many parameters those of the name have.
    takes: HashMap<&'a str, Vec<usize>>,
    /// Those that something calls or names.
    named: HashSet<&'a str>,
    /// Whether names may be made by the run.
    is_dynamic: bool,
}

impl<'a> Functions<'a> {
    /// Those of a script, none named.
    pub(crate) fn of(alloc: Global, script: &'a AST) -> Result<Functions<'a>, OutOfMemory> {
        let mut functions = Functions {
            alloc,
            takes: HashMap::new(alloc),
            named: HashSet::new(alloc),
            is_dynamic: false,
        };
        for function in script.shared_lib().iter() {
            functions.add(function.name.as_str(), function.params.len())?;
        }
        Ok(functions)
    }

    fn add(&mut self, name: &'a str, count: usize) -> Result<(), OutOfMemory> {
        if let Some(counts) = self.takes.get_mut(&name) {
            if !counts.contains(&count) {
                counts.push(count)?;
            }
            return Ok(());
        }
        let mut counts = Vec::new(self.alloc);
        counts.push(count)?;
        self.takes.insert(name, counts)?;
        Ok(())
    }

    /// Names a function. Whether there is one.
    pub(crate) fn name(&mut self, name: &'a str) -> Result<bool, OutOfMemory> {
        if !self.takes.contains_key(&name) {
            return Ok(false);
        }
        self.named.insert(name)?;
        Ok(true)
    }

    /// Names what a constant points to. A list may hold any pointer.
    pub(crate) fn name_in(&mut self, value: &'a Dynamic) -> Result<(), OutOfMemory> {
        match value {
            Dynamic::FnPtr(pointer) => {
                self.name(pointer.fn_name())?;
                self.name_all(pointer.curry());
            }
            Dynamic::Array(_) | Dynamic::Map(_) => self.name_any(),
            _ => {}
        }
        Ok(())
    }

    fn name_all(&mut self, values: &[Dynamic]) {
        if !values.is_empty() {
            self.name_any();
        }
    }

    /// Notes that any may be named.
    pub(crate) fn name_any(&mut self) {
        self.is_dynamic = true;
    }

    /// Whether a function goes that nothing calls or names: a private one or a closure, if no name begins with `_`.
    pub(crate) fn is_idle(&self, function: &ScriptFuncDef) -> bool {
        let name = function.name.as_str();
        let is_own = function.access == FnAccess::Private || is_closure(name);
        is_own && !self.is_dynamic && !name.starts_with('_') && !self.named.contains(&name)
    }

    /// How many parameters the functions of a name have, the least first, where there is one and none has so many, nor one
    /// that rhai brings along.
    pub(crate) fn other_counts(
        &self,
        name: &'a str,
        given: usize,
    ) -> Result<Option<Counts>, OutOfMemory> {
        let Some(counts) = self.takes.get(&name) else {
            return Ok(None);
        };
        if counts.contains(&given) || is_standard(name) {
            return Ok(None);
        }
        let mut counts = counts.clone()?;
        counts.sort_by_key(|count| *count)?;
        Ok(Some(Counts(counts)))
    }
}

/// Whether a function of this name is a closure's.
pub(crate) fn is_closure(name: &str) -> bool {
    name.starts_with("anon$")
}

/// Whether rhai brings functions of this name along that scripts call as functions and are likely to add to.
fn is_standard(name: &str) -> bool {
    matches!(
        name,
        "print"
            | "debug"
            | "type_of"
            | "call"
            | "curry"
            | "min"
            | "max"
            | "abs"
            | "sign"
            | "floor"
            | "ceiling"
            | "round"
            | "sqrt"
            | "log"
            | "range"
            | "len"
            | "contains"
            | "push"
            | "pop"
            | "insert"
            | "remove"
            | "get"
            | "set"
            | "index_of"
            | "split"
            | "replace"
            | "pad"
            | "trim"
            | "map"
            | "filter"
            | "reduce"
            | "find"
            | "some"
            | "all"
            | "sort"
            | "append"
            | "to_string"
            | "to_int"
            | "to_float"
            | "parse_int"
            | "parse_float"
            | "parse_json"
            | "sleep"
            | "rand"
    )
}
