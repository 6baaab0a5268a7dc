//! What is kept of a text for the whole script: its functions, and texts that are shared.

use crate::error::ParseErrorType;
use crate::parser::Parser;
use ast_same::same_but_name;
use rhai_ast::ScriptFuncDef;
use rhai_base::{ImmutableString, Position};
use rhai_script::FnKey;
use std::alloc::{AllocError, Global};
use std::collections::{HashMap, HashSet};
use std::rc::Rc;

/// The functions so far, and texts that are shared.
#[derive(Drop)]
pub(crate) struct Table<'a> {
    functions: Vec<Rc<ScriptFuncDef>>,
    keys: HashSet<FnKey>,
    /// The functions' names.
    names: HashSet<&'a str>,
    /// The number of the next closure.
    next_closure: usize,
    /// The places of the closures' functions among them, by their hashes.
    closures: HashMap<u64, Vec<usize>>,
    pub(crate) texts: Texts<'a>,
}

/// Texts of words, which are shared by all that are the same.
#[derive(Drop)]
pub(crate) struct Texts<'a> {
    texts: HashMap<&'a str, ImmutableString>,
}

impl<'a> Texts<'a> {
    pub(crate) fn shared(
        &mut self,
        alloc: Global,
        word: &'a str,
    ) -> Result<ImmutableString, AllocError> {
        if let Some(text) = self.texts.get(&word) {
            return text.clone();
        }
        let text = ImmutableString::new(alloc, word)?;
        let copy = text.clone()?;
        self.texts.insert(word, copy)?;
        Ok(text)
    }
}

impl<'a> Table<'a> {
    /// No functions and no texts, and the number of the first closure.
    pub(crate) fn new(alloc: Global, first_closure: usize) -> Table<'a> {
        Table {
            functions: Vec::new(alloc),
            keys: HashSet::new(alloc),
            names: HashSet::new(alloc),
            next_closure: first_closure,
            closures: HashMap::new(alloc),
            texts: Texts {
                texts: HashMap::new(alloc),
            },
        }
    }

    /// All functions, in their order.
    pub(crate) fn into_functions(self) -> Vec<Rc<ScriptFuncDef>> {
        let Table {
            functions,
            keys: _keys,
            names: _names,
            next_closure: _next_closure,
            closures: _closures,
            texts: _texts,
        } = self;
        functions
    }

    /// The name of the function of a closure that is the same as this one, of this hash.
    fn same_closure(&self, hash: u64, function: &ScriptFuncDef) -> Option<&ImmutableString> {
        for place in self.closures.get(&hash)?.as_slice() {
            if let Some(other) = self.functions.get(*place) {
                if same_but_name(other, function) {
                    return Some(&other.name);
                }
            }
        }
        None
    }

    /// Notes that the next function is a closure's, of this hash. It has the next number.
    fn note_closure(&mut self, alloc: Global, hash: u64) -> Result<(), AllocError> {
        let place = self.functions.len();
        self.next_closure = self.next_closure.saturating_add(1);
        if let Some(places) = self.closures.get_mut(&hash) {
            places.push(place)?;
            return Ok(());
        }
        let mut places = Vec::new(alloc);
        places.push(place)?;
        self.closures.insert(hash, places)?;
        Ok(())
    }

    fn add(&mut self, key: FnKey, function: Rc<ScriptFuncDef>) -> Result<(), AllocError> {
        self.keys.insert(key)?;
        self.functions.push(function)?;
        Ok(())
    }
}

impl<'a> Parser<'a> {
    /// Whether a function has this name so far.
    pub(crate) fn is_function(&self, name: &str) -> bool {
        match self.table.try_borrow() {
            Ok(table) => table.names.contains(&name),
            Err(_) => false,
        }
    }

    /// The number of the next closure.
    pub(crate) fn next_closure(&self) -> usize {
        match self.table.try_borrow() {
            Ok(table) => table.next_closure,
            Err(_) => 0,
        }
    }

    /// The name of the function of a closure that is the same as this one, of this hash.
    pub(crate) fn same_closure(
        &self,
        hash: u64,
        function: &ScriptFuncDef,
    ) -> Option<ImmutableString> {
        match self.table.try_borrow() {
            Ok(table) => self.made(table.same_closure(hash, function)?.clone()),
            Err(_) => None,
        }
    }

    /// Notes that the next function is a closure's, of this hash.
    pub(crate) fn note_closure(&self, hash: u64) {
        if let Ok(mut table) = self.table.try_borrow_mut() {
            let noted = table.note_closure(self.alloc, hash);
            self.made(noted);
        }
    }

    /// Puts a function into the table, unless one of its key is there, for which it is refused where it begins.
    pub(crate) fn add_function(
        &self,
        word: &'a str,
        function: Option<ScriptFuncDef>,
        start: Position,
    ) {
        let Some(function) = function else {
            return;
        };
        let params = function.params.len();
        let Some(key) = self.key_of(&function) else {
            return;
        };
        let function = self.made(Rc::new(self.alloc, function));
        if self.has_key(&key) {
            if let Some(name) = self.owned(word) {
                self.refuse(ParseErrorType::FnDuplicatedDefinition(name, params), start);
            }
            return;
        }
        self.put(word, key, function);
    }

    fn put(&self, word: &'a str, key: FnKey, function: Option<Rc<ScriptFuncDef>>) {
        let Some(function) = function else {
            return;
        };
        if let Ok(mut table) = self.table.try_borrow_mut() {
            let named = table.names.insert(word);
            self.made(named);
            let added = table.add(key, function);
            self.made(added);
        }
    }

    fn has_key(&self, key: &FnKey) -> bool {
        match self.table.try_borrow() {
            Ok(table) => table.keys.contains(key),
            Err(_) => false,
        }
    }

    fn key_of(&self, function: &ScriptFuncDef) -> Option<FnKey> {
        let name = self.made(function.name.clone())?;
        let this_type = self.made(function.this_type.clone())?;
        Some(FnKey {
            name,
            params: function.params.len(),
            this_type,
        })
    }
}
