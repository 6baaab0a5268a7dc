//! A text that is written from its beginning to its end.

ghost use Rattle.std.specs.Prelude.{◌<◌, IfSome};

use crate::error::{SpellError, Unspelled};
use crate::inside::Inside;
use crate::table::Table;
use crate::words::is_name;
use rhai_base::{ImmutableString, Position};
use script_tables::{FnLib, allocator_of};
use std::alloc::Global;
use std::cell::{Cell, RefCell};
use syntax_lexer::Variables;

/// What was written so far, and the first fault, in cells, so that nodes are printed by `&self`.
#[derive(Drop)]
pub(crate) struct Printer<'t> {
    pub(crate) alloc: Global,
    text: Cell<String>,
    fault: Cell<Option<SpellError>>,
    /// Whether nothing is written, where it is asked alone which names are used.
    is_mute: Cell<bool>,
    /// Whether a function is the last that was written.
    ends_function: Cell<bool>,
    pub(crate) table: RefCell<Table<'t>>,
    pub(crate) variables: Variables<'t>,
}

/// A script in print.
#[derive(Drop)]
pub struct Printed {
    /// Its text.
    pub text: String,
    /// The names of the functions of the closures in the text, in the order in which the closures end. A function whose
    /// closure stands in several places is named for the first.
    pub closures: Vec<ImmutableString>,
}

impl<'t> Printer<'t> {
    /// Nothing as yet of a script with these functions.
    pub(crate) fn new(lib: &'t FnLib) -> Printer<'t> {
        let alloc = allocator_of(lib);
        let printer = Printer {
            alloc,
            text: Cell::new(String::new(alloc)),
            fault: Cell::new(None),
            is_mute: Cell::new(false),
            ends_function: Cell::new(false),
            table: RefCell::new(Table::new(alloc)),
            variables: Variables::new(alloc),
        };
        printer.add_functions(lib);
        printer
    }

    /// What was written, or the first fault.
    pub(crate) fn into_printed(self) -> Result<Printed, SpellError> {
        let Printer {
            alloc: _alloc,
            text,
            fault,
            is_mute: _is_mute,
            ends_function: _ends_function,
            table,
            variables: _variables,
        } = self;
        let closures = table.into_inner().into_closures();
        match fault.into_inner() {
            Some(fault) => Err(fault),
            None => Ok(Printed {
                text: text.into_inner(),
                closures,
            }),
        }
    }

    // ---- faults

    /// Refuses a node that stands there. A later fault is none.
    pub(crate) fn refuse(&self, what: Unspelled, position: Position) {
        self.fail(SpellError::Unspelled { what, position });
    }

    fn fail(&self, error: SpellError) {
        if self.fault.get().is_none() {
            self.fault.set(Some(error));
        }
    }

    /// What was made, if there was memory for it.
    pub(crate) fn made<T: Drop, E: Drop>(&self, made: Result<T, E>) -> Option<T> {
        if made.is_err() {
            self.fail(SpellError::OutOfMemory);
        }
        made.ok()
    }

    /// What is around the parts of a node that stands there; none where no level is left, or something was refused.
    pub(crate) fn below(&self, inside: Inside, position: Position) -> Option<Inside>
        ensures { IfSome result (λ deeper. deeper.levels < inside.levels) }
    {
        if inside.levels == 0 {
            self.refuse(Unspelled::TooDeep, position);
        }
        if self.fault.get().is_some() {
            return None;
        }
        inside.deeper()
    }

    // ---- what is asked of nodes that are not written

    /// Whether nothing is written.
    pub(crate) fn is_mute(&self) -> bool {
        self.is_mute.get()
    }

    /// Writes nothing from here on.
    pub(crate) fn mute(&self) {
        self.is_mute.set(true);
    }

    /// Writes again. What was refused meanwhile is refused where it is written.
    pub(crate) fn unmute(&self) {
        self.is_mute.set(false);
        if let Some(SpellError::Unspelled { .. }) = self.fault.get() {
            self.fault.set(None);
        }
    }

    // ---- letters

    /// Appends letters.
    pub(crate) fn put(&self, letters: &str) {
        if self.is_mute() {
            return;
        }
        let mut text = self.text.replace(self.no_text());
        let pushed = text.push_str(letters);
        self.made(pushed);
        self.text.set(text);
    }

    /// Appends a character.
    pub(crate) fn put_char(&self, letter: char) {
        if self.is_mute() {
            return;
        }
        let mut text = self.text.replace(self.no_text());
        let pushed = text.push(letter);
        self.made(pushed);
        self.text.set(text);
    }

    /// How many letters were written.
    pub(crate) fn written(&self) -> usize {
        let text = self.text.replace(self.no_text());
        let length = text.len();
        self.text.set(text);
        length
    }

    pub(crate) fn no_text(&self) -> String {
        String::new(self.alloc)
    }

    /// Begins a function, behind a blank line unless it is the first of the text.
    pub(crate) fn begin_function(&self) {
        if self.written() > 0 {
            self.put("\n");
        }
        self.ends_function.set(true);
    }

    /// Begins what is no function, behind a blank line if a function was the last.
    pub(crate) fn end_functions(&self) {
        if self.ends_function.replace(false) {
            self.put("\n");
        }
    }

    /// Begins a line.
    pub(crate) fn begin_line(&self, inside: Inside) {
        for _ in 0..inside.blocks {
            self.put("    ");
        }
    }

    /// What stands before an item: nothing before the first.
    pub(crate) fn comma(&self, index: usize) {
        if index > 0 {
            self.put(", ");
        }
    }

    /// Appends a name that is no word of the language.
    pub(crate) fn name(&self, name: &str, position: Position) {
        if !is_name(name) {
            self.refuse(Unspelled::Name, position);
        }
        self.put(name);
    }
}
