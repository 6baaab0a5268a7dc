//! What is said to a question.

use notation_read::ReadError;
use rhai_base::{Boxed, Dynamic, ImmutableString, Position};
use std::alloc::Global;
use std::cell::Cell;
use std::fmt::{Debug, Display, Write};
use std::rc::Rc;

/// Why a text is not what is asked about.
#[derive(Clone, Copy)]
pub(crate) enum Unread {
    NoMemory,
    /// Something else stands where this should.
    Wanted(&'static str),
}

impl From<ReadError> for Unread {
    fn from(error: ReadError) -> Unread {
        match error {
            ReadError::Missing { letters, .. } => Unread::Wanted(letters),
            ReadError::Expected { what, .. } => Unread::Wanted(what),
            ReadError::Zeros { .. } => Unread::Wanted("fewer zeros"),
            ReadError::KeyTwice { .. } => Unread::Wanted("another key"),
            ReadError::Keyword { .. } => Unread::Wanted("a name"),
            ReadError::ParameterTwice { .. } => Unread::Wanted("another parameter"),
            ReadError::FunctionTwice { .. } => Unread::Wanted("another function"),
            ReadError::TooDeep { .. } => Unread::Wanted("fewer levels"),
            ReadError::OutOfMemory => Unread::NoMemory,
        }
    }
}

/// An answer, and the first fault on the way to it, in cells, so that it is written by `&self` and no question has a
/// `?`: docs/GATE.md says what a way out costs. A fault refuses the whole answer.
#[derive(Drop)]
pub struct Said {
    pub alloc: Global,
    /// Whether questions are asked of copies.
    pub copies: bool,
    text: Cell<String>,
    fault: Cell<Option<Unread>>,
}

impl Said {
    pub fn new(alloc: Global, copies: bool) -> Said {
        Said {
            alloc,
            copies,
            text: Cell::new(String::new(alloc)),
            fault: Cell::new(None),
        }
    }

    /// The answer.
    pub fn into_text(self) -> String {
        self.text.into_inner()
    }

    /// The first fault.
    pub(crate) fn fault(&self) -> Option<Unread> {
        self.fault.get()
    }

    // ---- faults

    /// Whether all was read and made so far.
    pub fn is_whole(&self) -> bool {
        self.fault.get().is_none()
    }

    /// Remembers the first fault.
    pub(crate) fn refuse(&self, fault: Unread) {
        if self.fault.get().is_none() {
            self.fault.set(Some(fault));
        }
    }

    /// Remembers that something else stands where this should.
    pub fn want(&self, what: &'static str) {
        self.refuse(Unread::Wanted(what));
    }

    /// What was read.
    pub(crate) fn read<T: Drop>(&self, read: Result<T, ReadError>) -> Option<T> {
        match read {
            Ok(read) => Some(read),
            Err(fault) => {
                self.refuse(Unread::from(fault));
                None
            }
        }
    }

    /// What was made, if there was memory for it.
    pub fn made<T: Drop, E: Drop>(&self, made: Result<T, E>) -> Option<T> {
        if made.is_err() {
            self.refuse(Unread::NoMemory);
        }
        made.ok()
    }

    /// What was found, if there was memory for it.
    pub fn found<T: Drop, E: Drop>(&self, found: Result<Option<T>, E>) -> Option<T> {
        self.made(found)?
    }

    /// Adds an item, if there is one.
    pub fn push<T: Drop>(&self, items: &mut Vec<T>, item: Option<T>) {
        if let Some(item) = item {
            self.made(items.push(item));
        }
    }

    /// A list of what is there.
    pub fn list_of<T: Drop>(&self, item: Option<T>) -> Vec<T> {
        let mut items = Vec::new(self.alloc);
        self.push(&mut items, item);
        items
    }

    /// A box of what is there.
    pub fn boxed<T: Drop>(&self, value: Option<T>) -> Option<Boxed<T>> {
        self.made(Boxed::new(self.alloc, value?))
    }

    /// What is there, shared.
    pub fn counted<T: Drop>(&self, value: Option<T>) -> Option<Rc<T>> {
        self.made(Rc::new(self.alloc, value?))
    }

    /// A text.
    pub fn shared(&self, text: &str) -> Option<ImmutableString> {
        self.made(ImmutableString::new(self.alloc, text))
    }

    /// A text that is not empty.
    pub fn shared_if_some(&self, text: &str) -> Option<ImmutableString> {
        if text.is_empty() {
            return None;
        }
        self.shared(text)
    }

    /// The words of a text.
    pub fn words(&self, text: &str) -> Vec<ImmutableString> {
        let mut words = Vec::new(self.alloc);
        for word in text.split_whitespace() {
            self.push(&mut words, self.shared(word));
        }
        words
    }

    // ---- what is said

    /// Takes out what was said, to add to it.
    pub fn taken(&self) -> String {
        self.text.replace(String::new(self.alloc))
    }

    /// Puts it back with what was added.
    pub fn put_back<E: Drop>(&self, text: String, added: Result<(), E>) {
        self.made(added);
        self.text.set(text);
    }

    fn is_empty(&self) -> bool {
        let text = self.taken();
        let is_empty = text.is_empty();
        self.text.set(text);
        is_empty
    }

    fn begins_line(&self) -> bool {
        let text = self.taken();
        let begins = text.is_empty() || text.ends_with('\n');
        self.text.set(text);
        begins
    }

    /// Adds letters.
    pub fn put(&self, letters: &str) {
        let mut text = self.taken();
        let added = text.push_str(letters);
        self.put_back(text, added);
    }

    pub fn display<T: Display>(&self, item: &T) {
        let mut text = self.taken();
        let added = write!(text, "{item}");
        self.put_back(text, added);
    }

    pub fn debug<T: Debug>(&self, item: &T) {
        let mut text = self.taken();
        let added = write!(text, "{item:?}");
        self.put_back(text, added);
    }

    /// Adds a word after a blank.
    pub fn word(&self, word: &str) {
        if !self.begins_line() {
            self.put(" ");
        }
        self.put(word);
    }

    /// Adds the word if it is so.
    pub fn word_if(&self, is_so: bool, word: &str) {
        if is_so {
            self.word(word);
        }
    }

    /// Takes the end of the last line away.
    pub fn end_line(&self) {
        let mut text = self.taken();
        if text.ends_with('\n') {
            text.pop();
        }
        self.text.set(text);
    }

    /// Begins a line.
    pub fn line(&self, word: &str) {
        if !self.is_empty() {
            self.put("\n");
        }
        self.put(word);
    }

    /// Adds a count after a word.
    pub fn count(&self, word: &str, count: usize) {
        self.word(word);
        self.put(" ");
        self.display(&count);
    }

    /// Adds the word, and the line and the column of a place.
    pub fn place(&self, word: &str, place: Position) {
        match place.line() {
            Some(line) => self.count(word, line),
            None => self.word(word),
        }
        if let Some(column) = place.position() {
            self.put(":");
            self.display(&column);
        }
        self.word_if(place.is_none(), "nowhere");
    }

    /// Adds a value as an array writes it, after a blank.
    pub fn inner(&self, value: &Dynamic) {
        self.word("");
        self.put_inner(value);
    }

    /// Adds a value as an array writes it.
    pub fn put_inner(&self, value: &Dynamic) {
        let mut text = self.taken();
        let added = value.push_written(&mut text);
        self.put_back(text, added);
    }

    /// Adds the name of the value's type and, in quotes, its text.
    pub fn value(&self, value: &Dynamic) {
        self.word(value.type_name());
        self.put(": \"");
        let mut text = self.taken();
        let added = value.push_text(&mut text);
        self.put_back(text, added);
        self.put("\"");
    }

    /// Whether a value's copy is equal to it.
    pub fn is_copied<T: Clone + PartialEq + Drop>(&self, value: &T) -> bool {
        match self.made(value.clone()) {
            Some(copy) => copy == *value,
            None => false,
        }
    }
}

/// What stands before and behind the first of these letters; all of it before, where there are none.
pub fn split<'a>(text: &'a str, letters: &str) -> (&'a str, &'a str) {
    text.split_once(letters).unwrap_or((text, ""))
}
