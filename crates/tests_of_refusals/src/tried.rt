//! A call that is tried.

use std::alloc::Global;
use std::cell::Cell;
use tests_reader::Said;

/// What a call answers, and whether it was refused.
#[derive(Drop)]
pub struct Tried {
    pub said: Said,
    was_refused: Cell<bool>,
    is_over: Cell<bool>,
}

impl Tried {
    pub fn new(alloc: Global) -> Tried {
        Tried {
            said: Said::new(alloc, false),
            was_refused: Cell::new(false),
            is_over: Cell::new(true),
        }
    }

    pub fn into_text(self) -> String {
        let Tried { said, .. } = self;
        said.into_text()
    }

    /// Whether a call was refused.
    pub fn was_refused(&self) -> bool {
        self.was_refused.get()
    }

    /// Whether all that the call needs was made, and it was asked again if it was refused.
    pub fn is_answered(&self) -> bool {
        self.is_over.get() && self.said.is_whole()
    }

    /// What a call answers that changes nothing; a refused one is tried from the beginning.
    pub fn answer<T: Drop, E: Drop>(&self, answer: Result<T, E>) -> Option<T> {
        if answer.is_err() {
            self.was_refused.set(true);
            self.is_over.set(false);
        }
        answer.ok()
    }

    /// Whether a call was refused, which is then asked again.
    pub fn is_refused<T: Drop, E: Drop>(&self, answer: &Result<T, E>) -> bool {
        if answer.is_err() {
            self.was_refused.set(true);
        }
        answer.is_err()
    }

    /// Says so where something is not as promised after a refusal.
    pub fn want(&self, is_so: bool, what: &str) {
        self.said.word_if(!is_so, what);
    }

    /// Says that a call was answered.
    pub fn done<T: Drop>(&self, answer: Option<T>) {
        self.said.word_if(answer.is_some(), "done");
    }
}

/// Whether a call is one of these.
pub fn is_among(name: &str, calls: &str) -> bool {
    calls.split_whitespace().any(|call| call == name)
}
