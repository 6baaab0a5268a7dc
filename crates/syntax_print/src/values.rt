//! Values.

use crate::error::Unspelled;
use crate::inside::Inside;
use crate::printer::Printer;
use crate::words::{is_anonymous, is_name};
use rhai_base::{Dynamic, FloatWrapper, FnPtr, INT, Position, StringMap};
use std::fmt::Write;

/// What a value stands in.
#[derive(Clone, Copy)]
pub(crate) struct Holder {
    /// Where it stands.
    pub(crate) position: Position,
    /// Whether it is the key of an arm, which is a literal.
    pub(crate) is_key: bool,
}

impl<'t> Printer<'t> {
    /// A value as an expression of it.
    #[cycle(print)]
    pub(crate) fn value(&self, value: &'t Dynamic, holder: Holder, inside: Inside) {
        let Some(inside) = self.below(inside, holder.position) else {
            return;
        };
        match value {
            Dynamic::Unit => self.put("()"),
            Dynamic::Bool(true) => self.put("true"),
            Dynamic::Bool(false) => self.put("false"),
            Dynamic::Int(value) => self.integer(*value),
            Dynamic::Float(value) => self.float(*value, holder.position),
            Dynamic::Char(value) => self.character(*value),
            Dynamic::Str(text) => self.quoted(text.as_str()),
            Dynamic::Array(items) => {
                self.put("[");
                self.values(items.as_slice(), holder, inside);
                self.put("]");
            }
            Dynamic::Map(members) => self.members(members, holder, inside),
            Dynamic::FnPtr(pointer) => self.pointer(pointer, holder, inside),
            Dynamic::Range(start, end) => self.range_value(*start, "..", *end, holder),
            Dynamic::RangeInclusive(start, end) => self.range_value(*start, "..=", *end, holder),
        }
    }

    /// Values with commas between.
    #[cycle(print)]
    fn values(&self, values: &'t [Dynamic], holder: Holder, inside: Inside) {
        for (index, value) in values.iter().enumerate() {
            self.comma(index);
            self.value(value, holder, inside);
        }
    }

    #[cycle(print)]
    fn members(&self, members: &'t StringMap<Dynamic>, holder: Holder, inside: Inside) {
        let mut index: usize = 0;
        self.put("#{");
        for (key, member) in members.iter() {
            self.comma(index);
            self.key(key.as_str());
            self.value(member, holder, inside);
            index = index.saturating_add(1);
        }
        self.put("}");
    }

    /// A pointer, curried with the values that it holds.
    #[cycle(print)]
    fn pointer(&self, pointer: &'t FnPtr, holder: Holder, inside: Inside) {
        self.want_no_key(holder);
        let values = pointer.curry();
        if values.is_empty() {
            return self.pointed(pointer.fn_name(), holder, inside);
        }
        self.put("curry(");
        self.pointed(pointer.fn_name(), holder, inside);
        self.put(", ");
        self.values(values, holder, inside);
        self.put(")");
    }

    /// A pointer without values: the closure of the function, or its name.
    #[cycle(print)]
    fn pointed(&self, name: &str, holder: Holder, inside: Inside) {
        if !is_anonymous(name) {
            self.put("Fn(");
            self.quoted(name);
            return self.put(")");
        }
        match self.anonymous(name) {
            Some(function) => self.closure(function, 0, holder.position, inside),
            None => self.refuse(Unspelled::Closure, holder.position),
        }
    }

    fn range_value(&self, start: INT, sign: &str, end: INT, holder: Holder) {
        self.want_no_key(holder);
        self.range(start, sign, end);
    }

    /// Refuses a key that has no literal.
    fn want_no_key(&self, holder: Holder) {
        if holder.is_key {
            self.refuse(Unspelled::Key, holder.position);
        }
    }

    /// A range by its ends.
    pub(crate) fn range(&self, start: INT, sign: &str, end: INT) {
        self.integer(start);
        self.put(sign);
        self.integer(end);
    }

    /// An integer; the least one has no positive one, and is written by its bits.
    pub(crate) fn integer(&self, value: INT) {
        if value == INT::MIN {
            return self.put("0x8000000000000000");
        }
        let mut digits = self.no_text();
        let written = write!(digits, "{value}");
        self.made(written);
        self.put(digits.as_str());
    }

    /// A float by the fewest digits that are read as it. What is infinite, or no number, has none.
    pub(crate) fn float(&self, value: FloatWrapper, pos: Position) {
        if !value.value().is_finite() {
            return self.refuse(Unspelled::Float, pos);
        }
        let mut digits = self.no_text();
        let written = write!(digits, "{value}");
        self.made(written);
        self.put(digits.as_str());
    }

    /// The name of a property and its colon.
    pub(crate) fn key(&self, key: &str) {
        if is_name(key) {
            self.put(key);
        } else {
            self.quoted(key);
        }
        self.put(": ");
    }
}
