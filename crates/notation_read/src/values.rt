//! Values, in the form that they have inside of others.

use crate::error::ReadError;
use crate::joined::both;
use crate::letters::Letters;
use crate::marks::{Marks, NoMarks};
use rhai_base::{Dynamic, FnPtr, INT, ImmutableString, Seq, StringMap};
use std::alloc::Global;

/// How deep a value may nest, each step counted.
const DEPTH: u32 = 400;

/// The value of a text.
pub fn parse_value(alloc: Global, text: &str) -> Result<Dynamic, ReadError> {
    let letters = Letters::new(alloc, text, NoMarks);
    let value = letters.value();
    letters.whole(letters.wanted(value, "a value"))
}

impl<'a, M: Marks> Letters<'a, M> {
    /// A value, where one stands next.
    pub(crate) fn value(&self) -> Option<Dynamic> {
        self.value_within(DEPTH)
    }

    #[cycle(value)]
    fn value_within(&self, depth: u32) -> Option<Dynamic> {
        let depth = self.below(depth)?;
        if self.skip("[") {
            return Some(Dynamic::Array(self.items(depth)));
        }
        if self.skip("#{") {
            return Some(Dynamic::Map(self.members(depth)));
        }
        if self.skip("Fn(") {
            return self.pointer(depth);
        }
        let scalar = self.scalar()?;
        match scalar.as_int() {
            Ok(start) => Some(self.from(start)),
            Err(_) => Some(scalar),
        }
    }

    /// Values up to the end of their list.
    #[cycle(value)]
    fn items(&self, depth: u32) -> Seq<Dynamic> {
        let mut items = Vec::new(self.alloc);
        let Some(depth) = self.below(depth) else {
            return Seq::from_vec(items);
        };
        if self.skip("]") {
            return Seq::from_vec(items);
        }
        for _ in 0..self.most() {
            let item = self.value_within(depth);
            self.push(&mut items, self.wanted(item, "a value"));
            if !self.skip(", ") {
                break;
            }
        }
        self.expect("]");
        Seq::from_vec(items)
    }

    /// Values with their keys, up to the end of their map.
    #[cycle(value)]
    fn members(&self, depth: u32) -> StringMap<Dynamic> {
        let mut members = StringMap::new(self.alloc);
        let Some(depth) = self.below(depth) else {
            return members;
        };
        if self.skip("}") {
            return members;
        }
        for _ in 0..self.most() {
            let key = self.member_key(&members);
            self.put(&mut members, key, self.value_within(depth));
            if !self.skip(", ") {
                break;
            }
        }
        self.expect("}");
        members
    }

    /// Puts a value there, under its key.
    fn put(
        &self,
        members: &mut StringMap<Dynamic>,
        key: Option<ImmutableString>,
        value: Option<Dynamic>,
    ) {
        if let Some((key, value)) = both(key, self.wanted(value, "a value")) {
            self.made(members.insert(key, value));
        }
    }

    /// A key, which should be none of these members.
    fn member_key(&self, members: &StringMap<Dynamic>) -> Option<ImmutableString> {
        let position = self.here();
        self.expect("\"");
        let key = self.text()?;
        if members.get(&key).is_some() {
            self.refuse(ReadError::KeyTwice { position });
        }
        self.expect(": ");
        Some(key)
    }

    /// The rest of a text.
    fn text(&self) -> Option<ImmutableString> {
        let text = self.wanted(self.quoted(), "a text's end")?;
        self.shared(text)
    }

    /// A pointer's name, and its values up to its end.
    #[cycle(value)]
    fn pointer(&self, depth: u32) -> Option<Dynamic> {
        let depth = self.below(depth)?;
        let mut pointer = self.pointer_to()?;
        for _ in 0..self.most() {
            if !self.skip(", ") {
                break;
            }
            let value = self.value_within(depth);
            self.curry(&mut pointer, self.wanted(value, "a value"));
        }
        self.expect(")");
        Some(Dynamic::FnPtr(pointer))
    }

    /// A pointer to the function whose name stands next; none where no function may have it.
    fn pointer_to(&self) -> Option<FnPtr> {
        let before = self.place();
        let name = self.shared(self.word())?;
        let pointer = FnPtr::new(self.alloc, name);
        if pointer.is_none() {
            self.come_back(before);
        }
        pointer
    }

    /// Adds the value of a pointer's next parameter, if there is one.
    fn curry(&self, pointer: &mut FnPtr, value: Option<Dynamic>) {
        if let Some(value) = value {
            self.made(pointer.add_curry(value));
        }
    }

    /// An integer, or a range from it.
    fn from(&self, start: INT) -> Dynamic {
        if self.skip("..=") {
            Dynamic::RangeInclusive(start, self.end_of_range())
        } else if self.skip("..") {
            Dynamic::Range(start, self.end_of_range())
        } else {
            Dynamic::Int(start)
        }
    }

    pub(crate) fn end_of_range(&self) -> INT {
        match self.integer() {
            Some(end) => end,
            None => {
                self.want("the end of a range");
                0
            }
        }
    }

    /// A value without parts, where one stands next.
    pub(crate) fn scalar(&self) -> Option<Dynamic> {
        if self.skip("()") {
            return Some(Dynamic::Unit);
        }
        if self.skip("\"") {
            return self.text().map(Dynamic::Str);
        }
        if let Some(float) = self.float() {
            return Some(Dynamic::Float(float));
        }
        if self.skip("'") {
            return self
                .wanted(self.letter(), "one letter in quotes")
                .map(Dynamic::Char);
        }
        match self.truth() {
            Some(truth) => Some(Dynamic::Bool(truth)),
            None => self.integer().map(Dynamic::Int),
        }
    }

    /// A bool, where one stands next.
    fn truth(&self) -> Option<bool> {
        let before = self.place();
        match self.word() {
            "true" => Some(true),
            "false" => Some(false),
            _ => {
                self.come_back(before);
                None
            }
        }
    }

    /// A constant of its own between `<` and `>`, where one stands next.
    pub(crate) fn held(&self) -> Option<Dynamic> {
        let before = self.place();
        if !self.skip("<") {
            return None;
        }
        let value = self.value();
        if value.is_some() {
            self.expect(">");
        } else {
            self.come_back(before);
        }
        value
    }
}
