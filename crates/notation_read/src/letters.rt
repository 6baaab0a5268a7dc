//! What is read letter by letter.

ghost use Rattle.std.specs.Prelude.{◌<◌, IfSome};

use crate::error::ReadError;
use crate::marks::Marks;
use crate::place::Place;
use rhai_base::{Boxed, INT, Ident, ImmutableString, Position};
use std::alloc::Global;
use std::cell::Cell;
use std::str;

/// The words of the language, which are no names.
static KEYWORDS: [&str; 25] = [
    "true", "false", "let", "const", "if", "else", "switch", "do", "while", "until", "loop", "for",
    "in", "continue", "break", "fn", "private", "return", "throw", "try", "catch", "import",
    "export", "as", "this",
];

/// What letters are.
#[derive(Clone, Copy)]
enum Kind {
    OfNames,
    OfKeys,
    OfSymbols,
    OfIntegers,
    /// All but this one.
    Before(u8),
}

impl Kind {
    fn has(self, letter: u8) -> bool {
        match self {
            Kind::OfNames => letter.is_ascii_alphanumeric() || b"_$".contains(&letter),
            Kind::OfKeys => !b"()[]{},;:\"'\n".contains(&letter),
            Kind::OfSymbols => letter.is_ascii_graphic() && !b"()[]{},;\"'".contains(&letter),
            Kind::OfIntegers => b"-0123456789".contains(&letter),
            Kind::Before(end) => letter != end,
        }
    }
}

/// What is left of a text, and its first fault, in cells, so that it is read by `&self`: docs/GATE.md says what a
/// `&mut` to what borrows costs, and what a `?` does. What is read behind a fault means nothing, and `whole` refuses
/// it.
#[derive(Drop)]
pub(crate) struct Letters<'a, M: Marks> {
    pub(crate) alloc: Global,
    pub(crate) marks: M,
    place: Cell<Place<'a>>,
    fault: Cell<Option<ReadError>>,
}

impl<'a, M: Marks> Letters<'a, M> {
    pub(crate) fn new(alloc: Global, text: &'a str, marks: M) -> Letters<'a, M> {
        Letters {
            alloc,
            marks,
            place: Cell::new(Place::first(text)),
            fault: Cell::new(None),
        }
    }

    // ---- faults

    /// Remembers the first fault.
    pub(crate) fn refuse(&self, fault: ReadError) {
        if self.is_sound() {
            self.fault.set(Some(fault));
        }
    }

    /// Whether there was no fault so far.
    fn is_sound(&self) -> bool {
        self.fault.get().is_none()
    }

    /// Remembers that something else stands next where this should.
    pub(crate) fn want(&self, what: &'static str) {
        let position = self.here();
        self.refuse(ReadError::Expected { what, position });
    }

    /// What should stand there.
    pub(crate) fn wanted<T: Drop>(&self, read: Option<T>, what: &'static str) -> Option<T> {
        if read.is_none() {
            self.want(what);
        }
        read
    }

    /// What was made, if there was memory for it.
    pub(crate) fn made<T: Drop, E: Drop>(&self, made: Result<T, E>) -> Option<T> {
        if made.is_err() {
            self.refuse(ReadError::OutOfMemory);
        }
        made.ok()
    }

    /// What was read of the whole text.
    pub(crate) fn whole<T: Drop>(&self, read: Option<T>) -> Result<T, ReadError> {
        if !self.is_at_end() {
            self.want("the end");
        }
        let read = self.wanted(read, "more");
        match self.fault.get() {
            Some(fault) => Err(fault),
            None => read.ok_or(ReadError::OutOfMemory),
        }
    }

    /// One step less deep; none behind a fault.
    pub(crate) fn below(&self, depth: u32) -> Option<u32>
        ensures { IfSome result (λ d. d < depth) }
    {
        if depth == 0 {
            let position = self.here();
            self.refuse(ReadError::TooDeep { position });
        }
        if !self.is_sound() {
            return None;
        }
        depth.checked_sub(1)
    }

    // ---- what is made

    pub(crate) fn shared(&self, text: &str) -> Option<ImmutableString> {
        self.made(ImmutableString::new(self.alloc, text))
    }

    pub(crate) fn boxed<T: Drop>(&self, value: T) -> Option<Boxed<T>> {
        self.made(Boxed::new(self.alloc, value))
    }

    /// Adds an item, if there is one.
    pub(crate) fn push<T: Drop>(&self, items: &mut Vec<T>, item: Option<T>) {
        if let Some(item) = item {
            self.made(items.push(item));
        }
    }

    // ---- letters

    /// What is left, to come back to.
    pub(crate) fn place(&self) -> Place<'a> {
        self.place.get()
    }

    /// Comes back to what was left.
    pub(crate) fn come_back(&self, place: Place<'a>) {
        self.place.set(place);
    }

    pub(crate) fn rest(&self) -> &'a [u8] {
        self.place().rest
    }

    /// How many items may follow at most: each of them has a letter.
    pub(crate) fn most(&self) -> usize {
        self.rest().len()
    }

    /// Where the last letter stands.
    pub(crate) fn last(&self) -> Position {
        self.place().last()
    }

    /// Where the next letter stands.
    pub(crate) fn here(&self) -> Position {
        self.place().here()
    }

    /// Whether these letters stand next.
    pub(crate) fn starts(&self, letters: &str) -> bool {
        self.rest().starts_with(letters.as_bytes())
    }

    /// Goes past these letters, where they stand next.
    pub(crate) fn skip(&self, letters: &str) -> bool {
        self.starts(letters) && self.first(letters.len()).is_some()
    }

    /// Goes past these letters, which should stand next.
    pub(crate) fn expect(&self, letters: &'static str) {
        if !self.skip(letters) {
            let position = self.here();
            self.refuse(ReadError::Missing { letters, position });
        }
    }

    /// Goes past the end of a line, which should stand next; the last line need not end.
    pub(crate) fn end_line(&self) {
        if !self.is_at_end() && !self.skip("\n") {
            self.want("the end of the line");
        }
    }

    /// Whether nothing is left, or there was a fault.
    pub(crate) fn is_done(&self) -> bool {
        self.is_at_end() || !self.is_sound()
    }

    fn is_at_end(&self) -> bool {
        self.rest().is_empty()
    }

    /// The first letters, so many, and goes past them.
    pub(crate) fn first(&self, count: usize) -> Option<&'a str> {
        let (letters, place) = self.place().split(count)?;
        let letters = str::from_utf8(letters).ok()?;
        self.come_back(place);
        Some(letters)
    }

    /// How many letters of this kind stand next.
    fn count(&self, kind: Kind) -> usize {
        let mut count: usize = 0;
        for letter in self.rest() {
            if !kind.has(*letter) {
                break;
            }
            count = count.saturating_add(1);
        }
        count
    }

    /// The letters before this one, and goes past it; none where it does not follow.
    pub(crate) fn until(&self, end: u8) -> Option<&'a str> {
        let count = self.count(Kind::Before(end));
        self.rest().get(count)?;
        let letters = self.first(count)?;
        self.first(1)?;
        Some(letters)
    }

    /// The letters before a `"`, and goes past it. One with letters behind it that follow no text is a part of the
    /// text.
    pub(crate) fn quoted(&self) -> Option<&'a str> {
        let mut count: usize = 0;
        for letter in self.rest() {
            let next = count.saturating_add(1);
            if *letter == b'"' && follows_text(self.rest().get(next)) {
                let letters = self.first(count)?;
                self.first(1)?;
                return Some(letters);
            }
            count = next;
        }
        None
    }

    /// The one letter before a `'`, which may be a `'` too, and goes past both.
    pub(crate) fn letter(&self) -> Option<char> {
        if self.skip("''") {
            return Some('\'');
        }
        let before = self.place();
        let letter = only(self.until(b'\'')?);
        if letter.is_none() {
            self.come_back(before);
        }
        letter
    }

    /// The letters of a name, and goes past them; none where no name stands next.
    pub(crate) fn word(&self) -> &'a str {
        if matches!(self.rest().first(), Some(b'0'..=b'9')) {
            return "";
        }
        self.first(self.count(Kind::OfNames)).unwrap_or("")
    }

    /// The letters of an operator, and goes past them.
    pub(crate) fn symbol(&self) -> &'a str {
        self.first(self.count(Kind::OfSymbols)).unwrap_or("")
    }

    /// A name.
    pub(crate) fn ident(&self) -> Option<Ident> {
        let pos = self.here();
        let word = self.word();
        if word.is_empty() {
            self.want("a name");
            return None;
        }
        self.name_of(word, pos)
    }

    /// A name of these letters, which should be no word of the language.
    pub(crate) fn name_of(&self, word: &str, pos: Position) -> Option<Ident> {
        if KEYWORDS.contains(&word) {
            self.refuse(ReadError::Keyword { position: pos });
        }
        self.ident_of(word, pos)
    }

    /// The key of a pair: letters up to its `:`.
    pub(crate) fn key(&self) -> Option<Ident> {
        let pos = self.here();
        let key = self.first(self.count(Kind::OfKeys)).unwrap_or("");
        self.ident_of(key, pos)
    }

    pub(crate) fn ident_of(&self, word: &str, pos: Position) -> Option<Ident> {
        match self.shared(word) {
            Some(name) => Some(Ident { name, pos }),
            None => None,
        }
    }

    /// An integer, where one stands next.
    pub(crate) fn integer(&self) -> Option<INT> {
        let before = self.place();
        let digits = self.first(self.count(Kind::OfIntegers))?;
        let integer = digits.parse::<INT>();
        if integer.is_err() {
            self.come_back(before);
        } else if has_zeros(digits) {
            let position = before.here();
            self.refuse(ReadError::Zeros { position });
        }
        integer.ok()
    }

    /// A number.
    pub(crate) fn number(&self) -> usize {
        let before = self.place();
        match usize::try_from(self.integer().unwrap_or(-1)) {
            Ok(number) => number,
            Err(_) => {
                self.come_back(before);
                self.want("a number");
                0
            }
        }
    }
}

/// Whether an integer has zeros before it, or is 0 with a sign.
fn has_zeros(digits: &str) -> bool {
    match digits.strip_prefix('-') {
        Some(number) => number.starts_with('0'),
        None => digits.len() > 1 && digits.starts_with('0'),
    }
}

/// The letter of a text that has one alone.
fn only(text: &str) -> Option<char> {
    let mut letters = text.chars();
    let letter = letters.next()?;
    match letters.next() {
        Some(_) => None,
        None => Some(letter),
    }
}

/// Whether this may stand behind a text.
fn follows_text(letter: Option<&u8>) -> bool {
    match letter {
        Some(letter) => b" ,:;)]}>\n".contains(letter),
        None => true,
    }
}
