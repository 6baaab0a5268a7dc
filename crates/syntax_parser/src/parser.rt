//! A text that is read from its beginning to its end.

ghost use Rattle.std.specs.Prelude.{◌<◌, IfSome};

use crate::error::{LexError, ParseError, ParseErrorType};
use crate::inside::Inside;
use crate::nodes::joined;
use crate::options::ParseOptions;
use crate::tables::Table;
use rhai_ast::ScriptFuncDef;
use rhai_base::{Boxed, Ident, ImmutableString, Position, Seq, Token};
use std::alloc::Global;
use std::cell::{Cell, RefCell};
use std::rc::Rc;
use syntax_lexer::{Keyword, Lexed, Lexeme, Mark, Misread, Place, Variables, next_lexeme};

/// What is left of a text, what was read of it for the whole script, and its first fault. What is not passed on from
/// node to node stands in cells, so that nodes are read by `&self`. Behind a fault nothing is left of the text.
#[derive(Drop)]
pub(crate) struct Parser<'a> {
    pub(crate) alloc: Global,
    pub(crate) options: ParseOptions,
    /// Whether expressions alone are read, and no statements but these.
    pub(crate) is_restricted: bool,
    place: Cell<Place<'a>>,
    next: Cell<Option<Lexed<'a>>>,
    fault: Cell<Option<ParseError>>,
    /// Where the statement or function of the top level begins that is read.
    begun: Cell<Position>,
    /// The script's doc text.
    doc: Cell<Option<String>>,
    pub(crate) variables: Variables<'a>,
    pub(crate) table: RefCell<Table<'a>>,
}

/// What was read of a text beside its statements.
#[derive(Drop)]
pub(crate) struct Whole {
    pub(crate) functions: Vec<Rc<ScriptFuncDef>>,
    /// The script's doc text.
    pub(crate) doc: Option<String>,
}

impl<'a> Parser<'a> {
    pub(crate) fn new(
        alloc: Global,
        text: &'a str,
        options: ParseOptions,
        is_restricted: bool,
    ) -> Parser<'a> {
        Parser {
            alloc,
            options,
            is_restricted,
            place: Cell::new(Place::of_script(text)),
            next: Cell::new(None),
            fault: Cell::new(None),
            begun: Cell::new(Position::NONE),
            doc: Cell::new(None),
            variables: Variables::new(alloc),
            table: RefCell::new(Table::new(alloc, options.first_closure)),
        }
    }

    // ---- faults

    /// Refuses the text for what stands there. Nothing is left of it, so a later fault is none.
    pub(crate) fn refuse(&self, reason: ParseErrorType, position: Position) {
        let before = self.fault.replace(None);
        let first = before.unwrap_or(ParseError(reason, position));
        self.fault.set(Some(first));
        self.go_on(self.place.get().end());
    }

    /// Refuses the text for what stands next; where that is no word, for that.
    pub(crate) fn refuse_next(&self, reason: ParseErrorType) {
        let next = self.next();
        match next.lexeme {
            Lexeme::Bad(why, letters) => self.refuse_word(why, letters, next.position),
            _ => self.refuse(reason, next.position),
        }
    }

    /// Refuses letters that are no word.
    fn refuse_word(&self, why: Misread, letters: &str, position: Position) {
        if let Some(letters) = self.owned(letters) {
            let reason = match why {
                Misread::UnexpectedInput => LexError::UnexpectedInput(letters),
                Misread::UnterminatedString => LexError::UnterminatedString,
                Misread::MalformedEscapeSequence => LexError::MalformedEscapeSequence,
                Misread::MalformedNumber => LexError::MalformedNumber(letters),
                Misread::MalformedChar => LexError::MalformedChar(letters),
                Misread::MalformedIdentifier => LexError::MalformedIdentifier(letters),
                Misread::ImproperSymbol => LexError::ImproperSymbol(
                    letters,
                    "it is kept for later",
                ),
            };
            self.refuse(ParseErrorType::BadInput(reason), position);
        }
    }

    /// Refuses what stands next as what begins no expression.
    pub(crate) fn refuse_begin(&self) {
        if self.is_at_end() {
            return self.refuse_next(ParseErrorType::UnexpectedEOF);
        }
        let next = self.next();
        if let Some(letters) = self.owned(self.letters_of(next)) {
            let input = LexError::UnexpectedInput(letters);
            self.refuse_next(ParseErrorType::BadInput(input));
        }
    }

    /// Refuses a sign that stands next for what may be meant.
    pub(crate) fn refuse_sign(&self, meant: &'static str, position: Position) {
        let next = self.next();
        self.refuse_symbol(self.letters_of(next), meant, position);
    }

    /// Refuses letters that cannot stand there for what may be meant.
    pub(crate) fn refuse_symbol(&self, letters: &str, meant: &'static str, position: Position) {
        if let Some(letters) = self.owned(letters) {
            let input = LexError::ImproperSymbol(letters, meant);
            self.refuse(ParseErrorType::BadInput(input), position);
        }
    }

    /// Refuses what stands next where a name should: a word of the language for what it is, all else for a reason.
    pub(crate) fn refuse_name(&self, reason: ParseErrorType) {
        match self.lexeme() {
            Lexeme::Reserved(word) => self.refuse_reserved(word),
            _ => self.refuse_next(reason),
        }
    }

    pub(crate) fn refuse_reserved(&self, word: &str) {
        if let Some(word) = self.owned(word) {
            self.refuse_next(ParseErrorType::Reserved(word));
        }
    }

    /// The letters of what stands next.
    fn letters_of(&self, next: Lexed<'a>) -> &'a str {
        let rest = next.start.rest();
        let length = rest.len().saturating_sub(next.behind.rest().len());
        rest.get(..length).unwrap_or("")
    }

    /// What was made, if there was memory for it.
    pub(crate) fn made<T: Drop, E: Drop>(&self, made: Result<T, E>) -> Option<T> {
        if made.is_err() {
            self.refuse(ParseErrorType::OutOfMemory, Position::NONE);
        }
        made.ok()
    }

    /// Notes that a statement or function of the top level begins.
    pub(crate) fn begin(&self) {
        self.begun.set(self.here());
    }

    /// Where the last statement or function of the top level begins that was read.
    pub(crate) fn begun(&self) -> Position {
        self.begun.get()
    }

    /// What was read for the whole script, or the fault.
    pub(crate) fn into_whole(self) -> Result<Whole, ParseError> {
        let Parser {
            alloc: _alloc,
            options: _options,
            is_restricted: _is_restricted,
            place: _place,
            next: _next,
            fault,
            begun: _begun,
            doc,
            variables: _variables,
            table,
        } = self;
        let functions = table.into_inner().into_functions();
        let doc = doc.into_inner();
        match fault.into_inner() {
            Some(fault) => Err(fault),
            None => Ok(Whole { functions, doc }),
        }
    }

    /// What is around a part that is one level deeper.
    pub(crate) fn below(&self, inside: Inside) -> Option<Inside>
        ensures { IfSome result (λ deeper. deeper.levels < inside.levels) }
    {
        if inside.levels == 0 {
            self.refuse(ParseErrorType::ExprTooDeep, self.here());
        }
        inside.deeper()
    }

    // ---- what is made

    pub(crate) fn owned(&self, letters: &str) -> Option<String> {
        self.made(String::from_str(self.alloc, letters))
    }

    pub(crate) fn boxed<T: Drop>(&self, value: T) -> Option<Boxed<T>> {
        self.made(Boxed::new(self.alloc, value))
    }

    /// Adds an item, if there is one.
    pub(crate) fn push<T: Drop>(&self, items: &mut Vec<T>, item: Option<T>) {
        if let Some(item) = item {
            self.made(items.push(item));
        }
    }

    /// A text of a word, which is shared by all that are the same.
    pub(crate) fn shared(&self, word: &'a str) -> Option<ImmutableString> {
        match self.table.try_borrow_mut() {
            Ok(mut table) => {
                let text = table.texts.shared(self.alloc, word);
                self.made(text)
            }
            Err(_) => None,
        }
    }

    // ---- words

    /// What stands next. It is looked at before it is taken.
    pub(crate) fn next(&self) -> Lexed<'a> {
        match self.next.get() {
            Some(next) => next,
            None => {
                let next = self.read();
                self.next.set(Some(next));
                next
            }
        }
    }

    /// What stands next in the text, but for comments; what documents the script is kept.
    fn read(&self) -> Lexed<'a> {
        let mut next = next_lexeme(self.place.get());
        for _ in 0..self.most() {
            match next.lexeme {
                Lexeme::ScriptDoc(line) => self.document(line),
                Lexeme::Doc(_) => {}
                _ => break,
            }
            next = next_lexeme(next.behind);
        }
        next
    }

    /// Keeps a line of the script's doc text.
    fn document(&self, line: &str) {
        let doc = self.doc.replace(None);
        let doc = self.made(joined(self.alloc, doc, line));
        self.doc.set(doc);
    }

    pub(crate) fn lexeme(&self) -> Lexeme<'a> {
        self.next().lexeme
    }

    /// Where what stands next begins.
    pub(crate) fn here(&self) -> Position {
        self.next().position
    }

    /// Goes past what stands next; where it began.
    pub(crate) fn take(&self) -> Position {
        let next = self.next();
        self.go_on(next.behind);
        next.position
    }

    /// What is left, where nothing was looked at.
    pub(crate) fn place(&self) -> Place<'a> {
        self.place.get()
    }

    /// Goes on at another place.
    pub(crate) fn go_on(&self, place: Place<'a>) {
        self.place.set(place);
        self.next.set(None);
    }

    /// How many items may follow at most: each of them has a letter, and one more may be missing.
    pub(crate) fn most(&self) -> usize {
        self.place.get().rest().len().saturating_add(2)
    }

    pub(crate) fn is_at_end(&self) -> bool {
        matches!(self.lexeme(), Lexeme::End)
    }

    pub(crate) fn is_mark(&self, mark: Mark) -> bool {
        matches!(self.lexeme(), Lexeme::Mark(next) if next == mark)
    }

    pub(crate) fn is_keyword(&self, keyword: Keyword) -> bool {
        matches!(self.lexeme(), Lexeme::Keyword(next) if next == keyword)
    }

    pub(crate) fn is_operator(&self, token: Token) -> bool {
        matches!(self.lexeme(), Lexeme::Operator(next) if next == token)
    }

    pub(crate) fn skip_mark(&self, mark: Mark) -> bool {
        let is_next = self.is_mark(mark);
        if is_next {
            self.take();
        }
        is_next
    }

    pub(crate) fn skip_keyword(&self, keyword: Keyword) -> bool {
        let is_next = self.is_keyword(keyword);
        if is_next {
            self.take();
        }
        is_next
    }

    pub(crate) fn skip_operator(&self, token: Token) -> bool {
        let is_next = self.is_operator(token);
        if is_next {
            self.take();
        }
        is_next
    }

    /// Refuses what stands next for what should stand there.
    pub(crate) fn want(&self, token: &'static str, why: &'static str) {
        self.refuse_next(ParseErrorType::MissingToken(token, why));
    }

    /// Goes past a mark that should stand next.
    pub(crate) fn expect_mark(&self, mark: Mark, letters: &'static str, why: &'static str) {
        if !self.skip_mark(mark) {
            self.want(letters, why);
        }
    }

    // ---- names

    /// A name that should stand next: its letters, and where they stand.
    pub(crate) fn name(&self) -> Option<(&'a str, Ident)> {
        let Lexeme::Name(word) = self.lexeme() else {
            self.refuse_name(ParseErrorType::VariableExpected);
            return None;
        };
        let pos = self.take();
        match self.shared(word) {
            Some(name) => Some((word, Ident { name, pos })),
            None => None,
        }
    }

    /// A name that should stand next.
    pub(crate) fn ident(&self) -> Option<Ident> {
        match self.name() {
            Some((_, ident)) => Some(ident),
            None => None,
        }
    }

    /// No name.
    pub(crate) fn no_ident(&self) -> Option<Ident> {
        match self.shared("") {
            Some(name) => Some(Ident {
                name,
                pos: Position::NONE,
            }),
            None => None,
        }
    }

    pub(crate) fn seq<T: Drop>(&self, items: Vec<T>) -> Option<Boxed<Seq<T>>> {
        self.boxed(Seq::from_vec(items))
    }
}
