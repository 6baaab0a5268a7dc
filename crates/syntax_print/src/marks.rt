//! Brackets, commas and line ends of a printed text, outside of its texts and comments.

use std::alloc::{AllocError, Global};

/// The marks of a text.
#[derive(Drop)]
pub(crate) struct Marks {
    /// In the text's order.
    pub(crate) marks: Vec<Mark>,
    pub(crate) brackets: Vec<Bracket>,
    /// Where the first line ends.
    pub(crate) first_line: usize,
}

/// A mark.
#[derive(Clone, Copy)]
pub(crate) struct Mark {
    pub(crate) kind: Kind,
    pub(crate) place: usize,
    /// The bracket that it opens or closes, or whose items it parts.
    pub(crate) bracket: usize,
    /// Where what stands behind it ends: an item of the bracket, or the line.
    pub(crate) item_end: usize,
}

#[derive(Clone, Copy, Debug, PartialEq, Eq)]
pub(crate) enum Kind {
    Open,
    Comma,
    Close,
    /// The end of a line.
    Line,
}

/// A bracket.
#[derive(Clone, Copy)]
pub(crate) struct Bracket {
    /// Where it closes.
    pub(crate) end: usize,
    pub(crate) has_commas: bool,
    /// Whether it closes on the line on which it opens.
    pub(crate) is_on_line: bool,
}

/// What the next letter belongs to.
#[derive(Clone, Copy)]
enum State {
    Code,
    /// The parameters of a closure.
    Params,
    /// A text or a character between quotes.
    Quoted(u8),
    /// The same, behind a `\`.
    Escaped(u8),
    /// A text between back-ticks.
    Ticked,
    /// The same, behind a `$`.
    Dollar,
    /// A comment up to the end of the line.
    Comment,
    /// A comment within so many others.
    Block(usize),
}

/// A bracket that is open.
#[derive(Clone, Copy)]
enum Opened {
    /// By its place among the brackets; the mark behind which its item stands, and how many lines there were.
    Bracket {
        bracket: usize,
        mark: usize,
        lines: usize,
    },
    /// A block in a text.
    Block,
}

/// What was read of a text.
#[derive(Drop)]
struct Reading {
    state: State,
    /// The letter before, where it may be the first of a sign.
    before: u8,
    opened: Vec<Opened>,
    /// How many of these are blocks in texts, in which nothing is marked.
    texts: usize,
    lines: usize,
    /// The mark of the last line end.
    line: Option<usize>,
    found: Marks,
}

/// The marks of a printed text.
pub(crate) fn marks_of(alloc: Global, text: &str) -> Result<Marks, AllocError> {
    let mut reading = Reading {
        state: State::Code,
        before: 0,
        opened: Vec::new(alloc),
        texts: 0,
        lines: 0,
        line: None,
        found: Marks {
            marks: Vec::new(alloc),
            brackets: Vec::new(alloc),
            first_line: text.len(),
        },
    };
    for (place, letter) in text.as_bytes().iter().enumerate() {
        reading.letter(*letter, place)?;
    }
    reading.end_line(text.len());
    let Reading {
        state: _state,
        before: _before,
        opened: _opened,
        texts: _texts,
        lines: _lines,
        line: _line,
        found,
    } = reading;
    Ok(found)
}

impl Reading {
    fn letter(&mut self, letter: u8, place: usize) -> Result<(), AllocError> {
        let before = self.before;
        self.before = letter;
        match self.state {
            State::Code => return self.code(letter, before, place),
            State::Params if letter == b'|' => self.go_on(State::Code),
            State::Quoted(_) if letter == b'\\' => self.go_on(escaped(self.state)),
            State::Quoted(quote) if letter == quote => self.go_on(State::Code),
            State::Escaped(quote) => self.go_on(State::Quoted(quote)),
            State::Ticked | State::Dollar if letter == b'`' => self.go_on(State::Code),
            State::Ticked | State::Dollar if letter == b'$' => self.go_on(State::Dollar),
            State::Dollar if letter == b'{' => {
                self.opened.push(Opened::Block)?;
                self.texts = self.texts.saturating_add(1);
                self.go_on(State::Code);
            }
            State::Dollar => self.go_on(State::Ticked),
            State::Comment if letter == b'\n' => {
                self.go_on(State::Code);
                return self.line(place);
            }
            State::Block(depth) => self.comment(depth, before, letter),
            _ => {}
        }
        Ok(())
    }

    /// Goes on with another state.
    fn go_on(&mut self, state: State) {
        self.state = state;
        self.before = 0;
    }

    /// A letter of a comment within so many others.
    fn comment(&mut self, depth: usize, before: u8, letter: u8) {
        match (before, letter) {
            (b'/', b'*') => self.go_on(State::Block(depth.saturating_add(1))),
            (b'*', b'/') if depth == 0 => self.go_on(State::Code),
            (b'*', b'/') => self.go_on(State::Block(depth.saturating_sub(1))),
            _ => {}
        }
    }

    /// A letter that is in no text and no comment.
    fn code(&mut self, letter: u8, before: u8, place: usize) -> Result<(), AllocError> {
        match (before, letter) {
            (_, b'"' | b'\'') => self.go_on(State::Quoted(letter)),
            (_, b'`') => self.go_on(State::Ticked),
            (b'/', b'/') => self.go_on(State::Comment),
            (b'/', b'*') => self.go_on(State::Block(0)),
            (b'|', b'|') => self.go_on(State::Code),
            (b'|', b'_' | b'a'..=b'z' | b'A'..=b'Z') => self.go_on(State::Params),
            (_, b'(' | b'[' | b'{') => return self.open(place),
            (_, b')' | b']' | b'}') => return self.close(place),
            (_, b',') => return self.comma(place),
            (_, b'\n') => return self.line(place),
            _ => {}
        }
        Ok(())
    }

    /// Adds a mark; its place among them.
    fn add(&mut self, kind: Kind, bracket: usize, place: usize) -> Result<usize, AllocError> {
        let mark = self.found.marks.len();
        self.found.marks.push(Mark {
            kind,
            place,
            bracket,
            item_end: place,
        })?;
        Ok(mark)
    }

    fn open(&mut self, place: usize) -> Result<(), AllocError> {
        let bracket = self.found.brackets.len();
        let mut mark = 0;
        if self.texts == 0 {
            mark = self.add(Kind::Open, bracket, place)?;
            self.found.brackets.push(Bracket {
                end: place,
                has_commas: false,
                is_on_line: false,
            })?;
        }
        self.opened.push(Opened::Bracket {
            bracket,
            mark,
            lines: self.lines,
        })?;
        Ok(())
    }

    fn close(&mut self, place: usize) -> Result<(), AllocError> {
        match self.opened.pop() {
            Some(Opened::Block) => {
                self.texts = self.texts.saturating_sub(1);
                self.go_on(State::Ticked);
            }
            Some(
                Opened::Bracket {
                    bracket,
                    mark,
                    lines,
                },
            ) if self.texts == 0 => {
                self.end_item(mark, place);
                self.add(Kind::Close, bracket, place)?;
                let is_on_line = lines == self.lines;
                if let Some(bracket) = self.found.brackets.get_mut(bracket) {
                    bracket.end = place;
                    bracket.is_on_line = is_on_line;
                }
            }
            _ => {}
        }
        Ok(())
    }

    fn comma(&mut self, place: usize) -> Result<(), AllocError> {
        if self.texts > 0 {
            return Ok(());
        }
        let Some(
            Opened::Bracket {
                bracket,
                mark,
                lines,
            },
        ) = self.opened.pop()
        else {
            return Ok(());
        };
        self.end_item(mark, place);
        let mark = self.add(Kind::Comma, bracket, place)?;
        if let Some(bracket) = self.found.brackets.get_mut(bracket) {
            bracket.has_commas = true;
        }
        self.opened.push(Opened::Bracket {
            bracket,
            mark,
            lines,
        })?;
        Ok(())
    }

    fn line(&mut self, place: usize) -> Result<(), AllocError> {
        if self.texts == 0 {
            self.end_line(place);
            let mark = self.add(Kind::Line, usize::MAX, place)?;
            self.line = Some(mark);
            self.lines = self.lines.saturating_add(1);
        }
        Ok(())
    }

    /// Notes where the line ends that is read.
    fn end_line(&mut self, place: usize) {
        match self.line {
            Some(mark) => self.end_item(mark, place),
            None => self.found.first_line = place,
        }
    }

    fn end_item(&mut self, mark: usize, place: usize) {
        if let Some(mark) = self.found.marks.get_mut(mark) {
            mark.item_end = place;
        }
    }
}

/// The state behind a `\`.
fn escaped(state: State) -> State {
    match state {
        State::Quoted(quote) => State::Escaped(quote),
        other => other,
    }
}
