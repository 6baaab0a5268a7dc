//! Where a node stands in its source.
ghost use Rattle.std.specs.Prelude.{◌≡◌, ◌<◌, ◌&&◌, if◌then◌else◌};
ghost use Rattle.base_tokens.specs.Positions.{is_nowhere, line_of, position_of};

/// A line and a position in it, both from 1, or nowhere.
#[derive(Clone, Copy, Debug, PartialEq, Eq)]
pub struct Position {
    line: u16,
    pos: u16,
}

impl Position {
    /// Nowhere.
    pub const NONE: Position = Position { line: 0, pos: 0 };

    /// A position in a line above 0.
    pub fn new(line: u16, position: u16) -> Position
        requires { 0 < line }
        ensures line { result.line ≡ line }
        ensures position { result.pos ≡ position }
    {
        Position {
            line,
            pos: position,
        }
    }

    /// The line, from 1; none for nowhere.
    pub fn line(self) -> Option<usize>
        ensures { result ≡ line_of self }
    {
        if self.is_none() {
            None
        } else {
            Some(self.line as usize)
        }
    }

    /// The position in the line, from 1; none for nowhere and for the beginning of a line, which is
    /// position 0.
    pub fn position(self) -> Option<usize>
        ensures { result ≡ position_of self }
    {
        if self.is_none() || self.pos == 0 {
            None
        } else {
            Some(self.pos as usize)
        }
    }

    /// Is this nowhere?
    pub fn is_none(self) -> bool
        ensures { result ≡ is_nowhere self }
    {
        self == Position::NONE
    }

    /// This position, or the other where this is nowhere.
    pub fn or_else(self, other: Position) -> Position
        ensures { result ≡ (if is_nowhere self then other else self) }
    {
        if self.is_none() { other } else { self }
    }
}

/// From one position to another.
#[derive(Clone, Copy, Debug, PartialEq, Eq)]
pub struct Span {
    start: Position,
    end: Position,
}

impl Span {
    /// No span.
    pub const NONE: Span = Span {
        start: Position::NONE,
        end: Position::NONE,
    };

    /// From the start to the end.
    pub fn new(start: Position, end: Position) -> Span
        ensures start { result.start ≡ start }
        ensures end { result.end ≡ end }
    {
        Span { start, end }
    }

    /// Where the node starts.
    pub fn start(self) -> Position
        ensures { result ≡ self.start }
    {
        self.start
    }

    /// Where the node ends.
    pub fn end(self) -> Position
        ensures { result ≡ self.end }
    {
        self.end
    }

    /// Are both ends nowhere?
    pub fn is_none(self) -> bool
        ensures { result ≡ (is_nowhere self.start && is_nowhere self.end) }
    {
        self == Span::NONE
    }

    /// This span; in place of an end that is nowhere the one that is given. It is not in rhai, whose blocks have it
    /// alone.
    pub fn or_else(self, start: Position, end: Position) -> Span
        ensures start { result.start ≡ (if is_nowhere self.start then start else self.start) }
        ensures end { result.end ≡ (if is_nowhere self.end then end else self.end) }
    {
        Span::new(self.start.or_else(start), self.end.or_else(end))
    }
}
