//! Rows of nodes and of places.

use crate::case::{Run, Wanted};
use std::alloc::Global;
use tests_reader::{Said, split};

/// What stands in a place.
#[derive(Clone, Copy, PartialEq)]
pub enum Kind {
    /// An expression, in a statement.
    Expression,
    /// An expression, in another.
    Inner,
    Statement,
}

/// An odd node.
#[derive(Clone, Copy)]
pub struct Node<'a> {
    pub wanted: Wanted,
    pub text: &'a str,
}

/// What stands around a place.
#[derive(Clone, Copy)]
pub struct Around {
    pub is_reached: bool,
    pub is_passed: bool,
    pub in_loop: bool,
    pub is_nowhere: bool,
    pub is_target: bool,
}

impl Around {
    /// Around a place that stands in another one.
    pub fn within(self, outer: Around) -> Around {
        Around {
            is_reached: self.is_reached && outer.is_reached,
            is_passed: false,
            in_loop: self.in_loop || outer.in_loop,
            is_nowhere: self.is_nowhere || outer.is_nowhere,
            is_target: self.is_target || outer.is_target,
        }
    }
}

/// A place.
#[derive(Clone, Copy)]
pub struct Place<'a> {
    pub kind: Kind,
    pub around: Around,
    pub text: &'a str,
}

/// Odd nodes.
#[derive(Drop)]
pub struct Nodes<'a> {
    expressions: Vec<Node<'a>>,
    statements: Vec<Node<'a>>,
}

impl<'a> Nodes<'a> {
    /// Those that may stand in a place of a kind.
    pub fn of(&self, place: Kind) -> &[Node<'a>] {
        match place {
            Kind::Statement => self.statements.as_slice(),
            Kind::Expression | Kind::Inner => self.expressions.as_slice(),
        }
    }
}

/// The nodes of these rows.
pub fn read_nodes<'a>(rows: &'a str, said: &Said) -> Nodes<'a> {
    Nodes {
        expressions: rows_of("expression ", rows, said),
        statements: rows_of("statement ", rows, said),
    }
}

fn rows_of<'a>(kind: &str, rows: &'a str, said: &Said) -> Vec<Node<'a>> {
    let mut nodes = Vec::new(said.alloc);
    for row in rows.lines() {
        if let Some(row) = row.strip_prefix(kind) {
            said.push(&mut nodes, Some(read_node(row)));
        }
    }
    nodes
}

fn read_node(row: &str) -> Node<'_> {
    let (fault, rest) = split(row, " ");
    let (how, text) = split(rest, " ");
    Node {
        wanted: wanted(fault, how),
        text,
    }
}

fn wanted(fault: &str, how: &str) -> Wanted {
    let is_stuck = how == "stuck" || how == "barred";
    Wanted {
        fault: fault.parse::<u8>().unwrap_or(u8::MAX),
        is_plain: how != "barred" && how != "unplain",
        run: if is_stuck { Run::Stuck } else { Run::Any },
    }
}

/// None where the row is none.
fn kind_named(word: &str) -> Option<Kind> {
    match word {
        "expression" => Some(Kind::Expression),
        "inner" => Some(Kind::Inner),
        "statement" => Some(Kind::Statement),
        _ => None,
    }
}

/// The places of these rows.
pub fn read_places<'a>(rows: &'a str, said: &Said) -> Vec<Place<'a>> {
    let mut places = Vec::new(said.alloc);
    for row in rows.lines() {
        said.push(&mut places, read_place(row));
    }
    places
}

fn read_place(row: &str) -> Option<Place<'_>> {
    let (kind, rest) = split(row, " ");
    let (word, text) = split(rest, " ");
    Some(Place {
        kind: kind_named(kind)?,
        around: around_of(word),
        text,
    })
}

fn around_of(word: &str) -> Around {
    Around {
        is_reached: word == "reached" || word == "looped" || word == "target",
        is_passed: word == "unreached" || word == "unlooped" || word == "nowhere",
        in_loop: word == "looped" || word == "unlooped",
        is_nowhere: word == "nowhere",
        is_target: word == "target",
    }
}

/// The text of a place with this in place of `@`; `\n` ends a line.
pub fn filled(alloc: Global, place: &str, text: &str, said: &Said) -> String {
    let (head, tail) = split(place, "@");
    let mut lines = String::new(alloc);
    push_lines(head, &mut lines, said);
    said.made(lines.push_str(text));
    push_lines(tail, &mut lines, said);
    lines
}

fn push_lines(text: &str, lines: &mut String, said: &Said) {
    let mut is_first = true;
    for line in text.split("\\n") {
        if !is_first {
            said.made(lines.push_str("\n"));
        }
        said.made(lines.push_str(line));
        is_first = false;
    }
}

/// Whether a place is of several lines or a function, and stands in no other.
pub fn is_whole(place: &str) -> bool {
    place.contains("\\n") || place.starts_with("fn ")
}
