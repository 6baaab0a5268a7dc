//! Odd nodes in each place, and in places in places.

use crate::asked;
use crate::case::{Case, Run, Tally, Wanted};
use crate::rows::{Around, Kind, Node, Place, filled, is_whole, read_nodes, read_places};

/// Asks of all.
pub fn ask(node_rows: &str, place_rows: &str, tally: &Tally) {
    let nodes = read_nodes(node_rows, &tally.said);
    let places = read_places(place_rows, &tally.said);
    for place in &places {
        ask_place(place, nodes.of(place.kind), tally);
    }
    tally.say("odd nodes in each place");
    for (turn, inner) in places.iter().enumerate() {
        if !is_whole(inner.text) {
            ask_within(inner, turn, nodes.of(inner.kind), places.as_slice(), tally);
        }
    }
    tally.say("odd nodes in places in places");
}

/// Each node in a place.
fn ask_place(place: &Place, nodes: &[Node], tally: &Tally) {
    for node in nodes {
        ask_filled(place.text, node.text, place.around, node, tally);
    }
}

/// A place in each place that can hold it, each time with another node, from this one on.
fn ask_within(inner: &Place, first: usize, nodes: &[Node], places: &[Place], tally: &Tally) {
    let mut turn = first;
    for outer in places {
        if holds(outer.kind, inner.kind)
            && let Some(at) = turn.checked_rem(nodes.len())
            && let Some(node) = nodes.get(at)
        {
            ask_nested(outer, inner, node, tally);
            turn = turn.saturating_add(1);
        }
    }
}

/// Whether a place of a kind may hold one of another.
fn holds(outer: Kind, inner: Kind) -> bool {
    match inner {
        Kind::Inner => outer != Kind::Statement,
        Kind::Expression | Kind::Statement => outer == Kind::Statement,
    }
}

fn ask_nested(outer: &Place, inner: &Place, node: &Node, tally: &Tally) {
    let place = filled(tally.said.alloc, outer.text, inner.text, &tally.said);
    let around = inner.around.within(outer.around);
    let standing = if outer.around.is_target {
        inner.text
    } else {
        node.text
    };
    ask_filled(place.as_str(), standing, around, node, tally);
}

/// A place with a node, of which this is the left side where one stands there.
fn ask_filled(place: &str, standing: &str, around: Around, node: &Node, tally: &Tally) {
    let text = filled(tally.said.alloc, place, node.text, &tally.said);
    let wanted = if around.is_target && !around.is_nowhere && !is_left_side(standing) {
        target(node, around)
    } else {
        wanted(node, around)
    };
    asked::ask(&Case::new(text.as_str(), wanted, tally));
}

/// What is wanted of a tree with a node that stands there.
fn wanted(node: &Node, around: Around) -> Wanted {
    let is_sound = around.is_nowhere || node.wanted.fault == 24 && around.in_loop;
    let wanted = if is_sound { Wanted::SOUND } else { node.wanted };
    let is_claimed = around.is_reached && !around.is_target;
    let run = if around.is_passed {
        Run::Passed
    } else if is_claimed {
        wanted.run
    } else {
        Run::Any
    };
    Wanted { run, ..wanted }
}

/// What is wanted of an assignment to what is no left side.
fn target(node: &Node, around: Around) -> Wanted {
    Wanted {
        fault: 27,
        run: if around.is_reached {
            Run::Stuck
        } else {
            Run::Any
        },
        is_plain: node.wanted.is_plain,
    }
}

fn is_left_side(text: &str) -> bool {
    let text = text.strip_prefix("spoiled ").unwrap_or(text);
    text.starts_with("Dot") || text.starts_with("Index")
}
