//! Tables of a `switch`: arms that are shared, that no list names, that stand in other tables alone.

use crate::asked;
use crate::case::{Case, Run, Tally, Wanted};
use tests_reader::Said;

/// Places of arms; there are two arms, so the last of these is past the table.
const LISTS: [&str; 7] = ["", "0", "1", "0 1", "1 0", "0 0", "2"];

/// Ranges, and the places of their arms.
const RANGES: [(&str, &str); 6] = [
    ("", ""),
    ("0..5: 0", "0"),
    ("0..5: 1", "1"),
    ("0..5: 1, 1..=3: 0", "1 0"),
    ("5..0: 1", "1"),
    ("0..5: 2", "2"),
];

/// The place of the default.
const DEFAULTS: [&str; 4] = ["-", "0", "1", "2"];

/// Conditions of the two arms.
const CONDITIONS: [(&str, &str); 4] = [
    ("true", "true"),
    ("true", "f()"),
    ("false", "true"),
    ("1", "<true>"),
];

const SUBJECTS: [&str; 5] = ["1", "f()", "9", "3", "<[2]>"];

/// What a table is made of.
#[derive(Clone, Copy)]
struct Table<'a> {
    first: &'a str,
    second: &'a str,
    ranges: (&'a str, &'a str),
    default: &'a str,
    conditions: (&'a str, &'a str),
}

/// All tables of these parts, each over another subject.
pub fn ask(tally: &Tally) {
    let mut turn = 0usize;
    for first in LISTS {
        for second in LISTS {
            for ranges in RANGES {
                ask_each(first, second, ranges, &mut turn, tally);
            }
        }
    }
    tally.say("tables of a switch");
}

fn ask_each<'a>(
    first: &'a str,
    second: &'a str,
    ranges: (&'a str, &'a str),
    turn: &mut usize,
    tally: &Tally,
) {
    for default in DEFAULTS {
        for conditions in CONDITIONS {
            let table = Table {
                first,
                second,
                ranges,
                default,
                conditions,
            };
            ask_table(
                table,
                SUBJECTS.get(*turn % 5).copied().unwrap_or("1"),
                tally,
            );
            *turn = turn.saturating_add(1);
        }
    }
}

fn ask_table(table: Table, subject: &str, tally: &Tally) {
    let text = written(table, subject, tally);
    let fault = if is_refused(table) { 31 } else { 0 };
    let wanted = Wanted {
        fault,
        is_plain: true,
        run: if fault == 0 { Run::Any } else { Run::Stuck },
    };
    asked::ask(&Case::new(text.as_str(), wanted, tally));
}

fn written(table: Table, subject: &str, tally: &Tally) -> String {
    let text = Said::new(tally.said.alloc, false);
    for part in [
        "switch ",
        subject,
        " { 1: ",
        table.first,
        ", 2: ",
        table.second,
        " | ",
    ] {
        text.put(part);
    }
    for part in [table.ranges.0, " | default ", table.default, " | "] {
        text.put(part);
    }
    let (first, second) = table.conditions;
    for part in [first, " => f(), ", second, " => { let x = 2; x } }"] {
        text.put(part);
    }
    text.into_text()
}

/// Whether a table names an arm past its two, or its default has a condition or is an arm that it names.
fn is_refused(table: Table) -> bool {
    let Table {
        first,
        second,
        ranges,
        default,
        conditions,
    } = table;
    let is_named = |place: &str| {
        first.contains(place) || second.contains(place) || ranges.1.contains(place)
    };
    let condition = match default {
        "0" => conditions.0,
        "1" => conditions.1,
        _ => "true",
    };
    is_named("2") || default == "2" || condition != "true" || is_named(default)
}
