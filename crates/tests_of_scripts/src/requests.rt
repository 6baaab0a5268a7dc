//! What the program answers to words, and how it ends where a write or a flush is refused.

use crate::scripts::level_named;
use demo::{BuiltinScript, Request, both_reports, run_words};
use std::alloc::Global;
use std::str;
use tests_reader::{Said, Stops, Told};

pub fn answer(question: &str, text: &str, said: &Said) {
    match question {
        "builtin" => builtin(text, said),
        _ => asked(question, words(text, said).as_slice(), said),
    }
}

fn asked(question: &str, words: &[String], said: &Said) {
    match question {
        "request" => said.debug(&Request::parse(words)),
        "both" => both(words, said),
        "cut" => cut(words, said),
        _ => say_told(
            &tell(said.alloc, words, usize::MAX, question == "words"),
            said,
        ),
    }
}

/// The two reports of a script that words name as those of `run` do.
fn both(words: &[String], said: &Said) {
    let [name, level, turns] = words else {
        return said.want("a script, a level and turns");
    };
    if let Some(script) = BuiltinScript::named(name.as_str())
        && let Some(level) = level_named(level.as_str())
        && let Some(turns) = said.made(turns.parse::<u64>())
        && let Some(text) = said.made(both_reports(said.alloc, script, level, turns))
    {
        said.put(text.as_str());
    }
}

/// The words of a line; `''` is the empty one.
fn words(line: &str, said: &Said) -> Vec<String> {
    let mut words = Vec::new(said.alloc);
    for word in line.split_whitespace() {
        let word = if word == "''" { "" } else { word };
        said.push(&mut words, said.made(String::from_str(said.alloc, word)));
    }
    words
}

/// The name of a built-in script, which is named between quotes, and whether it has statements.
fn builtin(text: &str, said: &Said) {
    match BuiltinScript::named(text.trim_matches('\'')) {
        Some(script) => say_builtin(&script, said),
        None => said.put("none"),
    }
}

fn say_builtin(script: &BuiltinScript, said: &Said) {
    said.put(script.name());
    if let Some(statements) = said.made(script.statements(said.alloc)) {
        let count = if statements.is_empty() { "no" } else { "some" };
        said.word("with");
        said.word(count);
        said.word("statements");
    }
}

// ---- what it writes

/// What the program tells where either side has room for so many bytes.
fn tell(alloc: Global, words: &[String], room: usize, flushes: bool) -> Told {
    let mut out = Stops::new(alloc, room, flushes);
    let mut err = Stops::new(alloc, room, flushes);
    let status = run_words(alloc, words, &mut out, &mut err);
    Told { status, out, err }
}

fn say_told(told: &Told, said: &Said) {
    said.put("status ");
    said.display(&told.status);
    said.put("\n");
    say_side("out:\n", &told.out, said);
    say_side("err:\n", &told.err, said);
}

fn say_side(head: &str, side: &Stops, said: &Said) {
    if !side.taken.is_empty() {
        said.put(head);
        said.put(str::from_utf8(side.taken.as_slice()).unwrap_or("no text"));
    }
}

// ---- where there is no room

/// In how many of the cases, with room for no byte, for one and so on up to all, the program writes just the beginning
/// for which there is room, and ends with status 1 where that is not all.
fn cut(words: &[String], said: &Said) {
    let whole = tell(said.alloc, words, usize::MAX, true);
    let most = whole.most();
    let mut cuts: usize = 0;
    for room in 0..=most {
        let status = if room < most { 1 } else { whole.status };
        let cut = tell(said.alloc, words, room, true);
        if cut.status == status && begins_both(&cut, &whole, room) {
            cuts = cuts.saturating_add(1);
        }
    }
    said.display(&cuts);
    said.put(" of ");
    said.display(&most.saturating_add(1));
}

fn begins_both(cut: &Told, whole: &Told, room: usize) -> bool {
    begins(&cut.out, &whole.out, room) && begins(&cut.err, &whole.err, room)
}

/// Whether all was taken for which there is room.
fn begins(cut: &Stops, whole: &Stops, room: usize) -> bool {
    let count = whole.taken.len().min(room);
    whole.taken.as_slice().get(..count) == Some(cut.taken.as_slice())
}
