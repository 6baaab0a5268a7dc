//! Asks the parser about texts in rhai's own syntax: scripts, their trees and where their nodes stand, texts that are
//! none and why, runs before and after optimising, and texts that are cut short or changed.
#![tactic(auto)]

mod bad;
mod changed;
mod places;
mod rows;
mod runs;
mod trees;
mod usual_host;

use rows::Question;
use std::alloc::AllocError;
use std::{env, fs, io};
use tests_reader::ask_blocks;

/// The words are questions, each with a file; or `change`, a file, how many texts of it are changed, and where the
/// changes begin.
fn main(rt: HostRuntime) -> io::Result<()> {
    let words: Vec<String> = env::args(&rt)?.skip(1).collect(rt.alloc())?;
    match words.as_slice() {
        [question, name, count, seed] if question.as_str() == "change" => {
            let rows = fs::read_to_string(&rt, name.as_str())?;
            let (count, seed) = (number(count), number(seed));
            say(&rt, changed::change(rt.alloc(), rows.as_str(), count, seed))
        }
        _ => ask_pairs(&rt, words.as_slice()),
    }
}

fn number(word: &String) -> u64 {
    word.as_str().parse::<u64>().unwrap_or(0)
}

/// Pairs of a question and a file.
fn ask_pairs(rt: &HostRuntime, words: &[String]) -> io::Result<()> {
    let mut question = "";
    for (index, word) in words.iter().enumerate() {
        if index % 2 == 0 {
            question = word.as_str();
        } else {
            ask(rt, question, word.as_str())?;
        }
    }
    Ok(())
}

fn ask(rt: &HostRuntime, question: &str, name: &str) -> io::Result<()> {
    let rows = fs::read_to_string(rt, name)?;
    let rows = rows.as_str();
    match question {
        "trees" => say(rt, ask_blocks(rt.alloc(), &Question::Tree, rows)),
        "expressions" => say(rt, ask_blocks(rt.alloc(), &Question::Expression, rows)),
        "numbered" => say(rt, ask_blocks(rt.alloc(), &Question::Numbered, rows)),
        "faults" => say(rt, ask_blocks(rt.alloc(), &Question::Faults, rows)),
        "bad" => say(rt, ask_blocks(rt.alloc(), &Question::Refusal, rows)),
        "places" => say(rt, ask_blocks(rt.alloc(), &Question::Places, rows)),
        "runs" => say(rt, runs::ask(rt.alloc(), rows)),
        "cut" => say(rt, changed::cut_all(rt.alloc(), rows)),
        "changed" => say(rt, changed::change(rt.alloc(), rows, 5_000, 1)),
        _ => Ok(()),
    }
}

fn say(rt: &HostRuntime, said: Result<String, AllocError>) -> io::Result<()> {
    let said = said?;
    rt.print(said.as_str())
}
