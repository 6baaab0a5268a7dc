//! Prints what scripts are optimised to and merged to, reads it again and asks whether it is still the same: in its
//! letters, in its runs, and in what it is optimised to.
#![tactic(auto)]

mod changed;
mod ends;
mod groups;
mod merged;
mod runs;
mod tally;
mod texts;
mod trips;

use std::alloc::AllocError;
use std::{env, fs, io};

/// The words are questions, each with a file.
fn main(rt: HostRuntime) -> io::Result<()> {
    let words: Vec<String> = env::args(&rt)?.skip(1).collect(rt.alloc())?;
    let mut question = "";
    for (index, word) in words.iter().enumerate() {
        if index % 2 == 0 {
            question = word.as_str();
        } else {
            ask(&rt, question, word.as_str())?;
        }
    }
    Ok(())
}

fn ask(rt: &HostRuntime, question: &str, name: &str) -> io::Result<()> {
    let rows = fs::read_to_string(rt, name)?;
    let rows = rows.as_str();
    match question {
        "texts" => say(rt, texts::ask(rt.alloc(), rows)),
        "ends" => say(rt, ends::ask(rt.alloc(), rows)),
        "changed" => say(rt, changed::ask(rt.alloc(), rows)),
        "merged" => say(rt, merged::ask(rt.alloc(), rows)),
        "pairs" => say(rt, merged::ask_pairs(rt.alloc(), rows)),
        _ => Ok(()),
    }
}

fn say(rt: &HostRuntime, said: Result<String, AllocError>) -> io::Result<()> {
    let said = said?;
    rt.print(said.as_str())
}
