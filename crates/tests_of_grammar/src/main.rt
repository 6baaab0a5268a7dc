//! Asks the grammar which trees a text of one expression spells: the one that the parser makes of it, and none that differs
//! from it in one place. The same of scripts. And whether the parser reads scripts, and each of their lines that is an
//! expression, as the grammar has them.
#![tactic(auto)]

mod lines;
mod near;
mod near_scripts;
mod scripts;

use std::alloc::AllocError;
use std::{env, fs, io};

/// The words are questions, each with a file.
fn main(rt: HostRuntime) -> io::Result<()> {
    let words: Vec<String> = env::args(&rt)?.skip(1).collect(rt.alloc())?;
    let mut question = "";
    for (index, word) in words.as_slice().iter().enumerate() {
        if index % 2 == 0 {
            question = word.as_str();
        } else {
            ask(&rt, question, word.as_str())?;
        }
    }
    Ok(())
}

fn ask(rt: &HostRuntime, question: &str, name: &str) -> io::Result<()> {
    let rows = fs::read_to_string(rt, name)?;
    match question {
        "near" => say(rt, near::ask(rt.alloc(), rows.as_str())),
        "near_scripts" => say(rt, near_scripts::ask(rt.alloc(), rows.as_str())),
        "scripts" => say(rt, scripts::ask(rt.alloc(), rows.as_str())),
        "lines" => say(rt, lines::ask(rt.alloc(), rows.as_str())),
        _ => Ok(()),
    }
}

fn say(rt: &HostRuntime, said: Result<String, AllocError>) -> io::Result<()> {
    let said = said?;
    rt.print(said.as_str())
}
