//! Asks how trees are spelled in rhai's own syntax, and whether what is printed is read as what does the same.
#![tactic(auto)]

mod alike;
mod rows;
mod spelled;
mod texts;

use rows::Question;
use std::alloc::AllocError;
use std::{env, fs, io};
use tests_reader::ask_blocks;

/// The words are questions, each with a file.
fn main(rt: HostRuntime) -> io::Result<()> {
    let words: Vec<String> = env::args(&rt)?.skip(1).collect(rt.alloc())?;
    let mut question = "";
    for (index, word) in words.iter().enumerate() {
        if index % 2 == 0 {
            question = word.as_str();
        } else {
            ask(&rt, question, word.as_str())?;
        }
    }
    Ok(())
}

fn ask(rt: &HostRuntime, question: &str, name: &str) -> io::Result<()> {
    let rows = fs::read_to_string(rt, name)?;
    let rows = rows.as_str();
    match question {
        "spelled" => say(rt, ask_blocks(rt.alloc(), &Question::Spelled, rows)),
        "alike" => say(rt, alike::ask(rt.alloc(), rows)),
        "text" => say(rt, ask_blocks(rt.alloc(), &Question::Text, rows)),
        "optimized" => say(rt, ask_blocks(rt.alloc(), &Question::Optimized, rows)),
        "printed" => say(rt, ask_blocks(rt.alloc(), &Question::Printed, rows)),
        _ => Ok(()),
    }
}

fn say(rt: &HostRuntime, said: Result<String, AllocError>) -> io::Result<()> {
    let said = said?;
    rt.print(said.as_str())
}
