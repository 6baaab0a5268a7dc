//! Asks the layers of the optimiser the questions of rows, in files that the words name. What stands after the word
//! `copies` is asked of copies.
#![tactic(auto)]

mod guide;
mod guide_trees;
mod joined;
mod lends;
mod nodes;
mod parts;
mod scripts;
mod switches;
mod tokens;
mod trees;
mod values;
mod walks;

use std::rt::Env;
use std::{env, fs, io};
use tests_reader::{Answers, Said, ask_all};

/// Answers questions about what is read, or about copies of it.
#[derive(Clone, Copy)]
struct Layers {
    copies: bool,
}

impl Answers for Layers {
    fn of_copies(&self) -> bool {
        self.copies
    }

    fn answer(&self, question: &str, text: &str, said: &Said) -> bool {
        tokens::answer(question, text, said)
            || parts::answer(question, text, said)
            || values::answer(question, text, said)
            || nodes::answer(question, text, said)
            || trees::answer(question, text, said)
            || scripts::answer(question, text, said)
            || joined::answer(question, text, said)
            || guide::answer(question, text, said)
    }
}

fn main(rt: HostRuntime) -> io::Result<()> {
    let alloc = rt.alloc();
    let said = Said::new(alloc, false);
    let mut layers = Layers { copies: false };
    let names: Vec<String> = env::args(&rt)?.skip(1).collect(alloc)?;
    for name in &names {
        if name.as_str() == "copies" {
            layers.copies = true;
            said.put("copies\n");
        } else {
            let rows = fs::read_to_string(&rt, name.as_str())?;
            ask_all(&layers, name.as_str(), rows.as_str(), &said);
        }
    }
    rt.print(said.into_text().as_str())
}
