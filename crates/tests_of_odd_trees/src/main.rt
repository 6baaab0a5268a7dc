//! Makes odd trees, asks of each all that takes a tree, and says what is answered otherwise than wanted: the nodes of
//! one file in the places of another, tables of a `switch`, one name everywhere, reserved names, deep nests.
#![tactic(auto)]

mod asked;
mod case;
mod copies;
mod deep;
mod fills;
mod names;
mod nodes;
mod rows;
mod runs;
mod scripts;
mod tables;
mod walks;

use case::Tally;
use std::{env, fs, io};

/// The words are the two files, or what is asked of a nest, its name and how deep it is.
fn main(rt: HostRuntime) -> io::Result<()> {
    let words: Vec<String> = env::args(&rt)?.skip(1).collect(rt.alloc())?;
    let tally = Tally::new(rt.alloc());
    match words.as_slice() {
        [nodes, places] => ask_all(&rt, nodes.as_str(), places.as_str(), &tally)?,
        [what, nest, depth] => {
            deep::ask_one(what.as_str(), nest.as_str(), depth.as_str(), &tally);
        }
        _ => {}
    }
    rt.print(tally.into_text().as_str())
}

fn ask_all(rt: &HostRuntime, nodes: &str, places: &str, tally: &Tally) -> io::Result<()> {
    let nodes = fs::read_to_string(rt, nodes)?;
    let places = fs::read_to_string(rt, places)?;
    fills::ask(nodes.as_str(), places.as_str(), tally);
    tables::ask(tally);
    names::ask(tally);
    deep::ask(tally);
    tally.say_all();
    Ok(())
}
