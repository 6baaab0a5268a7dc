//! Asks the optimiser, the evaluator, the notation and the program the questions of rows, in files that the words name.
#![tactic(auto)]

mod again;
mod answers;
mod functions;
mod given;
mod guide_reads;
mod guide_runs;
mod long;
mod names;
mod nodes;
mod readme;
mod reads;
mod record;
mod reports;
mod requests;
mod scripts;
mod shown;

use answers::Scripts;
use std::{env, fs, io};
use tests_reader::{Said, ask_all};

fn main(rt: HostRuntime) -> io::Result<()> {
    for name in env::args(&rt)?.skip(1) {
        ask(&rt, name.as_str())?;
    }
    Ok(())
}

/// Asks the questions of a file, and prints how many are met.
fn ask(rt: &HostRuntime, name: &str) -> io::Result<()> {
    let rows = fs::read_to_string(rt, name)?;
    say(rt, name, rows.as_str())
}

fn say(rt: &HostRuntime, name: &str, rows: &str) -> io::Result<()> {
    let said = Said::new(rt.alloc(), false);
    ask_all(&Scripts, name, rows, &said);
    rt.print(said.into_text().as_str())
}
