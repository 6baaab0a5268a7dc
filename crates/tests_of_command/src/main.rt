//! Asks what the command answers, and how it ends where a file cannot be read or a write is refused.
#![tactic(auto)]

mod rows;
mod shelf;

use std::{env, fs, io};

/// The words are files of rows.
fn main(rt: HostRuntime) -> io::Result<()> {
    for name in env::args(&rt)?.skip(1) {
        let rows = fs::read_to_string(&rt, name.as_str())?;
        let said = rows::ask(rt.alloc(), rows.as_str())?;
        rt.print(said.as_str())?;
    }
    Ok(())
}
