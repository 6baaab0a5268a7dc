//! Makes each call that a want of memory may refuse, and says what it answers. Where one is refused it is looked at
//! what is left, and asked again: so what is said is the same whichever request of a run for memory is refused. Which
//! call was, goes to standard error.
#![tactic(auto)]

mod copies;
mod hosts;
mod joined;
mod making;
mod reading;
mod records;
mod scripts;
mod trees;
mod tried;
mod values;
mod walked;
mod words;

use std::io;
use tried::Tried;

/// The calls by their topics.
const CALLS: [&str; 11] = [
    values::CALLS,
    trees::CALLS,
    walked::CALLS,
    making::CALLS,
    reading::CALLS,
    scripts::CALLS,
    joined::CALLS,
    copies::CALLS,
    hosts::CALLS,
    records::CALLS,
    words::CALLS,
];

fn main(rt: HostRuntime) -> io::Result<()> {
    for calls in CALLS {
        for name in calls.split_whitespace() {
            say(&rt, name)?;
        }
    }
    Ok(())
}

/// Says what a call answers, at the first try in which no other request was refused.
fn say(rt: &HostRuntime, name: &str) -> io::Result<()> {
    for _ in 0..3 {
        let tried = Tried::new(rt.alloc());
        make(name, &tried);
        if tried.was_refused() {
            rt.eprint("refused ")?;
            rt.eprint(name)?;
            rt.eprint("\n")?;
        }
        if tried.is_answered() {
            return say_answer(rt, name, tried.into_text().as_str());
        }
    }
    say_answer(rt, name, "refused though there is memory")
}

fn say_answer(rt: &HostRuntime, name: &str, answer: &str) -> io::Result<()> {
    rt.print("== ")?;
    rt.print(name)?;
    rt.print("\n")?;
    rt.print(answer)?;
    rt.print("\n")
}

fn make(name: &str, tried: &Tried) {
    let is_known = values::make(name, tried)
        || trees::make(name, tried)
        || walked::make(name, tried)
        || making::make(name, tried)
        || reading::make(name, tried)
        || scripts::make(name, tried)
        || joined::make(name, tried)
        || copies::make(name, tried)
        || hosts::make(name, tried)
        || records::make(name, tried)
        || words::make(name, tried);
    if !is_known {
        tried.said.want("a call");
    }
}
