//! The program: a refused request ends with status 1, and what was written is a beginning of the answer.

use crate::tried::Tried;
use demo::{BuiltinScript, both_reports, run_words};
use rhai_optimizer::OptimizationLevel;
use std::io;

/// The calls.
pub const CALLS: &str = "run_words/list run_words/show run_words/run both_reports";

pub fn make(name: &str, tried: &Tried) -> bool {
    match name {
        "run_words/list" => request("list", tried),
        "run_words/show" => request("show constants simple", tried),
        "run_words/run" => request("run shadow simple 10", tried),
        "both_reports" => both(tried),
        _ => return false,
    }
    true
}

/// A writer with room for all, which grows nothing.
#[derive(Drop)]
struct Taken {
    bytes: Vec<u8>,
}

impl io::Write for Taken {
    fn write(&mut self, buf: &[u8]) -> io::Result<usize> {
        self.bytes.extend_from_slice(buf)?;
        Ok(buf.len())
    }

    fn flush(&mut self) -> io::Result<()> {
        Ok(())
    }
}

fn request(line: &str, tried: &Tried) {
    let mut words = Vec::new(tried.said.alloc);
    for word in line.split(' ') {
        let word = String::from_str(tried.said.alloc, word);
        tried.said.push(&mut words, tried.said.made(word));
    }
    let mut out = writer(tried);
    let mut err = writer(tried);
    if tried.said.is_whole() {
        let status = run_words(tried.said.alloc, words.as_slice(), &mut out, &mut err);
        let refused: Result<(), u8> = if status == 1 { Err(status) } else { Ok(()) };
        if tried.is_refused(&refused) {
            say_again(words.as_slice(), &out, tried);
        } else {
            say_told(&out, &err, status, tried);
        }
    }
}

fn writer(tried: &Tried) -> Taken {
    let bytes = tried.said.made(Vec::with_capacity(tried.said.alloc, 4096));
    Taken {
        bytes: bytes.unwrap_or(Vec::new(tried.said.alloc)),
    }
}

/// The request again, of which a beginning was written.
fn say_again(words: &[String], before: &Taken, tried: &Tried) {
    let mut out = writer(tried);
    let mut err = writer(tried);
    let status = run_words(tried.said.alloc, words, &mut out, &mut err);
    let is_beginning = out.bytes.as_slice().starts_with(before.bytes.as_slice());
    tried.want(is_beginning, "another answer");
    say_told(&out, &err, status, tried);
}

fn say_told(out: &Taken, err: &Taken, status: u8, tried: &Tried) {
    tried.said.count("status", usize::from(status));
    tried.said.count("written", out.bytes.len());
    tried.said.count("and", err.bytes.len());
}

fn both(tried: &Tried) {
    let level = OptimizationLevel::Simple;
    if let Some(script) = BuiltinScript::named("shadow")
        && let Some(text) = tried.answer(both_reports(tried.said.alloc, script, level, 10))
    {
        tried.said.word(text.as_str());
    }
}
