//! Texts that are read.

use crate::tried::Tried;
use notation_read::{ReadError, read_script, read_statements, read_value};

/// The calls.
pub const CALLS: &str = "read_script read_statements read_value";

pub fn make(name: &str, tried: &Tried) -> bool {
    let alloc = tried.said.alloc;
    match name {
        "read_script" => say(
            read_script(alloc, "let x = [1, #{a: \"b\"}]\nfn f(a) { call g(a) }\n"),
            tried,
        ),
        "read_statements" => say(
            read_statements(alloc, "let x = [1, 'c']\nx = f(x)\n"),
            tried,
        ),
        "read_value" => say(read_value(alloc, "[1, \"abc\", #{\"a\": Fn(f)}]"), tried),
        _ => return false,
    }
    true
}

/// Another error than a want of memory is none that a refusal may become.
fn say<T: Drop>(read: Result<T, ReadError>, tried: &Tried) {
    match read {
        Err(error) if error != ReadError::OutOfMemory => tried.said.word("another error"),
        read => tried.done(tried.answer(read)),
    }
}
