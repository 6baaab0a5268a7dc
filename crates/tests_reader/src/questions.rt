//! Rows of questions: a question and the text that it is asked of, then on a line of its own `= ` and the answer that
//! is wanted. A blank line stands between two rows, and `//` at the head of a comment.

use crate::said::{Said, Unread, split};
use std::alloc::Global;

/// What answers questions about texts.
pub trait Answers {
    /// Whether questions are asked of copies.
    fn of_copies(&self) -> bool;

    /// Says the answer to a question about a text; false where there is no such question.
    fn answer(&self, question: &str, text: &str, said: &Said) -> bool;
}

/// Asks the questions of these rows, which have a name. Says which of them are answered otherwise than they want, each
/// with its answer, and then how many are met.
pub fn ask_all<A: Answers>(answers: &A, name: &str, rows: &str, said: &Said) {
    let mut met: usize = 0;
    for row in rows.split("\n\n") {
        let row = row.trim();
        if !row.starts_with("//") && is_met(answers, row, said) {
            met = met.saturating_add(1);
        }
    }
    said.put(name);
    said.put(": ");
    said.display(&met);
    said.put(" rows met\n");
}

/// Whether a row is answered as it wants; says so where it is not.
fn is_met<A: Answers>(answers: &A, row: &str, said: &Said) -> bool {
    let (asked, wanted) = row.split_once("\n= ").unwrap_or((row, "a wanted answer"));
    let answer = answered(said.alloc, answers, asked);
    let is_met = answer.as_str() == wanted;
    if !is_met {
        say_unmet(row, answer.as_str(), said);
    }
    is_met
}

/// The answer, and on a line of its own why it is not whole.
fn answered<A: Answers>(alloc: Global, answers: &A, asked: &str) -> String {
    let (question, text) = split(asked, " ");
    let said = Said::new(alloc, answers.of_copies());
    if !answers.answer(question, text, &said) {
        said.want("a question");
    }
    match said.fault() {
        Some(Unread::NoMemory) => said.line("unread: memory"),
        Some(Unread::Wanted(what)) => {
            said.line("unread: ");
            said.put(what);
        }
        None => {}
    }
    said.into_text()
}

fn say_unmet(row: &str, answer: &str, said: &Said) {
    said.put(row);
    said.put("\nbut is answered\n= ");
    said.put(answer);
    said.put("\n\n");
}
