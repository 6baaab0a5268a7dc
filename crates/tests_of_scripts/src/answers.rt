//! Who answers which question.

use crate::{guide_reads, guide_runs, readme, reads, record, reports, requests, scripts};
use tests_reader::{Answers, Said};

/// What answers all of them.
pub struct Scripts;

impl Answers for Scripts {
    fn of_copies(&self) -> bool {
        false
    }

    fn answer(&self, question: &str, text: &str, said: &Said) -> bool {
        answer(question, text, said);
        said.end_line();
        true
    }
}

/// Questions about words that the program is given.
const OF_WORDS: [&str; 6] = ["words", "unflushed", "cut", "request", "builtin", "both"];

/// Questions about reports and the program's host.
const OF_REPORTS: [&str; 6] = ["stuck", "why", "thrown", "host", "module", "path"];

/// Questions about an engine's record.
const OF_RECORD: [&str; 6] = [
    "overridden",
    "overridden_anywhere",
    "constant",
    "type_name",
    "fast",
    "operator",
];

/// Questions about what is read back.
const OF_READS: [&str; 8] = [
    "reads",
    "stands",
    "reads_open",
    "reads_statements",
    "reads_value",
    "reads_deep",
    "place",
    "builtins_read",
];

fn answer(question: &str, text: &str, said: &Said) {
    if OF_WORDS.contains(&question) {
        requests::answer(question, text, said);
    } else if OF_REPORTS.contains(&question) {
        reports::answer(question, text, said);
    } else if OF_RECORD.contains(&question) {
        record::answer(question, text, said);
    } else if OF_READS.contains(&question) {
        scripts::read_back(question, text, said);
    } else {
        match question {
            "readme" => say_readme(said),
            "guide" => say_guide(said),
            "guide_reads" => say_guide_of_reading(said),
            _ => scripts::answer(question, text, said),
        }
    }
}

fn say_readme(said: &Said) {
    let mut text = said.taken();
    let added = readme::a_sum_is_optimised_and_run(said.alloc, &mut text);
    said.put_back(text, added);
}

fn say_guide(said: &Said) {
    let mut text = said.taken();
    let added = guide_runs::a_script_is_run(said.alloc, &mut text);
    said.put_back(text, added);
}

fn say_guide_of_reading(said: &Said) {
    let mut text = said.taken();
    let read = guide_reads::a_script_is_read(said.alloc, &mut text);
    said.made(guide_reads::a_fault_is_found(said.alloc, &mut text));
    said.made(guide_reads::a_statement_is_printed(said.alloc, &mut text));
    said.put_back(text, read);
}
