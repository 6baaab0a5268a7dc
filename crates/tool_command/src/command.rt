//! The command: words in, texts and a status out.

ghost use Rattle.std.specs.Prelude.{◌≡◌, ◌⊎◌};

use crate::answer::{Answer, Question};
use crate::files::Files;
use crate::folders::scripts_of;
use crate::request::{Request, Target, refused};
use crate::task::Task;
use clap::Error;
use clap::error::ErrorKind;
use rhai_base::OutOfMemory;
use std::alloc::{AllocError, Global};
use std::fmt::Display;
use std::io;

/// Does what the words ask of files, and answers the status: 0; or 1, where something was found, a script refused, or a
/// run did not end with a value; or 2, for words that ask nothing, a file that cannot be read or written, a failed write
/// and want of memory. What is asked for goes to `out`; why it is not done goes to `err`.
pub fn run_words<F: Files, W: io::Write, E: io::Write>(
    alloc: Global,
    words: &[String],
    files: &mut F,
    out: &mut W,
    err: &mut E,
) -> u8
    ensures { (result ≡ 0) ⊎ (result ≡ 1) ⊎ (result ≡ 2) }
{
    match asked(alloc, words, files, out, err) {
        Ok(Status::Done) => 0,
        Ok(Status::Found) => 1,
        Ok(Status::Failed) | Err(_) => 2,
    }
}

/// How it ended.
#[derive(Clone, Copy, Debug, PartialEq, Eq)]
enum Status {
    /// All was done.
    Done,
    /// Something was found, or a script refused.
    Found,
    /// Something could not be done.
    Failed,
}

impl Status {
    /// The graver of two.
    fn and(self, other: Status) -> Status {
        match (self, other) {
            (Status::Failed, _) | (_, Status::Failed) => Status::Failed,
            (Status::Found, _) | (_, Status::Found) => Status::Found,
            (Status::Done, Status::Done) => Status::Done,
        }
    }
}

fn asked<F: Files, W: io::Write, E: io::Write>(
    alloc: Global,
    words: &[String],
    files: &mut F,
    out: &mut W,
    err: &mut E,
) -> io::Result<Status> {
    let request = match Request::parse(alloc, words) {
        Ok(request) => request,
        Err(error) => return told(alloc, &error, out, err),
    };
    match Task::of(alloc, request) {
        Ok(mut task) => {
            kept(task.let_arrays_take_texts())?;
            with_task(&task, files, out, err)
        }
        Err(bad) => {
            let said = format!(in alloc; "{bad}")?;
            let error = refused(alloc, ErrorKind::ValueValidation, said.as_str())?;
            told(alloc, &error, out, err)
        }
    }
}

/// Says help, the version, or why words ask nothing.
fn told<W: io::Write, E: io::Write>(
    alloc: Global,
    error: &Error,
    out: &mut W,
    err: &mut E,
) -> io::Result<Status> {
    let said = format!(in alloc; "{error}")?;
    if error.use_stderr() {
        put(said.as_str(), err)?;
        return Ok(Status::Failed);
    }
    put(said.as_str(), out)?;
    Ok(Status::Done)
}

fn with_task<F: Files, W: io::Write, E: io::Write>(
    task: &Task<'_>,
    files: &mut F,
    out: &mut W,
    err: &mut E,
) -> io::Result<Status> {
    let mut names = Vec::new(task.alloc);
    let mut status = Status::Done;
    for name in &task.request.files {
        let added = add_scripts(task.alloc, name, files, &mut names, err)?;
        status = status.and(added);
    }
    let rest = with_files(task, names.as_slice(), files, out, err)?;
    Ok(status.and(rest))
}

/// Adds the files that a name stands for.
fn add_scripts<F: Files, E: io::Write>(
    alloc: Global,
    name: &str,
    files: &mut F,
    names: &mut Vec<String>,
    err: &mut E,
) -> io::Result<Status> {
    let scripts = match scripts_of(alloc, files, name) {
        Ok(scripts) => scripts,
        Err(error) => return failed(alloc, name, &error, err),
    };
    if scripts.is_empty() {
        return failed(alloc, name, &"there is no file *.rhai in this folder", err);
    }
    for script in scripts {
        names.push(script)?;
    }
    Ok(Status::Done)
}

/// Says what cannot be done with a file.
fn failed<T: Display, E: io::Write>(
    alloc: Global,
    name: &str,
    why: &T,
    err: &mut E,
) -> io::Result<Status> {
    let said = format!(in alloc; "{name}: {why}\n")?;
    put(said.as_str(), err)?;
    Ok(Status::Failed)
}

/// Answers each file in turn.
fn with_files<F: Files, W: io::Write, E: io::Write>(
    task: &Task<'_>,
    names: &[String],
    files: &mut F,
    out: &mut W,
    err: &mut E,
) -> io::Result<Status> {
    if let (Target::File(name), [_, _, ..]) = (task.request.target, names) {
        return failed(task.alloc, name, &"--output takes one script", err);
    }
    let is_headed = names.len() > 1 && task.request.heads_files();
    let mut status = Status::Done;
    for name in names {
        status = status.and(with_file(task, name.as_str(), is_headed, files, out, err)?);
    }
    Ok(status)
}

fn with_file<F: Files, W: io::Write, E: io::Write>(
    task: &Task<'_>,
    name: &str,
    is_headed: bool,
    files: &mut F,
    out: &mut W,
    err: &mut E,
) -> io::Result<Status> {
    let text = match files.text(name) {
        Ok(text) => text,
        Err(error) => return failed(task.alloc, name, &error, err),
    };
    let question = Question {
        task,
        name,
        text: text.as_str(),
    };
    let answer = kept(question.answered())?;
    if is_headed && !answer.said.is_empty() {
        let head = format!(in task.alloc; "// {name}\n")?;
        put(head.as_str(), out)?;
    }
    put_answer(task, name, &answer, files, out, err)
}

/// Want of memory as an error of the streams.
fn kept<T>(answer: Result<T, OutOfMemory>) -> Result<T, AllocError> {
    match answer {
        Ok(answer) => Ok(answer),
        Err(OutOfMemory) => Err(AllocError),
    }
}

/// Writes what is answered of a file.
fn put_answer<F: Files, W: io::Write, E: io::Write>(
    task: &Task<'_>,
    name: &str,
    answer: &Answer,
    files: &mut F,
    out: &mut W,
    err: &mut E,
) -> io::Result<Status> {
    put(answer.said.as_str(), out)?;
    put(answer.noted.as_str(), err)?;
    let status = if answer.is_found {
        Status::Found
    } else {
        Status::Done
    };
    let Some(made) = &answer.made else {
        return Ok(status);
    };
    let to = match task.request.target {
        Target::File(to) => to,
        Target::InPlace | Target::Out => name,
    };
    match files.put(to, made.as_str()) {
        Ok(()) => Ok(status),
        Err(error) => failed(task.alloc, to, &error, err),
    }
}

/// Writes a text and flushes.
fn put<W: io::Write>(text: &str, to: &mut W) -> io::Result<()> {
    to.write_all(text.as_bytes())?;
    to.flush()
}
