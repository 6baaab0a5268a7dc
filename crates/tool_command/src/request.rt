//! What the words ask.

use crate::words::words;
use clap::error::ErrorKind;
use clap::{ArgMatches, Error};
use rhai_optimizer::OptimizationLevel;
use std::alloc::{AllocError, Global};
use syntax_source::Syntax;

/// What is done with each file.
#[derive(Clone, Copy, PartialEq, Eq)]
pub(crate) enum Action {
    /// It is optimised.
    Optimize,
    /// What is wrong with it is listed.
    Check,
    /// It is run.
    Run,
    /// Its tree is printed.
    Tree,
}

/// Where an optimised script goes.
#[derive(Clone, Copy)]
pub(crate) enum Target<'a> {
    /// To the output.
    Out,
    /// To this file.
    File(&'a str),
    /// To the file that it was read from.
    InPlace,
}

/// What answers the calls of a run.
#[derive(Clone, Copy, PartialEq, Eq)]
pub(crate) enum Answering {
    /// rhai's standard functions.
    Standard,
    /// Unit, for each call.
    Unit,
}

/// What the words ask of files.
#[derive(Drop)]
pub(crate) struct Request<'a> {
    /// What is done.
    pub(crate) action: Action,
    /// How much is optimised.
    pub(crate) level: OptimizationLevel,
    /// How many rounds and calls a run has.
    pub(crate) turns: u64,
    /// What answers the calls of a run.
    pub(crate) answering: Answering,
    /// The call that is run in the place of the statements.
    pub(crate) entry: Option<&'a str>,
    /// How scripts are written.
    pub(crate) syntax: Syntax,
    /// Where what is optimised goes.
    pub(crate) target: Target<'a>,
    /// Whether the lines that went and came are printed.
    pub(crate) diff: bool,
    /// Whether findings and refusals are printed as JSON.
    pub(crate) json: bool,
    /// Whether it is said what is promised of scripts.
    pub(crate) promise: bool,
    /// The codes of what is not listed.
    pub(crate) allowed: Vec<&'a str>,
    /// The constants that are known beforehand, as `NAME=VALUE`.
    pub(crate) constants: Vec<&'a str>,
    /// The files and folders.
    pub(crate) files: Vec<&'a str>,
}

/// How many rounds and calls a run has where nothing is said.
const TURNS: u64 = 1000;

impl<'a> Request<'a> {
    /// What the words ask; or help, the version, or why they ask nothing.
    pub(crate) fn parse(alloc: Global, words_given: &'a [String]) -> Result<Request<'a>, Error> {
        let matches = words(alloc)?.try_get_matches_from(words_given)?;
        let Some((name, chosen)) = matches.subcommand() else {
            return Err(refused(alloc, ErrorKind::MissingSubcommand, "expected a command")?);
        };
        let request = Request::of(alloc, action_named(name), chosen)?;
        match request.fault() {
            Some(fault) => Err(refused(alloc, ErrorKind::ArgumentConflict, fault)?),
            None => Ok(request),
        }
    }

    fn of(
        alloc: Global,
        action: Action,
        chosen: &ArgMatches<'a>,
    ) -> Result<Request<'a>, AllocError> {
        Ok(Request {
            action,
            level: level_named(chosen.get_str("level")),
            turns: chosen.get_one::<u64>("turns").unwrap_or(TURNS),
            answering: host_named(chosen.get_str("host")),
            entry: chosen.get_str("entry"),
            syntax: syntax_of(chosen),
            target: target_of(chosen),
            diff: chosen.get_flag("diff"),
            json: chosen.get_flag("json"),
            promise: chosen.get_flag("promise"),
            allowed: all(alloc, chosen.get_strs("allow"))?,
            constants: all(alloc, chosen.get_strs("constant"))?,
            files: all(alloc, chosen.get_strs("FILE"))?,
        })
    }

    /// Whether what is printed of several files stands behind their names, since it does not name them itself.
    pub(crate) fn heads_files(&self) -> bool {
        self.action != Action::Check && !self.diff
    }

    /// What is asked for and cannot be.
    fn fault(&self) -> Option<&'static str> {
        match self.target {
            Target::File(_) if self.files.len() > 1 => Some("--output takes one script"),
            Target::InPlace if self.files.contains(&"-") => {
                Some("--in-place: `-` has no file that it could be written to")
            }
            _ => None,
        }
    }
}

/// Why words ask nothing, with the usage.
pub(crate) fn refused(alloc: Global, kind: ErrorKind, message: &str) -> Result<Error, AllocError> {
    let mut command = words(alloc)?;
    command.error(kind, message)
}

fn all<'a>(alloc: Global, values: Option<&[&'a str]>) -> Result<Vec<&'a str>, AllocError> {
    let mut all = Vec::new(alloc);
    all.extend_from_slice(values.unwrap_or(&[]))?;
    Ok(all)
}

fn action_named(name: &str) -> Action {
    match name {
        "check" => Action::Check,
        "run" => Action::Run,
        "tree" => Action::Tree,
        _ => Action::Optimize,
    }
}

fn level_named(name: Option<&str>) -> OptimizationLevel {
    match name {
        Some("none") => OptimizationLevel::None,
        Some("full") => OptimizationLevel::Full,
        _ => OptimizationLevel::Simple,
    }
}

fn host_named(name: Option<&str>) -> Answering {
    match name {
        Some("unit") => Answering::Unit,
        _ => Answering::Standard,
    }
}

fn syntax_of(chosen: &ArgMatches<'_>) -> Syntax {
    if chosen.get_flag("notation") {
        return Syntax::Notation;
    }
    match chosen.get_one::<usize>("depth") {
        Some(levels) => nested(levels),
        None => Syntax::default(),
    }
}

/// rhai's own syntax, in which scripts may nest so deep, also in functions.
fn nested(levels: usize) -> Syntax {
    let mut syntax = Syntax::default();
    if let Syntax::Rhai(options) = &mut syntax {
        options.max_expr_depth = levels;
        options.max_function_expr_depth = levels;
    }
    syntax
}

fn target_of<'a>(chosen: &ArgMatches<'a>) -> Target<'a> {
    match chosen.get_str("output") {
        Some(name) => Target::File(name),
        None if chosen.get_flag("in-place") => Target::InPlace,
        None => Target::Out,
    }
}
