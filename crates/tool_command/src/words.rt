//! The words that may be asked, and what is said of them.

use clap::{Arg, ArgAction, Command, value_parser};
use std::alloc::{AllocError, Global};
use syntax_source::VERSION;
use tool_findings::FindingKind;

/// The words of all commands.
pub(crate) fn words<'a>(alloc: Global) -> Result<Command<'a>, AllocError> {
    Command::new(alloc, "balvuzsom")
        .bin_name("balvuzsom")?
        .about(ABOUT)
        .after_help(AFTER)
        .version(VERSION)
        .no_binary_name(true)
        .subcommand_required(true)
        .arg_required_else_help(true)
        .subcommand(optimize(alloc)?)?
        .subcommand(check(alloc)?)?
        .subcommand(run(alloc)?)?
        .subcommand(tree(alloc)?)
}

const ABOUT: &str = "\
Optimises scripts of the language Rhai. The optimised script does what the written one does, and that is proved.";

const AFTER: &str = "\
Examples:
  balvuzsom optimize --diff greet.rhai
  balvuzsom optimize --in-place scripts
  balvuzsom run --entry 'greeting(\"you\")' greet.rhai
  balvuzsom tree greet.rhai | balvuzsom run --notation -

FILE `-` is standard input, and a folder stands for the files *.rhai in it, at any depth. What is printed of several
files stands behind lines `// FILE`. Findings and refusals have the form FILE:LINE:COLUMN: TEXT; behind the text of a
finding stands its code, as [undeclared], and before it `warning: ` where it is no error.

The status is 0; 1 where something was found, a script refused, or a run did not end with a value; 2 for other words,
for a file that cannot be read or written, and for want of memory.";

fn optimize<'a>(alloc: Global) -> Result<Command<'a>, AllocError> {
    Command::new(alloc, "optimize")
        .about("Print each script, optimised")
        .arg(level(alloc))?
        .arg(constant(alloc))?
        .arg(diff(alloc))?
        .arg(output(alloc)?)?
        .arg(in_place(alloc))?
        .arg(depth(alloc)?)?
        .arg(notation(alloc))?
        .arg(files(alloc))
}

fn check<'a>(alloc: Global) -> Result<Command<'a>, AllocError> {
    Command::new(alloc, "check")
        .about("List what is wrong with each script")
        .arg(json(alloc))?
        .arg(allow(alloc))?
        .arg(promise(alloc))?
        .arg(constant(alloc))?
        .arg(depth(alloc)?)?
        .arg(notation(alloc))?
        .arg(files(alloc))
}

fn run<'a>(alloc: Global) -> Result<Command<'a>, AllocError> {
    Command::new(alloc, "run")
        .about("Run each script and print a report")
        .arg(entry(alloc))?
        .arg(turns(alloc))?
        .arg(host(alloc))?
        .arg(promise(alloc))?
        .arg(constant(alloc))?
        .arg(depth(alloc)?)?
        .arg(notation(alloc))?
        .arg(files(alloc))
}

fn tree<'a>(alloc: Global) -> Result<Command<'a>, AllocError> {
    Command::new(alloc, "tree")
        .about("Print each script's tree")
        .arg(depth(alloc)?)?
        .arg(notation(alloc))?
        .arg(files(alloc))
}

static LEVELS: [&str; 3] = ["none", "simple", "full"];

fn level<'a>(alloc: Global) -> Arg<'a> {
    Arg::new(alloc, "level")
        .long("level")
        .value_name("LEVEL")
        .value_parser(LEVELS.as_slice())
        .default_value("simple")
        .help("How much is optimised")
}

fn constant<'a>(alloc: Global) -> Arg<'a> {
    Arg::new(alloc, "constant")
        .long("constant")
        .value_name("NAME=VALUE")
        .action(ArgAction::Append)
        .help("A constant known beforehand; as often as need be")
}

fn diff<'a>(alloc: Global) -> Arg<'a> {
    Arg::new(alloc, "diff")
        .long("diff")
        .action(ArgAction::SetTrue)
        .help("Print the lines that went and came")
}

fn output<'a>(alloc: Global) -> Result<Arg<'a>, AllocError> {
    Arg::new(alloc, "output")
        .long("output")
        .value_name("TO")
        .help("Write the script to this file")
        .conflicts_with("in-place")
}

fn in_place<'a>(alloc: Global) -> Arg<'a> {
    Arg::new(alloc, "in-place")
        .long("in-place")
        .action(ArgAction::SetTrue)
        .help("Write each script to its own file")
}

fn json<'a>(alloc: Global) -> Arg<'a> {
    Arg::new(alloc, "json")
        .long("json")
        .action(ArgAction::SetTrue)
        .help("Print each finding and refusal as a line of JSON")
}

fn allow<'a>(alloc: Global) -> Arg<'a> {
    Arg::new(alloc, "allow")
        .long("allow")
        .value_name("CODE")
        .value_parser(FindingKind::codes())
        .action(ArgAction::Append)
        .help("Do not list what has this code; as often as need be")
}

fn promise<'a>(alloc: Global) -> Arg<'a> {
    Arg::new(alloc, "promise")
        .long("promise")
        .action(ArgAction::SetTrue)
        .help("Say what is promised of each script: everything, or until where")
}

fn depth<'a>(alloc: Global) -> Result<Arg<'a>, AllocError> {
    Arg::new(alloc, "depth")
        .long("depth")
        .value_name("N")
        .value_parser(value_parser!(usize))
        .help(
            "How deep scripts may nest: 64, in functions 32, if nothing is said; 0 is as deep as any is read",
        )
        .conflicts_with("notation")
}

fn notation<'a>(alloc: Global) -> Arg<'a> {
    Arg::new(alloc, "notation")
        .long("notation")
        .action(ArgAction::SetTrue)
        .help("The scripts are trees in print")
}

fn entry<'a>(alloc: Global) -> Arg<'a> {
    Arg::new(alloc, "entry")
        .long("entry")
        .value_name("CALL")
        .help("Call this function, as `main` or `f(1, \"a\")`, in the place of the statements")
}

fn turns<'a>(alloc: Global) -> Arg<'a> {
    Arg::new(alloc, "turns")
        .long("turns")
        .value_name("N")
        .value_parser(value_parser!(u64))
        .default_value("1000")
        .help("How many rounds of loops and calls of functions a run has")
}

static HOSTS: [&str; 2] = ["standard", "unit"];

fn host<'a>(alloc: Global) -> Arg<'a> {
    Arg::new(alloc, "host")
        .long("host")
        .value_name("HOST")
        .value_parser(HOSTS.as_slice())
        .default_value("standard")
        .help(
            "What answers calls: rhai's standard functions, as far as they are there, or unit for each call",
        )
}

fn files<'a>(alloc: Global) -> Arg<'a> {
    Arg::new(alloc, "FILE")
        .required(true)
        .num_args(1..)
        .action(ArgAction::Append)
        .help("Scripts, and folders of scripts")
}
