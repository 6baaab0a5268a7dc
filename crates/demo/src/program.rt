//! The program: words in, text and a status out.
ghost use Rattle.std.specs.Prelude.{◌≡◌, ◌≤◌, ◌⊎◌, ◌++◌, length, map, string_bytes, IsNone, IsSome, IfSome, IfOk, OnOk, MatchOption};
ghost use Rattle.std.specs.Io.KnownBytes.{Appends, WriteAppends};
ghost use Rattle.demo.specs.Output.{AppendsAnswer, AppendsAnswerStart, AppendsStart};
ghost use Rattle.demo.specs.BuiltinScripts.{all_scripts};
ghost use Rattle.demo.specs.Words.{request_of, usage, listing, built_in, reported, Answers, BothReports, Optimized};
ghost use Rattle.run_host.specs.Print.{report_text};
ghost use Rattle.rhai_script.specs.Script.{script_of};

use crate::builtin::BuiltinScript;
use crate::program_host::ProgramHost;
use crate::request::Request;
use notation_print::push_script;
use rhai_base::{OutOfMemory, Scope};
use rhai_optimizer::{OptimizationLevel, optimize_into_ast};
use rhai_run::{EngineInfo, plain_run};
use rhai_script::{AST, FnLib};
use run_host::push_report;
use std::alloc::Global;
use std::io;
use std::rc::Rc;

/// The line that other words than a request's are answered with.
const USAGE: &str = "usage: rhai_opt list | show NAME LEVEL | run NAME LEVEL TURNS\n";

/// Does what the words ask, and answers the status: 0, or 1 for want of memory or a failed write, or 2 for
/// words that ask nothing, after a line on `err` that says which do. A failed write of that line is 1 too.
pub fn run_words<W: io::Write, E: io::Write>(
    alloc: Global,
    words: &[String],
    out: &mut W,
    err: &mut E,
) -> u8
    // A request is never answered by 2, and other words never by 0.
    ensures status { MatchOption (request_of (map string_bytes words.now)) ((result ≡ 1) ⊎ (result ≡ 2)) (λ _.
        (result ≡ 0) ⊎ (result ≡ 1)) }

    // Each writes to one side alone.
    ensures request { IsSome (request_of (map string_bytes words.now)) → err.new ≡ err.old }
    ensures other_words { IsNone (request_of (map string_bytes words.now)) → out.new ≡ out.old }

    ensures answer { result ≡ 0
        → IfSome (request_of (map string_bytes words.now)) (λ r.
        AppendsAnswer r (W.contents out.old) (W.contents out.new)) }
    ensures usage { result ≡ 2 → Appends (E.contents err.old) (E.contents err.new) usage }

    // Whatever the status, no more is written than a beginning of the answer, or of the usage.
    ensures start_of_answer { IfSome (request_of (map string_bytes words.now)) (λ r.
        AppendsAnswerStart r (W.contents out.old) (W.contents out.new)) }
    ensures start_of_usage { IsNone (request_of (map string_bytes words.now))
        → AppendsStart (E.contents err.old) (E.contents err.new) usage }
{
    match Request::parse(words) {
        Some(request) => put_answer(alloc, request, out),
        None => put_usage(err),
    }
}

/// Writes what answers a request: 0, or 1 for want of memory or a failed write.
fn put_answer<W: io::Write>(alloc: Global, request: Request, out: &mut W) -> u8
    ensures status { (result ≡ 0) ⊎ (result ≡ 1) }
    ensures answer { result ≡ 0 → AppendsAnswer request (W.contents out.old) (W.contents out.new) }
    ensures start { AppendsAnswerStart request (W.contents out.old) (W.contents out.new) }
{
    let Ok(text) = answer(alloc, request) else {
        return 1;
    };
    match put(text.as_str(), out) {
        Ok(()) => 0,
        Err(_) => 1,
    }
}

/// Writes the usage: 2, or 1 for a failed write.
fn put_usage<E: io::Write>(err: &mut E) -> u8
    ensures status { (result ≡ 1) ⊎ (result ≡ 2) }
    ensures usage { result ≡ 2 → Appends (E.contents err.old) (E.contents err.new) usage }
    ensures start { AppendsStart (E.contents err.old) (E.contents err.new) usage }
{
    match put(USAGE, err) {
        Ok(()) => 2,
        Err(_) => 1,
    }
}

/// Writes a text and flushes; where a write is refused, a beginning of the text is written.
fn put<W: io::Write>(text: &str, to: &mut W) -> io::Result<()>
    ensures whole { OnOk result (Appends (W.contents to.old) (W.contents to.new) text.now) }
    ensures start { AppendsStart (W.contents to.old) (W.contents to.new) text.now }
{
    let bytes = text.as_bytes();
    let mut written = 0;
    for _ in 0..u64::MAX {
        if written >= bytes.len() {
            return to.flush();
        }
        written += put_some(&bytes[written..], to)?;
    }
    Err(io::Error::from(io::ErrorKind::TimedOut))
}

/// Writes some of the bytes, and answers how many: none where the write was interrupted.
fn put_some<W: io::Write>(bytes: &[u8], to: &mut W) -> io::Result<usize>
    ensures bound { IfOk result (λ n. n ≤ length bytes.now) }
    ensures bytes { WriteAppends (W.contents to.old) (W.contents to.new) result bytes.now }
{
    match to.write(bytes) {
        Ok(0) => Err(io::Error::from(io::ErrorKind::WriteZero)),
        Ok(count) => Ok(count),
        Err(error) if error.kind() == io::ErrorKind::Interrupted => Ok(0),
        Err(error) => Err(error),
    }
}

/// The text that answers a request.
fn answer(alloc: Global, request: Request) -> Result<String, OutOfMemory>
    ensures { IfOk result (λ text. Answers request (string_bytes text)) }
{
    match request {
        Request::List => list(alloc),
        Request::Show(script, level) => show(alloc, script, level),
        Request::Run(script, level, turns) => run(alloc, script, level, turns),
    }
}

fn list(alloc: Global) -> Result<String, OutOfMemory>
    ensures { IfOk result (λ text. string_bytes text ≡ listing all_scripts) }
{
    let mut text = String::new(alloc);
    for script in BuiltinScript::ALL {
        text.push_str(script.name())?;
        text.push_str("\n")?;
    }
    Ok(text)
}

fn show(
    alloc: Global,
    script: BuiltinScript,
    level: OptimizationLevel,
) -> Result<String, OutOfMemory>
    ensures { IfOk result (λ text. Answers (Request.Show script level) (string_bytes text)) }
{
    let before = written(alloc, script)?;
    let after = optimized(alloc, script, level)?;
    let mut text = String::new(alloc);
    text.push_str("before:\n")?;
    push_script(&before, &mut text)?;
    text.push_str("after:\n")?;
    push_script(&after, &mut text)?;
    Ok(text)
}

/// The report of a run of the optimised script.
fn run(
    alloc: Global,
    script: BuiltinScript,
    level: OptimizationLevel,
    turns: u64,
) -> Result<String, OutOfMemory>
    ensures { IfOk result (λ text. Answers (Request.Run script level turns) (string_bytes text)) }
{
    let after = optimized(alloc, script, level)?;
    let mut text = String::new(alloc);
    push_run(alloc, &after, turns, &mut text)?;
    Ok(text)
}

/// What runs of a built-in script report before and after the optimiser, both with so many turns: where the first one
/// ended, the second says the same of its end, its variables and its calls, and has as many turns left at least.
pub fn both_reports(
    alloc: Global,
    script: BuiltinScript,
    level: OptimizationLevel,
    turns: u64,
) -> Result<String, OutOfMemory>
    ensures { IfOk result (λ text. BothReports level (built_in script) turns (string_bytes text)) }
{
    let before = written(alloc, script)?;
    let after = optimized(alloc, script, level)?;
    let mut text = String::new(alloc);
    text.push_str("before:\n")?;
    push_run(alloc, &before, turns, &mut text)?;
    text.push_str("after:\n")?;
    push_run(alloc, &after, turns, &mut text)?;
    Ok(text)
}

/// Appends the report of a run of a script from an empty scope, under a record with nothing set, with the program's
/// host.
fn push_run(alloc: Global, script: &AST, turns: u64, text: &mut String) -> Result<(), OutOfMemory>
    ensures { OnOk result
        (string_bytes text.new ≡ string_bytes text.old ++ report_text (reported (script_of script.now) turns)) }
{
    let engine = EngineInfo::new(alloc);
    let scope = Scope::new(alloc);
    let report = plain_run(alloc, script, &engine, &ProgramHost, &scope, turns)?;
    push_report(&report, text)
}

/// A built-in script as it is written.
fn written(alloc: Global, script: BuiltinScript) -> Result<AST, OutOfMemory>
    ensures { IfOk result (λ before. script_of before ≡ built_in script) }
{
    let statements = script.statements(alloc)?;
    let functions = FnLib::from_functions(alloc, script.functions(alloc)?)?;
    Ok(AST::new(statements, Rc::new(alloc, functions)?))
}

/// A built-in script, optimised under a record with nothing set.
fn optimized(
    alloc: Global,
    script: BuiltinScript,
    level: OptimizationLevel,
) -> Result<AST, OutOfMemory>
    ensures { IfOk result (λ after. Optimized level (built_in script) (script_of after)) }
{
    let engine = EngineInfo::new(alloc);
    let statements = script.statements(alloc)?;
    let functions = script.functions(alloc)?;
    let after = optimize_into_ast(alloc, &engine, None, statements, functions, level)?;
    Ok(after)
}
