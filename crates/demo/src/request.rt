//! What the program can be asked.
ghost use Rattle.std.specs.Prelude.{◌≡◌, map, string_bytes};
ghost use Rattle.std.specs.Str.{all_ascii_digits};
ghost use Rattle.demo.specs.Words.{level_named, request_of, turns_named};

use crate::builtin::BuiltinScript;
use rhai_optimizer::OptimizationLevel;

/// A request.
#[derive(Clone, Copy, Debug, PartialEq, Eq)]
pub enum Request {
    /// `list`: the names of the built-in scripts.
    List,
    /// `show NAME LEVEL`: a script before and after the optimiser.
    Show(BuiltinScript, OptimizationLevel),
    /// `run NAME LEVEL TURNS`: what a run of the optimised script reports, with so many turns.
    Run(BuiltinScript, OptimizationLevel, u64),
}

impl Request {
    /// The request that these words make, if they make one.
    pub fn parse(words: &[String]) -> Option<Request>
        ensures { result ≡ request_of (map string_bytes words.now) }
    {
        match words {
            [command] if command.as_str() == "list" => Some(Request::List),
            [command, name, level] if command.as_str() == "show" => {
                let script = BuiltinScript::named(name.as_str())?;
                Some(Request::Show(script, level_by_name(level.as_str())?))
            }
            [command, name, level, turns] if command.as_str() == "run" => {
                let script = BuiltinScript::named(name.as_str())?;
                let level = level_by_name(level.as_str())?;
                Some(Request::Run(script, level, turns_by_name(turns.as_str())?))
            }
            _ => None,
        }
    }
}

fn level_by_name(name: &str) -> Option<OptimizationLevel>
    ensures { result ≡ level_named name.now }
{
    match name {
        "none" => Some(OptimizationLevel::None),
        "simple" => Some(OptimizationLevel::Simple),
        "full" => Some(OptimizationLevel::Full),
        _ => None,
    }
}

/// The number of decimal digits alone; `parse` takes a sign too.
fn turns_by_name(digits: &str) -> Option<u64>
    ensures { result ≡ turns_named digits.now }
{
    if !are_digits(digits.as_bytes()) {
        return None;
    }
    digits.parse::<u64>().ok()
}

fn are_digits(bytes: &[u8]) -> bool
    ensures { result ≡ all_ascii_digits bytes.now }
{
    for byte in bytes {
        if !byte.is_ascii_digit() {
            return false;
        }
    }
    true
}
