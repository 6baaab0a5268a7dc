//! The record, the optimiser, runs, and what is printed.

use crate::scripts::{made, say_made, source};
use crate::tried::Tried;
use demo::{BuiltinScript, ProgramHost};
use notation_print::{Notation, push_lines, push_script};
use rhai_base::{Dynamic, Fault, OutOfMemory, Scope, Token};
use rhai_optimizer::{
    OptimizationLevel, OptimizerState, optimize_ast, optimize_counted, optimize_into_ast,
};
use rhai_run::{EngineInfo, RunReport, plain_run};
use rhai_script::AST;
use run_host::push_report;
use std::alloc::Global;
use std::borrow::Cow;
use std::fmt::Write;

/// The calls.
pub const CALLS: &str =
    "EngineInfo::add_constant EngineInfo::set_type_name EngineInfo::override_operator EngineInfo::builtin_binary \
    OptimizerState::push_var optimize_into_ast/none optimize_into_ast/simple optimize_into_ast/full optimize_counted \
    optimize_ast plain_run push_report push_script push_lines push_notation Printed::fmt BuiltinScript::statements \
    BuiltinScript::functions";

pub fn make(name: &str, tried: &Tried) -> bool {
    match name {
        "OptimizerState::push_var" => state(tried),
        "optimize_into_ast/none" => optimised(OptimizationLevel::None, tried),
        "optimize_into_ast/simple" => optimised(OptimizationLevel::Simple, tried),
        "optimize_into_ast/full" => optimised(OptimizationLevel::Full, tried),
        "optimize_counted" => counted(tried),
        "optimize_ast" => again(tried),
        "plain_run" | "push_report" => run(name, tried),
        "push_script" | "push_lines" | "push_notation" | "Printed::fmt" => printed(name, tried),
        "BuiltinScript::statements" | "BuiltinScript::functions" => builtins(name, tried),
        _ => return of_record(name, tried),
    }
    true
}

// ---- the record

fn of_record(name: &str, tried: &Tried) -> bool {
    let mut info = EngineInfo::new(tried.said.alloc);
    match name {
        "EngineInfo::builtin_binary" => {
            if let Some(Some(Ok(value))) = built_in(&info, tried) {
                tried.said.inner(&value);
            }
        }
        "EngineInfo::add_constant"
        | "EngineInfo::set_type_name"
        | "EngineInfo::override_operator" => {
            record(name, &mut info, tried);
        }
        _ => return false,
    }
    true
}

fn built_in(info: &EngineInfo, tried: &Tried) -> Option<Option<Result<Dynamic, Fault>>> {
    let (x, y) = (tried.said.value_of("\"abc\"")?, tried.said.value_of("'d'")?);
    tried.answer(info.builtin_binary(tried.said.alloc, Token::Plus, &x, &y))
}

/// As many as make the record grow more than once.
fn record(name: &str, info: &mut EngineInfo, tried: &Tried) {
    for word in ["a", "b", "c", "d", "e", "f", "g", "h", "i"] {
        let refused = put(name, word, info, tried);
        if tried.is_refused(&refused) {
            tried.want(!has(name, word, info), "changed");
            tried.said.made(put(name, word, info, tried));
        }
        tried.said.word_if(has(name, word, info), word);
    }
}

fn put(name: &str, word: &str, info: &mut EngineInfo, tried: &Tried) -> Result<(), OutOfMemory> {
    let (Some(from), Some(to)) = (tried.said.shared(word), tried.said.shared("to")) else {
        return Ok(());
    };
    match name {
        "EngineInfo::add_constant" => info.add_constant(from, Dynamic::Int(1)),
        "EngineInfo::set_type_name" => info.set_type_name(from, to),
        _ => info.override_operator(from, tried.said.words("i64 i64")),
    }
}

fn has(name: &str, word: &str, info: &EngineInfo) -> bool {
    match name {
        "EngineInfo::add_constant" => info.constant_named(word).is_some(),
        "EngineInfo::set_type_name" => info.map_type_name(word) == "to",
        _ => info.is_overridden(word, &["i64", "i64"]),
    }
}

// ---- the optimiser

fn state(tried: &Tried) {
    let info = EngineInfo::new(tried.said.alloc);
    let mut state = OptimizerState::new(tried.said.alloc, &info, None, OptimizationLevel::Simple);
    for word in ["a", "b", "a", "c", "d", "e", "f", "g"] {
        push(word, &mut state, tried);
    }
    tried.said.count("names", state.len());
    if let Some(value) = state.find_literal_constant("a") {
        tried.said.inner(value);
    }
}

fn push(word: &str, state: &mut OptimizerState<'_>, tried: &Tried) {
    let before = state.len();
    if let Some(name) = tried.said.shared(word)
        && let Some(value) = tried.said.value_of("[1, \"b\"]")
        && tried.is_refused(&state.push_var(name, Some(Cow::Owned(value))))
    {
        tried.want(state.len() == before, "changed");
        if let Some(name) = tried.said.shared(word)
            && let Some(value) = tried.said.value_of("[1, \"b\"]")
        {
            tried
                .said
                .made(state.push_var(name, Some(Cow::Owned(value))));
        }
    }
}

/// Statements in which many rules fire.
const REDUCIBLE: &str = "const k = [1, #{a: 2}]
if ==(+(1, 1), 2) { Index!(k, 1); { text(\"a\", 1, ()) } } else { f() }
switch 1 { 1: 0 1 | 0..3: 1 | default 2 | f() => [1, 2], true => #{a: 3}, true => 4 }
let x = and(true, f(), false)
x = +(x, 1)
try { while false { f() } } catch { f() }
block { call g(Fn(\"f\"), type_of('c')); coalesce((), k) }
return { Dot(#{a: [1, 2]}, a) }
fn f() { 1 }
";

fn optimised(level: OptimizationLevel, tried: &Tried) {
    if let Some(script) = tried.said.script(REDUCIBLE) {
        let info = EngineInfo::new(tried.said.alloc);
        let (statements, functions) = (script.statements, script.functions);
        let made = optimize_into_ast(tried.said.alloc, &info, None, statements, functions, level);
        say_made(tried.answer(made), tried);
    }
}

fn counted(tried: &Tried) {
    if let Some(script) = tried.said.script(REDUCIBLE) {
        let info = EngineInfo::new(tried.said.alloc);
        let (statements, functions) = (script.statements, script.functions);
        let level = OptimizationLevel::Simple;
        let made = optimize_counted(tried.said.alloc, &info, None, statements, functions, level);
        if let Some((script, passes)) = tried.answer(made) {
            tried.said.display(&passes);
            say_made(Some(script), tried);
        }
    }
}

fn again(tried: &Tried) {
    if let Some(script) = tried.said.script(REDUCIBLE)
        && let Some(script) = made(script, tried)
    {
        let info = EngineInfo::new(tried.said.alloc);
        let level = OptimizationLevel::Simple;
        let made = optimize_ast(tried.said.alloc, &info, None, script.into_inner(), level);
        say_made(tried.answer(made), tried);
    }
}

// ---- runs

/// A script that comes to most of what a run may do.
const RUN: &str = "let x = [1, #{a: \"b\"}]
Index(x, Dot(1, a)) = text(\"c\", 'd', x)
Dot(x, push(4))
for (y, z) in ..(0, 3) { x += z; call print(+(\"n\", \"m\")) }
try { throw g(2) } catch e { call h!(e) }
switch Fn(\"g\") { 1: 0 |  | default 1 | true => 1, true => call(curry(Fn(\"g\"), [3])) }
import \"m\" as a
const k = a::v
export k as q
fn g(n) { if ==(n, 2) { return \"two\" } else {}; #{n: n} }
";

fn run(name: &str, tried: &Tried) {
    let Some(script) = tried.said.script(RUN) else {
        return;
    };
    if let Some(script) = made(script, tried) {
        let info = EngineInfo::new(tried.said.alloc);
        let scope = Scope::new(tried.said.alloc);
        let report = plain_run(
            tried.said.alloc,
            script.get(),
            &info,
            &ProgramHost,
            &scope,
            30,
        );
        say_run(name, report, tried);
    }
}

fn say_run(name: &str, report: Result<RunReport, OutOfMemory>, tried: &Tried) {
    let report = if name == "plain_run" {
        tried.answer(report)
    } else {
        tried.said.made(report)
    };
    if let Some(report) = report {
        say_report(name, &report, tried);
    }
}

fn say_report(name: &str, report: &RunReport, tried: &Tried) {
    let mut text = String::new(tried.said.alloc);
    let pushed = push_report(report, &mut text);
    if name == "plain_run" {
        tried.said.made(pushed);
    } else if tried.is_refused(&pushed) {
        tried.want(text.is_empty(), "a beginning");
        tried.said.made(push_report(report, &mut text));
    }
    tried.said.word(text.as_str());
}

// ---- what is printed

fn printed(name: &str, tried: &Tried) {
    if let Some(script) = source(tried) {
        let alloc = tried.said.alloc;
        let mut text = String::new(alloc);
        if tried.is_refused(&push_printed(alloc, name, script.get(), &mut text)) {
            tried.want(text.is_empty(), "a beginning");
            tried
                .said
                .made(push_printed(alloc, name, script.get(), &mut text));
        }
        tried.said.word(text.as_str());
    }
}

fn push_printed(
    alloc: Global,
    name: &str,
    script: &AST,
    text: &mut String,
) -> Result<(), OutOfMemory> {
    match name {
        "push_script" => push_script(script, text),
        "push_lines" => push_lines(script.statements(), text),
        "push_notation" => script.push_notation(text),
        _ => write!(text, "{}", script.printed(alloc)).map_err(|_| OutOfMemory),
    }
}

fn builtins(call: &str, tried: &Tried) {
    for name in ["first", "switch", "constants", "shadow", "merge"] {
        if let Some(script) = BuiltinScript::named(name) {
            builtin(call, name, script, tried);
        }
    }
}

fn builtin(call: &str, name: &str, script: BuiltinScript, tried: &Tried) {
    if call == "BuiltinScript::functions" {
        if let Some(functions) = tried.answer(script.functions(tried.said.alloc)) {
            tried.said.count(name, functions.len());
        }
    } else if let Some(statements) = tried.answer(script.statements(tried.said.alloc)) {
        tried.said.count(name, statements.len());
    }
}
