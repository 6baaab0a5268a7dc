//! Reads settings that rhai scripts declare, and says of a wrong one which it is, where it stands, and why it is wrong.
#![tactic(auto)]

use rhai_lang::{
    AST, Dynamic, EngineInfo, INT, OptimizationLevel, OutOfMemory, Position, RunEnd, RunReport,
    Scope, Stmt, StmtQueries, UnitHost, Variable, compile, optimize_ast, plain_run,
};
use std::alloc::{AllocError, Global};
use std::fmt::Display;
use std::{env, fs, io};
use thiserror::Error;

/// What a server is told.
#[derive(Drop)]
struct Settings<'a> {
    host: &'a str,
    port: u16,
    is_open: bool,
}

/// Why a statement sets nothing.
#[derive(Debug, Drop, Error)]
enum Why<'a> {
    #[error("expected a declaration")]
    NoDeclaration,
    #[error("`{0}` has no value: {1}")]
    NoValue(&'a str, &'a RunEnd),
    #[error("`{0}` should be {1}, and is of type {2}")]
    WrongKind(&'a str, &'static str, &'static str),
    #[error("`{0}` should be a port, and is {1}")]
    NoPort(&'a str, INT),
}

/// The port that a value is.
fn port_of<'a>(name: &'a str, value: &Dynamic) -> Result<u16, Why<'a>> {
    match value.as_int() {
        Ok(number) => u16::try_from(number).map_err(|_| Why::NoPort(name, number)),
        Err(kind) => Err(Why::WrongKind(name, "a port", kind)),
    }
}

impl<'a> Settings<'a> {
    /// Takes the value of a name; any other name is there for declarations behind it.
    fn set(&mut self, name: &'a str, value: &'a Dynamic) -> Result<(), Why<'a>> {
        match name {
            "host" => match value.as_immutable_string_ref() {
                Ok(text) => self.host = text.as_str(),
                Err(kind) => return Err(Why::WrongKind(name, "a text", kind)),
            },
            "port" => self.port = port_of(name, value)?,
            "is_open" => match value.as_bool() {
                Ok(flag) => self.is_open = flag,
                Err(kind) => return Err(Why::WrongKind(name, "a bool", kind)),
            },
            _ => {}
        }
        Ok(())
    }

    /// Takes what a statement declares, with the variable that it left; without one the run ended there.
    fn take(
        &mut self,
        statement: &'a Stmt,
        variable: Option<&'a Variable>,
        end: &'a RunEnd,
    ) -> Result<(), Why<'a>> {
        let Stmt::Var(parts, _, _) = statement else {
            return Err(Why::NoDeclaration);
        };
        let name = parts.get().0.as_str();
        match variable {
            Some((_, _, value)) => self.set(name, value),
            None => Err(Why::NoValue(name, end)),
        }
    }
}

/// The settings of a script whose run reports this, or where and why a statement sets nothing.
fn settings_of<'a>(
    script: &'a AST,
    report: &'a RunReport,
) -> Result<Settings<'a>, (Position, Why<'a>)> {
    let mut settings = Settings {
        host: "localhost",
        port: 80,
        is_open: false,
    };
    let mut variables = report.variables.as_slice().iter();
    for statement in script.statements() {
        if let Err(why) = settings.take(statement, variables.next(), &report.run_end) {
            return Err((statement.position(), why));
        }
    }
    Ok(settings)
}

/// What a run of a script reports: it is optimised, and has 1000 rounds of loops and calls of functions at most.
fn run(alloc: Global, script: &AST) -> Result<RunReport, OutOfMemory> {
    let info = EngineInfo::new(alloc); // an engine that has no constants of its own
    let script = optimize_ast(
        alloc,
        &info,
        None,
        script.clone()?,
        OptimizationLevel::Simple,
    )?;
    plain_run(alloc, &script, &info, &UnitHost, &Scope::new(alloc), 1000)
}

/// Where something stands, and what it is.
fn told_at<T: Display>(alloc: Global, position: Position, what: &T) -> Result<String, OutOfMemory> {
    let line = position.line().unwrap_or(0);
    let column = position.position().unwrap_or(0);
    Ok(format!(in alloc; "{line}:{column}: {what}")?)
}

/// The settings of a text, or the first mistake.
fn told(alloc: Global, text: &str) -> Result<String, OutOfMemory> {
    let script = match compile(alloc, text) {
        Ok(script) => script,
        Err(error) => return told_at(alloc, error.position(), error.err_type()),
    };
    let report = run(alloc, &script)?;
    match settings_of(&script, &report) {
        Ok(settings) => {
            let (host, port, is_open) = (settings.host, settings.port, settings.is_open);
            Ok(format!(in alloc; " host {host}, port {port}, open {is_open}")?)
        }
        Err((position, why)) => told_at(alloc, position, &why),
    }
}

/// The words name the files.
fn main(rt: HostRuntime) -> io::Result<()> {
    for file in env::args(&rt)?.skip(1) {
        match fs::read_to_string(&rt, file.as_str()) {
            Ok(text) => {
                let told = told(rt.alloc(), text.as_str()).map_err(|_| AllocError)?;
                println!(rt; "{file}:{told}")?;
            }
            Err(error) => println!(rt; "{file}: {error}")?,
        }
    }
    Ok(())
}
