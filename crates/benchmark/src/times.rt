//! What is counted and timed of a script.

use crate::shapes::unbounded;
use rhai_lang::prelude::*;
use rhai_lang::{
    AST, ASTNode, EngineInfo, ImmutableString, OptimizationLevel, ReadError, RunEnd, Scope, Syntax,
    UnitHost, optimize_ast, optimize_text, plain_run, read_value,
};
use std::alloc::{AllocError, Global};
use std::io;
use std::rt::Clock;
use std::time::{Duration, Instant};

/// How often each is timed; the shortest time counts.
const ROUNDS: u8 = 15;

/// How long each takes.
#[derive(Clone, Copy)]
pub(crate) struct Times {
    pub(crate) optimise: Duration,
    pub(crate) run: Duration,
    pub(crate) walk: Duration,
    pub(crate) copy: Duration,
    /// From text to text: read, optimised, printed, read again and compared.
    pub(crate) text: Duration,
}

impl Times {
    const LONGEST: Times = Times {
        optimise: Duration::MAX,
        run: Duration::MAX,
        walk: Duration::MAX,
        copy: Duration::MAX,
        text: Duration::MAX,
    };
}

/// The record and the start scope of all scripts.
#[derive(Drop)]
pub(crate) struct Bench {
    alloc: Global,
    info: EngineInfo,
    scope: Scope,
}

impl Bench {
    /// A record that overrides nothing, and a scope in which `n` is 0, `a` is 2 and `m` is `#{x: #{y: 7}}`.
    pub(crate) fn new(alloc: Global) -> Result<Bench, ReadError> {
        let mut scope = Scope::new(alloc);
        let names = [("m", "#{\"x\": #{\"y\": 7}}"), ("n", "0"), ("a", "2")];
        for (name, value) in names {
            scope.push(
                ImmutableString::new(alloc, name)?,
                read_value(alloc, value)?,
            )?;
        }
        let info = EngineInfo::new(alloc);
        Ok(Bench { alloc, info, scope })
    }

    /// How long each takes at a script and its text: the shortest of all rounds.
    pub(crate) fn times(&self, clock: &impl Clock, text: &str, script: &AST) -> io::Result<Times> {
        let mut times = Times::LONGEST;
        for _ in 0..ROUNDS {
            self.lessen(clock, script, &mut times)?;
            let start = Instant::now(clock)?;
            self.optimised_text(text);
            times.text = times.text.min(start.elapsed(clock)?);
        }
        Ok(times)
    }

    /// Times once what is done to a script.
    fn lessen(&self, clock: &impl Clock, script: &AST, times: &mut Times) -> io::Result<()> {
        let start = Instant::now(clock)?;
        nodes_of(script)?;
        let walked = Instant::now(clock)?;
        self.run(script)?;
        let ran = Instant::now(clock)?;
        let copy = script.clone()?;
        let copied = Instant::now(clock)?;
        let _optimised = self.optimised(copy)?;
        times.optimise = times.optimise.min(copied.elapsed(clock)?);
        times.run = times.run.min(ran.duration_since(walked));
        times.walk = times.walk.min(walked.duration_since(start));
        times.copy = times.copy.min(copied.duration_since(ran));
        Ok(())
    }

    fn optimised(&self, script: AST) -> io::Result<AST> {
        let level = OptimizationLevel::Simple;
        let optimised = optimize_ast(self.alloc, &self.info, None, script, level);
        Ok(optimised.map_err(|_| AllocError)?)
    }

    /// A text whose script no text spells, or too deep a one, counts as long as it takes to say so.
    fn optimised_text(&self, text: &str) {
        let (syntax, level) = (Syntax::Rhai(unbounded()), OptimizationLevel::Simple);
        let _made = optimize_text(self.alloc, syntax, text, &self.info, level);
    }

    /// How many turns a run takes: all, where it ends without a value.
    pub(crate) fn run(&self, script: &AST) -> io::Result<u64> {
        let (info, scope, turns) = (&self.info, &self.scope, u64::MAX);
        let report = plain_run(self.alloc, script, info, &UnitHost, scope, turns);
        let report = report.map_err(|_| AllocError)?;
        match report.run_end {
            RunEnd::Value(_) => Ok(turns - report.turns_left),
            _ => Ok(turns),
        }
    }
}

/// How many nodes a walk shows.
pub(crate) fn nodes_of(script: &AST) -> io::Result<u64> {
    let mut nodes = 0u64;
    let walked = script.walk(&mut |_: &[ASTNode]| {
        nodes = nodes.saturating_add(1);
        true
    });
    walked.map_err(|_| AllocError)?;
    Ok(nodes)
}
