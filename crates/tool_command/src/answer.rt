//! What is answered of a file.

use crate::constants::push_idle;
use crate::diff::push_diff;
use crate::heads::headed_as;
use crate::line_ends::ended_as;
use crate::listed::Listed;
use crate::marks::push_mark;
use crate::places::{push_json, push_place};
use crate::printed::push_printed;
use crate::promise::Promise;
use crate::request::{Action, Answering, Target};
use crate::runs::{Setting, Stop, has_value, stopped_at};
use crate::stack::turns_borne;
use crate::task::Task;
use notation_print::push_script;
use rhai_base::{OutOfMemory, Position};
use rhai_script::AST;
use run_host::RunEnd;
use std::alloc::{AllocError, Global};
use std::fmt::{Display, Write};
use syntax_source::{OptimizedText, Refusal, Why, optimize_text, read, refusals};
use tool_findings::{Finding, Severity, findings};
use tool_report::push_parts;

/// What is said of a file.
#[derive(Drop)]
pub(crate) struct Answer {
    /// What is asked for.
    pub(crate) said: String,
    /// What is said beside it: why it is not there, where a run stops, what is idle.
    pub(crate) noted: String,
    /// The text that is to be written to a file.
    pub(crate) made: Option<String>,
    /// Whether something was found or refused, or a run stopped.
    pub(crate) is_found: bool,
}

impl Answer {
    fn new(alloc: Global) -> Answer {
        Answer {
            said: String::new(alloc),
            noted: String::new(alloc),
            made: None,
            is_found: false,
        }
    }
}

/// A file that is asked about.
#[derive(Clone, Copy)]
pub(crate) struct Question<'q, 'a> {
    pub(crate) task: &'q Task<'a>,
    pub(crate) name: &'q str,
    pub(crate) text: &'q str,
}

impl<'q, 'a> Question<'q, 'a> {
    /// What is answered.
    pub(crate) fn answered(&self) -> Result<Answer, OutOfMemory> {
        let alloc = self.task.alloc;
        let mut answer = Answer::new(alloc);
        match self.ask(&mut answer) {
            Ok(()) => Ok(answer),
            Err(
                Refusal {
                    why: Why::OutOfMemory,
                    ..
                },
            ) => Err(OutOfMemory),
            Err(refusal) => self.refused(&refusal),
        }
    }

    /// What is answered where this was the first refusal; of a text that is checked each is said.
    fn refused(&self, first: &Refusal) -> Result<Answer, OutOfMemory> {
        let mut refused = Answer::new(self.task.alloc);
        let all = self.refusals()?;
        if all.is_empty() {
            self.refuse(first, &mut refused)?;
        }
        for refusal in &all {
            self.refuse(refusal, &mut refused)?;
        }
        Ok(refused)
    }

    fn refusals(&self) -> Result<Vec<Refusal>, OutOfMemory> {
        let (alloc, syntax) = (self.task.alloc, self.task.request.syntax);
        match self.task.request.action {
            Action::Check => refusals(alloc, syntax, self.text),
            _ => Ok(Vec::new(alloc)),
        }
    }

    fn refuse(&self, refusal: &Refusal, refused: &mut Answer) -> Result<(), AllocError> {
        if !self.task.request.json {
            return self.note(refusal.position, &refusal.why, refused);
        }
        let mark = Some(("refused", Severity::Error));
        refused.is_found = true;
        self.mark(refusal.position, mark, &refusal.why, &mut refused.said)
    }

    fn ask(&self, answer: &mut Answer) -> Result<(), Refusal> {
        match self.task.request.action {
            Action::Optimize => self.optimize(answer),
            Action::Check => self.check(answer),
            Action::Run => self.run(answer),
            Action::Tree => {
                let script = self.script()?;
                Ok(push_script(&script, &mut answer.said)?)
            }
        }
    }

    fn script(&self) -> Result<AST, Refusal> {
        read(self.task.alloc, self.task.request.syntax, self.text)
    }

    fn optimize(&self, answer: &mut Answer) -> Result<(), Refusal> {
        let alloc = self.task.alloc;
        let request = &self.task.request;
        let info = &self.task.info;
        let OptimizedText { given, text, .. } = optimize_text(
            alloc,
            request.syntax,
            self.text,
            info,
            request.level,
        )?;
        push_idle(self.name, &given, info, &mut answer.noted)?;
        let ended = ended_as(alloc, request.syntax, self.text, text)?;
        let made = headed_as(alloc, request.syntax, self.text, ended)?;
        if request.diff {
            push_diff(alloc, self.name, self.text, made.as_str(), &mut answer.said)?;
        }
        match request.target {
            Target::Out if !request.diff => answer.said.push_str(made.as_str())?,
            Target::File(_) => answer.made = Some(made),
            Target::InPlace if made.as_str() != self.text => answer.made = Some(made),
            Target::Out | Target::InPlace => {}
        }
        Ok(())
    }

    fn check(&self, answer: &mut Answer) -> Result<(), Refusal> {
        let script = self.script()?;
        let info = &self.task.info;
        push_idle(self.name, &script, info, &mut answer.noted)?;
        let found = findings(self.task.alloc, &script, info)?;
        for finding in &found {
            self.list(finding, answer)?;
        }
        if self.task.request.promise {
            self.promise(found.as_slice(), &mut answer.said)?;
        }
        Ok(())
    }

    /// Says what is promised of a script in which this is found: everything, or until a run comes to these places.
    fn promise(&self, found: &[Finding], to: &mut String) -> Result<(), AllocError> {
        let mut is_whole = true;
        for finding in found {
            if let Some(promise) = Promise::until(finding) {
                is_whole = false;
                self.say(finding.position, &promise, to)?;
            }
        }
        if is_whole {
            self.say(Position::NONE, &Promise::Everything, to)?;
        }
        Ok(())
    }

    /// Says what was found, unless its code is allowed.
    fn list(&self, finding: &Finding, answer: &mut Answer) -> Result<(), AllocError> {
        let kind = &finding.kind;
        let request = &self.task.request;
        if request.allowed.contains(&kind.code()) {
            return Ok(());
        }
        answer.is_found = true;
        if request.json {
            let mark = Some((kind.code(), kind.severity()));
            return self.mark(finding.position, mark, kind, &mut answer.said);
        }
        self.put(finding.position, &Listed(kind), &mut answer.said)
    }

    /// Appends what is said of a place, as JSON where this is asked for.
    fn say<T: Display>(
        &self,
        position: Position,
        what: &T,
        to: &mut String,
    ) -> Result<(), AllocError> {
        if self.task.request.json {
            return self.mark(position, None, what, to);
        }
        self.put(position, what, to)
    }

    /// Appends what is said of a place as JSON, with a code and a severity.
    fn mark<T: Display>(
        &self,
        position: Position,
        mark: Option<(&str, Severity)>,
        what: &T,
        to: &mut String,
    ) -> Result<(), AllocError> {
        push_json(self.task.alloc, self.name, position, mark, what, to)
    }

    /// Notes beside the answer what was found at a place.
    fn note<T: Display>(
        &self,
        position: Position,
        what: &T,
        answer: &mut Answer,
    ) -> Result<(), AllocError> {
        answer.is_found = true;
        self.put(position, what, &mut answer.noted)
    }

    /// Appends what is said of a place, and the line with a mark under it.
    fn put<T: Display>(
        &self,
        position: Position,
        what: &T,
        to: &mut String,
    ) -> Result<(), AllocError> {
        push_place(self.name, position, to)?;
        writeln!(to, "{what}")?;
        push_mark(self.text, position, to)
    }

    fn run(&self, answer: &mut Answer) -> Result<(), Refusal> {
        let script = self.script()?;
        let info = &self.task.info;
        push_idle(self.name, &script, info, &mut answer.noted)?;
        if self.task.request.promise {
            let found = findings(self.task.alloc, &script, info)?;
            self.promise(found.as_slice(), &mut answer.noted)?;
        }
        let Some(entry) = &self.task.entry else {
            return Ok(self.report(&script, None, answer)?);
        };
        match entry.of(&script)? {
            Some((entered, place)) => Ok(self.report(&entered, Some(place), answer)?),
            None => Ok(self.note(Position::NONE, &entry.missing(), answer)?),
        }
    }

    /// Runs statements, says what they print, reports, and notes where the run stops: at this place, or at the statement
    /// that it does not get past.
    fn report(
        &self,
        script: &AST,
        place: Option<Position>,
        answer: &mut Answer,
    ) -> Result<(), OutOfMemory> {
        let turns = self.task.request.turns;
        let setting = self.setting(script)?;
        let mut report = setting.run(script)?;
        let spared = turns.saturating_sub(setting.turns);
        if report.run_end != RunEnd::OutOfTurns {
            report.turns_left = report.turns_left.saturating_add(spared);
        }
        if setting.answering == Answering::Standard {
            push_printed(&report, &mut answer.said)?;
        }
        push_parts(&report, &mut answer.said)?;
        if has_value(&report) {
            return Ok(());
        }
        let position = match place {
            Some(place) => place,
            None => stopped_at(&setting, script)?,
        };
        let stop = Stop {
            end: &report.run_end,
            borne: (spared > 0).then_some(setting.turns),
        };
        Ok(self.note(position, &stop, answer)?)
    }

    /// What is told of runs of a script, with as many turns as the stack bears.
    fn setting(&self, script: &AST) -> Result<Setting<'_>, OutOfMemory> {
        let Task { alloc, request, .. } = self.task;
        Ok(Setting {
            alloc: *alloc,
            info: &self.task.info,
            answering: request.answering,
            turns: turns_borne(*alloc, script, request.turns)?,
        })
    }
}
