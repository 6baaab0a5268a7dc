//! A run's report in print. What is not public can leave a part of what it appends, where it is refused.
#![tactic(auto, using(rhai_base::specs::Reading::kinds, crate::proofs::Printing::steps))]

ghost use Rattle.std.specs.Prelude.{◌≡◌, ◌++◌, [], OnErr, OnOk, Some, map, string_bytes};
ghost use Rattle.std.specs.Option.{option_copied, option_map};
ghost use Rattle.rhai_base.specs.Reading.{value_of};
ghost use Rattle.run_host.specs.Entries.{variable_meant, export_meant};
ghost use Rattle.run_host.specs.Host.{call_meant};
ghost use Rattle.run_host.specs.Report.{end_meant, report_meant, stuck_meant};
ghost use Rattle.run_host.specs.Print.{called_on, end_text, stuck_text, variable_text, variables_text, export_text, exports_text, values_text, call_text, calls_text, report_text};

use crate::{Export, HostCall, RunEnd, RunReport, Stuck, Variable};
use rhai_base::{Dynamic, OutOfMemory};
use std::fmt;

/// Appends a report: the end, the turns left, then each variable, each export and each call on a line. A refused call
/// leaves the text as it was.
pub fn push_report(report: &RunReport, text: &mut String) -> Result<(), OutOfMemory>
    ensures ok { OnOk result (string_bytes text.new ≡ string_bytes text.old ++ report_text (report_meant report.now)) }
    ensures err { OnErr result (string_bytes text.new ≡ string_bytes text.old) }
{
    let mut lines = String::new(*text.allocator());
    write_report(report, &mut lines)?;
    text.push_str(lines.as_str())?;
    Ok(())
}

/// The same; a refused call can leave a part.
fn write_report(report: &RunReport, text: &mut String) -> Result<(), OutOfMemory>
    ensures { OnOk result (string_bytes text.new ≡ string_bytes text.old ++ report_text (report_meant report.now)) }
{
    let (end, turns) = (&report.run_end, report.turns_left);
    write!(text, "end: {end}\nturns left: {turns}\n")?;
    push_variables(report.variables.as_slice(), text)?;
    push_exports(report.exports.as_slice(), text)?;
    push_calls(report.calls.as_slice(), text)
}

/// As a report has it: its number and its name.
impl fmt::Display for Stuck {
    ghost output = { λ stuck. Some (stuck_text (stuck_meant stuck)) };

    fn fmt<W: fmt::Write>(&self, f: &mut fmt::Formatter<W>) -> fmt::Result {
        write!(f, "{} {}", self.number(), self.name())
    }
}

/// As a report has it: a value as an array writes it.
impl fmt::Display for RunEnd {
    ghost output = { λ end. Some (end_text (end_meant end)) };

    fn fmt<W: fmt::Write>(&self, f: &mut fmt::Formatter<W>) -> fmt::Result {
        match self {
            RunEnd::Value(value) => write!(f, "value {value:?}"),
            RunEnd::Thrown(value) => write!(f, "thrown {value:?}"),
            RunEnd::Stuck(stuck) => write!(f, "stuck {stuck}"),
            RunEnd::OutOfTurns => f.write_str("out of turns"),
        }
    }
}

/// Appends names, each on a line.
fn push_variables(variables: &[Variable], text: &mut String) -> Result<(), OutOfMemory>
    ensures { OnOk result
        (string_bytes text.new ≡ string_bytes text.old ++ variables_text (map variable_meant variables.now)) }
{
    for variable in variables {
        push_variable(variable, text)?;
    }
    Ok(())
}

fn push_variable(variable: &Variable, text: &mut String) -> Result<(), OutOfMemory>
    ensures { OnOk result
        (string_bytes text.new ≡ string_bytes text.old ++ variable_text (variable_meant variable.now)) }
{
    let (name, is_constant, value) = variable;
    let kind = if *is_constant {
        "constant "
    } else {
        "variable "
    };
    text.push_str(kind)?;
    text.push_str(name.as_str())?;
    text.push_str(" = ")?;
    value.push_written(text)?;
    text.push_str("\n")?;
    Ok(())
}

/// Appends exports, each on a line.
fn push_exports(exports: &[Export], text: &mut String) -> Result<(), OutOfMemory>
    ensures { OnOk result
        (string_bytes text.new ≡ string_bytes text.old ++ exports_text (map export_meant exports.now)) }
{
    for export in exports {
        push_export(export, text)?;
    }
    Ok(())
}

fn push_export(export: &Export, text: &mut String) -> Result<(), OutOfMemory>
    ensures { OnOk result (string_bytes text.new ≡ string_bytes text.old ++ export_text (export_meant export.now)) }
{
    let (name, value) = export;
    text.push_str("export ")?;
    text.push_str(name.as_str())?;
    text.push_str(" = ")?;
    value.push_written(text)?;
    text.push_str("\n")?;
    Ok(())
}

/// Appends calls to the host, each on a line.
fn push_calls(calls: &[HostCall], text: &mut String) -> Result<(), OutOfMemory>
    ensures { OnOk result (string_bytes text.new ≡ string_bytes text.old ++ calls_text (map call_meant calls.now)) }
{
    for call in calls {
        push_call(call, text)?;
    }
    Ok(())
}

fn push_call(call: &HostCall, text: &mut String) -> Result<(), OutOfMemory>
    ensures { OnOk result (string_bytes text.new ≡ string_bytes text.old ++ call_text (call_meant call.now)) }
{
    text.push_str("call ")?;
    push_receiver(call.receiver.as_ref(), text)?;
    text.push_str(call.name.as_str())?;
    text.push_str("(")?;
    push_values(call.args.as_slice(), text)?;
    text.push_str(")\n")?;
    Ok(())
}

/// Appends what a method is called on.
fn push_receiver(receiver: Option<&Dynamic>, text: &mut String) -> Result<(), OutOfMemory>
    ensures { OnOk result
        (string_bytes text.new
        ≡ string_bytes text.old ++ called_on (option_map value_of (option_copied receiver.entry))) }
{
    if let Some(receiver) = receiver {
        receiver.push_written(text)?;
        text.push_str(".")?;
    }
    Ok(())
}

/// Appends values with commas between them.
fn push_values(values: &[Dynamic], text: &mut String) -> Result<(), OutOfMemory>
    ensures { OnOk result (string_bytes text.new ≡ string_bytes text.old ++ values_text [] (map value_of values.now)) }
{
    let mut before = "";
    for value in values {
        text.push_str(before)?;
        value.push_written(text)?;
        before = ", ";
    }
    Ok(())
}
