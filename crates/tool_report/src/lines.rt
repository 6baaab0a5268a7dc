//! A report, a line for each thing, with a tab between its parts. What is not public can leave a part of what it appends,
//! where it is refused.
#![tactic(auto, using(rhai_base::specs::Reading::kinds, crate::proofs::Printing::steps))]

ghost use Rattle.std.specs.Prelude.{◌≡◌, ◌++◌, OnErr, OnOk, map, string_bytes};
ghost use Rattle.std.specs.Option.{option_copied, option_map};
ghost use Rattle.rhai_base.specs.Reading.{value_of};
ghost use Rattle.run_host.specs.Entries.{export_meant, variable_meant};
ghost use Rattle.run_host.specs.Host.{call_meant};
ghost use Rattle.run_host.specs.Report.{end_meant, report_meant};
ghost use Rattle.tool_report.specs.Literals.{literal};
ghost use Rattle.tool_report.specs.Parts.{IsOfParts, call_parts, called_parts, end_parts, export_parts, line_text, lines_text, more_parts, named_parts, report_text, turns_parts, variable_parts};

use crate::letters::push_escaped;
use crate::values::push_literal;
use rhai_base::{Dynamic, OutOfMemory};
use run_host::{Export, HostCall, RunEnd, RunReport, Variable};
use std::alloc::AllocError;
use std::fmt::Write;

/// Appends a report: the end, the turns left, then each variable, each export and each call on a line, with a tab between
/// its parts, in none of which a tab or a line end stands. A refused call leaves the text as it was.
pub fn push_parts(report: &RunReport, to: &mut String) -> Result<(), OutOfMemory>
    ensures ok { OnOk result (string_bytes to.new ≡ string_bytes to.old ++ report_text (report_meant report.now)) }
    ensures parts { IsOfParts (report_meant report.now) }
    ensures err { OnErr result (string_bytes to.new ≡ string_bytes to.old) }
{
    let mut lines = String::new(*to.allocator());
    push_lines(report, &mut lines)?;
    to.push_str(lines.as_str())?;
    Ok(())
}

fn push_lines(report: &RunReport, to: &mut String) -> Result<(), AllocError>
    ensures { OnOk result (string_bytes to.new ≡ string_bytes to.old ++ report_text (report_meant report.now)) }
{
    push_end(&report.run_end, to)?;
    push_turns(report.turns_left, to)?;
    push_variables(report.variables.as_slice(), to)?;
    push_exports(report.exports.as_slice(), to)?;
    push_calls(report.calls.as_slice(), to)
}

fn push_end(end: &RunEnd, to: &mut String) -> Result<(), AllocError>
    ensures { OnOk result
        (string_bytes to.new ≡ string_bytes to.old ++ line_text (end_parts (end_meant end.now))) }
{
    match end {
        RunEnd::Value(value) => {
            to.push_str("end\tvalue\t")?;
            push_literal(value, to)?;
            to.push_str("\n")
        }
        RunEnd::Thrown(value) => {
            to.push_str("end\tthrown\t")?;
            push_literal(value, to)?;
            to.push_str("\n")
        }
        RunEnd::Stuck(stuck) => write!(to, "end\tstuck\t{}\t{}\n", stuck.number(), stuck.name()),
        RunEnd::OutOfTurns => to.push_str("end\tout of turns\n"),
    }
}

fn push_turns(turns: u64, to: &mut String) -> Result<(), AllocError>
    ensures { OnOk result (string_bytes to.new ≡ string_bytes to.old ++ line_text (turns_parts turns)) }
{
    write!(to, "turns left\t{turns}\n")
}

fn push_variables(variables: &[Variable], to: &mut String) -> Result<(), AllocError>
    ensures { OnOk result
        (string_bytes to.new ≡ string_bytes to.old ++ lines_text (map variable_parts (map variable_meant variables.now))) }
{
    for variable in variables {
        push_variable(variable, to)?;
    }
    Ok(())
}

fn push_variable(variable: &Variable, to: &mut String) -> Result<(), AllocError>
    ensures { OnOk result
        (string_bytes to.new ≡ string_bytes to.old ++ line_text (variable_parts (variable_meant variable.now))) }
{
    let (name, is_constant, value) = variable;
    let kind = if *is_constant { "constant" } else { "variable" };
    push_named(kind, name.as_str(), value, to)
}

fn push_exports(exports: &[Export], to: &mut String) -> Result<(), AllocError>
    ensures { OnOk result
        (string_bytes to.new ≡ string_bytes to.old ++ lines_text (map export_parts (map export_meant exports.now))) }
{
    for export in exports {
        let (name, value) = export;
        push_named("export", name.as_str(), value, to)?;
    }
    Ok(())
}

/// Appends a kind, a name and a value.
fn push_named(kind: &str, name: &str, value: &Dynamic, to: &mut String) -> Result<(), AllocError>
    ensures { OnOk result
        (string_bytes to.new ≡ string_bytes to.old ++ line_text (named_parts kind.now name.now (value_of value.now))) }
{
    to.push_str(kind)?;
    to.push_str("\t")?;
    push_escaped(name, to)?;
    to.push_str("\t")?;
    push_literal(value, to)?;
    to.push_str("\n")
}

fn push_calls(calls: &[HostCall], to: &mut String) -> Result<(), AllocError>
    ensures { OnOk result
        (string_bytes to.new ≡ string_bytes to.old ++ lines_text (map call_parts (map call_meant calls.now))) }
{
    for call in calls {
        push_call(call, to)?;
    }
    Ok(())
}

fn push_call(call: &HostCall, to: &mut String) -> Result<(), AllocError>
    ensures { OnOk result
        (string_bytes to.new ≡ string_bytes to.old ++ line_text (call_parts (call_meant call.now))) }
{
    push_called(
        call.name.as_str(),
        call.receiver.as_ref(),
        call.args.as_slice(),
        to,
    )
}

/// Appends what is called with these arguments, and of a method the value that it is called on.
fn push_called(
    name: &str,
    receiver: Option<&Dynamic>,
    args: &[Dynamic],
    to: &mut String,
) -> Result<(), AllocError>
    ensures { OnOk result
        (string_bytes to.new
        ≡ string_bytes to.old
        ++ line_text
        (called_parts name.now (option_map value_of (option_copied receiver.entry)) (map value_of args.now))) }
{
    match receiver {
        None => {
            to.push_str("call\t")?;
            push_escaped(name, to)?;
        }
        Some(receiver) => {
            to.push_str("method\t")?;
            push_escaped(name, to)?;
            to.push_str("\t")?;
            push_literal(receiver, to)?;
        }
    }
    push_values(args, to)
}

/// Appends values, each behind a tab, and a line end.
fn push_values(values: &[Dynamic], to: &mut String) -> Result<(), AllocError>
    ensures { OnOk result
        (string_bytes to.new
        ≡ string_bytes to.old ++ more_parts (map literal (map value_of values.now))) }
{
    for value in values {
        to.push_str("\t")?;
        push_literal(value, to)?;
    }
    to.push_str("\n")
}
