//! Tables of a `switch` in the notation.
#![tactic(auto, using(ast_types::specs::Reading::shapes, crate::proofs::TableLists::tables))]

ghost use Rattle.std.specs.Prelude.{◌≡◌, ◌++◌, [], OnOk, map, string_bytes};
ghost use Rattle.ast_types.specs.Reading.{case_of, range_of, table_of};
ghost use Rattle.notation_print.specs.Nodes.{cases_text, default_text, numbers_text, range_text, ranges_text, table_text};

use rhai_ast::{Cases, SwitchCasesCollection};
use rhai_base::{OutOfMemory, RangeCase};

/// Appends cases, ranges and default.
pub fn push_table(table: &SwitchCasesCollection, text: &mut String) -> Result<(), OutOfMemory>
    ensures { OnOk result (string_bytes text.new ≡ string_bytes text.old ++ table_text (table_of table.now)) }
{
    push_cases(&table.cases, text)?;
    text.push_str(" | ")?;
    push_ranges(table.ranges.as_slice(), text)?;
    text.push_str(" | default ")?;
    push_default(table.def_case, text)
}

/// Appends values, each with the places of its arms.
fn push_cases(cases: &Cases, text: &mut String) -> Result<(), OutOfMemory>
    ensures { OnOk result (string_bytes text.new ≡ string_bytes text.old ++ cases_text [] (map case_of cases.now)) }
{
    let mut before = "";
    for case in cases.as_map() {
        text.push_str(before)?;
        case.0.push_written(text)?;
        text.push_str(":")?;
        push_places(case.1.blocks.as_slice(), text)?;
        before = ", ";
    }
    Ok(())
}

/// Appends the places of arms, each after a blank.
fn push_places(places: &[usize], text: &mut String) -> Result<(), OutOfMemory>
    ensures { OnOk result (string_bytes text.new ≡ string_bytes text.old ++ numbers_text places.now) }
{
    for place in places {
        write!(text, " {place}")?;
    }
    Ok(())
}

/// Appends ranges, each with the place of its arm.
fn push_ranges(ranges: &[RangeCase], text: &mut String) -> Result<(), OutOfMemory>
    ensures { OnOk result (string_bytes text.new ≡ string_bytes text.old ++ ranges_text [] (map range_of ranges.now)) }
{
    let mut before = "";
    for range in ranges {
        let place = range.index();
        text.push_str(before)?;
        push_range(range, text)?;
        write!(text, ": {place}")?;
        before = ", ";
    }
    Ok(())
}

/// Appends the ends of a range. One that was iterated over to its end holds nothing.
fn push_range(range: &RangeCase, text: &mut String) -> Result<(), OutOfMemory>
    ensures { OnOk result (string_bytes text.new ≡ string_bytes text.old ++ range_text (range_of range.now).range) }
{
    match range {
        RangeCase::ExclusiveInt(range, _) => write!(text, "{}..{}", range.start, range.end)?,
        RangeCase::InclusiveInt(range, _) => {
            let (start, end) = (*range.start(), *range.end());
            if *range == (start..=end) {
                write!(text, "{start}..={end}")?;
            } else {
                write!(text, "{end}..{end}")?;
            }
        }
    }
    Ok(())
}

/// Appends the place of the default arm.
fn push_default(default: Option<usize>, text: &mut String) -> Result<(), OutOfMemory>
    ensures { OnOk result (string_bytes text.new ≡ string_bytes text.old ++ default_text default) }
{
    match default {
        Some(place) => write!(text, "{place}")?,
        None => text.push_str("-")?,
    }
    Ok(())
}
