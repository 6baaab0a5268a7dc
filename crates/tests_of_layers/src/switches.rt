//! Tables of `switch`, and copies of parts of statements.

use indexmap::IndexMap;
use rhai_ast::{
    BinaryExpr, CallQueries, CaseBlocksList, Cases, Expr, ExprQueries, FlowControl, FnCallExpr,
    Stmt, SwitchBlock, SwitchCases, SwitchCasesCollection,
};
use rhai_base::{AstError, Seq};
use std::mem;
use tests_reader::Said;

/// What is asked of the table of a `switch`.
pub fn answer(question: &str, statement: &mut Stmt, said: &Said) {
    match statement {
        Stmt::Switch(switch, _) if question == "cases" => {
            cases(&mut switch.get_mut().cases.cases, said);
        }
        Stmt::Switch(switch, _) => say_made(&made(&mut switch.get_mut().cases, said), said),
        _ => said.want("a switch"),
    }
}

/// A table of the same parts, which are taken out.
fn made(table: &mut SwitchCasesCollection, said: &Said) -> Result<SwitchCasesCollection, AstError> {
    let arms = mem::replace(&mut table.expressions, Seq::new(said.alloc));
    let cases = table.cases.replace_map(IndexMap::new(said.alloc));
    let ranges = mem::replace(&mut table.ranges, Seq::new(said.alloc));
    SwitchCasesCollection::new(arms.into_vec(), cases, ranges.into_vec(), table.def_case)
}

/// Says what a table and its copy have.
fn say_made(made: &Result<SwitchCasesCollection, AstError>, said: &Said) {
    match made {
        Ok(table) => {
            say_table(table, said);
            said.put(";");
            say_copied_table(table, said);
        }
        Err(refusal) => said.count("refusal", usize::from(refusal.number())),
    }
}

fn say_copied_table(table: &SwitchCasesCollection, said: &Said) {
    if let Some(copy) = said.made(table.clone()) {
        say_table(&copy, said);
    }
}

fn say_table(table: &SwitchCasesCollection, said: &Said) {
    said.count("arms", table.expressions.len());
    said.count("cases", table.cases.as_map().len());
    said.count("ranges", table.ranges.len());
    match table.def_case {
        Some(arm) => said.count("default", arm),
        None => said.word("no default"),
    }
}

/// The cases of a table, and of a copy; the map of them is taken out for another, and put back.
fn cases(cases: &mut Cases, said: &Said) {
    say_cases(cases, said);
    if let Some(copy) = said.made(cases.clone()) {
        say_cases(&copy, said);
    }
    say_replaced(cases, said);
    say_cases(cases, said);
    let taken = Cases::from_map(cases.replace_map(IndexMap::new(said.alloc)));
    said.count("of", taken.into_map().len());
}

fn say_replaced(cases: &mut Cases, said: &Said) {
    let taken = cases.replace_map(IndexMap::new(said.alloc));
    said.count("taken out", cases.as_map().len());
    let other = cases.replace_map(taken);
    said.count("put back", other.len());
}

fn say_cases(cases: &Cases, said: &Said) {
    for (key, list) in cases.as_map().iter() {
        said.value(key);
        say_arms(list, said);
    }
    said.put(";");
}

/// Says the arms of a case, of a copy, and how many they are.
fn say_arms(list: &CaseBlocksList, said: &Said) {
    if let Some(copy) = said.made(list.clone()) {
        for arm in copy.blocks.as_slice() {
            said.count("arm", *arm);
        }
    }
    said.count("of", list.blocks.len());
}

/// Says what a copy of a statement's parts is.
pub fn say_parts(statement: &Stmt, said: &Said) {
    match statement {
        Stmt::If(flow, _) => say_flow(flow.get(), said),
        Stmt::Switch(switch, _) => say_switch(switch.get(), said),
        Stmt::Assignment(parts) => say_sides(&parts.get().1, said),
        Stmt::FnCall(call, _) => say_copied_call(call.get(), said),
        _ => {}
    }
}

fn say_flow(flow: &FlowControl, said: &Said) {
    if let Some(copy) = said.boxed(said.made(flow.clone())) {
        let copy = copy.get();
        said.word_if(copy.expr.is_pure(), "pure");
        said.count("body", copy.body.len());
        said.word_if(copy.branch.is_empty(), "no branch");
    }
}

fn say_switch(switch: &SwitchBlock, said: &Said) {
    if let Some(copy) = said.boxed(said.made(switch.clone())) {
        said.word_if(copy.get().expr.is_constant(), "constant");
        say_table(&copy.get().cases, said);
    }
}

fn say_sides(sides: &BinaryExpr, said: &Said) {
    if let Some(copy) = said.boxed(said.made(sides.clone())) {
        let is_variable = matches!(&copy.get().lhs, Expr::Variable(_, _, _));
        said.word_if(is_variable, "variable");
        said.word_if(copy.get().rhs.is_constant(), "constant");
    }
}

fn say_copied_call(call: &FnCallExpr, said: &Said) {
    if let Some(copy) = said.boxed(said.made(call.clone())) {
        say_call(copy.get(), said);
    }
}

pub fn say_call(call: &FnCallExpr, said: &Said) {
    said.word(call.name.as_str());
    said.count("of", call.args.len());
    said.word_if(call.is_qualified(), "qualified");
    said.word_if(call.is_operator_call(), "operator");
    said.word_if(call.constant_args(), "constant");
}
