//! Copies of texts, of parts of nodes, and of a function's key.

use crate::tried::Tried;
use rhai_ast::{BinaryExpr, Expr, FlowControl, Stmt, SwitchBlock};
use rhai_script::FnKey;

/// The calls.
pub const CALLS: &str =
    "ImmutableString::clone FnKey::clone BinaryExpr::clone FlowControl::clone SwitchBlock::clone Cases::clone \
    CaseBlocksList::clone";

pub fn make(name: &str, tried: &Tried) -> bool {
    match name {
        "ImmutableString::clone" => text(tried),
        "FnKey::clone" => key(tried),
        "BinaryExpr::clone" => sides(tried),
        "FlowControl::clone" => flow(tried),
        "SwitchBlock::clone" | "Cases::clone" | "CaseBlocksList::clone" => switch(name, tried),
        _ => return false,
    }
    true
}

fn text(tried: &Tried) {
    if let Some(text) = tried.said.shared("abc") {
        tried.done(tried.answer(text.clone()));
    }
}

fn key(tried: &Tried) {
    if let Some(name) = tried.said.shared("f")
        && let Some(receiver) = tried.said.shared("i64")
    {
        let key = FnKey {
            name,
            params: 1,
            this_type: Some(receiver),
        };
        let copy: Option<FnKey> = tried.answer(key.clone());
        tried.done(copy);
    }
}

fn sides(tried: &Tried) {
    if let Some(expr) = tried.said.expr("Index!([x, \"abc\"], [1, 2])")
        && let Expr::Index(sides, ..) = expr.get()
    {
        let copy: Option<BinaryExpr> = tried.answer(sides.get().clone());
        tried.done(copy);
    }
}

fn flow(tried: &Tried) {
    if let Some(statement) = tried.said.stmt("if [x] { f(1); 2 } else { [3, [4]] }")
        && let Stmt::If(flow, _) = statement.get()
    {
        let copy: Option<FlowControl> = tried.answer(flow.get().clone());
        tried.done(copy);
    }
}

fn switch(name: &str, tried: &Tried) {
    if let Some(statement) = tried.said.stmt(
        "switch [x] { 1: 0, \"e\": 0 1 | 5..8: 1 | default 2 | true => y, x => [3], true => () }",
    )
        && let Stmt::Switch(switch, _) = statement.get()
    {
        copy_switch(name, switch.get(), tried);
    }
}

fn copy_switch(name: &str, switch: &SwitchBlock, tried: &Tried) {
    let cases = &switch.cases.cases;
    match name {
        "SwitchBlock::clone" => tried.done(tried.answer(switch.clone())),
        "Cases::clone" => tried.done(tried.answer(cases.clone())),
        _ => {
            for list in cases.as_map().values() {
                tried.done(tried.answer(list.clone()));
            }
        }
    }
}
