//! One name everywhere, and functions with names that none may have.

use crate::asked::{self, ask_tests, read};
use crate::case::{Case, Run, Tally, Wanted};
use rhai_ast::ScriptFuncDef;
use std::rc::Rc;
use tests_reader::{Said, Script};

/// Statements over one name.
const OVER_X: [&str; 16] = [
    "let x = 1",
    "const x = [2, 3]",
    "x = +(x, 1)",
    "x += x",
    "for (x, x) in [7, x] { call print(x) }",
    "try { throw x } catch x { x = +(x, 1); call f(x) }",
    "call x(x)",
    "call x!(x)",
    "block { const x = 4; call f(x) }",
    "Index!(x, 0) = x",
    "Dot(x, x(x))",
    "switch x { 1: 0, 2: 0 |  | default 1 | true => x, true => { const x = 5; x } }",
    "if ==(x, 1) { let x = x; x } else { x::x }",
    "#{x: x}",
    "import \"m\" as x",
    "export x as x",
];

/// A function of the name, with a parameter of the name.
const FUNCTION: &str = "fn x(x) { const x = +(x, 1); x }";

pub fn ask(tally: &Tally) {
    ask_all_three(tally);
    ask_reserved(tally);
}

/// Each three of the statements, one after the other.
fn ask_all_three(tally: &Tally) {
    for first in OVER_X {
        for second in OVER_X {
            for third in OVER_X {
                ask_three(first, second, third, tally);
            }
        }
    }
    tally.say("one name everywhere");
}

fn ask_three(first: &str, second: &str, third: &str, tally: &Tally) {
    let text = Said::new(tally.said.alloc, false);
    for line in [first, second, third, FUNCTION] {
        text.line(line);
    }
    let text = text.into_text();
    asked::ask(&Case::new(text.as_str(), Wanted::SOUND, tally));
}

/// Names that no function may have.
const NAMES: &str =
    "eval Fn call curry is_shared is_def_var is_def_fn type_of this print debug + - * / % ** << >> & | ^ \
    == != < <= > >= .. ..= !";

/// Names that a function may have.
const FREE: &str = "f eval1 Eval prints += = . ?. [ ( :: && || ??";

fn ask_reserved(tally: &Tally) {
    for name in NAMES.split_whitespace() {
        ask_named(name, 25, tally);
    }
    for name in FREE.split_whitespace() {
        ask_named(name, 0, tally);
    }
    tally.say("functions by their names");
}

/// A function of a name before, between and behind others.
fn ask_named(name: &str, fault: u8, tally: &Tally) {
    let text = "1\nfn f() { noop }\nfn h() { { 1 } }\nfn g(x) { x }";
    for place in 0..3 {
        let wanted = Wanted {
            fault,
            is_plain: true,
            run: Run::Any,
        };
        let said = Said::new(tally.said.alloc, false);
        let case = Case::new(text, wanted, tally);
        tally.tree();
        if let Some(script) = read(&case, &said) {
            let functions = renamed(&script, place, name, &said);
            ask_tests(&case, script.statements.as_slice(), functions.as_slice());
        }
        case.want(said.is_whole(), "functions with names");
    }
}

/// The functions of a script, of which one has another name.
fn renamed(script: &Script, place: usize, name: &str, said: &Said) -> Vec<Rc<ScriptFuncDef>> {
    let mut functions = Vec::new(said.alloc);
    for (at, function) in script.functions.iter().enumerate() {
        let name = if at == place {
            name
        } else {
            function.name.as_str()
        };
        said.push(&mut functions, named(function, name, said));
    }
    functions
}

fn named(function: &ScriptFuncDef, name: &str, said: &Said) -> Option<Rc<ScriptFuncDef>> {
    let mut copy = said.made(function.clone())?;
    copy.name = said.shared(name)?;
    said.counted(Some(copy))
}
