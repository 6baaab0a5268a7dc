//! What `{}` and `{:?}` print.

use notation_print::Notation;
use notation_read::read_script;
use rhai_ast::Stmt;
use rhai_script::AST;
use tests_reader::Said;

/// A script by `{}`; then by `{:?}` its functions, its statements and some of their parts.
pub fn answer(text: &str, said: &Said) {
    match read_script(said.alloc, text) {
        Ok(script) => say_script(&script, said),
        Err(error) => said.display(&error),
    }
}

fn say_script(script: &AST, said: &Said) {
    said.display(&script.printed(said.alloc));
    for function in script.shared_lib().iter() {
        say_item("function: ", &**function, said);
    }
    for statement in script.statements() {
        say_item("statement: ", statement, said);
        say_parts(statement, said);
    }
}

/// The parts of an `if` and of a `switch`.
fn say_parts(statement: &Stmt, said: &Said) {
    match statement {
        Stmt::If(flow, _) => {
            say_item("condition: ", &flow.get().expr, said);
            say_item("body: ", &flow.get().body, said);
            say_item("branch: ", &flow.get().branch, said);
        }
        Stmt::Switch(switch, _) => say_item("table: ", &switch.get().cases, said),
        _ => {}
    }
}

fn say_item<T: Notation>(kind: &str, item: &T, said: &Said) {
    said.put(kind);
    said.debug(&item.printed(said.alloc));
    said.put("\n");
}
