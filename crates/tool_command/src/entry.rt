//! The call that a run begins with.

use crate::bad_value::{BadValue, Reason, Valued};
use rhai_ast::{Expr, FnCallExpr, Stmt};
use rhai_base::{OutOfMemory, Position};
use rhai_script::AST;
use std::alloc::Global;
use std::fmt::{self, Display, Write};
use syntax_source::{Refusal, Syntax, read};

/// A call of a function, as a script of this one statement.
#[derive(Drop)]
pub(crate) struct Entry {
    call: AST,
}

impl Entry {
    /// The call that a text is; of a name alone the one without arguments.
    pub(crate) fn parse<'a>(alloc: Global, text: &'a str) -> Result<Entry, BadValue<'a>> {
        match read_call(alloc, text) {
            Ok(call) => {
                if called_by(&call).is_none() {
                    return Err(BadValue::new(Valued::Entry, text, Reason::NoCall));
                }
                Ok(Entry { call })
            }
            Err(refusal) => Err(BadValue::refused(Valued::Entry, text, refusal, (1, 0))),
        }
    }

    /// A script with the functions of this one, whose only statement is the call, and where the body of what is called
    /// begins; none where there is no such function.
    pub(crate) fn of(&self, script: &AST) -> Result<Option<(AST, Position)>, OutOfMemory> {
        let Some(place) = self.place_in(script) else {
            return Ok(None);
        };
        let mut entered = script.clone_functions_only()?;
        entered.combine(self.call.clone()?)?;
        Ok(Some((entered, place)))
    }

    /// Where the body of the function begins that is called.
    fn place_in(&self, script: &AST) -> Option<Position> {
        let Missing { name, arguments } = self.missing();
        for function in script.shared_lib().iter() {
            let is_plain = function.this_type.is_none();
            if is_plain && function.name.as_str() == name && function.params.len() == arguments {
                return Some(function.body.position());
            }
        }
        None
    }

    /// That the function that is called is missing.
    pub(crate) fn missing(&self) -> Missing<'_> {
        match called_by(&self.call) {
            Some(call) => Missing {
                name: call.name.as_str(),
                arguments: call.args.len(),
            },
            None => Missing {
                name: "",
                arguments: 0,
            },
        }
    }
}

/// A function that a script does not have.
#[derive(Clone, Copy)]
pub(crate) struct Missing<'e> {
    name: &'e str,
    arguments: usize,
}

impl<'e> Display for Missing<'e> {
    fn fmt<W: Write>(&self, f: &mut fmt::Formatter<W>) -> fmt::Result {
        let Missing { name, arguments } = *self;
        match arguments {
            0 => write!(f, "there is no function `{name}` without parameters"),
            1 => write!(f, "there is no function `{name}` with 1 parameter"),
            _ => write!(
                f,
                "there is no function `{name}` with {arguments} parameters"
            ),
        }
    }
}

fn read_call(alloc: Global, text: &str) -> Result<AST, Refusal> {
    let behind = if text.contains('(') { ";" } else { "();" };
    let text = format!(in alloc; "{text}{behind}")?;
    read(alloc, Syntax::default(), text.as_str())
}

/// The call of a function that a script is.
fn called_by(script: &AST) -> Option<&FnCallExpr> {
    match script.statements() {
        [statement] => {
            let call = call_of(statement)?;
            let is_plain = call.namespace.is_empty() && call.op_token.is_none();
            is_plain.then_some(call)
        }
        _ => None,
    }
}

fn call_of(statement: &Stmt) -> Option<&FnCallExpr> {
    match statement {
        Stmt::FnCall(call, _) => Some(call.get()),
        Stmt::Expr(expr) => match expr.get() {
            Expr::FnCall(call, _) => Some(call.get()),
            _ => None,
        },
        _ => None,
    }
}
