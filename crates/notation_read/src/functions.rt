//! Scripts: statements, each on a line, and then functions, each on a line.

use crate::error::ReadError;
use crate::joined::both;
use crate::letters::Letters;
use crate::marks::Marks;
use rhai_ast::{FnAccess, ScriptFuncDef, Stmt};
use rhai_base::{Ident, ImmutableString, Seq};
use std::alloc::Global;
use std::rc::Rc;

/// What a script is made of.
#[derive(Drop)]
pub struct Script {
    /// The statements.
    pub statements: Vec<Stmt>,
    /// The functions; each of them is public and has no comments.
    pub functions: Vec<Rc<ScriptFuncDef>>,
}

/// The script of a text.
pub fn read_parts<M: Marks>(alloc: Global, text: &str, marks: M) -> Result<Script, ReadError> {
    let letters = Letters::new(alloc, text, marks);
    let statements = letters.lines();
    let functions = letters.functions();
    letters.whole(Some(Script {
        statements,
        functions,
    }))
}

impl<'a, M: Marks> Letters<'a, M> {
    fn functions(&self) -> Vec<Rc<ScriptFuncDef>> {
        let mut functions = Vec::new(self.alloc);
        for _ in 0..self.most() {
            if self.is_done() {
                break;
            }
            self.expect("fn ");
            self.push(&mut functions, self.function());
            self.end_line();
        }
        functions
    }

    fn function(&self) -> Option<Rc<ScriptFuncDef>> {
        let this_type = self.receiver();
        let name = self.ident();
        let params = self.params();
        self.expect(" ");
        let (name, body) = both(name, self.body())?;
        let function = ScriptFuncDef {
            body,
            name: name.name,
            this_type,
            access: FnAccess::Public,
            params,
            comments: Seq::new(self.alloc),
        };
        self.made(Rc::new(self.alloc, function))
    }

    /// The type before a `.`, and goes past both; none where a name stands alone.
    fn receiver(&self) -> Option<ImmutableString> {
        let before = self.place();
        let name = if self.skip("()") { "()" } else { self.word() };
        if !self.skip(".") {
            self.come_back(before);
            return None;
        }
        self.shared(name)
    }

    fn params(&self) -> Seq<ImmutableString> {
        let mut params = Vec::new(self.alloc);
        if !self.skip("()") {
            self.expect("(");
            self.push_params(&mut params);
            self.expect(")");
        }
        Seq::from_vec(params)
    }

    fn push_params(&self, params: &mut Vec<ImmutableString>) {
        for _ in 0..self.most() {
            if let Some(name) = self.ident() {
                self.push_param(params, name);
            }
            if !self.skip(", ") {
                break;
            }
        }
    }

    /// Adds a parameter, whose name should be a new one.
    fn push_param(&self, params: &mut Vec<ImmutableString>, param: Ident) {
        if params.contains(&param.name) {
            let position = param.pos;
            self.refuse(ReadError::ParameterTwice { position });
        }
        self.push(params, Some(param.name));
    }
}
