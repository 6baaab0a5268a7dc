//! Functions.

use crate::error::Unspelled;
use crate::inside::Inside;
use crate::printer::Printer;
use crate::words::{is_doc, is_name, is_script_doc, stands_before};
use rhai_ast::{FnAccess, ScriptFuncDef};
use rhai_base::{ImmutableString, Position};
use std::collections::HashSet;

impl<'t> Printer<'t> {
    // ---- comments

    pub(crate) fn script_doc(&self, doc: &str) {
        if !doc.is_empty() {
            if !is_script_doc(doc) {
                self.refuse(Unspelled::Comment, Position::NONE);
            }
            self.line(doc);
        }
    }

    /// A comment of a function that stands there.
    fn doc(&self, doc: &str, pos: Position) {
        if !is_doc(doc) {
            self.refuse(Unspelled::Comment, pos);
        }
        self.line(doc);
    }

    fn line(&self, text: &str) {
        self.put(text);
        self.put("\n");
    }

    // ---- functions

    /// The functions that are not printed as yet and stand before a statement there, a blank line around each. Before
    /// nowhere all of them stand.
    pub(crate) fn functions_before(&self, pos: Position) {
        for _ in 0..self.count_functions() {
            match self.next_function() {
                Some(function) if goes_before(function, pos) => {
                    self.begin_function();
                    self.function(function, Inside::script().function());
                    self.pass_function();
                }
                _ => break,
            }
        }
    }

    fn function(&self, function: &'t ScriptFuncDef, inside: Inside) {
        let pos = function.body.position();
        for comment in function.comments.as_slice() {
            self.doc(comment.as_str(), pos);
        }
        if function.access == FnAccess::Private {
            self.put("private ");
        }
        self.put("fn ");
        self.receiver(&function.this_type, pos);
        self.name(function.name.as_str(), pos);
        let around = self.enter(false);
        self.put("(");
        self.params(function.params.as_slice(), pos);
        self.put(") ");
        self.block(&function.body, inside);
        self.leave(around);
        self.put("\n");
    }

    /// The type of the receiver, where there is one.
    fn receiver(&self, this_type: &Option<ImmutableString>, pos: Position) {
        let Some(this_type) = this_type else {
            return;
        };
        match this_type.as_str() {
            "int" => self.refuse(Unspelled::Receiver, pos),
            "i64" => self.put("int"),
            name if is_name(name) => self.put(name),
            other => self.quoted(other),
        }
        self.put(".");
    }

    /// The parameters of a function that stands there, which are declared.
    pub(crate) fn params(&self, params: &'t [ImmutableString], pos: Position) {
        let mut names = HashSet::new(self.alloc);
        for (index, param) in params.iter().enumerate() {
            let name = param.as_str();
            if names.contains(&name) {
                self.refuse(Unspelled::Twice, pos);
            }
            let noted = names.insert(name);
            self.made(noted);
            self.comma(index);
            self.name(name, pos);
            self.declare(name, false);
        }
    }
}

/// Whether a function goes before a statement that stands there. Before nowhere all of them go.
fn goes_before(function: &ScriptFuncDef, statement: Position) -> bool {
    statement.is_none() || stands_before(function.body.position(), statement)
}
