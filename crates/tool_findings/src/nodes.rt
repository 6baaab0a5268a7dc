//! What is noted at a node alone.

use crate::finding::FindingKind;
use crate::look::{Look, place_of};
use crate::scopes::NameKind;
use crate::values::{at_operator, is_idle_statement};
use bitflags::Flags;
use rhai_ast::{Expr, FnCallExpr, Stmt, StmtQueries, is_barred_call};
use rhai_base::{ASTFlags, Dynamic, Ident, Namespace, OutOfMemory, Position};

impl<'a> Look<'a> {
    /// Statements whose value goes, since they are not the last of their list.
    pub(crate) fn at_values(&mut self, statements: &'a [Stmt]) -> Result<(), OutOfMemory> {
        let Some((_, before_last)) = statements.split_last() else {
            return Ok(());
        };
        for statement in before_last {
            if is_idle_statement(statement) {
                self.find(FindingKind::DroppedValue, statement.position())?;
            }
        }
        Ok(())
    }

    pub(crate) fn declare(&mut self, name: &'a str, place: Position) -> Result<(), OutOfMemory> {
        self.scopes.declare(name, place, NameKind::Variable)
    }

    /// A declaration. What is exported is asked for from outside.
    pub(crate) fn at_var(&mut self, name: &'a Ident, options: ASTFlags) -> Result<(), OutOfMemory> {
        self.declare(name.as_str(), name.pos)?;
        if options.contains(ASTFlags::EXPORTED) {
            self.scopes.asks(name.as_str(), name.pos);
        }
        Ok(())
    }

    pub(crate) fn at_loop(&mut self, name: &'a Ident) -> Result<(), OutOfMemory> {
        self.scopes.declare(name.as_str(), name.pos, NameKind::Loop)
    }

    pub(crate) fn at_import(&mut self, name: &'a Ident) -> Result<(), OutOfMemory> {
        self.scopes
            .declare(name.as_str(), name.pos, NameKind::Import)
    }

    pub(crate) fn at_export(&mut self, name: &'a Ident) -> Result<bool, OutOfMemory> {
        self.ask(name.as_str(), name.pos)?;
        Ok(false)
    }

    /// A `break` or a `continue`.
    pub(crate) fn out_of_loop(&mut self, options: ASTFlags) {
        if !options.contains(ASTFlags::BREAK) {
            return;
        }
        if let Some(is_broken) = self.loops.last_mut() {
            *is_broken = true;
        }
    }

    /// Names that a closure shares.
    pub(crate) fn share(&mut self, position: Position) -> bool {
        self.shared = match self.shared {
            Some(first) if place_of(first) <= place_of(position) => Some(first),
            _ => Some(position),
        };
        false
    }

    /// A text, which may be the name of a function.
    pub(crate) fn text(&mut self, text: &'a str) -> Result<bool, OutOfMemory> {
        self.functions.name(text)?;
        Ok(false)
    }

    pub(crate) fn constant(&mut self, value: &'a Dynamic) -> Result<bool, OutOfMemory> {
        self.functions.name_in(value)?;
        Ok(false)
    }

    /// A variable; of one in a module the import is asked for, and `global` is the script's own.
    pub(crate) fn variable(
        &mut self,
        namespace: &'a Namespace,
        name: &'a str,
        position: Position,
    ) -> Result<bool, OutOfMemory> {
        match namespace.path.as_slice() {
            [] => self.ask(name, position)?,
            [module] if module.as_str() == "global" => self.ask_global(name, position)?,
            _ => self.ask_module(namespace)?,
        }
        Ok(false)
    }

    /// A call of a function, a method or an operator, but for its arguments.
    pub(crate) fn at_call(
        &mut self,
        call: &'a FnCallExpr,
        position: Position,
    ) -> Result<(), OutOfMemory> {
        if let Some(kind) = at_operator(self.alloc, self.info, call)? {
            return self.find(kind, position);
        }
        if is_barred_call(call) {
            let name = String::from_str(self.alloc, call.name.as_str())?;
            self.find(FindingKind::Barred(name), position)?;
            self.ask_text(call);
        }
        self.captures = self.captures || call.capture_parent_scope;
        self.evaluates = self.evaluates || evaluates(call);
        if names_any(call) {
            self.functions.name_any();
        }
        self.ask_module(&call.namespace)?;
        self.functions.name(call.name.as_str())?;
        Ok(())
    }

    /// Asks for the variable of which `is_def_var` is asked.
    fn ask_text(&mut self, call: &'a FnCallExpr) {
        if let ("is_def_var", [Expr::StringConstant(text, position)]) = (
            call.name.as_str(),
            call.args.as_slice(),
        ) {
            self.scopes.asks(text.as_str(), *position);
        }
    }

    /// A call of a function of the script: how many parameters it gives.
    pub(crate) fn at_counts(
        &mut self,
        call: &'a FnCallExpr,
        position: Position,
    ) -> Result<(), OutOfMemory> {
        if call.op_token.is_some() || call.capture_parent_scope || !call.namespace.is_empty() {
            return Ok(());
        }
        let (name, given) = (call.name.as_str(), call.args.len());
        let Some(takes) = self.functions.other_counts(name, given)? else {
            return Ok(());
        };
        let name = String::from_str(self.alloc, name)?;
        self.find(FindingKind::ParameterCount { name, takes, given }, position)
    }

    /// Asks for a closure's function, and for the names that it takes from around it: where it asks for them.
    pub(crate) fn take(
        &mut self,
        closure: &'a str,
        names: &'a [Expr],
    ) -> Result<bool, OutOfMemory> {
        self.functions.name(closure)?;
        for (index, name) in names.iter().enumerate() {
            if let Expr::Variable(parts, _, position) = name {
                let place = self.place_in(closure, index, *position);
                self.ask(parts.get().1.as_str(), place)?;
            }
        }
        Ok(false)
    }

    /// Where a closure asks first for a parameter; where it stands itself, if that is not known, or if another closure
    /// shares its function.
    fn place_in(&self, closure: &'a str, index: usize, position: Position) -> Position {
        let place = match self.closures.get(&closure) {
            Some(places) => places.as_slice().get(index).copied(),
            None => None,
        };
        match place {
            Some(place) if place_of(position) <= place_of(place) => place,
            _ => position,
        }
    }
}

/// Whether a call may ask for any name.
fn evaluates(call: &FnCallExpr) -> bool {
    call.namespace.is_empty() && call.name.as_str() == "eval"
}

/// Whether a call may name any function: it is one of `eval`, or makes a pointer of what is no literal.
fn names_any(call: &FnCallExpr) -> bool {
    match (call.name.as_str(), call.args.as_slice()) {
        ("Fn", [Expr::StringConstant(_, _)]) => false,
        ("Fn" | "eval", _) => call.namespace.is_empty(),
        _ => false,
    }
}
