//! Closures.

use crate::error::Unspelled;
use crate::inside::Inside;
use crate::needs::Need;
use crate::printer::Printer;
use crate::statements::ends_by_itself;
use crate::words::is_anonymous;
use ast_same::same_expr;
use rhai_ast::{Expr, ExprQueries, FnCallExpr, ScriptFuncDef, Stmt, StmtBlock, StmtQueries};
use rhai_base::{ASTFlags, Dynamic, Ident, ImmutableString, Position};
use script_tables::FnLib;
use std::num::NonZeroUsize;

/// The names that a closure takes from around it, with indices of which nothing is claimed.
pub(crate) type Shared<'s> = &'s [(Ident, Option<NonZeroUsize>)];

impl<'t> Printer<'t> {
    /// A statement that runs nothing for each closure's function of a table, in its order.
    pub(crate) fn closures_in_order(&self, lib: &'t FnLib) {
        for function in lib.iter() {
            if is_anonymous(function.name.as_str()) {
                self.put("false && (");
                self.closure(function, 0, Position::NONE, Inside::script());
                self.put(");\n");
            }
        }
    }

    /// The closure of a function, so many of whose first parameters are names that it takes from around it.
    #[cycle(print)]
    pub(crate) fn closure(
        &self,
        function: &'t ScriptFuncDef,
        taken: usize,
        pos: Position,
        inside: Inside,
    ) {
        let Some(inside) = self.below(inside, pos) else {
            return;
        };
        let params = function.params.as_slice();
        let names = params.get(..taken).unwrap_or(&[]);
        if !self.is_mute() {
            let unread = self.names_to_take(function, names, pos, inside);
            let is_copy = self.begin_closure(function.name.as_str(), pos);
            self.written_closure(function, names, unread, pos, inside);
            self.end_closure(&function.name, is_copy);
        }
        self.use_all(names);
    }

    /// A closure, whose body begins with a statement that takes these names from around it, and reads none; and with a
    /// number, where others that were begun before are the same.
    #[cycle(print)]
    fn written_closure(
        &self,
        function: &'t ScriptFuncDef,
        names: &'t [ImmutableString],
        unread: &'t [ImmutableString],
        pos: Position,
        inside: Inside,
    ) {
        let own = own_params(function, names);
        let others = self.count_begun(function);
        let around = self.enter(true);
        self.put("|");
        self.params(own, pos);
        self.put("| ");
        if unread.is_empty() && others == 0 {
            self.closure_body(&function.body, inside.function());
        } else {
            self.put("{\n");
            self.in_front(unread, others, pos, inside.block());
            self.body_behind(&function.body, inside.function().past(1));
        }
        let captured = self.leave(around);
        if !are_names(captured.as_slice(), names) {
            self.refuse(Unspelled::Share, pos);
        }
    }

    /// The names at the head of a closure's body, which are not read, but taken from around it in their order: all or
    /// none.
    #[cycle(print)]
    fn names_to_take(
        &self,
        function: &'t ScriptFuncDef,
        names: &'t [ImmutableString],
        pos: Position,
        inside: Inside,
    ) -> &'t [ImmutableString] {
        if names.is_empty() {
            return names;
        }
        self.mute();
        let around = self.enter(true);
        self.params(own_params(function, names), pos);
        self.closure_body(&function.body, inside.function());
        let captured = self.leave(around);
        self.unmute();
        if are_names(captured.as_slice(), names) {
            &[]
        } else {
            names
        }
    }

    #[cycle(print)]
    fn closure_body(&self, body: &'t StmtBlock, inside: Inside) {
        match body.statements() {
            [statement] if stands_alone(statement) => self.statement(statement, inside),
            [Stmt::Share(shared), curried] if !has_constants(shared.get().as_slice(), curried) => {
                self.sharing(&[], shared.get().as_slice(), curried, inside.past(2));
            }
            _ => self.block(body, inside),
        }
    }

    /// What says nothing in front of a body: a statement that names these, and reads none; a number, where so many others
    /// are the same.
    fn in_front(&self, unread: &'t [ImmutableString], others: u32, pos: Position, inside: Inside) {
        if !unread.is_empty() {
            self.begin_line(inside);
            self.unread(unread, pos, inside);
        }
        if others > 0 {
            self.begin_line(inside);
            self.integer(i64::from(others).saturating_add(1));
            self.put(";\n");
        }
    }

    /// The statement that names these, and reads none. Each is a level to those behind it.
    fn unread(&self, names: &'t [ImmutableString], pos: Position, inside: Inside) {
        let signs = u32::try_from(names.len()).unwrap_or(u32::MAX);
        if inside.past(signs).past(2).levels == 0 {
            self.refuse(Unspelled::TooDeep, pos);
        }
        self.put("false");
        for name in names {
            self.put(" && ");
            self.put(name.as_str());
        }
        self.put(";\n");
        self.use_all(names);
    }

    /// The statements of a body and its end. One without any has an empty block.
    #[cycle(print)]
    fn body_behind(&self, body: &'t StmtBlock, inside: Inside) {
        let names = self.declared();
        self.lines(body.statements(), inside.block());
        if body.is_empty() {
            self.begin_line(inside.block());
            self.put("{}\n");
        }
        self.shorten(names);
        self.begin_line(inside);
        self.put("}");
    }

    /// Notes that names are used.
    fn use_all(&self, names: &'t [ImmutableString]) {
        for name in names {
            self.uses(name.as_str());
        }
    }

    /// A closure that takes these names from around it: the statement that hands them to its function. In front of it may
    /// stand the constants of a block that it ends.
    #[cycle(print)]
    pub(crate) fn sharing(
        &self,
        front: &'t [Stmt],
        shared: Shared<'t>,
        curried: &'t Stmt,
        inside: Inside,
    ) {
        let pos = curried.position();
        let Some((name, args)) = curried_by(curried) else {
            return self.refuse(Unspelled::Share, pos);
        };
        let Some(function) = self.anonymous(name) else {
            return self.refuse(Unspelled::Closure, pos);
        };
        if !are_taken(function.params.as_slice(), args, shared) {
            return self.refuse(Unspelled::Share, pos);
        }
        if args.len() == shared.len() && front.is_empty() {
            self.closure(function, args.len(), pos, inside);
        } else {
            self.with_constants(front, function, args, pos, inside);
        }
    }

    /// A closure in a block that declares those constants that it takes from around it and that are known: the ones in
    /// front of it, if there are any.
    #[cycle(print)]
    fn with_constants(
        &self,
        front: &'t [Stmt],
        function: &'t ScriptFuncDef,
        args: &'t [Expr],
        pos: Position,
        inside: Inside,
    ) {
        let Some(within) = self.below(inside.block(), pos) else {
            return;
        };
        let names = self.declared();
        self.put("{\n");
        if front.is_empty() {
            self.known_ones(function, args, pos, within);
        } else {
            self.lines(front, within.valued(false));
        }
        self.begin_line(within);
        self.closure(function, args.len(), pos, within.past(1));
        self.put(if inside.is_value { "\n" } else { ";\n" });
        self.shorten(names);
        self.begin_line(inside);
        self.put("}");
    }

    /// The constants among what is handed to a function.
    #[cycle(print)]
    fn known_ones(
        &self,
        function: &'t ScriptFuncDef,
        args: &'t [Expr],
        pos: Position,
        inside: Inside,
    ) {
        for (param, arg) in function.params.as_slice().iter().zip(args) {
            if arg.is_constant() {
                self.known(param, arg, pos, inside);
            }
        }
    }

    /// Whether a closure and what is in front of it are all of a block: nothing, or constants of literals, among them those
    /// that it takes and that are known.
    pub(crate) fn is_whole_block(&self, front: &[Stmt], curried: &Stmt) -> bool {
        front.is_empty()
            || front.iter().all(is_literal_constant) && self.takes_declared(front, curried)
    }

    /// Whether each constant that is handed to a closure's function is declared by these.
    fn takes_declared(&self, front: &[Stmt], curried: &Stmt) -> bool {
        let Some((name, args)) = curried_by(curried) else {
            return false;
        };
        let Some(function) = self.anonymous(name) else {
            return false;
        };
        for (param, arg) in function.params.as_slice().iter().zip(args) {
            if arg.is_constant() && !is_declared(front, param, arg) {
                return false;
            }
        }
        true
    }

    /// A constant that a closure takes from around it.
    #[cycle(print)]
    fn known(&self, param: &'t ImmutableString, value: &'t Expr, pos: Position, inside: Inside) {
        self.begin_line(inside);
        self.put("const ");
        self.name(param.as_str(), pos);
        self.put(" = ");
        self.expr(value, Need::Nothing, inside.past(1));
        self.put(";\n");
        self.declare(param.as_str(), true);
    }
}

/// Whether a closure that takes these names from around it stands in a block of its own.
pub(crate) fn has_constants(shared: Shared<'_>, curried: &Stmt) -> bool {
    match call_of(curried) {
        Some(call) => call.args.len() != shared.len().saturating_add(1),
        None => false,
    }
}

/// What stands in front of a closure that ends a list and takes names from around it, these names, and its statement.
pub(crate) fn closure_at_end(statements: &[Stmt]) -> Option<(&[Stmt], Shared<'_>, &Stmt)> {
    let (curried, others) = statements.split_last()?;
    match others.split_last()? {
        (Stmt::Share(shared), front) => Some((front, shared.get().as_slice(), curried)),
        _ => None,
    }
}

/// The parameters of a function behind these, its first ones.
fn own_params<'t>(
    function: &'t ScriptFuncDef,
    names: &'t [ImmutableString],
) -> &'t [ImmutableString] {
    let params = function.params.as_slice();
    params.get(names.len()..).unwrap_or(&[])
}

/// Whether a statement is the body of a closure by itself.
fn stands_alone(statement: &Stmt) -> bool {
    match statement {
        Stmt::Expr(_) | Stmt::FnCall(..) | Stmt::Assignment(_) => true,
        Stmt::Block(_) | Stmt::Noop(_) => false,
        other => ends_by_itself(other),
    }
}

/// Whether names are these, in their order.
fn are_names(names: &[&str], wanted: &[ImmutableString]) -> bool {
    names.len() == wanted.len()
        && names
            .iter()
            .zip(wanted)
            .all(|(name, own)| *name == own.as_str())
}

/// The call that is all of a statement.
fn call_of(statement: &Stmt) -> Option<&FnCallExpr> {
    match statement {
        Stmt::FnCall(call, _) => Some(call.get()),
        Stmt::Expr(expr) => match expr.get() {
            Expr::FnCall(call, _) => Some(call.get()),
            _ => None,
        },
        _ => None,
    }
}

/// The name of the function of a closure to which a statement hands arguments, and these.
fn curried_by(statement: &Stmt) -> Option<(&str, &[Expr])> {
    let call = call_of(statement)?;
    let (pointer, args) = call.args.as_slice().split_first()?;
    if call.name.as_str() != "curry" || !call.namespace.is_empty() {
        return None;
    }
    Some((anonymous_pointer(pointer)?, args))
}

/// Whether what is handed to a function is each of its first parameters, as a variable of the name, or a constant; the
/// variables are those that are shared, in their order.
fn are_taken(params: &[ImmutableString], args: &[Expr], shared: Shared<'_>) -> bool {
    if args.len() > params.len() {
        return false;
    }
    let mut rest = shared;
    for (param, arg) in params.iter().zip(args) {
        if arg.is_constant() {
            continue;
        }
        match rest.split_first() {
            Some((first, others)) if is_taken(param, arg, &first.0) => rest = others,
            _ => return false,
        }
    }
    rest.is_empty()
}

/// Whether this is a variable of a parameter's name, which is shared.
fn is_taken(param: &ImmutableString, arg: &Expr, shared: &Ident) -> bool {
    let name = param.as_str();
    is_variable(arg, name) && shared.as_str() == name
}

/// Whether an expression is a variable of this name.
fn is_variable(expr: &Expr, name: &str) -> bool {
    match expr {
        Expr::Variable(parts, _, _) => {
            let (_, own, namespace) = parts.get();
            namespace.is_empty() && own.as_str() == name
        }
        _ => false,
    }
}

/// The name of the function to which a closure's constant points.
fn anonymous_pointer(expr: &Expr) -> Option<&str> {
    match expr {
        Expr::DynamicConstant(value, _) => match value.get() {
            Dynamic::FnPtr(pointer) if !pointer.is_curried() && is_anonymous(pointer.fn_name()) => {
                Some(pointer.fn_name())
            }
            _ => None,
        },
        _ => None,
    }
}

/// Whether a statement is a constant of a literal.
fn is_literal_constant(statement: &Stmt) -> bool {
    match statement {
        Stmt::Var(parts, flags, _) => {
            let is_own = *flags & ASTFlags::EXPORTED != ASTFlags::EXPORTED;
            is_own
                && *flags & ASTFlags::CONSTANT == ASTFlags::CONSTANT
                && parts.get().1.is_constant()
        }
        _ => false,
    }
}

/// Whether the last declaration of a name among these gives it this value.
fn is_declared(statements: &[Stmt], name: &ImmutableString, value: &Expr) -> bool {
    let mut is_so = false;
    for statement in statements {
        if let Stmt::Var(parts, ..) = statement {
            let (own, given, _) = parts.get();
            if own.as_str() == name.as_str() {
                is_so = same_expr(given, value);
            }
        }
    }
    is_so
}
