//! Words before nodes that no printed text shows.

use notation_read::Marks;
use rhai_ast::{Expr, FnCallExpr, Stmt, Take};
use rhai_base::{ASTFlags, Boxed, ImmutableString, OutOfMemory, Position, StringMap, Token};
use std::alloc::Global;

/// Before what stands alone as at the right of a `.`
const ALONE: &str = "alone ";

/// Before a node in which something is wrong.
const SPOILED: &str = "spoiled ";

/// The words before odd nodes.
#[derive(Clone, Copy)]
pub(crate) struct Odd;

impl Marks for Odd {
    fn mark(&self, letters: &[u8]) -> Option<&'static str> {
        for mark in [ALONE, SPOILED] {
            if letters.starts_with(mark.as_bytes()) {
                return Some(mark);
            }
        }
        None
    }

    fn marked_expr(
        &self,
        alloc: Global,
        mark: &'static str,
        mut expr: Expr,
    ) -> Result<Expr, OutOfMemory> {
        if mark == ALONE {
            return link_of(alloc, expr);
        }
        spoil_expr(alloc, &mut expr);
        Ok(expr)
    }

    fn marked_stmt(
        &self,
        alloc: Global,
        mark: &'static str,
        mut statement: Stmt,
    ) -> Result<Stmt, OutOfMemory> {
        if mark == ALONE {
            set_link(alloc, &mut statement)?;
        } else {
            spoil_stmt(alloc, &mut statement);
        }
        Ok(statement)
    }
}

/// A property for a variable, a method for a function.
pub(crate) fn link_of(alloc: Global, expr: Expr) -> Result<Expr, OutOfMemory> {
    match expr {
        Expr::FnCall(call, pos) => Ok(Expr::MethodCall(call, pos)),
        Expr::Variable(parts, _, pos) => property(alloc, parts.into_inner().1, pos),
        other => Ok(other),
    }
}

/// A property with the names of the functions that read and write it.
fn property(alloc: Global, name: ImmutableString, pos: Position) -> Result<Expr, OutOfMemory> {
    let getter = prefixed(alloc, "get$", name.as_str())?;
    let setter = prefixed(alloc, "set$", name.as_str())?;
    let names = Boxed::new(alloc, (getter, setter, name))?;
    Ok(Expr::Property(names, pos))
}

fn prefixed(alloc: Global, before: &str, name: &str) -> Result<ImmutableString, OutOfMemory> {
    let text = format!(in alloc; "{before}{name}")?;
    Ok(ImmutableString::from_string(text)?)
}

/// The same of a statement's expression, or of the left side of an assignment.
fn set_link(alloc: Global, statement: &mut Stmt) -> Result<(), OutOfMemory> {
    match statement {
        Stmt::Expr(expr) => set_link_expr(alloc, expr.get_mut()),
        Stmt::Assignment(assignment) => set_link_expr(alloc, &mut assignment.get_mut().1.lhs),
        _ => Ok(()),
    }
}

fn set_link_expr(alloc: Global, expr: &mut Expr) -> Result<(), OutOfMemory> {
    *expr = link_of(alloc, expr.take())?;
    Ok(())
}

/// A map without its template, an operator without its token, another call with one, a chain with the flag of what is
/// exported.
fn spoil_expr(alloc: Global, expr: &mut Expr) {
    match expr {
        Expr::Map(map, _) => map.get_mut().1 = StringMap::new(alloc),
        Expr::FnCall(call, _) => spoil_call(call.get_mut()),
        Expr::MethodCall(call, _) => spoil_call(call.get_mut()),
        Expr::Dot(_, options, _) => *options |= ASTFlags::EXPORTED,
        Expr::Index(_, options, _) => *options |= ASTFlags::EXPORTED,
        _ => {}
    }
}

fn spoil_call(call: &mut FnCallExpr) {
    call.op_token = match call.op_token {
        Some(_) => None,
        None => Some(Token::Plus),
    };
}

/// A statement with the flag of what is exported, a catch of what is no name, a call or an expression that is spoiled.
fn spoil_stmt(alloc: Global, statement: &mut Stmt) {
    match statement {
        Stmt::Do(_, options, _) => *options |= ASTFlags::EXPORTED,
        Stmt::Var(_, options, _) => *options |= ASTFlags::EXPORTED,
        Stmt::BreakLoop(_, options, _) => *options |= ASTFlags::EXPORTED,
        Stmt::Return(_, options, _) => *options |= ASTFlags::EXPORTED,
        Stmt::TryCatch(flow, _) => flow.get_mut().expr = Expr::BoolConstant(true, Position::NONE),
        Stmt::FnCall(call, _) => spoil_call(call.get_mut()),
        Stmt::Expr(expr) => spoil_expr(alloc, expr.get_mut()),
        _ => {}
    }
}
