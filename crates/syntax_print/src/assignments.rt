//! Assignments, and what may stand at their left.

use crate::error::Unspelled;
use crate::inside::Inside;
use crate::needs::Need;
use crate::printer::Printer;
use rhai_ast::{BinaryExpr, Expr, ExprQueries};
use rhai_base::{ASTFlags, OpAssignment, Position};

impl<'t> Printer<'t> {
    /// An assignment.
    #[cycle(print)]
    pub(crate) fn assignment(&self, sign: &OpAssignment, sides: &'t BinaryExpr, inside: Inside) {
        self.want_place(&sides.lhs);
        self.expr(&sides.lhs, Need::Start, inside);
        self.sign(sign);
        self.expr(&sides.rhs, Need::Nothing, inside);
    }

    /// Refuses what cannot be assigned to.
    fn want_place(&self, lhs: &Expr) {
        match lhs {
            Expr::Variable(parts, _, pos) => {
                let (_, name, namespace) = parts.get();
                if namespace.is_empty() && self.is_constant(name.as_str()) {
                    self.refuse(Unspelled::Constant, *pos);
                }
            }
            Expr::Dot(sides, flags, _) | Expr::Index(sides, flags, _) => {
                if let Some(position) = no_place(sides.get(), *flags) {
                    self.refuse(Unspelled::Target, position);
                }
            }
            _ => {}
        }
    }

    fn sign(&self, sign: &OpAssignment) {
        self.put(" ");
        match sign.get_op_assignment_info() {
            Some((_, letters, _, _)) => self.put(letters),
            None => self.put("="),
        }
        self.put(" ");
    }
}

/// Where a chain is no place: its base, unless this is a variable or `this`, or a method.
fn no_place(sides: &BinaryExpr, flags: ASTFlags) -> Option<Position> {
    match &sides.lhs {
        Expr::Variable(..) | Expr::ThisPtr(_) => first_method(&sides.rhs, flags),
        base => Some(base.position()),
    }
}

/// Where the first method of a chain's steps stands.
fn first_method(step: &Expr, flags: ASTFlags) -> Option<Position> {
    match step {
        Expr::MethodCall(_, pos) => Some(*pos),
        _ if flags & ASTFlags::BREAK == ASTFlags::BREAK => None,
        Expr::Dot(sides, next, _) | Expr::Index(sides, next, _) => match &sides.get().lhs {
            Expr::MethodCall(_, pos) => Some(*pos),
            _ => first_method(&sides.get().rhs, *next),
        },
        _ => None,
    }
}
