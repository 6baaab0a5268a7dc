//! Assignments, and what may stand at their left.

use crate::error::ParseErrorType;
use crate::inside::Inside;
use crate::parser::Parser;
use rhai_ast::{BinaryExpr, Expr, ExprQueries, Stmt};
use rhai_base::{ASTFlags, OpAssignment, Position, Token};

/// Why something cannot be assigned to, and where.
enum Hindrance<'e> {
    /// A literal stands there.
    Literal(Position),
    /// This variable may be a constant.
    Variable(&'e str, Position),
    /// No place stands there.
    NoPlace(Position),
    /// A list of conditions stands before the sign.
    Conditions,
}

impl<'a> Parser<'a> {
    /// An assignment, whose sign stands next.
    #[cycle(parse)]
    pub(crate) fn assignment(
        &self,
        lhs: Option<Expr>,
        sign: Token,
        inside: Inside,
    ) -> Option<Stmt> {
        let pos = self.take();
        let rhs = self.expr(inside);
        self.want_place(&lhs, sign, pos);
        self.assigned(sign, self.sides(lhs, rhs), pos)
    }

    fn assigned(&self, sign: Token, sides: Option<BinaryExpr>, pos: Position) -> Option<Stmt> {
        let sign = match sign.get_base_op_from_assignment() {
            Some(base) => OpAssignment::new_op_assignment_from_base_token(&base, pos),
            None => OpAssignment::new_assignment(pos),
        };
        let parts = self.boxed((sign, sides?))?;
        Some(Stmt::Assignment(parts))
    }

    /// Refuses what cannot be assigned to.
    fn want_place(&self, lhs: &Option<Expr>, sign: Token, pos: Position) {
        let Some(lhs) = lhs else {
            return;
        };
        match what_hinders(lhs) {
            None => {}
            Some(Hindrance::Literal(place)) => self.refuse_constant("", place),
            Some(Hindrance::Variable(name, place)) => {
                if self.is_constant(name) {
                    self.refuse_constant(name, place);
                }
            }
            Some(Hindrance::NoPlace(place)) => {
                self.refuse(ParseErrorType::AssignmentToInvalidLHS, place);
            }
            Some(Hindrance::Conditions) => {
                self.refuse_symbol(
                    sign.literal_syntax(),
                    "conditions are compared by `==`",
                    pos,
                );
            }
        }
    }

    fn refuse_constant(&self, name: &str, place: Position) {
        if let Some(name) = self.owned(name) {
            self.refuse(ParseErrorType::AssignmentToConstant(name), place);
        }
    }
}

/// What is to be tested of the left side of an assignment; nothing where it is a place in any case.
fn what_hinders(lhs: &Expr) -> Option<Hindrance<'_>> {
    match lhs {
        Expr::Variable(parts, _, pos) => {
            let (_, name, namespace) = parts.get();
            if namespace.is_empty() {
                Some(Hindrance::Variable(name.as_str(), *pos))
            } else {
                None
            }
        }
        Expr::ThisPtr(_) => None,
        Expr::Dot(sides, flags, _) => what_hinders_chain(sides.get(), *flags),
        Expr::Index(sides, flags, _) => what_hinders_chain(sides.get(), *flags),
        Expr::And(..) | Expr::Or(..) | Expr::Coalesce(..) => Some(Hindrance::Conditions),
        _ if lhs.is_constant() => Some(Hindrance::Literal(lhs.start_position())),
        _ => Some(Hindrance::NoPlace(lhs.position())),
    }
}

/// A chain is a place where its base is a variable or `this` and no step calls a method.
fn what_hinders_chain(sides: &BinaryExpr, flags: ASTFlags) -> Option<Hindrance<'_>> {
    if let Some(method) = first_method(&sides.rhs, flags) {
        return Some(Hindrance::NoPlace(method));
    }
    match &sides.lhs {
        Expr::Variable(..) | Expr::ThisPtr(_) => None,
        base => Some(Hindrance::NoPlace(base.position())),
    }
}

/// Where the first method of a chain's steps stands.
fn first_method(step: &Expr, flags: ASTFlags) -> Option<Position> {
    match step {
        Expr::MethodCall(_, pos) => Some(*pos),
        _ if flags & ASTFlags::BREAK == ASTFlags::BREAK => None,
        Expr::Dot(sides, flags, _) | Expr::Index(sides, flags, _) => {
            match first_method(&sides.get().lhs, ASTFlags::BREAK) {
                Some(pos) => Some(pos),
                None => first_method(&sides.get().rhs, *flags),
            }
        }
        _ => None,
    }
}
