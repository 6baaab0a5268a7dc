//! Chains.

use crate::error::Unspelled;
use crate::inside::Inside;
use crate::needs::{Need, stands_in_braces};
use crate::printer::Printer;
use crate::words::{is_method_word, is_name};
use rhai_ast::{BinaryExpr, Expr, ExprQueries, FnCallExpr, TreeFault};
use rhai_base::{ASTFlags, Dynamic, Position};

impl<'t> Printer<'t> {
    /// A base with its steps.
    #[cycle(print)]
    pub(crate) fn chain(
        &self,
        is_dot: bool,
        sides: &'t BinaryExpr,
        flags: ASTFlags,
        inside: Inside,
    ) {
        let need = if !is_dot && is_no_base(&sides.lhs, first_index(&sides.rhs, flags)) {
            Need::BaseInBlock
        } else {
            Need::Base
        };
        self.expr(&sides.lhs, need, inside);
        self.step(is_dot, &sides.rhs, flags, inside);
    }

    /// A step, and those behind it.
    #[cycle(print)]
    fn step(&self, is_dot: bool, rhs: &'t Expr, flags: ASTFlags, inside: Inside) {
        let Some(inside) = self.below(inside, rhs.position()) else {
            return;
        };
        if flags & ASTFlags::NEGATED == ASTFlags::NEGATED {
            self.put("?");
        }
        let ends = flags & ASTFlags::BREAK == ASTFlags::BREAK;
        match rhs {
            Expr::Dot(sides, next, _) if !ends => {
                self.link(is_dot, &sides.get().lhs, inside);
                self.step(true, &sides.get().rhs, *next, inside);
            }
            Expr::Index(sides, next, _) if !ends => {
                self.link(is_dot, &sides.get().lhs, inside);
                self.step(false, &sides.get().rhs, *next, inside);
            }
            _ => self.link(is_dot, rhs, inside),
        }
    }

    /// What one step adds.
    #[cycle(print)]
    fn link(&self, is_dot: bool, expr: &'t Expr, inside: Inside) {
        if !is_dot {
            self.put("[");
            self.expr(expr, Need::Index, inside);
            self.put("]");
            return;
        }
        self.put(".");
        match expr {
            Expr::Property(names, pos) => self.name(names.get().2.as_str(), *pos),
            Expr::MethodCall(call, pos) => self.method(call.get(), *pos, inside),
            _ => self.refuse(Unspelled::IllFormed(TreeFault::ChainShape), expr.position()),
        }
    }

    #[cycle(print)]
    fn method(&self, call: &'t FnCallExpr, pos: Position, inside: Inside) {
        let name = call.name.as_str();
        if !is_method_word(name) && !is_name(name) {
            self.refuse(Unspelled::Name, pos);
        }
        if call.capture_parent_scope || !call.namespace.is_empty() {
            self.refuse(Unspelled::QualifiedCapture, pos);
        }
        self.put(name);
        self.bracketed("(", call.args.as_slice(), ")", inside);
    }
}

/// The index of a step, behind which the chain may go on.
fn first_index(rhs: &Expr, flags: ASTFlags) -> &Expr {
    match rhs {
        _ if flags & ASTFlags::BREAK == ASTFlags::BREAK => rhs,
        Expr::Dot(sides, _, _) | Expr::Index(sides, _, _) => &sides.get().lhs,
        _ => rhs,
    }
}

/// What a literal is, as far as bases and their indices go.
#[derive(Clone, Copy, PartialEq, Eq)]
enum Literal {
    Integer,
    Text,
    Array,
    Map,
    Other,
}

fn literal_of(expr: &Expr) -> Option<Literal> {
    match expr {
        Expr::DynamicConstant(value, _) => literal_of_value(value.get()),
        Expr::IntegerConstant(..) => Some(Literal::Integer),
        Expr::StringConstant(..) | Expr::InterpolatedString(..) => Some(Literal::Text),
        Expr::Array(..) => Some(Literal::Array),
        Expr::Map(..) => Some(Literal::Map),
        Expr::BoolConstant(..) | Expr::CharConstant(..) => Some(Literal::Other),
        Expr::FloatConstant(..) | Expr::Unit(_) => Some(Literal::Other),
        _ => None,
    }
}

fn literal_of_value(value: &Dynamic) -> Option<Literal> {
    match value {
        Dynamic::Int(_) => Some(Literal::Integer),
        Dynamic::Str(_) => Some(Literal::Text),
        Dynamic::Array(_) => Some(Literal::Array),
        Dynamic::Map(_) => Some(Literal::Map),
        Dynamic::Unit | Dynamic::Bool(_) | Dynamic::Float(_) | Dynamic::Char(_) => {
            Some(Literal::Other)
        }
        Dynamic::FnPtr(_) | Dynamic::Range(..) | Dynamic::RangeInclusive(..) => None,
    }
}

/// Whether a text may not have a literal as the base of this index.
fn is_no_base(base: &Expr, index: &Expr) -> bool {
    let index = if stands_in_braces(index) {
        None
    } else {
        literal_of(index)
    };
    match literal_of(base) {
        Some(Literal::Map) => matches!(index, Some(Literal::Integer | Literal::Other)),
        Some(Literal::Integer | Literal::Text | Literal::Array) => {
            matches!(index, Some(Literal::Text | Literal::Other))
        }
        Some(Literal::Other) => true,
        None => false,
    }
}
