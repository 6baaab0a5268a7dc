//! Nodes of their parts.

use crate::error::ParseErrorType;
use crate::parser::Parser;
use rhai_ast::{
    BinaryExpr, Expr, ExprQueries, FlowControl, FnCallExpr, Stmt, StmtBlock, StmtQueries,
};
use rhai_base::{Boxed, Ident, ImmutableString, Namespace, OutOfMemory, Position, Seq, Token};
use std::alloc::Global;

/// A text and a line behind it; the line alone where there is no text.
pub(crate) fn joined(
    alloc: Global,
    text: Option<String>,
    line: &str,
) -> Result<String, OutOfMemory> {
    match text {
        Some(mut text) => {
            text.push('\n')?;
            text.push_str(line)?;
            Ok(text)
        }
        None => Ok(String::from_str(alloc, line)?),
    }
}

/// A name behind another's beginning.
pub(crate) fn prefixed(
    alloc: Global,
    before: &str,
    name: &str,
) -> Result<ImmutableString, OutOfMemory> {
    let mut text = String::from_str(alloc, before)?;
    text.push_str(name)?;
    Ok(ImmutableString::from_string(text)?)
}

/// What a call is made of.
#[derive(Drop)]
pub(crate) struct Callee {
    pub(crate) namespace: Namespace,
    pub(crate) name: Ident,
    pub(crate) captures: bool,
}

impl<'a> Parser<'a> {
    // ---- statements

    /// An expression as a statement.
    pub(crate) fn evaluated(&self, expr: Option<Expr>) -> Option<Stmt> {
        Some(Stmt::Expr(self.boxed(expr?)?))
    }

    pub(crate) fn block_statement(&self, block: Option<StmtBlock>) -> Option<Stmt> {
        Some(Stmt::Block(self.boxed(block?)?))
    }

    pub(crate) fn no_block(&self) -> Option<StmtBlock> {
        Some(StmtBlock::none(self.alloc))
    }

    /// A block of one statement, which has no braces.
    pub(crate) fn alone(&self, statement: Option<Stmt>, start: Position) -> Option<StmtBlock> {
        let statement = statement?;
        let mut statements = Vec::new(self.alloc);
        self.push(&mut statements, Some(statement));
        Some(StmtBlock::new(statements, start, Position::NONE))
    }

    /// A statement as a block: a block as it stands, another one alone.
    pub(crate) fn as_block(&self, statement: Option<Stmt>) -> Option<StmtBlock> {
        match statement? {
            Stmt::Block(block) => Some(block.into_inner()),
            other => {
                let start = other.position();
                self.alone(Some(other), start)
            }
        }
    }

    /// An expression with its blocks.
    pub(crate) fn flow_of(
        &self,
        expr: Option<Expr>,
        body: Option<StmtBlock>,
        branch: Option<StmtBlock>,
    ) -> Option<FlowControl> {
        let expr = expr?;
        let body = body?;
        let branch = branch?;
        Some(FlowControl { expr, body, branch })
    }

    pub(crate) fn flowing(
        &self,
        expr: Option<Expr>,
        body: Option<StmtBlock>,
        branch: Option<StmtBlock>,
    ) -> Option<Boxed<FlowControl>> {
        self.boxed(self.flow_of(expr, body, branch)?)
    }

    /// A guard with its loop's body.
    pub(crate) fn looping(
        &self,
        guard: Option<Expr>,
        body: Option<StmtBlock>,
    ) -> Option<Boxed<FlowControl>> {
        self.flowing(guard, body, self.no_block())
    }

    // ---- expressions

    pub(crate) fn variable_of(&self, name: Ident) -> Option<Expr> {
        self.qualified(Namespace::none(self.alloc), name)
    }

    pub(crate) fn qualified(&self, namespace: Namespace, name: Ident) -> Option<Expr> {
        let Ident { name, pos } = name;
        let parts = self.boxed((None, name, namespace))?;
        Some(Expr::Variable(parts, None, pos))
    }

    /// A block as an expression.
    pub(crate) fn braced(&self, block: Option<StmtBlock>) -> Option<Expr> {
        Some(Expr::Stmt(self.boxed(block?)?))
    }

    /// Two sides, where both are there.
    pub(crate) fn sides(&self, lhs: Option<Expr>, rhs: Option<Expr>) -> Option<BinaryExpr> {
        let lhs = lhs?;
        let rhs = rhs?;
        Some(BinaryExpr { lhs, rhs })
    }

    /// Expressions of which none is missing.
    pub(crate) fn two(&self, first: Option<Expr>, second: Option<Expr>) -> Vec<Expr> {
        let mut both = Vec::new(self.alloc);
        self.push(&mut both, first);
        self.push(&mut both, second);
        both
    }

    /// An operator over its operands.
    pub(crate) fn operation(
        &self,
        token: Token,
        operands: Vec<Expr>,
        pos: Position,
    ) -> Option<Expr> {
        let name = self.shared(token.literal_syntax())?;
        let call = FnCallExpr {
            namespace: Namespace::none(self.alloc),
            name,
            args: Seq::from_vec(operands),
            capture_parent_scope: false,
            op_token: Some(token),
        };
        Some(Expr::FnCall(self.boxed(call)?, pos))
    }

    /// What a call has: its name and its arguments.
    pub(crate) fn call_of(&self, callee: Callee, args: Vec<Expr>) -> Option<Boxed<FnCallExpr>> {
        let Callee {
            namespace,
            name,
            captures,
        } = callee;
        self.boxed(FnCallExpr {
            namespace,
            name: name.name,
            args: Seq::from_vec(args),
            capture_parent_scope: captures,
            op_token: None,
        })
    }

    /// A call of a function of the language by its name.
    pub(crate) fn call_named(
        &self,
        name: &'static str,
        args: Vec<Expr>,
        pos: Position,
    ) -> Option<Expr> {
        let name = self.shared(name)?;
        let callee = Callee {
            namespace: Namespace::none(self.alloc),
            name: Ident { name, pos },
            captures: false,
        };
        Some(Expr::FnCall(self.call_of(callee, args)?, pos))
    }

    // ---- kinds of values

    /// Refuses a literal that is no bool.
    pub(crate) fn want_bool(&self, expr: &Option<Expr>) {
        if let Some(expr) = expr {
            match kind_of(expr) {
                None | Some("bool") => {}
                Some(kind) => {
                    self.refuse(
                        ParseErrorType::MismatchedType("a bool", kind),
                        expr.start_position(),
                    );
                }
            }
        }
    }

    /// Refuses a literal over which no loop goes.
    pub(crate) fn want_iterable(&self, expr: &Option<Expr>) {
        if let Some(expr) = expr {
            if let Some(
                kind @ ("bool" | "()" | "an integer" | "a float" | "a character"),
            ) = kind_of(expr)
            {
                self.refuse(
                    ParseErrorType::MismatchedType("what a loop goes over", kind),
                    expr.start_position(),
                );
            }
        }
    }
}

/// What a literal is, in words; none of another expression.
pub(crate) fn kind_of(expr: &Expr) -> Option<&'static str> {
    match expr {
        Expr::Unit(_) => Some("()"),
        Expr::BoolConstant(..) => Some("bool"),
        Expr::IntegerConstant(..) => Some("an integer"),
        Expr::FloatConstant(..) => Some("a float"),
        Expr::CharConstant(..) => Some("a character"),
        Expr::StringConstant(..) | Expr::InterpolatedString(..) => Some("a text"),
        Expr::Array(..) => Some("an array"),
        Expr::Map(..) => Some("a map"),
        _ => None,
    }
}
