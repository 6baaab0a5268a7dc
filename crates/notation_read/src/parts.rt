//! The parts of a node, as they are read.

use crate::names::Called;
use rhai_ast::{BinaryExpr, Expr, FlowControl, Stmt, StmtBlock, SwitchCasesCollection};
use rhai_base::{ASTFlags, Ident, OpAssignment, Position, Seq};
use std::alloc::Global;
use std::mem;
use std::num::NonZeroUsize;

/// What was read of a node; each list in the order of the text.
pub(crate) struct Parts {
    pub(crate) alloc: Global,
    pub(crate) exprs: Vec<Expr>,
    pub(crate) pairs: Vec<(Ident, Expr)>,
    pub(crate) arms: Vec<BinaryExpr>,
    pub(crate) statements: Vec<Stmt>,
    pub(crate) body: Option<StmtBlock>,
    pub(crate) branch: Option<StmtBlock>,
    /// Names without the indices that `share` gives them.
    pub(crate) names: Vec<(Ident, Option<NonZeroUsize>)>,
    pub(crate) called: Option<Called>,
    pub(crate) sign: Option<OpAssignment>,
    pub(crate) table: Option<SwitchCasesCollection>,
    pub(crate) options: ASTFlags,
}

/// Written by hand, so that the parts of a node go in one place.
impl Drop for Parts {
    fn drop(self) {
        let Parts {
            alloc: _alloc,
            exprs: _exprs,
            pairs: _pairs,
            arms: _arms,
            statements: _statements,
            body: _body,
            branch: _branch,
            names: _names,
            called: _called,
            sign: _sign,
            table: _table,
            options: _options,
        } = self;
    }
}

impl Parts {
    /// No parts yet.
    pub(crate) fn new(alloc: Global) -> Parts {
        Parts {
            alloc,
            exprs: Vec::new(alloc),
            pairs: Vec::new(alloc),
            arms: Vec::new(alloc),
            statements: Vec::new(alloc),
            body: None,
            branch: None,
            names: Vec::new(alloc),
            called: None,
            sign: None,
            table: None,
            options: ASTFlags::NONE,
        }
    }

    /// The last expression; `()` where there is none.
    pub(crate) fn expr(&mut self) -> Expr {
        match self.exprs.pop() {
            Some(expr) => expr,
            None => Expr::Unit(Position::NONE),
        }
    }

    /// All expressions.
    pub(crate) fn exprs(&mut self) -> Seq<Expr> {
        Seq::from_vec(mem::replace(&mut self.exprs, Vec::new(self.alloc)))
    }

    /// All statements.
    pub(crate) fn statements(&mut self) -> Vec<Stmt> {
        mem::replace(&mut self.statements, Vec::new(self.alloc))
    }

    /// The last two expressions.
    pub(crate) fn sides(&mut self) -> BinaryExpr {
        let rhs = self.expr();
        BinaryExpr {
            lhs: self.expr(),
            rhs,
        }
    }

    /// An expression with its blocks; those that are not there are empty.
    pub(crate) fn flow(&mut self) -> FlowControl {
        let body = self.body();
        let branch = mem::replace(&mut self.branch, None);
        FlowControl {
            expr: self.expr(),
            body,
            branch: or_none(self.alloc, branch),
        }
    }

    pub(crate) fn body(&mut self) -> StmtBlock {
        let body = mem::replace(&mut self.body, None);
        or_none(self.alloc, body)
    }

    /// The last name.
    pub(crate) fn name(&mut self) -> Option<Ident> {
        match self.names.pop() {
            Some((name, _)) => Some(name),
            None => None,
        }
    }

    /// The second of two names.
    pub(crate) fn second_name(&mut self) -> Option<Ident> {
        if self.names.len() == 2 {
            self.name()
        } else {
            None
        }
    }

    pub(crate) fn called(&mut self) -> Option<Called> {
        mem::replace(&mut self.called, None)
    }

    pub(crate) fn table(&mut self) -> Option<SwitchCasesCollection> {
        mem::replace(&mut self.table, None)
    }

    pub(crate) fn arms(&mut self) -> Seq<BinaryExpr> {
        Seq::from_vec(mem::replace(&mut self.arms, Vec::new(self.alloc)))
    }
}

fn or_none(alloc: Global, block: Option<StmtBlock>) -> StmtBlock {
    match block {
        Some(block) => block,
        None => StmtBlock::none(alloc),
    }
}
