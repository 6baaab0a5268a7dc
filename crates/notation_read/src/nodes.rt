//! Nodes of their parts.

use crate::forms::{ExprKind, StmtKind};
use crate::joined::both;
use crate::letters::Letters;
use crate::marks::Marks;
use crate::names::Called;
use crate::parts::Parts;
use rhai_ast::{BinaryExpr, Expr, FnCallExpr, Literals, Stmt, StmtBlock, SwitchBlock};
use rhai_base::{
    Boxed, Dynamic, Ident, ImmutableString, OutOfMemory, Position, Seq, StringMap, Token,
};
use std::alloc::Global;
use std::mem;

impl<'a, M: Marks> Letters<'a, M> {
    /// The expression of this kind.
    pub(crate) fn node(&self, kind: ExprKind, parts: &mut Parts, pos: Position) -> Option<Expr> {
        match kind {
            ExprKind::Array => Some(Expr::Array(self.listed(parts)?, pos)),
            ExprKind::Map => self.map(parts, pos),
            ExprKind::Text => Some(Expr::InterpolatedString(self.listed(parts)?, pos)),
            ExprKind::And => Some(Expr::And(self.listed(parts)?, pos)),
            ExprKind::Or => Some(Expr::Or(self.listed(parts)?, pos)),
            ExprKind::Coalesce => Some(Expr::Coalesce(self.listed(parts)?, pos)),
            ExprKind::This => Some(Expr::ThisPtr(pos)),
            ExprKind::Dot | ExprKind::Index => self.step(kind, parts, pos),
            ExprKind::Call | ExprKind::Variable | ExprKind::Property | ExprKind::Method => {
                self.of_name(kind, parts)
            }
        }
    }

    fn listed(&self, parts: &mut Parts) -> Option<Boxed<Seq<Expr>>> {
        self.boxed(parts.exprs())
    }

    /// The literal of a map, whose template has its keys.
    fn map(&self, parts: &mut Parts, pos: Position) -> Option<Expr> {
        let template = self.template(parts.pairs.as_slice());
        let pairs = mem::replace(&mut parts.pairs, Vec::new(self.alloc));
        let map = self.boxed((Seq::from_vec(pairs), template))?;
        Some(Expr::Map(map, pos))
    }

    /// The keys, with units.
    fn template(&self, pairs: &[(Ident, Expr)]) -> StringMap<Dynamic> {
        let mut template = StringMap::new(self.alloc);
        for pair in pairs {
            if let Some(key) = self.made(pair.0.name.clone()) {
                self.made(template.insert(key, Dynamic::Unit));
            }
        }
        template
    }

    /// A step of a chain.
    fn step(&self, kind: ExprKind, parts: &mut Parts, pos: Position) -> Option<Expr> {
        let sides = self.boxed(parts.sides())?;
        match kind {
            ExprKind::Dot => Some(Expr::Dot(sides, parts.options, pos)),
            _ => Some(Expr::Index(sides, parts.options, pos)),
        }
    }

    /// What a name stands for; it stands where the last name of its path does.
    fn of_name(&self, kind: ExprKind, parts: &mut Parts) -> Option<Expr> {
        let called = self.wanted(parts.called(), "a call")?;
        let pos = called.name.pos;
        match kind {
            ExprKind::Call => Some(Expr::FnCall(self.call(called, parts)?, pos)),
            ExprKind::Method => Some(Expr::MethodCall(self.call(called, parts)?, pos)),
            ExprKind::Property => self.property(called.name),
            _ => self.variable(called),
        }
    }

    /// A call; an operator where the name is a symbol.
    fn call(&self, called: Called, parts: &mut Parts) -> Option<Boxed<FnCallExpr>> {
        let op_token = token(called.name.as_str(), parts.exprs.len());
        self.boxed(FnCallExpr {
            namespace: called.namespace,
            name: called.name.name,
            args: parts.exprs(),
            capture_parent_scope: called.captures,
            op_token,
        })
    }

    pub(crate) fn variable(&self, called: Called) -> Option<Expr> {
        let pos = called.name.pos;
        let parts = self.boxed((None, called.name.name, called.namespace))?;
        Some(Expr::Variable(parts, None, pos))
    }

    /// A property with the names of the functions that read and write it.
    fn property(&self, name: Ident) -> Option<Expr> {
        let getter = self.prefixed("get$", &name.name)?;
        let setter = self.prefixed("set$", &name.name)?;
        let names = self.boxed((getter, setter, name.name))?;
        Some(Expr::Property(names, name.pos))
    }

    fn prefixed(&self, before: &str, name: &ImmutableString) -> Option<ImmutableString> {
        self.made(joined(self.alloc, before, name.as_str()))
    }

    /// A value as the expression that it is read as.
    pub(crate) fn constant_of(&self, value: Dynamic, pos: Position) -> Option<Expr> {
        self.made(Expr::from_dynamic(self.alloc, value, pos))
    }

    /// A value, where there is one, as a constant of its own.
    pub(crate) fn held_constant(&self, value: Option<Dynamic>, pos: Position) -> Option<Expr> {
        let value = self.boxed(value?)?;
        Some(Expr::DynamicConstant(value, pos))
    }

    /// A block as an expression.
    pub(crate) fn braces(&self, block: Option<StmtBlock>) -> Option<Expr> {
        let block = self.boxed(block?)?;
        Some(Expr::Stmt(block))
    }

    /// The statement of this kind.
    pub(crate) fn stmt(&self, kind: StmtKind, parts: &mut Parts, pos: Position) -> Option<Stmt> {
        match kind {
            StmtKind::Noop => Some(Stmt::Noop(pos)),
            StmtKind::If => Some(Stmt::If(self.boxed(parts.flow())?, pos)),
            StmtKind::Switch => self.switch(parts, pos),
            StmtKind::While => Some(Stmt::While(self.boxed(parts.flow())?, pos)),
            StmtKind::Do => Some(Stmt::Do(self.boxed(parts.flow())?, parts.options, pos)),
            StmtKind::For => self.each(parts, pos),
            StmtKind::Var => self.declaration(parts, pos),
            StmtKind::Call => self.call_alone(parts, pos),
            StmtKind::Block => Some(Stmt::Block(self.boxed(parts.body())?)),
            StmtKind::Try => Some(Stmt::TryCatch(self.boxed(parts.flow())?, pos)),
            StmtKind::Expr => self.alone(parts),
            StmtKind::Leave => Some(Stmt::BreakLoop(self.last_expr(parts), parts.options, pos)),
            StmtKind::Return => Some(Stmt::Return(self.last_expr(parts), parts.options, pos)),
            StmtKind::Import => self.import(parts, pos),
            StmtKind::Export => self.export(parts, pos),
            StmtKind::Share => self.share(parts),
        }
    }

    fn switch(&self, parts: &mut Parts, pos: Position) -> Option<Stmt> {
        let mut cases = self.wanted(parts.table(), "a table")?;
        cases.expressions = parts.arms();
        let expr = parts.expr();
        let switch = self.boxed(SwitchBlock { expr, cases })?;
        Some(Stmt::Switch(switch, pos))
    }

    /// A loop over the values of its guard.
    fn each(&self, parts: &mut Parts, pos: Position) -> Option<Stmt> {
        let counter = parts.second_name();
        let name = self.last_name(parts)?;
        let each = self.boxed((name, counter, parts.flow()))?;
        Some(Stmt::For(each, pos))
    }

    fn last_name(&self, parts: &mut Parts) -> Option<Ident> {
        self.wanted(parts.name(), "a name")
    }

    fn declaration(&self, parts: &mut Parts, pos: Position) -> Option<Stmt> {
        let name = self.last_name(parts)?;
        let declared = self.boxed((name, parts.expr(), None))?;
        Some(Stmt::Var(declared, parts.options, pos))
    }

    fn call_alone(&self, parts: &mut Parts, pos: Position) -> Option<Stmt> {
        let called = self.wanted(parts.called(), "a call")?;
        let call = self.call(called, parts)?;
        Some(Stmt::FnCall(call, pos))
    }

    /// An expression or an assignment.
    fn alone(&self, parts: &mut Parts) -> Option<Stmt> {
        match mem::replace(&mut parts.sign, None) {
            Some(sign) => Some(Stmt::Assignment(self.boxed((sign, parts.sides()))?)),
            None => Some(Stmt::Expr(self.boxed(parts.expr())?)),
        }
    }

    fn last_expr(&self, parts: &mut Parts) -> Option<Boxed<Expr>> {
        match parts.exprs.pop() {
            Some(expr) => self.boxed(expr),
            None => None,
        }
    }

    fn import(&self, parts: &mut Parts, pos: Position) -> Option<Stmt> {
        let name = self.last_name(parts)?;
        let import = self.boxed((parts.expr(), name))?;
        Some(Stmt::Import(import, pos))
    }

    fn export(&self, parts: &mut Parts, pos: Position) -> Option<Stmt> {
        let alias = self.last_name(parts)?;
        let name = self.last_name(parts)?;
        let export = self.boxed((name, alias))?;
        Some(Stmt::Export(export, pos))
    }

    fn share(&self, parts: &mut Parts) -> Option<Stmt> {
        let names = mem::replace(&mut parts.names, Vec::new(self.alloc));
        let names = self.boxed(Seq::from_vec(names))?;
        Some(Stmt::Share(names))
    }
}

/// The operator of a symbol over so many operands; none for a function's name.
fn token(symbol: &str, operands: usize) -> Option<Token> {
    match (symbol, operands) {
        ("+", 1) => Some(Token::UnaryPlus),
        ("-", 1) => Some(Token::UnaryMinus),
        _ => Token::lookup_symbol_from_syntax(symbol),
    }
}

fn joined(alloc: Global, before: &str, name: &str) -> Result<ImmutableString, OutOfMemory> {
    let mut text = String::from_str(alloc, before)?;
    text.push_str(name)?;
    Ok(ImmutableString::from_string(text)?)
}

/// An arm of its condition and its answer.
pub(crate) fn arm(lhs: Option<Expr>, rhs: Option<Expr>) -> Option<BinaryExpr> {
    let (lhs, rhs) = both(lhs, rhs)?;
    Some(BinaryExpr { lhs, rhs })
}
