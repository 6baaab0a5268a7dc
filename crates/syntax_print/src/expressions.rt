//! Expressions.

use crate::closures::closure_at_end;
use crate::error::Unspelled;
use crate::inside::Inside;
use crate::needs::{
    AND, Brackets, COALESCE, Infix, Need, OR, RANGE, Side, brackets_of, infix_of, is_signed,
    need_of_list, run_of,
};
use crate::printer::Printer;
use crate::values::Holder;
use crate::words::{is_called_word, is_name};
use rhai_ast::{Expr, ExprQueries, FnCallExpr, Stmt, StmtBlock, TreeFault};
use rhai_base::{Dynamic, Ident, ImmutableString, Namespace, Position, Token};

impl<'t> Printer<'t> {
    /// An expression where this stands around it.
    #[cycle(print)]
    pub(crate) fn expr(&self, expr: &'t Expr, need: Need, inside: Inside) {
        let Some(inside) = self.below(inside, expr.position()) else {
            return;
        };
        match brackets_of(expr, need) {
            Brackets::Nothing => self.bare(expr, inside),
            Brackets::Parentheses => {
                self.put("(");
                self.bare(expr, inside.past(1));
                self.put(")");
            }
            Brackets::Braces => {
                self.put("{ ");
                self.bare(expr, inside.past(2));
                self.put(" }");
            }
            Brackets::Block => {
                self.put("({ ");
                self.bare(expr, inside.past(3));
                self.put(" })");
            }
        }
    }

    /// An expression as it is written by itself.
    #[cycle(print)]
    fn bare(&self, expr: &'t Expr, inside: Inside) {
        match expr {
            Expr::DynamicConstant(value, pos) => self.constant(value.get(), *pos, inside),
            Expr::BoolConstant(true, _) => self.put("true"),
            Expr::BoolConstant(false, _) => self.put("false"),
            Expr::IntegerConstant(value, _) => self.integer(*value),
            Expr::FloatConstant(value, pos) => self.float(*value, *pos),
            Expr::CharConstant(value, _) => self.character(*value),
            Expr::StringConstant(text, _) => self.quoted(text.as_str()),
            Expr::InterpolatedString(parts, _) => self.text(parts.get().as_slice(), inside),
            Expr::Array(items, _) => self.bracketed("[", items.get().as_slice(), "]", inside),
            Expr::Map(map, _) => self.map(map.get().0.as_slice(), inside),
            Expr::Unit(_) => self.put("()"),
            Expr::Variable(parts, _, pos) => {
                let (_, name, namespace) = parts.get();
                self.variable(name, namespace, *pos);
            }
            Expr::ThisPtr(pos) => self.this(*pos, inside),
            Expr::Property(_, pos) | Expr::MethodCall(_, pos) => {
                self.refuse(Unspelled::IllFormed(TreeFault::ChainShape), *pos);
            }
            Expr::Stmt(block) => self.block_expression(block.get(), inside),
            Expr::FnCall(call, pos) => self.call(call.get(), *pos, inside),
            Expr::Dot(sides, flags, _) => self.chain(true, sides.get(), *flags, inside),
            Expr::Index(sides, flags, _) => self.chain(false, sides.get(), *flags, inside),
            Expr::And(operands, pos) => self.list(operands.get().as_slice(), AND, *pos, inside),
            Expr::Or(operands, pos) => self.list(operands.get().as_slice(), OR, *pos, inside),
            Expr::Coalesce(operands, pos) => {
                self.list(operands.get().as_slice(), COALESCE, *pos, inside);
            }
        }
    }

    fn variable(&self, name: &'t ImmutableString, namespace: &Namespace, pos: Position) {
        if namespace.is_empty() {
            self.uses(name.as_str());
        }
        self.path(namespace);
        self.name(name.as_str(), pos);
    }

    fn this(&self, pos: Position, inside: Inside) {
        if !inside.is_function {
            self.refuse(Unspelled::This, pos);
        }
        self.put("this");
    }

    #[cycle(print)]
    fn constant(&self, value: &'t Dynamic, pos: Position, inside: Inside) {
        let holder = Holder {
            position: pos,
            is_key: false,
        };
        self.value(value, holder, inside);
    }

    /// Expressions between two marks, with commas between.
    #[cycle(print)]
    pub(crate) fn bracketed(
        &self,
        opening: &str,
        exprs: &'t [Expr],
        closing: &str,
        inside: Inside,
    ) {
        self.put(opening);
        for (index, expr) in exprs.iter().enumerate() {
            self.comma(index);
            self.expr(expr, Need::Nothing, inside);
        }
        self.put(closing);
    }

    /// The pairs of a map.
    #[cycle(print)]
    fn map(&self, pairs: &'t [(Ident, Expr)], inside: Inside) {
        self.put("#{");
        for (index, pair) in pairs.iter().enumerate() {
            self.comma(index);
            self.key(pair.0.as_str());
            self.expr(&pair.1, Need::Nothing, inside);
        }
        self.put("}");
    }

    // ---- operators

    /// Operands with a sign between; a single one is joined by what changes nothing.
    #[cycle(print)]
    fn list(&self, operands: &'t [Expr], binds: u8, pos: Position, inside: Inside) {
        let Some((first, others)) = operands.split_first() else {
            return self.refuse(Unspelled::IllFormed(TreeFault::NoOperands), pos);
        };
        let need = need_of_list(binds, Side::Left);
        let (sign, nothing) = signs_of_list(binds);
        self.expr(first, need, inside);
        let mut behind = inside.past(run_of(first, need, inside.levels));
        for operand in others {
            behind = behind.past(1);
            self.put(sign);
            self.expr(operand, need_of_list(binds, Side::Right), behind);
        }
        if others.is_empty() {
            self.put(sign);
            self.put(nothing);
        }
    }

    /// The modules before a name.
    fn path(&self, namespace: &Namespace) {
        for module in namespace.path.as_slice() {
            self.name(module.as_str(), module.pos);
            self.put("::");
        }
    }

    /// A call, or an operator over its operands.
    #[cycle(print)]
    pub(crate) fn call(&self, call: &'t FnCallExpr, pos: Position, inside: Inside) {
        if let Some(infix) = infix_of(call, pos) {
            return self.infix(infix, inside);
        }
        match (call.op_token, call.args.as_slice()) {
            (Some(token @ (Token::UnaryMinus | Token::UnaryPlus)), [operand]) => {
                self.put(token.literal_syntax());
                if is_signed(operand) {
                    self.put(" ");
                }
                self.expr(operand, Need::Signed, inside);
            }
            (Some(Token::Bang), [operand]) => {
                self.put("!");
                self.expr(operand, Need::Negated, inside);
            }
            (_, args) => {
                self.callee(call, pos);
                self.bracketed("(", args, ")", inside);
            }
        }
    }

    /// What is called, which may be one of the language's own words.
    fn callee(&self, call: &FnCallExpr, pos: Position) {
        self.path(&call.namespace);
        let name = call.name.as_str();
        let is_own = call.namespace.is_empty() && is_called_word(name);
        if !is_own && !is_name(name) {
            self.refuse(Unspelled::Name, pos);
        }
        self.put(name);
        if call.capture_parent_scope {
            if !call.namespace.is_empty() {
                self.refuse(Unspelled::QualifiedCapture, pos);
            }
            self.put("!");
        }
    }

    /// An operator between its operands. Those of the same run that stand before it are levels to the right one, and so
    /// is the operator itself.
    #[cycle(print)]
    fn infix(&self, infix: Infix<'t>, inside: Inside) {
        let Infix {
            binds,
            sign,
            lhs,
            rhs,
        } = infix;
        let blank = if binds == RANGE { "" } else { " " };
        let need = Need::Operand(binds, Side::Left);
        self.expr(lhs, need, inside);
        self.put(blank);
        self.put(sign);
        self.put(blank);
        let behind = inside.past(run_of(lhs, need, inside.levels)).past(1);
        self.expr(rhs, Need::Operand(binds, Side::Right), behind);
    }

    // ---- blocks

    /// A block as an expression; a choice or a loop that is all of it, and a closure with what it takes from around it,
    /// stand by themselves, and an expression that is all of it on the same line.
    #[cycle(print)]
    pub(crate) fn block_expression(&self, block: &'t StmtBlock, inside: Inside) {
        let inside = inside.valued(true);
        if let Some((front, shared, curried)) = closure_at_end(block.statements())
            && self.is_whole_block(front, curried)
        {
            return self.sharing(front, shared, curried, inside);
        }
        match block.statements() {
            [only] if begins_expression(only) => self.statement(only, inside),
            [only @ (Stmt::Expr(_) | Stmt::FnCall(..))] => {
                self.put("{ ");
                self.statement(only, inside);
                self.put(" }");
            }
            _ => self.block(block, inside),
        }
    }
}

/// Whether a statement is an expression by itself, behind which nothing goes on with it.
fn begins_expression(statement: &Stmt) -> bool {
    matches!(
        statement,
        Stmt::If(..) | Stmt::Switch(..) | Stmt::While(..) | Stmt::For(..)
    )
}

/// The sign of a list that binds so, and what changes nothing behind it.
fn signs_of_list(binds: u8) -> (&'static str, &'static str) {
    match binds {
        AND => (" && ", "true"),
        OR => (" || ", "false"),
        _ => (" ?? ", "()"),
    }
}
