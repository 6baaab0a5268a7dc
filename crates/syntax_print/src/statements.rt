//! Statements, a line each.

use crate::closures::{Shared, closure_at_end, has_constants};
use crate::error::Unspelled;
use crate::inside::Inside;
use crate::needs::Need;
use crate::printer::Printer;
use rhai_ast::{Expr, FlowControl, Stmt, StmtBlock, StmtQueries};
use rhai_base::{ASTFlags, Boxed, Ident, Position};

impl<'t> Printer<'t> {
    /// The script's own statements, and before each the functions that stand before it, if functions stand among them.
    pub(crate) fn own_lines(&self, statements: &'t [Stmt], are_among: bool) {
        let mut shared: Option<Shared<'t>> = None;
        for (index, statement) in statements.iter().enumerate() {
            let is_last = index.saturating_add(1) == statements.len();
            match statement {
                Stmt::Share(names) if shared.is_none() && !is_last => {
                    shared = Some(names.get().as_slice());
                }
                _ => {
                    if are_among {
                        self.functions_around(statement.position());
                    }
                    self.line_of(shared, statement, Inside::script());
                    shared = None;
                }
            }
        }
    }

    /// What stands before a statement of the script's own there.
    fn functions_around(&self, pos: Position) {
        if !pos.is_none() {
            self.functions_before(pos);
        }
        self.end_functions();
    }

    /// Statements, each on a line. Names that a closure shares and the statement behind them are one.
    #[cycle(print)]
    pub(crate) fn lines(&self, statements: &'t [Stmt], inside: Inside) {
        let mut shared: Option<Shared<'t>> = None;
        for (index, statement) in statements.iter().enumerate() {
            let is_last = index.saturating_add(1) == statements.len();
            match statement {
                Stmt::Share(names) if shared.is_none() && !is_last => {
                    shared = Some(names.get().as_slice());
                }
                _ => {
                    let is_value = is_last && inside.is_value;
                    self.line_of(shared, statement, inside.valued(is_value));
                    shared = None;
                }
            }
        }
    }

    /// A statement on a line, with the names before it that its closure shares.
    #[cycle(print)]
    pub(crate) fn line_of(&self, shared: Option<Shared<'t>>, statement: &'t Stmt, inside: Inside) {
        self.begin_line(inside);
        match shared {
            Some(shared) => self.sharing(&[], shared, statement, inside.past(2)),
            None => self.statement(statement, inside),
        }
        if !ends_line(shared, statement, inside.is_value) {
            self.put(";");
        }
        self.put("\n");
    }

    /// A block in braces.
    #[cycle(print)]
    pub(crate) fn block(&self, block: &'t StmtBlock, inside: Inside) {
        if block.is_empty() {
            return self.put("{}");
        }
        let names = self.declared();
        self.put("{\n");
        self.lines(block.statements(), inside.block());
        self.shorten(names);
        self.begin_line(inside);
        self.put("}");
    }

    /// A statement without what stands behind it.
    #[cycle(print)]
    pub(crate) fn statement(&self, statement: &'t Stmt, inside: Inside) {
        let Some(inside) = self.below(inside, statement.position()) else {
            return;
        };
        match statement {
            Stmt::Noop(_) => self.put("{}"),
            Stmt::If(flow, _) => self.choice(flow.get(), inside),
            Stmt::Switch(switch, pos) => self.switch(switch.get(), *pos, inside),
            Stmt::While(flow, _) => self.while_loop(flow.get(), inside),
            Stmt::Do(flow, flags, _) => self.do_loop(flow.get(), *flags, inside),
            Stmt::For(parts, _) => self.for_loop(parts.get(), inside),
            Stmt::Var(parts, flags, pos) => {
                let (name, value, _) = parts.get();
                self.declaration(name, value, *flags, *pos, inside);
            }
            Stmt::Assignment(parts) => self.assignment(&parts.get().0, &parts.get().1, inside),
            Stmt::FnCall(call, pos) => self.call(call.get(), *pos, inside.past(1)),
            Stmt::Block(block) => self.inner_block(block.get(), inside),
            Stmt::TryCatch(flow, _) => self.try_catch(flow.get(), inside),
            Stmt::Expr(expr) => self.expr(expr.get(), Need::Start, inside),
            Stmt::BreakLoop(value, flags, pos) => self.out_of_loop(value, *flags, *pos, inside),
            Stmt::Return(value, flags, _) => self.return_or_throw(value, *flags, inside),
            Stmt::Import(parts, _) => self.import(&parts.get().0, &parts.get().1, inside),
            Stmt::Export(names, pos) => self.export(&names.get().0, &names.get().1, *pos, inside),
            Stmt::Share(_) => self.refuse(Unspelled::Share, statement.position()),
        }
    }

    /// A block as a statement, or a closure that takes names from around it.
    #[cycle(print)]
    fn inner_block(&self, block: &'t StmtBlock, inside: Inside) {
        match closure_at_end(block.statements()) {
            Some((front, shared, curried)) if self.is_whole_block(front, curried) => {
                self.sharing(front, shared, curried, inside.past(1));
            }
            _ => self.block(block, inside),
        }
    }

    // ---- names

    pub(crate) fn ident(&self, name: &Ident) {
        self.name(name.as_str(), name.pos);
    }

    /// A name behind `as`; nothing of an empty one.
    fn alias(&self, alias: &Ident) {
        if !alias.as_str().is_empty() {
            self.put(" as ");
            self.ident(alias);
        }
    }

    #[cycle(print)]
    fn declaration(
        &self,
        name: &'t Ident,
        value: &'t Expr,
        flags: ASTFlags,
        pos: Position,
        inside: Inside,
    ) {
        if flags & ASTFlags::EXPORTED == ASTFlags::EXPORTED {
            self.exported(pos, inside);
        }
        let is_constant = flags & ASTFlags::CONSTANT == ASTFlags::CONSTANT;
        self.put(if is_constant { "const " } else { "let " });
        self.ident(name);
        self.put(" = ");
        self.expr(value, Need::Nothing, inside);
        self.declare(name.as_str(), is_constant);
    }

    #[cycle(print)]
    fn import(&self, path: &'t Expr, alias: &'t Ident, inside: Inside) {
        self.put("import ");
        self.expr(path, Need::Start, inside);
        self.alias(alias);
    }

    fn export(&self, name: &Ident, alias: &Ident, pos: Position, inside: Inside) {
        self.exported(pos, inside);
        self.ident(name);
        self.alias(alias);
    }

    /// The word before what is exported, which the script's own statements alone have.
    fn exported(&self, pos: Position, inside: Inside) {
        if inside.blocks > 0 {
            self.refuse(Unspelled::Export, pos);
        }
        self.put("export ");
    }

    // ---- ways out

    #[cycle(print)]
    fn out_of_loop(
        &self,
        value: &'t Option<Boxed<Expr>>,
        flags: ASTFlags,
        pos: Position,
        inside: Inside,
    ) {
        let is_break = flags & ASTFlags::BREAK == ASTFlags::BREAK;
        if value.is_some() && !is_break {
            self.refuse(Unspelled::ContinueWith, pos);
        }
        self.put(if is_break { "break" } else { "continue" });
        self.carried(value, inside);
    }

    #[cycle(print)]
    fn return_or_throw(&self, value: &'t Option<Boxed<Expr>>, flags: ASTFlags, inside: Inside) {
        let is_throw = flags & ASTFlags::BREAK == ASTFlags::BREAK;
        self.put(if is_throw { "throw" } else { "return" });
        self.carried(value, inside);
    }

    /// The expression that a statement carries out.
    #[cycle(print)]
    fn carried(&self, value: &'t Option<Boxed<Expr>>, inside: Inside) {
        if let Some(value) = value {
            self.put(" ");
            self.expr(value.get(), Need::Nothing, inside);
        }
    }

    // ---- choices and loops

    /// An `if`; one that is all of an `else` stands behind that word.
    #[cycle(print)]
    fn choice(&self, flow: &'t FlowControl, inside: Inside) {
        self.put("if ");
        self.expr(&flow.expr, Need::Condition, inside);
        self.put(" ");
        self.block(&flow.body, inside);
        match flow.branch.statements() {
            [] => {}
            [next @ Stmt::If(..)] => {
                self.put(" else ");
                self.statement(next, inside);
            }
            _ => {
                self.put(" else ");
                self.block(&flow.branch, inside);
            }
        }
    }

    #[cycle(print)]
    fn while_loop(&self, flow: &'t FlowControl, inside: Inside) {
        match &flow.expr {
            Expr::Unit(_) => self.put("loop "),
            condition => {
                self.put("while ");
                self.expr(condition, Need::Condition, inside);
                self.put(" ");
            }
        }
        self.block(&flow.body, inside.valued(false));
    }

    #[cycle(print)]
    fn do_loop(&self, flow: &'t FlowControl, flags: ASTFlags, inside: Inside) {
        let is_until = flags & ASTFlags::NEGATED == ASTFlags::NEGATED;
        self.put("do ");
        self.block(&flow.body, inside.valued(false));
        self.put(if is_until { " until " } else { " while " });
        self.expr(&flow.expr, Need::Condition, inside);
    }

    #[cycle(print)]
    fn for_loop(&self, parts: &'t (Ident, Option<Ident>, FlowControl), inside: Inside) {
        let (name, counter, flow) = parts;
        self.put("for ");
        self.loop_names(name, counter);
        self.put(" in ");
        self.expr(&flow.expr, Need::Iterable, inside);
        self.put(" ");
        let names = self.declared();
        self.declare_loop(name, counter);
        self.block(&flow.body, inside.valued(false));
        self.shorten(names);
    }

    fn declare_loop(&self, name: &'t Ident, counter: &'t Option<Ident>) {
        self.declare(name.as_str(), false);
        if let Some(counter) = counter {
            self.declare(counter.as_str(), false);
        }
    }

    /// The variable of a loop, or with its counter in parentheses.
    fn loop_names(&self, name: &Ident, counter: &Option<Ident>) {
        let Some(counter) = counter else {
            return self.ident(name);
        };
        if name.as_str() == counter.as_str() {
            self.refuse(Unspelled::Twice, counter.pos);
        }
        self.put("(");
        self.ident(name);
        self.put(", ");
        self.ident(counter);
        self.put(")");
    }

    #[cycle(print)]
    fn try_catch(&self, flow: &'t FlowControl, inside: Inside) {
        self.put("try ");
        self.block(&flow.body, inside.valued(false));
        self.put(" catch ");
        let names = self.declared();
        self.caught(&flow.expr);
        self.block(&flow.branch, inside.valued(false));
        self.shorten(names);
    }

    /// The variable of a `catch` in parentheses, where there is one.
    fn caught(&self, variable: &'t Expr) {
        if let Expr::Variable(parts, _, pos) = variable {
            let name = parts.get().1.as_str();
            self.put("(");
            self.name(name, *pos);
            self.put(") ");
            self.declare(name, false);
        }
    }
}

/// Whether nothing stands behind a statement on its line, which gives the value of its list.
fn ends_line(shared: Option<Shared<'_>>, statement: &Stmt, is_value: bool) -> bool {
    match (shared, statement) {
        (Some(shared), curried) => is_value || has_constants(shared, curried),
        (None, Stmt::Expr(_) | Stmt::FnCall(..)) => is_value,
        (None, Stmt::Block(block)) if is_value && is_closure(block.get().statements()) => true,
        (None, statement) => ends_by_itself(statement),
    }
}

/// Whether statements are a closure that takes names from around it.
fn is_closure(statements: &[Stmt]) -> bool {
    matches!(statements, [Stmt::Share(_), _])
}

/// Whether no `;` stands behind a statement.
pub(crate) fn ends_by_itself(statement: &Stmt) -> bool {
    match statement {
        Stmt::Noop(_)
        | Stmt::If(..)
        | Stmt::Switch(..)
        | Stmt::While(..)
        | Stmt::For(..)
        | Stmt::TryCatch(..) => true,
        Stmt::Block(block) => match block.get().statements() {
            [Stmt::Share(shared), curried] => has_constants(shared.get().as_slice(), curried),
            _ => true,
        },
        _ => false,
    }
}
