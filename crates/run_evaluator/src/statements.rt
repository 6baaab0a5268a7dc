//! Statements and lists of them.

#![tactic(auto, using(ast_types::specs::Reading::shapes, rhai_base::specs::Reading::kinds))]

ghost use Rattle.ast_types.specs.Reading.{expr_of, is_const, is_exported, stmt_of, stmts_of};
ghost use Rattle.theory_meaning.specs.Core.{If};
ghost use Rattle.theory_meaning.specs.Desugar.{core_expr, core_stmt, core_stmts};
ghost use Rattle.run_steps.specs.Setting.{setting};
ghost use Rattle.run_state.specs.Evaluating.{RunsBlock, RunsDeed, RunsLine, RunsStmt, RunsStmts};
ghost use Rattle.theory_meaning.specs.Tree as tree;

use crate::evaluator::Evaluator;
use bitflags::Flags;
use rhai_ast::{Expr, FlowControl, Stmt, StmtBlock};
use rhai_base::{ASTFlags, Dynamic, Ident};
use run_host::{Host, Stuck};
use run_state::{Interrupt, State, truth};

impl<'a, H: Host> Evaluator<'a, H> {
    #[cycle(evaluate)]
    fn statement(&self, state: &mut State, statement: &Stmt) -> Result<Dynamic, Interrupt>
        ensures { RunsStmt (setting H.answers H.modules self.now.machine) self.now.in_loop (stmt_of statement.now)
            state.old result state.new }
    {
        match statement {
            Stmt::Noop(_) => Ok(Dynamic::Unit),
            Stmt::If(flow, _) => self.choice(state, flow.get()),
            Stmt::Var(parts, options, _) => {
                let (name, value, _) = parts.get();
                self.declaration(state, name, value, *options)
            }
            Stmt::Assignment(parts) => {
                let (op, sides) = parts.get();
                self.assignment(state, op, sides)
            }
            Stmt::FnCall(call, _) => self.call(state, call.get()),
            Stmt::Block(block) => self.block(state, block.get()),
            Stmt::TryCatch(flow, _) => self.try_catch(state, flow.get()),
            Stmt::Expr(expr) => self.expr(state, expr.get()),
            Stmt::BreakLoop(value, options, _) => self.break_loop(state, value, *options),
            Stmt::Return(value, options, _) => self.leave(state, value, *options),
            Stmt::While(flow, _) => self.while_loop(state, flow.get()),
            Stmt::Do(flow, options, _) => self.do_loop(state, flow.get(), *options),
            Stmt::Switch(block, _) => self.switch(state, block.get()),
            Stmt::For(parts, _) => self.for_loop(state, parts.get()),
            Stmt::Import(parts, _) => {
                let (path, alias) = parts.get();
                self.import(state, path, alias)
            }
            Stmt::Export(parts, _) => {
                let (name, alias) = parts.get();
                self.export(state, name, alias)
            }
            Stmt::Share(_) => Err(Interrupt::Stuck(Stuck::WrongKind)),
        }
    }

    #[cycle(evaluate)]
    #[inline(never)]
    fn choice(&self, state: &mut State, flow: &FlowControl) -> Result<Dynamic, Interrupt>
        ensures { RunsDeed (setting H.answers H.modules self.now.machine)
            (If (core_expr self.now.in_loop (expr_of flow.now.expr))
            (core_stmts self.now.in_loop (stmts_of flow.now.body.block))
            (core_stmts self.now.in_loop (stmts_of flow.now.branch.block)))
            state.old result state.new }
    {
        if truth(self.expr(state, &flow.expr)?)? {
            self.block(state, &flow.body)
        } else {
            self.block(state, &flow.branch)
        }
    }

    /// `let` and `const`; with EXPORTED they export their value too.
    #[cycle(evaluate)]
    #[inline(never)]
    fn declaration(
        &self,
        state: &mut State,
        name: &Ident,
        value: &Expr,
        options: ASTFlags,
    ) -> Result<Dynamic, Interrupt>
        ensures { RunsLine (setting H.answers H.modules self.now.machine)
            (core_stmt self.now.in_loop
            (tree.Var (is_const options) (is_exported options) name.now.name (expr_of value.now)))
            state.old result state.new }
    {
        let value = self.expr(state, value)?;
        let is_constant = options.contains(ASTFlags::CONSTANT);
        let is_exported = options.contains(ASTFlags::EXPORTED);
        state.declare_name(&name.name, is_constant, is_exported, value)?;
        Ok(Dynamic::Unit)
    }

    /// Runs statements whose names go when they end.
    #[cycle(evaluate)]
    pub fn block(&self, state: &mut State, block: &StmtBlock) -> Result<Dynamic, Interrupt>
        ensures { RunsBlock (setting H.answers H.modules self.now.machine) self.now.in_loop (stmts_of block.now.block)
            state.old result state.new }
    {
        let mark = state.begin_list();
        let ended = self.statements(state, block.statements());
        state.end_list(mark);
        ended
    }

    /// Runs statements in turn, for the value of the last one.
    #[cycle(evaluate)]
    pub fn statements(&self, state: &mut State, statements: &[Stmt]) -> Result<Dynamic, Interrupt>
        ensures { RunsStmts (setting H.answers H.modules self.now.machine) self.now.in_loop (stmts_of statements.now)
            state.old result state.new }
    {
        let mut value = Dynamic::Unit;
        for statement in statements {
            value = self.statement(state, statement)?;
        }
        Ok(value)
    }
}
