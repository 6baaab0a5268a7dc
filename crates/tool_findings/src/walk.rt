//! A walk over a script's nodes, in which blocks begin and end.

use crate::closures::taken_by;
use crate::dead::{is_endless, never_chosen, never_entered};
use crate::look::Look;
use crate::scopes::{NameKind, Scopes};
use rhai_ast::{
    BinaryExpr, Expr, FlowControl, FnCallExpr, ScriptFuncDef, Stmt, StmtQueries, SwitchBlock,
};
use rhai_base::{ASTFlags, Boxed, Ident, OutOfMemory, Position};

impl<'a> Look<'a> {
    /// Looks at a function. Its parameters stand where its body begins.
    pub(crate) fn at_function(&mut self, function: &'a ScriptFuncDef) -> Result<(), OutOfMemory> {
        let place = function.body.position();
        self.scopes = Scopes::new(self.alloc);
        for param in function.params.as_slice() {
            self.scopes
                .declare(param.as_str(), place, NameKind::Parameter)?;
        }
        self.list(function.body.statements())?;
        self.end_function(function)
    }

    /// Looks at the script's own statements.
    pub(crate) fn at_script(&mut self, statements: &'a [Stmt]) -> Result<(), OutOfMemory> {
        self.note_constants(statements)?;
        self.list(statements)?;
        self.end_script()
    }

    /// A list of statements. Whether each run leaves it.
    #[cycle(look)]
    fn list(&mut self, statements: &'a [Stmt]) -> Result<bool, OutOfMemory> {
        self.at_values(statements)?;
        let (mut is_left, mut is_told) = (false, false);
        for statement in statements {
            if is_left && !is_told {
                self.never_runs(Some(statement))?;
                is_told = true;
            }
            let leaves = self.stmt(statement)?;
            is_left = is_left || leaves;
        }
        Ok(is_left)
    }

    /// The statements of a block, at whose end their names go out of sight.
    #[cycle(look)]
    fn block(&mut self, statements: &'a [Stmt]) -> Result<bool, OutOfMemory> {
        let count = self.scopes.len();
        let leaves = self.list(statements)?;
        self.leave(count)?;
        Ok(leaves)
    }

    /// A statement. Whether each run leaves its list there.
    #[cycle(look)]
    fn stmt(&mut self, statement: &'a Stmt) -> Result<bool, OutOfMemory> {
        match statement {
            Stmt::Noop(_) => Ok(false),
            Stmt::If(flow, _) => self.choice(flow.get()),
            Stmt::Switch(switch, _) => self.switch(switch.get()),
            Stmt::While(flow, _) => self.while_loop(flow.get()),
            Stmt::Do(flow, _, _) => self.do_loop(flow.get()),
            Stmt::For(parts, _) => self.for_loop(parts.get()),
            Stmt::Var(parts, options, _) => { self.var(&parts.get().0, &parts.get().1, *options) }
            Stmt::Assignment(parts) => self.sides(&parts.get().1),
            Stmt::FnCall(call, position) => self.call(call.get(), *position),
            Stmt::Block(block) => self.block(block.get().statements()),
            Stmt::TryCatch(flow, _) => self.attempt(flow.get()),
            Stmt::Expr(expr) => self.expr(expr.get()),
            Stmt::BreakLoop(value, options, _) => {
                self.out_of_loop(*options);
                self.left_with(value)
            }
            Stmt::Return(value, _, _) => self.left_with(value),
            Stmt::Import(parts, _) => self.import(&parts.get().0, &parts.get().1),
            Stmt::Export(names, _) => self.at_export(&names.get().0),
            Stmt::Share(_) => Ok(self.share(statement.position())),
        }
    }

    #[cycle(look)]
    fn choice(&mut self, flow: &'a FlowControl) -> Result<bool, OutOfMemory> {
        self.expr(&flow.expr)?;
        self.never_runs(never_chosen(flow))?;
        let first = self.block(flow.body.statements())?;
        let second = self.block(flow.branch.statements())?;
        Ok(first && second)
    }

    #[cycle(look)]
    fn attempt(&mut self, flow: &'a FlowControl) -> Result<bool, OutOfMemory> {
        self.block(flow.body.statements())?;
        let count = self.scopes.len();
        if let Expr::Variable(parts, _, position) = &flow.expr {
            self.declare(parts.get().1.as_str(), *position)?;
        }
        self.list(flow.branch.statements())?;
        self.leave(count)?;
        Ok(false)
    }

    /// A `switch`. Each run leaves where it leaves in each of the arms, of which one is the default.
    #[cycle(look)]
    fn switch(&mut self, switch: &'a SwitchBlock) -> Result<bool, OutOfMemory> {
        self.expr(&switch.expr)?;
        let leaves = self.arms(switch.cases.expressions.as_slice())?;
        Ok(leaves && switch.cases.def_case.is_some())
    }

    #[cycle(look)]
    fn arms(&mut self, arms: &'a [BinaryExpr]) -> Result<bool, OutOfMemory> {
        let mut is_left = true;
        for arm in arms {
            self.expr(&arm.lhs)?;
            let leaves = self.expr(&arm.rhs)?;
            is_left = is_left && leaves;
        }
        Ok(is_left)
    }

    #[cycle(look)]
    fn while_loop(&mut self, flow: &'a FlowControl) -> Result<bool, OutOfMemory> {
        self.expr(&flow.expr)?;
        self.never_runs(never_entered(flow))?;
        let is_broken = self.loop_body(flow.body.statements())?;
        Ok(!is_broken && is_endless(&flow.expr))
    }

    #[cycle(look)]
    fn do_loop(&mut self, flow: &'a FlowControl) -> Result<bool, OutOfMemory> {
        self.loop_body(flow.body.statements())?;
        self.expr(&flow.expr)?;
        Ok(false)
    }

    #[cycle(look)]
    fn for_loop(
        &mut self,
        parts: &'a (Ident, Option<Ident>, FlowControl),
    ) -> Result<bool, OutOfMemory> {
        self.expr(&parts.2.expr)?;
        let count = self.scopes.len();
        self.at_loop(&parts.0)?;
        if let Some(counter) = &parts.1 {
            self.at_loop(counter)?;
        }
        self.loop_body(parts.2.body.statements())?;
        self.leave(count)?;
        Ok(false)
    }

    /// The body of a loop. Whether a `break` may end the loop.
    #[cycle(look)]
    fn loop_body(&mut self, statements: &'a [Stmt]) -> Result<bool, OutOfMemory> {
        self.loops.push(false)?;
        self.block(statements)?;
        Ok(self.loops.pop().unwrap_or(true))
    }

    /// A declaration, whose name is in sight behind its value.
    #[cycle(look)]
    fn var(
        &mut self,
        name: &'a Ident,
        value: &'a Expr,
        options: ASTFlags,
    ) -> Result<bool, OutOfMemory> {
        self.expr(value)?;
        self.at_var(name, options)?;
        Ok(false)
    }

    #[cycle(look)]
    fn import(&mut self, path: &'a Expr, name: &'a Ident) -> Result<bool, OutOfMemory> {
        self.expr(path)?;
        self.at_import(name)?;
        Ok(false)
    }

    /// What a run leaves with.
    #[cycle(look)]
    fn left_with(&mut self, value: &'a Option<Boxed<Expr>>) -> Result<bool, OutOfMemory> {
        if let Some(value) = value {
            self.expr(value.get())?;
        }
        Ok(true)
    }

    /// An expression. Whether each run leaves in it, so far as it is a block.
    #[cycle(look)]
    fn expr(&mut self, expr: &'a Expr) -> Result<bool, OutOfMemory> {
        match expr {
            Expr::DynamicConstant(value, _) => self.constant(value.get()),
            Expr::StringConstant(text, _) => self.text(text.as_str()),
            Expr::BoolConstant(_, _)
            | Expr::IntegerConstant(_, _)
            | Expr::FloatConstant(_, _)
            | Expr::CharConstant(_, _)
            | Expr::Unit(_)
            | Expr::ThisPtr(_)
            | Expr::Property(_, _) => Ok(false),
            Expr::Variable(parts, _, position) => {
                self.variable(&parts.get().2, parts.get().1.as_str(), *position)
            }
            Expr::InterpolatedString(list, _)
            | Expr::Array(list, _)
            | Expr::And(list, _)
            | Expr::Or(list, _)
            | Expr::Coalesce(list, _) => self.exprs(list.get().as_slice()),
            Expr::Map(map, _) => self.members(map.get().0.as_slice()),
            Expr::MethodCall(call, position) => self.method(call.get(), *position),
            Expr::FnCall(call, position) => self.call(call.get(), *position),
            Expr::Stmt(block) => self.block(block.get().statements()),
            Expr::Dot(sides, _, _) | Expr::Index(sides, _, _) => self.sides(sides.get()),
        }
    }

    #[cycle(look)]
    fn exprs(&mut self, exprs: &'a [Expr]) -> Result<bool, OutOfMemory> {
        for expr in exprs {
            self.expr(expr)?;
        }
        Ok(false)
    }

    #[cycle(look)]
    fn members(&mut self, members: &'a [(Ident, Expr)]) -> Result<bool, OutOfMemory> {
        for member in members {
            self.expr(&member.1)?;
        }
        Ok(false)
    }

    #[cycle(look)]
    fn sides(&mut self, sides: &'a BinaryExpr) -> Result<bool, OutOfMemory> {
        self.expr(&sides.lhs)?;
        self.expr(&sides.rhs)?;
        Ok(false)
    }

    #[cycle(look)]
    fn method(&mut self, call: &'a FnCallExpr, position: Position) -> Result<bool, OutOfMemory> {
        self.at_call(call, position)?;
        self.exprs(call.args.as_slice())
    }

    /// A call of a function or an operator. Names that a closure takes are asked for where it asks for them.
    #[cycle(look)]
    fn call(&mut self, call: &'a FnCallExpr, position: Position) -> Result<bool, OutOfMemory> {
        self.at_call(call, position)?;
        self.at_counts(call, position)?;
        match taken_by(call) {
            Some((closure, names)) => self.take(closure, names),
            None => self.exprs(call.args.as_slice()),
        }
    }
}
