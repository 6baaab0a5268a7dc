//! The recursion over a tree, in place: parts first, then the node.

#![tactic(auto, using(ast_types::specs::Reading::shapes))]

ghost use Rattle.std.specs.Prelude.{◌≡◌, ◌&&◌, Bool, IfOk, IsTrue, OnOk, true, false};
ghost use Rattle.opt_base.specs.State.{progress};
ghost use Rattle.ast_types.specs.Reading.{arms_of, breaks, callee_of, cases_of, counter_of, expr_of, expressions_of, exprs_of, maybe_of, pairs_of, stmt_of, stmts_of, subject_of, table_of};
ghost use Rattle.theory_meaning.specs.Shape.{catch_name};
ghost use Rattle.theory_meaning.specs.Tree.{If};
ghost use Rattle.opt_lists.specs.Marks.{mark_of};
ghost use Rattle.opt_reducer.specs.Going.{ItemGoes, going};
ghost use Rattle.opt_reducer.specs.Parts.{StmtOnce, record_of};
ghost use Rattle.opt_base.specs.Places.{place_of};
ghost use Rattle.rhai_ast.specs.Nodes.{is_dot};
ghost use Rattle.theory_rewriting.specs.Context.{Inside};
ghost use Rattle.theory_rewriting.specs.Evals.{keeps_names};
ghost use Rattle.theory_rewriting.specs.Steps.{Anywhere, ExprRun, ExprsRun, PairsRun, MaybeRun, SidesRun, LinkRun, StepsRun, ArgumentRun, TargetRun, LoopRun, ArmRun, ArmsRun, SubjectRun, HasReducedSubject, ForRun, AssignRun, TryRun, is_chain_node, ExprPartsRun, StmtRun, StmtPartsRun, EachRun, ListRun, StmtsRun};

use crate::blocks::flatten;
use crate::leaf::is_leaf;
use crate::lists::{note, sweep_before, sweep_list};
use crate::names::{are_known_at, declare, push_catch_name, push_loop_names};
use base_engine::EngineInfo;
use bitflags::Flags;
use opt_lists::{ListMark, is_wanted_at};
use opt_rules::{OptimizerState, Place, decide_stmt, reduce_expr, reduce_stmt};
use rhai_ast::{
    BinaryExpr, ChainType, Expr, FlowControl, FnCallExpr, Stmt, StmtBlock, SwitchBlock,
    SwitchCasesCollection,
};
use rhai_base::{ASTFlags, Boxed, Dynamic, Ident, OpAssignment, OutOfMemory, Seq, StringMap};
use std::alloc::Global;
use std::num::NonZeroUsize;

/// What scripts are optimised with.
#[derive(Drop)]
pub struct Optimizer<'a> {
    /// Where nodes are made.
    pub alloc: Global,
    /// The engine's record.
    pub info: &'a EngineInfo,
}

impl<'a> Optimizer<'a> {
    /// Parts first, then the rules at the expression, until none fires. A leaf is left before.
    #[cycle(optimize)]
    #[inline(always)]
    fn expr(
        &self,
        state: &mut OptimizerState<'_>,
        expr: &mut Expr,
        place: Place,
    ) -> Result<(), OutOfMemory>
        ensures { OnOk result
            (ExprRun (record_of self.now) (place_of place) (progress state.old) (progress state.new) (expr_of expr.old)
            (expr_of expr.new)) }
    {
        if is_leaf(expr) {
            return Ok(());
        }
        self.expr_parts(state, expr)?;
        reduce_expr(self.alloc, self.info, state, expr, place)
    }

    /// The parts of an expression.
    #[cycle(optimize)]
    #[inline(always)]
    fn expr_parts(&self, state: &mut OptimizerState<'_>, expr: &mut Expr) -> Result<(), OutOfMemory>
        ensures { OnOk result
            (ExprPartsRun (record_of self.now) (progress state.old) (progress state.new) (expr_of expr.old)
            (expr_of expr.new)) }
    {
        match expr {
            Expr::InterpolatedString(parts, _) => self.exprs(state, parts.get_mut()),
            Expr::Array(items, _) => self.exprs(state, items.get_mut()),
            Expr::Map(map, _) => self.map(state, map.get_mut()),
            Expr::Stmt(block) => self.block(state, block.get_mut(), true),
            Expr::FnCall(call, _) => self.call(state, call.get_mut()),
            Expr::MethodCall(call, _) => self.call(state, call.get_mut()),
            Expr::Dot(sides, flags, _) => self.chain(
                state,
                sides.get_mut(),
                ChainType::Dotting,
                *flags,
            ),
            Expr::Index(sides, flags, _) => self.chain(
                state,
                sides.get_mut(),
                ChainType::Indexing,
                *flags,
            ),
            Expr::And(operands, _) => self.exprs(state, operands.get_mut()),
            Expr::Or(operands, _) => self.exprs(state, operands.get_mut()),
            Expr::Coalesce(operands, _) => self.exprs(state, operands.get_mut()),
            _ => Ok(()),
        }
    }

    #[cycle(optimize)]
    fn map(
        &self,
        state: &mut OptimizerState<'_>,
        map: &mut (Seq<(Ident, Expr)>, StringMap<Dynamic>),
    ) -> Result<(), OutOfMemory>
        ensures { OnOk result
            ((map.new.1 ≡ map.old.1)
            × PairsRun (record_of self.now) (progress state.old) (progress state.new) (pairs_of map.old.0)
            (pairs_of map.new.0)) }
    {
        self.pairs(state, &mut map.0)
    }

    #[cycle(optimize)]
    fn pairs(
        &self,
        state: &mut OptimizerState<'_>,
        pairs: &mut Seq<(Ident, Expr)>,
    ) -> Result<(), OutOfMemory>
        ensures { OnOk result
            (PairsRun (record_of self.now) (progress state.old) (progress state.new) (pairs_of pairs.old)
            (pairs_of pairs.new)) }
    {
        for at in 0..pairs.len() {
            let Some(pair) = pairs.get_mut(at) else {
                // it is below the length, which does not change
                unreachable!()
            };
            self.pair(state, pair)?;
        }
        Ok(())
    }

    #[cycle(optimize)]
    fn pair(
        &self,
        state: &mut OptimizerState<'_>,
        pair: &mut (Ident, Expr),
    ) -> Result<(), OutOfMemory>
        ensures { OnOk result
            ((pair.new.0 ≡ pair.old.0)
            × ExprRun (record_of self.now) Anywhere (progress state.old) (progress state.new) (expr_of pair.old.1)
            (expr_of pair.new.1)) }
    {
        self.expr(state, &mut pair.1, Place::Anywhere)
    }

    /// A chain by its outermost node: its base, then the rest of it.
    #[cycle(optimize)]
    fn chain(
        &self,
        state: &mut OptimizerState<'_>,
        sides: &mut BinaryExpr,
        chain: ChainType,
        flags: ASTFlags,
    ) -> Result<(), OutOfMemory>
        ensures { OnOk result
            (SidesRun (record_of self.now) (is_dot chain) (breaks flags) (progress state.old) (progress state.new)
            (expr_of sides.old.lhs) (expr_of sides.old.rhs) (expr_of sides.new.lhs) (expr_of sides.new.rhs)) }
    {
        self.expr(state, &mut sides.lhs, Place::Base)?;
        self.steps(state, &mut sides.rhs, chain, flags)
    }

    /// The rest of a chain: the right side of a `Dot` or an `Index`.
    #[cycle(optimize)]
    fn steps(
        &self,
        state: &mut OptimizerState<'_>,
        right: &mut Expr,
        chain: ChainType,
        flags: ASTFlags,
    ) -> Result<(), OutOfMemory>
        ensures { OnOk result
            (StepsRun (record_of self.now) (is_dot chain) (breaks flags) (progress state.old) (progress state.new)
            (expr_of right.old) (expr_of right.new)) }
    {
        if flags.contains(ASTFlags::BREAK) {
            return self.argument(state, right, chain);
        }
        self.next_steps(state, right, chain)
    }

    /// Where it goes on, the right side is the next node.
    #[cycle(optimize)]
    fn next_steps(
        &self,
        state: &mut OptimizerState<'_>,
        right: &mut Expr,
        chain: ChainType,
    ) -> Result<(), OutOfMemory>
        ensures { OnOk result
            (StepsRun (record_of self.now) (is_dot chain) false (progress state.old) (progress state.new)
            (expr_of right.old) (expr_of right.new)) }
    {
        match right {
            Expr::Dot(sides, flags, _) => self.link(
                state,
                sides.get_mut(),
                chain,
                ChainType::Dotting,
                *flags,
            ),
            Expr::Index(sides, flags, _) => self.link(
                state,
                sides.get_mut(),
                chain,
                ChainType::Indexing,
                *flags,
            ),
            _ => self.last_step(state, right, chain),
        }
    }

    /// What is neither is a member behind a `.`, or cannot stand there.
    #[cycle(optimize)]
    fn last_step(
        &self,
        state: &mut OptimizerState<'_>,
        right: &mut Expr,
        chain: ChainType,
    ) -> Result<(), OutOfMemory>
        requires { is_chain_node (expr_of right.old) ≡ false }
        ensures { OnOk result
            (StepsRun (record_of self.now) (is_dot chain) false (progress state.old) (progress state.new)
            (expr_of right.old) (expr_of right.new)) }
    {
        if chain.is_dot() {
            return self.member(state, right);
        }
        Ok(())
    }

    /// The argument of a node, then the rest behind it.
    #[cycle(optimize)]
    fn link(
        &self,
        state: &mut OptimizerState<'_>,
        sides: &mut BinaryExpr,
        outer: ChainType,
        chain: ChainType,
        flags: ASTFlags,
    ) -> Result<(), OutOfMemory>
        ensures { OnOk result
            (LinkRun (record_of self.now) (is_dot outer) (is_dot chain) (breaks flags) (progress state.old)
            (progress state.new) (expr_of sides.old.lhs) (expr_of sides.old.rhs) (expr_of sides.new.lhs) (expr_of sides.new.rhs)) }
    {
        self.argument(state, &mut sides.lhs, outer)?;
        self.steps(state, &mut sides.rhs, chain, flags)
    }

    /// What a `Dot` or an `Index` asks for.
    #[cycle(optimize)]
    fn argument(
        &self,
        state: &mut OptimizerState<'_>,
        argument: &mut Expr,
        chain: ChainType,
    ) -> Result<(), OutOfMemory>
        ensures { OnOk result
            (ArgumentRun (record_of self.now) (is_dot chain) (progress state.old) (progress state.new)
            (expr_of argument.old) (expr_of argument.new)) }
    {
        if chain.is_dot() {
            return self.member(state, argument);
        }
        self.expr(state, argument, Place::Anywhere)
    }

    #[cycle(optimize)]
    fn member(&self, state: &mut OptimizerState<'_>, member: &mut Expr) -> Result<(), OutOfMemory>
        ensures { OnOk result
            (ArgumentRun (record_of self.now) true (progress state.old) (progress state.new) (expr_of member.old)
            (expr_of member.new)) }
    {
        match member {
            Expr::MethodCall(call, _) => self.call(state, call.get_mut()),
            _ => Ok(()),
        }
    }

    /// A left side stays what it is but for the arguments in it.
    #[cycle(optimize)]
    fn target(&self, state: &mut OptimizerState<'_>, target: &mut Expr) -> Result<(), OutOfMemory>
        ensures { OnOk result
            (TargetRun (record_of self.now) (progress state.old) (progress state.new) (expr_of target.old)
            (expr_of target.new)) }
    {
        match target {
            Expr::Dot(sides, flags, _) => self.chain(
                state,
                sides.get_mut(),
                ChainType::Dotting,
                *flags,
            ),
            Expr::Index(sides, flags, _) => self.chain(
                state,
                sides.get_mut(),
                ChainType::Indexing,
                *flags,
            ),
            _ => Ok(()),
        }
    }

    #[cycle(optimize)]
    fn exprs(
        &self,
        state: &mut OptimizerState<'_>,
        items: &mut Seq<Expr>,
    ) -> Result<(), OutOfMemory>
        ensures { OnOk result
            (ExprsRun (record_of self.now) (progress state.old) (progress state.new) (exprs_of items.old)
            (exprs_of items.new)) }
    {
        for at in 0..items.len() {
            let Some(item) = items.get_mut(at) else {
                // it is below the length, which does not change
                unreachable!()
            };
            self.expr(state, item, Place::Anywhere)?;
        }
        Ok(())
    }

    #[cycle(optimize)]
    fn call(&self, state: &mut OptimizerState<'_>, call: &mut FnCallExpr) -> Result<(), OutOfMemory>
        ensures { OnOk result
            ((callee_of call.new ≡ callee_of call.old)
            × ExprsRun (record_of self.now) (progress state.old) (progress state.new) (exprs_of call.old.args)
            (exprs_of call.new.args)) }
    {
        self.exprs(state, &mut call.args)
    }

    /// Parts first, then the rules at the statement, until none fires. Where one made parts that were not gone over,
    /// all parts are again.
    #[cycle(optimize)]
    fn stmt(
        &self,
        state: &mut OptimizerState<'_>,
        statement: &mut Stmt,
        is_wanted: bool,
    ) -> Result<(), OutOfMemory>
        ensures { OnOk result
            (StmtRun (record_of self.now) is_wanted (progress state.old) (progress state.new) (stmt_of statement.old)
            (stmt_of statement.new)) }
    {
        loop {
            if !self.stmt_once(state, statement, is_wanted)? {
                return Ok(());
            }
        }
    }

    /// The parts of a statement and then the rules at it. Whether one made parts that were not gone over. What decides
    /// it is first: then no part is opened that goes, and braces are opened as the block that they become.
    #[cycle(optimize)]
    fn stmt_once(
        &self,
        state: &mut OptimizerState<'_>,
        statement: &mut Stmt,
        is_wanted: bool,
    ) -> Result<bool, OutOfMemory>
        ensures { IfOk result (λ again.
            StmtOnce again (record_of self.now) is_wanted (progress state.old) (progress state.new)
            (stmt_of statement.old) (stmt_of statement.new)) }
    {
        if decide_stmt(self.alloc, state, statement, is_wanted)? {
            return Ok(true);
        }
        self.subject(state, statement)?;
        if decide_stmt(self.alloc, state, statement, is_wanted)? {
            return Ok(true);
        }
        self.stmt_parts(state, statement, is_wanted)?;
        reduce_stmt(self.alloc, self.info, state, statement, is_wanted)
    }

    /// What decides a statement: the subject of a `switch`, the condition of an `if`.
    #[cycle(optimize)]
    fn subject(
        &self,
        state: &mut OptimizerState<'_>,
        statement: &mut Stmt,
    ) -> Result<(), OutOfMemory>
        ensures { OnOk result
            ((w : Bool)
            → SubjectRun (record_of self.now) w (progress state.old) (progress state.new) (stmt_of statement.old)
            (stmt_of statement.new)) }
    {
        match statement {
            Stmt::Switch(switch, _) => self.switch_subject(state, switch.get_mut()),
            Stmt::If(flow, _) => self.condition(state, flow.get_mut()),
            _ => Ok(()),
        }
    }

    #[cycle(optimize)]
    fn switch_subject(
        &self,
        state: &mut OptimizerState<'_>,
        switch: &mut SwitchBlock,
    ) -> Result<(), OutOfMemory>
        ensures { OnOk result
            ((cases_of switch.new ≡ cases_of switch.old)
            × ExprRun (record_of self.now) Anywhere (progress state.old) (progress state.new)
            (expr_of (subject_of switch.old)) (expr_of (subject_of switch.new))) }
    {
        self.expr(state, &mut switch.expr, Place::Anywhere)
    }

    /// The parts of a statement, but for what decides it, which is reduced.
    #[cycle(optimize)]
    fn stmt_parts(
        &self,
        state: &mut OptimizerState<'_>,
        statement: &mut Stmt,
        is_wanted: bool,
    ) -> Result<(), OutOfMemory>
        requires { HasReducedSubject (record_of self.now) (progress state.now) (stmt_of statement.now) }
        ensures { OnOk result
            (StmtPartsRun (record_of self.now) is_wanted (progress state.old) (progress state.new)
            (stmt_of statement.old) (stmt_of statement.new)) }
    {
        match statement {
            Stmt::If(flow, _) => self.choice(state, flow.get_mut(), is_wanted),
            Stmt::Switch(switch, _) => self.switch_arms(state, switch.get_mut()),
            Stmt::While(flow, _) => self.rounds(state, flow.get_mut(), Place::Guard),
            Stmt::Do(flow, flags, _) => self.rounds(state, flow.get_mut(), Place::Anywhere),
            Stmt::For(parts, _) => self.counted(state, parts.get_mut()),
            Stmt::Var(parts, flags, _) => self.declaration(state, parts.get_mut()),
            Stmt::Assignment(parts) => self.assignment(state, parts.get_mut()),
            Stmt::FnCall(call, _) => self.call(state, call.get_mut()),
            Stmt::Block(block) => self.block(state, block.get_mut(), is_wanted),
            Stmt::TryCatch(flow, _) => self.attempt(state, flow.get_mut()),
            Stmt::Expr(expr) => self.expr(state, expr.get_mut(), Place::Anywhere),
            Stmt::BreakLoop(value, flags, _) => self.maybe(state, value),
            Stmt::Return(value, flags, _) => self.maybe(state, value),
            Stmt::Import(parts, _) => self.import(state, parts.get_mut()),
            _ => Ok(()),
        }
    }

    #[cycle(optimize)]
    fn switch_arms(
        &self,
        state: &mut OptimizerState<'_>,
        switch: &mut SwitchBlock,
    ) -> Result<(), OutOfMemory>
        ensures { OnOk result
            ((subject_of switch.new ≡ subject_of switch.old)
            × ((table_of (cases_of switch.new) ≡ table_of (cases_of switch.old))
            × ArmsRun (record_of self.now) (progress state.old) (progress state.new)
            (arms_of (expressions_of (cases_of switch.old)))
            (arms_of (expressions_of (cases_of switch.new))))) }
    {
        self.table(state, &mut switch.cases)
    }

    #[cycle(optimize)]
    fn table(
        &self,
        state: &mut OptimizerState<'_>,
        cases: &mut SwitchCasesCollection,
    ) -> Result<(), OutOfMemory>
        ensures { OnOk result
            ((table_of cases.new ≡ table_of cases.old)
            × ArmsRun (record_of self.now) (progress state.old) (progress state.new)
            (arms_of (expressions_of cases.old)) (arms_of (expressions_of cases.new))) }
    {
        self.arms(state, &mut cases.expressions)
    }

    #[cycle(optimize)]
    fn arms(
        &self,
        state: &mut OptimizerState<'_>,
        arms: &mut Seq<BinaryExpr>,
    ) -> Result<(), OutOfMemory>
        ensures { OnOk result
            (ArmsRun (record_of self.now) (progress state.old) (progress state.new) (arms_of arms.old)
            (arms_of arms.new)) }
    {
        for at in 0..arms.len() {
            let Some(arm) = arms.get_mut(at) else {
                // it is below the length, which does not change
                unreachable!()
            };
            self.arm(state, arm)?;
        }
        Ok(())
    }

    /// The condition of an arm, then its answer.
    #[cycle(optimize)]
    fn arm(&self, state: &mut OptimizerState<'_>, arm: &mut BinaryExpr) -> Result<(), OutOfMemory>
        ensures { OnOk result
            (ArmRun (record_of self.now) (progress state.old) (progress state.new) (expr_of arm.old.lhs)
            (expr_of arm.old.rhs) (expr_of arm.new.lhs) (expr_of arm.new.rhs)) }
    {
        self.expr(state, &mut arm.lhs, Place::Anywhere)?;
        self.expr(state, &mut arm.rhs, Place::Anywhere)
    }

    /// The guard of a loop, or its condition, and its body.
    #[cycle(optimize)]
    fn rounds(
        &self,
        state: &mut OptimizerState<'_>,
        flow: &mut FlowControl,
        place: Place,
    ) -> Result<(), OutOfMemory>
        ensures { OnOk result
            (LoopRun (record_of self.now) (place_of place) (progress state.old) (progress state.new)
            (expr_of flow.old.expr) (stmts_of flow.old.body.block) (expr_of flow.new.expr)
            (stmts_of flow.new.body.block)) }
    {
        self.expr(state, &mut flow.expr, place)?;
        self.block(state, &mut flow.body, false)
    }

    /// A `for`: in its body its names are variables.
    #[cycle(optimize)]
    fn counted(
        &self,
        state: &mut OptimizerState<'_>,
        parts: &mut (Ident, Option<Ident>, FlowControl),
    ) -> Result<(), OutOfMemory>
        ensures { OnOk result
            ((parts.new.0 ≡ parts.old.0)
            × ((parts.new.1 ≡ parts.old.1)
            × ForRun (record_of self.now) parts.old.0.name (counter_of parts.old.1) (progress state.old)
            (progress state.new) (expr_of parts.old.2.expr) (stmts_of parts.old.2.body.block)
            (expr_of parts.new.2.expr) (stmts_of parts.new.2.body.block))) }
    {
        self.condition(state, &mut parts.2)?;
        let len = state.len();
        push_loop_names(state, &parts.0, &parts.1)?;
        self.body(state, &mut parts.2)?;
        state.rewind_var(len);
        Ok(())
    }

    /// What an `if` tests, or a `for` goes over.
    #[cycle(optimize)]
    fn condition(
        &self,
        state: &mut OptimizerState<'_>,
        flow: &mut FlowControl,
    ) -> Result<(), OutOfMemory>
        ensures { OnOk result
            ((flow.new.body ≡ flow.old.body)
            × ((flow.new.branch ≡ flow.old.branch)
            × ExprRun (record_of self.now) Anywhere (progress state.old) (progress state.new)
            (expr_of flow.old.expr) (expr_of flow.new.expr))) }
    {
        self.expr(state, &mut flow.expr, Place::Anywhere)
    }

    #[cycle(optimize)]
    fn body(
        &self,
        state: &mut OptimizerState<'_>,
        flow: &mut FlowControl,
    ) -> Result<(), OutOfMemory>
        ensures { OnOk result
            ((flow.new.expr ≡ flow.old.expr)
            × StmtsRun (record_of self.now) (Inside false) (progress state.old) (progress state.new)
            (stmts_of flow.old.body.block) (stmts_of flow.new.body.block)) }
    {
        self.block(state, &mut flow.body, false)
    }

    #[cycle(optimize)]
    fn declaration(
        &self,
        state: &mut OptimizerState<'_>,
        parts: &mut (Ident, Expr, Option<NonZeroUsize>),
    ) -> Result<(), OutOfMemory>
        ensures { OnOk result
            ((parts.new.0 ≡ parts.old.0)
            × ExprRun (record_of self.now) Anywhere (progress state.old) (progress state.new) (expr_of parts.old.1)
            (expr_of parts.new.1)) }
    {
        self.expr(state, &mut parts.1, Place::Anywhere)
    }

    #[cycle(optimize)]
    fn assignment(
        &self,
        state: &mut OptimizerState<'_>,
        parts: &mut (OpAssignment, BinaryExpr),
    ) -> Result<(), OutOfMemory>
        ensures { OnOk result
            ((parts.new.0 ≡ parts.old.0)
            × AssignRun (record_of self.now) (progress state.old) (progress state.new) (expr_of parts.old.1.lhs)
            (expr_of parts.old.1.rhs) (expr_of parts.new.1.lhs) (expr_of parts.new.1.rhs)) }
    {
        self.assigned(state, &mut parts.1)
    }

    /// The left side, then the value.
    #[cycle(optimize)]
    fn assigned(
        &self,
        state: &mut OptimizerState<'_>,
        sides: &mut BinaryExpr,
    ) -> Result<(), OutOfMemory>
        ensures { OnOk result
            (AssignRun (record_of self.now) (progress state.old) (progress state.new) (expr_of sides.old.lhs)
            (expr_of sides.old.rhs) (expr_of sides.new.lhs) (expr_of sides.new.rhs)) }
    {
        self.target(state, &mut sides.lhs)?;
        self.expr(state, &mut sides.rhs, Place::Anywhere)
    }

    /// A `try`: in its branch the catch name is a variable.
    #[cycle(optimize)]
    fn attempt(
        &self,
        state: &mut OptimizerState<'_>,
        flow: &mut FlowControl,
    ) -> Result<(), OutOfMemory>
        ensures { OnOk result
            (TryRun (record_of self.now) (catch_name (expr_of flow.old.expr)) (progress state.old) (progress state.new)
            (stmts_of flow.old.body.block) (stmts_of flow.old.branch.block) (stmts_of flow.new.body.block)
            (stmts_of flow.new.branch.block)
            × (flow.new.expr ≡ flow.old.expr)) }
    {
        self.block(state, &mut flow.body, false)?;
        let len = state.len();
        push_catch_name(state, &flow.expr)?;
        self.block(state, &mut flow.branch, false)?;
        state.rewind_var(len);
        Ok(())
    }

    #[cycle(optimize)]
    fn maybe(
        &self,
        state: &mut OptimizerState<'_>,
        value: &mut Option<Boxed<Expr>>,
    ) -> Result<(), OutOfMemory>
        ensures { OnOk result
            (MaybeRun (record_of self.now) (progress state.old) (progress state.new) (maybe_of value.old)
            (maybe_of value.new)) }
    {
        match value {
            Some(expr) => self.expr(state, expr.get_mut(), Place::Anywhere),
            None => Ok(()),
        }
    }

    #[cycle(optimize)]
    fn import(
        &self,
        state: &mut OptimizerState<'_>,
        parts: &mut (Expr, Ident),
    ) -> Result<(), OutOfMemory>
        ensures { OnOk result
            ((parts.new.1 ≡ parts.old.1)
            × ExprRun (record_of self.now) Anywhere (progress state.old) (progress state.new) (expr_of parts.old.0)
            (expr_of parts.new.0)) }
    {
        self.expr(state, &mut parts.0, Place::Anywhere)
    }

    /// The two blocks of an `if`.
    #[cycle(optimize)]
    fn choice(
        &self,
        state: &mut OptimizerState<'_>,
        flow: &mut FlowControl,
        is_wanted: bool,
    ) -> Result<(), OutOfMemory>
        requires { HasReducedSubject (record_of self.now) (progress state.now)
            (If (expr_of flow.now.expr) (stmts_of flow.now.body.block) (stmts_of flow.now.branch.block)) }
        ensures { OnOk result
            (StmtPartsRun (record_of self.now) is_wanted (progress state.old) (progress state.new)
            (If (expr_of flow.old.expr) (stmts_of flow.old.body.block) (stmts_of flow.old.branch.block))
            (If (expr_of flow.new.expr) (stmts_of flow.new.body.block) (stmts_of flow.new.branch.block))) }
    {
        self.block(state, &mut flow.body, is_wanted)?;
        self.block(state, &mut flow.branch, is_wanted)
    }

    /// A statement of a list, and then what it declares; behind a call of `eval` it is gone over where no name is known.
    #[cycle(optimize)]
    fn item(
        &self,
        state: &mut OptimizerState<'_>,
        unknown: &mut OptimizerState<'_>,
        are_known: bool,
        statement: &mut Stmt,
        is_wanted: bool,
    ) -> Result<(), OutOfMemory>
        ensures { OnOk result
            (ItemGoes (record_of self.now) is_wanted (going are_known (progress state.old) (progress unknown.old))
            (going (are_known && keeps_names (stmt_of statement.new)) (progress state.new) (progress unknown.new))
            (stmt_of statement.old) (stmt_of statement.new)) }
    {
        if !are_known {
            self.stmt(unknown, statement, is_wanted)?;
            return Ok(());
        }
        self.stmt(state, statement, is_wanted)?;
        declare(self.alloc, state, statement)?;
        Ok(())
    }

    /// Each statement of a list once, in their order.
    #[cycle(optimize)]
    fn each(
        &self,
        state: &mut OptimizerState<'_>,
        statements: &mut Seq<Stmt>,
        mark: ListMark,
    ) -> Result<(), OutOfMemory>
        ensures { OnOk result
            (EachRun (record_of self.now) (mark_of mark) (progress state.old) (progress state.new)
            (stmts_of statements.old) (stmts_of statements.new)) }
    {
        let mut unknown = state.without_names(self.alloc);
        let mut are_known = true;
        for at in 0..statements.len() {
            let is_wanted = is_wanted_at(mark.is_wanted(), statements.as_slice(), at);
            are_known = are_known_at(are_known, statements.as_slice(), at);
            let Some(statement) = statements.get_mut(at) else {
                // it is below the length, which does not change
                unreachable!()
            };
            self.item(state, &mut unknown, are_known, statement, is_wanted)?;
        }
        note(state, unknown.is_dirty());
        Ok(())
    }

    /// Each statement of a list once, and then blocks in the list give way. The names that it declares are forgotten
    /// at its end.
    #[cycle(optimize)]
    fn list(
        &self,
        state: &mut OptimizerState<'_>,
        statements: &mut Seq<Stmt>,
        mark: ListMark,
    ) -> Result<(), OutOfMemory>
        ensures { OnOk result
            (ListRun (record_of self.now) (mark_of mark) (progress state.old) (progress state.new)
            (stmts_of statements.old) (stmts_of statements.new)) }
    {
        let before = state.len();
        self.each(state, statements, mark)?;
        state.rewind_var(before);
        flatten(state, statements, mark)
    }

    /// A list: blocks in it give way, so that what is in them is gone over once, where it comes to stand; then its
    /// statements, and a sweep from its end. Where that made an expression of a last `return`, which its statements had
    /// hidden, the list is gone over again.
    #[cycle(optimize)]
    pub(crate) fn stmt_block(
        &self,
        state: &mut OptimizerState<'_>,
        statements: &mut Seq<Stmt>,
        mark: ListMark,
    ) -> Result<(), OutOfMemory>
        ensures { OnOk result
            (StmtsRun (record_of self.now) (mark_of mark) (progress state.old) (progress state.new)
            (stmts_of statements.old) (stmts_of statements.new)) }
    {
        flatten(state, statements, mark)?;
        sweep_before(state, statements, mark);
        loop {
            self.list(state, statements, mark)?;
            if !sweep_list(state, statements, mark) {
                return Ok(());
            }
        }
    }

    #[cycle(optimize)]
    fn block(
        &self,
        state: &mut OptimizerState<'_>,
        block: &mut StmtBlock,
        is_wanted: bool,
    ) -> Result<(), OutOfMemory>
        ensures { OnOk result
            (StmtsRun (record_of self.now) (Inside is_wanted) (progress state.old) (progress state.new)
            (stmts_of block.old.block) (stmts_of block.new.block)) }
    {
        let mark = ListMark::Inside { is_wanted };
        self.stmt_block(state, block.statements_mut(), mark)
    }
}
