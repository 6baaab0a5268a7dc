//! Copies of nodes without what depends on how they are spelled. Their positions say nothing.
//!
//! No function here holds a tree while it makes the next one: `both` does.
#![tactic(auto, using(ast_types::specs::Reading::shapes))]

ghost use Rattle.std.specs.Prelude.{◌≡◌, IfOk, false, true};
ghost use Rattle.theory_spelling.specs.Bare.{as_catch, as_guard, as_side, bare_arms, bare_expr, bare_exprs, bare_maybe, bare_pairs, bare_stmt, bare_stmts, bare_text, has_role, unbraced, with_other};
ghost use Rattle.theory_spelling.specs.Captures.{all_grouped, settled};
ghost use Rattle.rhai_base.specs.Builtin.{operator_of};
ghost use Rattle.theory_meaning.specs.Constants.{is_literal_unit};
ghost use Rattle.theory_meaning.specs.Tree.{And, ArrayOf, Assignment, BoolConstant, Coalesce, Do, Dot, FnCall, For, If, Import, Index, MapOf, MethodCall, Or, Switch, TryCatch, UnitConstant, Var, While};
ghost use Rattle.ast_types.specs.Reading.{arms_of, callee_of, cases_of, chain_flags, counter_of, expr_of, expressions_of, exprs_of, is_const, is_exported, is_negated, keys_of, maybe_of, pairs_of, stmt_of, stmts_of, subject_of, table_of};

use crate::captures::{all_grouped, settled};
use crate::constants::bare_constant;
use crate::forms::{
    as_catch, as_guard, as_side, both, evaluated, has_role, is_literal_unit, pushed,
    statement_flags, step_flags, text_of_parts, unbraced, with_other,
};
use crate::tables::table_with;
use ast_make::{block_stmt, declaration, expr_stmt};
use ast_types::{BinaryExpr, Expr, FlowControl, FnCallExpr, Stmt, StmtBlock, SwitchBlock};
use rhai_base::{
    ASTFlags, Boxed, Dynamic, Ident, OpAssignment, OutOfMemory, Position, Seq, Span, StringMap,
};
use std::alloc::Global;
use std::num::NonZeroUsize;

#[cycle(bare)]
fn bare_expr(alloc: Global, expr: &Expr) -> Result<Expr, OutOfMemory>
    ensures { IfOk result (λ e. expr_of e ≡ bare_expr (expr_of expr.now)) }
{
    match expr {
        Expr::DynamicConstant(value, _) => bare_constant(alloc, value.get()),
        Expr::BoolConstant(_, _)
        | Expr::IntegerConstant(_, _)
        | Expr::FloatConstant(_, _)
        | Expr::CharConstant(_, _)
        | Expr::StringConstant(_, _)
        | Expr::Unit(_)
        | Expr::Variable(_, _, _)
        | Expr::ThisPtr(_)
        | Expr::Property(_, _) => Ok(expr.clone()?),
        Expr::InterpolatedString(parts, _) => bare_text(alloc, parts.get().as_slice()),
        Expr::Array(items, _) => bare_array(alloc, items.get().as_slice()),
        Expr::Map(map, _) => bare_map(alloc, map.get().0.as_slice(), &map.get().1),
        Expr::MethodCall(call, _) => bare_method(alloc, call.get()),
        Expr::Stmt(block) => bare_block(alloc, block.get().statements()),
        Expr::FnCall(call, _) => bare_called(alloc, call.get()),
        Expr::Dot(sides, options, _) => bare_dot(alloc, sides.get(), *options),
        Expr::Index(sides, options, _) => bare_index(alloc, sides.get(), *options),
        Expr::And(operands, _) => bare_and(alloc, operands.get().as_slice()),
        Expr::Or(operands, _) => bare_or(alloc, operands.get().as_slice()),
        Expr::Coalesce(operands, _) => bare_coalesce(alloc, operands.get().as_slice()),
    }
}

#[cycle(bare)]
fn bare_exprs(alloc: Global, exprs: &[Expr]) -> Result<Seq<Expr>, OutOfMemory>
    ensures { IfOk result (λ es. exprs_of es ≡ bare_exprs (exprs_of exprs.now)) }
{
    let mut copies = Seq::with_capacity(alloc, exprs.len())?;
    for expr in exprs {
        let (items, item) = both(copies, bare_expr(alloc, expr))?;
        copies = pushed(items, item)?;
    }
    Ok(copies)
}

#[cycle(bare)]
fn bare_text(alloc: Global, parts: &[Expr]) -> Result<Expr, OutOfMemory>
    ensures { IfOk result (λ e. expr_of e ≡ bare_text (bare_exprs (exprs_of parts.now))) }
{
    text_of_parts(alloc, bare_exprs(alloc, parts)?)
}

#[cycle(bare)]
fn bare_array(alloc: Global, items: &[Expr]) -> Result<Expr, OutOfMemory>
    ensures { IfOk result (λ e. expr_of e ≡ ArrayOf (bare_exprs (exprs_of items.now))) }
{
    let items = Boxed::new(alloc, bare_exprs(alloc, items)?)?;
    Ok(Expr::Array(items, Position::NONE))
}

#[cycle(bare)]
fn bare_map(
    alloc: Global,
    pairs: &[(Ident, Expr)],
    template: &StringMap<Dynamic>,
) -> Result<Expr, OutOfMemory>
    ensures { IfOk result (λ e. expr_of e ≡ MapOf (bare_pairs (pairs_of pairs.now)) (keys_of template.now)) }
{
    let pairs = bare_pairs(alloc, pairs)?;
    let parts = both(pairs, copy_template(template))?;
    Ok(Expr::Map(Boxed::new(alloc, parts)?, Position::NONE))
}

#[tactic(auto, using(base_lists::proofs::Copies::copies))]
fn copy_template(template: &StringMap<Dynamic>) -> Result<StringMap<Dynamic>, OutOfMemory>
    ensures { IfOk result (λ copy. copy ≡ template.now) }
{
    Ok(template.clone()?)
}

#[cycle(bare)]
fn bare_pairs(alloc: Global, pairs: &[(Ident, Expr)]) -> Result<Seq<(Ident, Expr)>, OutOfMemory>
    ensures { IfOk result (λ ps. pairs_of ps ≡ bare_pairs (pairs_of pairs.now)) }
{
    let mut copies = Seq::with_capacity(alloc, pairs.len())?;
    for pair in pairs {
        let start = both(copies, bare_expr(alloc, &pair.1))?;
        let ((items, item), name) = both(start, pair.0.clone())?;
        copies = pushed(items, (name, item))?;
    }
    Ok(copies)
}

#[cycle(bare)]
fn bare_call(alloc: Global, call: &FnCallExpr) -> Result<Boxed<FnCallExpr>, OutOfMemory>
    ensures callee { IfOk result (λ c. callee_of c ≡ callee_of call.now) }
    ensures args { IfOk result (λ c. exprs_of c.args ≡ bare_exprs (exprs_of call.now.args)) }
{
    let namespace = call.namespace.clone()?;
    let name = call.name.clone()?;
    let args = bare_exprs(alloc, call.args.as_slice())?;
    let copy = FnCallExpr {
        namespace,
        name,
        args,
        capture_parent_scope: call.capture_parent_scope,
        op_token: call.op_token,
    };
    Ok(Boxed::new(alloc, copy)?)
}

#[cycle(bare)]
fn bare_method(alloc: Global, call: &FnCallExpr) -> Result<Expr, OutOfMemory>
    ensures { IfOk result (λ e. expr_of e ≡ MethodCall (callee_of call.now) (bare_exprs (exprs_of call.now.args))) }
{
    Ok(Expr::MethodCall(bare_call(alloc, call)?, Position::NONE))
}

#[cycle(bare)]
fn bare_called(alloc: Global, call: &FnCallExpr) -> Result<Expr, OutOfMemory>
    ensures { IfOk result (λ e. expr_of e ≡ FnCall (callee_of call.now) (bare_exprs (exprs_of call.now.args))) }
{
    Ok(Expr::FnCall(bare_call(alloc, call)?, Position::NONE))
}

#[cycle(bare)]
fn bare_block(alloc: Global, stmts: &[Stmt]) -> Result<Expr, OutOfMemory>
    ensures { IfOk result (λ e. expr_of e ≡ unbraced (settled (bare_stmts (stmts_of stmts.now)))) }
{
    let stmts = settled(alloc, bare_stmts(alloc, stmts)?)?;
    unbraced(alloc, stmts)
}

/// A side of a chain or of an assignment.
#[cycle(bare)]
fn bare_side(alloc: Global, side: &Expr) -> Result<Expr, OutOfMemory>
    ensures { IfOk result (λ e. expr_of e ≡ as_side (has_role (expr_of side.now)) (bare_expr (expr_of side.now))) }
{
    as_side(alloc, has_role(side), bare_expr(alloc, side)?)
}

#[cycle(bare)]
fn bare_links(alloc: Global, sides: &BinaryExpr) -> Result<Boxed<BinaryExpr>, OutOfMemory>
    ensures lhs { IfOk result (λ s.
        expr_of s.lhs ≡ as_side (has_role (expr_of sides.now.lhs)) (bare_expr (expr_of sides.now.lhs))) }
    ensures rhs { IfOk result (λ s.
        expr_of s.rhs ≡ as_side (has_role (expr_of sides.now.rhs)) (bare_expr (expr_of sides.now.rhs))) }
{
    let (lhs, rhs) = both(bare_side(alloc, &sides.lhs)?, bare_side(alloc, &sides.rhs))?;
    Ok(Boxed::new(alloc, BinaryExpr { lhs, rhs })?)
}

#[cycle(bare)]
fn bare_dot(alloc: Global, sides: &BinaryExpr, options: ASTFlags) -> Result<Expr, OutOfMemory>
    ensures { IfOk result (λ e.
        expr_of e ≡ bare_expr (Dot (chain_flags options) (expr_of sides.now.lhs) (expr_of sides.now.rhs))) }
{
    let options = step_flags(true, options, &sides.rhs);
    Ok(Expr::Dot(bare_links(alloc, sides)?, options, Position::NONE))
}

#[cycle(bare)]
fn bare_index(alloc: Global, sides: &BinaryExpr, options: ASTFlags) -> Result<Expr, OutOfMemory>
    ensures { IfOk result (λ e.
        expr_of e ≡ bare_expr (Index (chain_flags options) (expr_of sides.now.lhs) (expr_of sides.now.rhs))) }
{
    let options = step_flags(false, options, &sides.rhs);
    Ok(Expr::Index(bare_links(alloc, sides)?, options, Position::NONE))
}

#[cycle(bare)]
fn bare_and(alloc: Global, operands: &[Expr]) -> Result<Expr, OutOfMemory>
    ensures { IfOk result (λ e. expr_of e ≡ And (with_other (BoolConstant true) (bare_exprs (exprs_of operands.now)))) }
{
    let other = Expr::BoolConstant(true, Position::NONE);
    let operands = with_other(other, bare_exprs(alloc, operands)?)?;
    Ok(Expr::And(Boxed::new(alloc, operands)?, Position::NONE))
}

#[cycle(bare)]
fn bare_or(alloc: Global, operands: &[Expr]) -> Result<Expr, OutOfMemory>
    ensures { IfOk result (λ e. expr_of e ≡ Or (with_other (BoolConstant false) (bare_exprs (exprs_of operands.now)))) }
{
    let other = Expr::BoolConstant(false, Position::NONE);
    let operands = with_other(other, bare_exprs(alloc, operands)?)?;
    Ok(Expr::Or(Boxed::new(alloc, operands)?, Position::NONE))
}

#[cycle(bare)]
fn bare_coalesce(alloc: Global, operands: &[Expr]) -> Result<Expr, OutOfMemory>
    ensures { IfOk result (λ e. expr_of e ≡ Coalesce (with_other UnitConstant (bare_exprs (exprs_of operands.now)))) }
{
    let other = Expr::Unit(Position::NONE);
    let operands = with_other(other, bare_exprs(alloc, operands)?)?;
    Ok(Expr::Coalesce(Boxed::new(alloc, operands)?, Position::NONE))
}

#[cycle(bare)]
pub(crate) fn bare_stmts(alloc: Global, stmts: &[Stmt]) -> Result<Seq<Stmt>, OutOfMemory>
    ensures { IfOk result (λ ss. stmts_of ss ≡ bare_stmts (stmts_of stmts.now)) }
{
    all_grouped(alloc, bare_lines(alloc, stmts)?)
}

#[cycle(bare)]
fn bare_lines(alloc: Global, stmts: &[Stmt]) -> Result<Seq<Stmt>, OutOfMemory>
    ensures { IfOk result (λ ss. all_grouped (stmts_of ss) ≡ bare_stmts (stmts_of stmts.now)) }
{
    let mut copies = Seq::with_capacity(alloc, stmts.len())?;
    for stmt in stmts {
        let (items, item) = both(copies, bare_stmt(alloc, stmt))?;
        copies = pushed(items, item)?;
    }
    Ok(copies)
}

#[cycle(bare)]
fn bare_stmt(alloc: Global, stmt: &Stmt) -> Result<Stmt, OutOfMemory>
    ensures { IfOk result (λ s. stmt_of s ≡ bare_stmt (stmt_of stmt.now)) }
{
    match stmt {
        Stmt::Noop(_) => block_stmt(alloc, StmtBlock::none(alloc)),
        Stmt::If(flow, _) => bare_if(alloc, flow.get()),
        Stmt::Switch(switch, _) => bare_switch(alloc, switch.get()),
        Stmt::While(flow, _) => bare_while(alloc, flow.get()),
        Stmt::Do(flow, options, _) => bare_do(alloc, flow.get(), *options),
        Stmt::For(parts, _) => bare_for(alloc, parts.get()),
        Stmt::Var(parts, options, _) => bare_var(alloc, parts.get(), *options),
        Stmt::Assignment(parts) => bare_assignment(alloc, parts.get()),
        Stmt::FnCall(call, _) => expr_stmt(alloc, bare_called(alloc, call.get())?),
        Stmt::Block(block) => {
            let inside = bare_block(alloc, block.get().statements())?;
            evaluated(alloc, inside)
        }
        Stmt::TryCatch(flow, _) => bare_try(alloc, flow.get()),
        Stmt::Expr(expr) => evaluated(alloc, bare_expr(alloc, expr.get())?),
        Stmt::BreakLoop(value, options, _) => {
            let value = bare_maybe(alloc, value)?;
            Ok(Stmt::BreakLoop(value, statement_flags(*options), Position::NONE))
        }
        Stmt::Return(value, options, _) => {
            let value = bare_maybe(alloc, value)?;
            Ok(Stmt::Return(value, statement_flags(*options), Position::NONE))
        }
        Stmt::Import(parts, _) => bare_import(alloc, parts.get()),
        Stmt::Export(_, _) | Stmt::Share(_) => Ok(stmt.clone()?),
    }
}

#[cycle(bare)]
fn bare_maybe(
    alloc: Global,
    value: &Option<Boxed<Expr>>,
) -> Result<Option<Boxed<Expr>>, OutOfMemory>
    ensures { IfOk result (λ e. maybe_of e ≡ bare_maybe (maybe_of value.now)) }
{
    match value {
        Some(expr) => Ok(Some(Boxed::new(alloc, bare_expr(alloc, expr.get())?)?)),
        None => Ok(None),
    }
}

#[cycle(bare)]
fn bare_body(alloc: Global, block: &StmtBlock) -> Result<StmtBlock, OutOfMemory>
    ensures { IfOk result (λ b. stmts_of b.block ≡ bare_stmts (stmts_of block.now.block)) }
{
    let statements = bare_stmts(alloc, block.statements())?;
    Ok(StmtBlock::new_with_span(statements.into_vec(), Span::NONE))
}

/// The parts of a flow, each bare.
#[cycle(bare)]
fn bare_flow(alloc: Global, flow: &FlowControl) -> Result<FlowControl, OutOfMemory>
    ensures expr { IfOk result (λ f. expr_of f.expr ≡ bare_expr (expr_of flow.now.expr)) }
    ensures body { IfOk result (λ f. stmts_of f.body.block ≡ bare_stmts (stmts_of flow.now.body.block)) }
    ensures branch { IfOk result (λ f. stmts_of f.branch.block ≡ bare_stmts (stmts_of flow.now.branch.block)) }
{
    let start = both(bare_expr(alloc, &flow.expr)?, bare_body(alloc, &flow.body))?;
    let ((expr, body), branch) = both(start, bare_body(alloc, &flow.branch))?;
    Ok(FlowControl { expr, body, branch })
}

#[cycle(bare)]
fn bare_if(alloc: Global, flow: &FlowControl) -> Result<Stmt, OutOfMemory>
    ensures { IfOk result (λ s.
        stmt_of s
        ≡ If (bare_expr (expr_of flow.now.expr)) (bare_stmts (stmts_of flow.now.body.block))
        (bare_stmts (stmts_of flow.now.branch.block))) }
{
    let flow = Boxed::new(alloc, bare_flow(alloc, flow)?)?;
    Ok(Stmt::If(flow, Position::NONE))
}

#[cycle(bare)]
fn bare_while(alloc: Global, flow: &FlowControl) -> Result<Stmt, OutOfMemory>
    ensures { IfOk result (λ s.
        stmt_of s
        ≡ While (as_guard (is_literal_unit (expr_of flow.now.expr)) (bare_expr (expr_of flow.now.expr)))
        (bare_stmts (stmts_of flow.now.body.block))) }
{
    let is_unit = is_literal_unit(&flow.expr);
    let FlowControl { expr, body, branch } = bare_flow(alloc, flow)?;
    let ((body, branch), expr) = both((body, branch), as_guard(alloc, is_unit, expr))?;
    let flow = Boxed::new(alloc, FlowControl { expr, body, branch })?;
    Ok(Stmt::While(flow, Position::NONE))
}

#[cycle(bare)]
fn bare_try(alloc: Global, flow: &FlowControl) -> Result<Stmt, OutOfMemory>
    ensures { IfOk result (λ s.
        stmt_of s
        ≡ TryCatch (as_catch (has_role (expr_of flow.now.expr)) (is_literal_unit (expr_of flow.now.expr)) (bare_expr (expr_of flow.now.expr)))
        (bare_stmts (stmts_of flow.now.body.block)) (bare_stmts (stmts_of flow.now.branch.block))) }
{
    let (had_role, is_unit) = (has_role(&flow.expr), is_literal_unit(&flow.expr));
    let FlowControl { expr, body, branch } = bare_flow(alloc, flow)?;
    let name = as_catch(alloc, had_role, is_unit, expr);
    let ((body, branch), expr) = both((body, branch), name)?;
    let flow = Boxed::new(alloc, FlowControl { expr, body, branch })?;
    Ok(Stmt::TryCatch(flow, Position::NONE))
}

#[cycle(bare)]
fn bare_do(alloc: Global, flow: &FlowControl, options: ASTFlags) -> Result<Stmt, OutOfMemory>
    ensures { IfOk result (λ s.
        stmt_of s
        ≡ Do (is_negated options) false (bare_expr (expr_of flow.now.expr)) (bare_stmts (stmts_of flow.now.body.block))) }
{
    let flow = Boxed::new(alloc, bare_flow(alloc, flow)?)?;
    Ok(Stmt::Do(flow, statement_flags(options), Position::NONE))
}

#[cycle(bare)]
fn bare_for(alloc: Global, parts: &(Ident, Option<Ident>, FlowControl)) -> Result<Stmt, OutOfMemory>
    ensures { IfOk result (λ s.
        stmt_of s
        ≡ For parts.now.0.name (counter_of parts.now.1) (bare_expr (expr_of parts.now.2.expr))
        (bare_stmts (stmts_of parts.now.2.body.block))) }
{
    let name = parts.0.clone()?;
    let counter = parts.1.clone()?;
    let flow = bare_flow(alloc, &parts.2)?;
    let parts = Boxed::new(alloc, (name, counter, flow))?;
    Ok(Stmt::For(parts, Position::NONE))
}

#[cycle(bare)]
fn bare_var(
    alloc: Global,
    parts: &(Ident, Expr, Option<NonZeroUsize>),
    options: ASTFlags,
) -> Result<Stmt, OutOfMemory>
    ensures { IfOk result (λ s.
        stmt_of s ≡ Var (is_const options) (is_exported options) parts.now.0.name (bare_expr (expr_of parts.now.1))) }
{
    let name = parts.0.clone()?;
    let value = bare_expr(alloc, &parts.1)?;
    declaration(alloc, options, name, value, Position::NONE)
}

#[cycle(bare)]
fn bare_assignment(alloc: Global, parts: &(OpAssignment, BinaryExpr)) -> Result<Stmt, OutOfMemory>
    ensures { IfOk result (λ s.
        stmt_of s
        ≡ Assignment (operator_of parts.now.0.op) (as_side (has_role (expr_of parts.now.1.lhs)) (bare_expr (expr_of parts.now.1.lhs)))
        (bare_expr (expr_of parts.now.1.rhs))) }
{
    let lhs = bare_side(alloc, &parts.1.lhs)?;
    let (lhs, rhs) = both(lhs, bare_expr(alloc, &parts.1.rhs))?;
    let parts = Boxed::new(alloc, (parts.0, BinaryExpr { lhs, rhs }))?;
    Ok(Stmt::Assignment(parts))
}

#[cycle(bare)]
fn bare_import(alloc: Global, parts: &(Expr, Ident)) -> Result<Stmt, OutOfMemory>
    ensures { IfOk result (λ s. stmt_of s ≡ Import (bare_expr (expr_of parts.now.0)) parts.now.1.name) }
{
    let path = bare_expr(alloc, &parts.0)?;
    let parts = both(path, parts.1.clone())?;
    Ok(Stmt::Import(Boxed::new(alloc, parts)?, Position::NONE))
}

#[cycle(bare)]
fn bare_arms(alloc: Global, arms: &[BinaryExpr]) -> Result<Seq<BinaryExpr>, OutOfMemory>
    ensures { IfOk result (λ made. arms_of made ≡ bare_arms (arms_of arms.now)) }
{
    let mut copies = Seq::with_capacity(alloc, arms.len())?;
    for arm in arms {
        let start = both(copies, bare_expr(alloc, &arm.lhs))?;
        let ((items, lhs), rhs) = both(start, bare_expr(alloc, &arm.rhs))?;
        copies = pushed(items, BinaryExpr { lhs, rhs })?;
    }
    Ok(copies)
}

#[cycle(bare)]
fn bare_switch(alloc: Global, switch: &SwitchBlock) -> Result<Stmt, OutOfMemory>
    ensures { IfOk result (λ s.
        stmt_of s
        ≡ bare_stmt (Switch (expr_of (subject_of switch.now)) (arms_of (expressions_of (cases_of switch.now))) (table_of (cases_of switch.now)))) }
{
    let expr = bare_expr(alloc, &switch.expr)?;
    let (expr, arms) = both(expr, bare_arms(alloc, switch.cases.expressions.as_slice()))?;
    let (expr, cases) = both(expr, table_with(alloc, &switch.cases, arms))?;
    let switch = Boxed::new(alloc, SwitchBlock { expr, cases })?;
    Ok(Stmt::Switch(switch, Position::NONE))
}
