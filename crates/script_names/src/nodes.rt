//! Copies of nodes in which the pointers of constants have the new names. All else is kept, positions too.
//!
//! No function here holds a tree while it makes the next one: `both` does.
#![tactic(auto, using(ast_types::specs::Reading::shapes))]

ghost use Rattle.std.specs.Prelude.{◌≡◌, IfOk};
ghost use Rattle.rhai_base.specs.Reading.{value_of};
ghost use Rattle.theory_naming.specs.Renaming as new;
ghost use Rattle.ast_types.specs.Reading.{arms_of, callee_of, cases_of, expr_of, expressions_of, exprs_of, keys_of, maybe_of, pairs_of, stmt_of, stmts_of, subject_of, table_of};
ghost use Rattle.script_names.specs.Names.{stands};

use crate::Names;
use crate::steps::{both, pushed};
use crate::values::renamed_value;
use ast_types::{
    BinaryExpr, Expr, FlowControl, FnCallExpr, Stmt, StmtBlock, SwitchBlock, SwitchCasesCollection,
};
use rhai_base::{Boxed, Dynamic, Ident, OpAssignment, OutOfMemory, RangeCase, Seq, StringMap};
use std::alloc::Global;
use std::num::NonZeroUsize;

/// A copy of an expression by the new names.
#[cycle(renamed)]
pub fn renamed_expr(alloc: Global, names: &Names, expr: &Expr) -> Result<Expr, OutOfMemory>
    ensures { IfOk result (λ e. expr_of e ≡ new.renamed_expr (stands names.now) (expr_of expr.now)) }
{
    match expr {
        Expr::DynamicConstant(value, pos) => {
            Ok(Expr::DynamicConstant(renamed_constant(alloc, names, value.get())?, *pos))
        }
        Expr::BoolConstant(_, _)
        | Expr::IntegerConstant(_, _)
        | Expr::FloatConstant(_, _)
        | Expr::CharConstant(_, _)
        | Expr::StringConstant(_, _)
        | Expr::Unit(_)
        | Expr::Variable(_, _, _)
        | Expr::ThisPtr(_)
        | Expr::Property(_, _) => Ok(expr.clone()?),
        Expr::InterpolatedString(parts, pos) => {
            Ok(Expr::InterpolatedString(renamed_exprs(alloc, names, parts.get())?, *pos))
        }
        Expr::Array(items, pos) => Ok(Expr::Array(renamed_exprs(alloc, names, items.get())?, *pos)),
        Expr::Map(map, pos) => {
            let (pairs, template) = map.get();
            Ok(Expr::Map(renamed_map(alloc, names, pairs.as_slice(), template)?, *pos))
        },
        Expr::MethodCall(call, pos) => {
            Ok(Expr::MethodCall(renamed_call(alloc, names, call.get())?, *pos))
        }
        Expr::Stmt(block) => Ok(Expr::Stmt(renamed_braces(alloc, names, block.get())?)),
        Expr::FnCall(call, pos) => Ok(Expr::FnCall(renamed_call(alloc, names, call.get())?, *pos)),
        Expr::Dot(sides, flags, pos) => {
            Ok(Expr::Dot(renamed_links(alloc, names, sides.get())?, *flags, *pos))
        }
        Expr::Index(sides, flags, pos) => {
            Ok(Expr::Index(renamed_links(alloc, names, sides.get())?, *flags, *pos))
        }
        Expr::And(operands, pos) => Ok(Expr::And(
            renamed_exprs(alloc, names, operands.get())?,
            *pos,
        )),
        Expr::Or(operands, pos) => Ok(Expr::Or(renamed_exprs(alloc, names, operands.get())?, *pos)),
        Expr::Coalesce(operands, pos) => {
            Ok(Expr::Coalesce(renamed_exprs(alloc, names, operands.get())?, *pos))
        }
    }
}

fn renamed_constant(
    alloc: Global,
    names: &Names,
    value: &Dynamic,
) -> Result<Boxed<Dynamic>, OutOfMemory>
    ensures { IfOk result (λ v. value_of v ≡ new.renamed_value (stands names.now) (value_of value.now)) }
{
    Ok(Boxed::new(alloc, renamed_value(alloc, names, value)?)?)
}

#[cycle(renamed)]
fn renamed_list(alloc: Global, names: &Names, exprs: &[Expr]) -> Result<Seq<Expr>, OutOfMemory>
    ensures { IfOk result (λ es. exprs_of es ≡ new.renamed_exprs (stands names.now) (exprs_of exprs.now)) }
{
    let mut copies = Seq::with_capacity(alloc, exprs.len())?;
    for expr in exprs {
        let (items, item) = both(copies, renamed_expr(alloc, names, expr))?;
        copies = pushed(items, item)?;
    }
    Ok(copies)
}

#[cycle(renamed)]
fn renamed_exprs(
    alloc: Global,
    names: &Names,
    exprs: &Seq<Expr>,
) -> Result<Boxed<Seq<Expr>>, OutOfMemory>
    ensures { IfOk result (λ es. exprs_of es ≡ new.renamed_exprs (stands names.now) (exprs_of exprs.now)) }
{
    Ok(Boxed::new(alloc, renamed_list(alloc, names, exprs.as_slice())?)?)
}

/// The pairs by the new names; the template is kept.
#[cycle(renamed)]
fn renamed_map(
    alloc: Global,
    names: &Names,
    pairs: &[(Ident, Expr)],
    template: &StringMap<Dynamic>,
) -> Result<Boxed<(Seq<(Ident, Expr)>, StringMap<Dynamic>)>, OutOfMemory>
    ensures pairs { IfOk result (λ m. pairs_of m.0 ≡ new.renamed_pairs (stands names.now) (pairs_of pairs.now)) }
    ensures template { IfOk result (λ m. keys_of m.1 ≡ keys_of template.now) }
{
    let pairs = renamed_pairs(alloc, names, pairs)?;
    let parts = both(pairs, copy_template(template))?;
    Ok(Boxed::new(alloc, parts)?)
}

#[tactic(auto, using(base_lists::proofs::Copies::copies))]
fn copy_template(template: &StringMap<Dynamic>) -> Result<StringMap<Dynamic>, OutOfMemory>
    ensures { IfOk result (λ copy. copy ≡ template.now) }
{
    Ok(template.clone()?)
}

#[cycle(renamed)]
fn renamed_pairs(
    alloc: Global,
    names: &Names,
    pairs: &[(Ident, Expr)],
) -> Result<Seq<(Ident, Expr)>, OutOfMemory>
    ensures { IfOk result (λ ps. pairs_of ps ≡ new.renamed_pairs (stands names.now) (pairs_of pairs.now)) }
{
    let mut copies = Seq::with_capacity(alloc, pairs.len())?;
    for pair in pairs {
        let start = both(copies, renamed_expr(alloc, names, &pair.1))?;
        let ((items, item), name) = both(start, pair.0.clone())?;
        copies = pushed(items, (name, item))?;
    }
    Ok(copies)
}

#[cycle(renamed)]
fn renamed_call(
    alloc: Global,
    names: &Names,
    call: &FnCallExpr,
) -> Result<Boxed<FnCallExpr>, OutOfMemory>
    ensures callee { IfOk result (λ c. callee_of c ≡ callee_of call.now) }
    ensures args { IfOk result (λ c. exprs_of c.args ≡ new.renamed_exprs (stands names.now) (exprs_of call.now.args)) }
{
    let namespace = call.namespace.clone()?;
    let name = call.name.clone()?;
    let args = renamed_list(alloc, names, call.args.as_slice())?;
    let copy = FnCallExpr {
        namespace,
        name,
        args,
        capture_parent_scope: call.capture_parent_scope,
        op_token: call.op_token,
    };
    Ok(Boxed::new(alloc, copy)?)
}

#[cycle(renamed)]
fn renamed_sides(
    alloc: Global,
    names: &Names,
    sides: &BinaryExpr,
) -> Result<BinaryExpr, OutOfMemory>
    ensures lhs { IfOk result (λ s. expr_of s.lhs ≡ new.renamed_expr (stands names.now) (expr_of sides.now.lhs)) }
    ensures rhs { IfOk result (λ s. expr_of s.rhs ≡ new.renamed_expr (stands names.now) (expr_of sides.now.rhs)) }
{
    let lhs = renamed_expr(alloc, names, &sides.lhs)?;
    let (lhs, rhs) = both(lhs, renamed_expr(alloc, names, &sides.rhs))?;
    Ok(BinaryExpr { lhs, rhs })
}

#[cycle(renamed)]
fn renamed_links(
    alloc: Global,
    names: &Names,
    sides: &BinaryExpr,
) -> Result<Boxed<BinaryExpr>, OutOfMemory>
    ensures lhs { IfOk result (λ s. expr_of s.lhs ≡ new.renamed_expr (stands names.now) (expr_of sides.now.lhs)) }
    ensures rhs { IfOk result (λ s. expr_of s.rhs ≡ new.renamed_expr (stands names.now) (expr_of sides.now.rhs)) }
{
    Ok(Boxed::new(alloc, renamed_sides(alloc, names, sides)?)?)
}

/// Copies of statements by the new names.
#[cycle(renamed)]
pub fn renamed_stmts(alloc: Global, names: &Names, stmts: &[Stmt]) -> Result<Seq<Stmt>, OutOfMemory>
    ensures { IfOk result (λ ss. stmts_of ss ≡ new.renamed_stmts (stands names.now) (stmts_of stmts.now)) }
{
    let mut copies = Seq::with_capacity(alloc, stmts.len())?;
    for stmt in stmts {
        let (items, item) = both(copies, renamed_stmt(alloc, names, stmt))?;
        copies = pushed(items, item)?;
    }
    Ok(copies)
}

/// A copy of a block by the new names, with its span.
#[cycle(renamed)]
pub fn renamed_block(
    alloc: Global,
    names: &Names,
    block: &StmtBlock,
) -> Result<StmtBlock, OutOfMemory>
    ensures block { IfOk result (λ b.
        stmts_of b.block ≡ new.renamed_stmts (stands names.now) (stmts_of block.now.block)) }
    ensures span { IfOk result (λ b. b.span ≡ block.now.span) }
{
    let statements = renamed_stmts(alloc, names, block.statements())?;
    Ok(StmtBlock::new_with_span(statements.into_vec(), block.span()))
}

#[cycle(renamed)]
fn renamed_braces(
    alloc: Global,
    names: &Names,
    block: &StmtBlock,
) -> Result<Boxed<StmtBlock>, OutOfMemory>
    ensures { IfOk result (λ b. stmts_of b.block ≡ new.renamed_stmts (stands names.now) (stmts_of block.now.block)) }
{
    Ok(Boxed::new(alloc, renamed_block(alloc, names, block)?)?)
}

#[cycle(renamed)]
fn renamed_stmt(alloc: Global, names: &Names, stmt: &Stmt) -> Result<Stmt, OutOfMemory>
    ensures { IfOk result (λ s. stmt_of s ≡ new.renamed_stmt (stands names.now) (stmt_of stmt.now)) }
{
    match stmt {
        Stmt::Noop(_) | Stmt::Export(_, _) | Stmt::Share(_) => Ok(stmt.clone()?),
        Stmt::If(flow, pos) => Ok(Stmt::If(renamed_flow(alloc, names, flow.get())?, *pos)),
        Stmt::Switch(switch, pos) => {
            Ok(Stmt::Switch(renamed_switch(alloc, names, switch.get())?, *pos))
        }
        Stmt::While(flow, pos) => Ok(Stmt::While(renamed_flow(alloc, names, flow.get())?, *pos)),
        Stmt::Do(flow, flags, pos) => {
            Ok(Stmt::Do(renamed_flow(alloc, names, flow.get())?, *flags, *pos))
        }
        Stmt::For(parts, pos) => Ok(Stmt::For(renamed_for(alloc, names, parts.get())?, *pos)),
        Stmt::Var(parts, flags, pos) => {
            Ok(Stmt::Var(renamed_var(alloc, names, parts.get())?, *flags, *pos))
        }
        Stmt::Assignment(parts) => {
            Ok(Stmt::Assignment(renamed_assignment(alloc, names, parts.get())?))
        }
        Stmt::FnCall(call, pos) => Ok(Stmt::FnCall(renamed_call(alloc, names, call.get())?, *pos)),
        Stmt::Block(block) => Ok(Stmt::Block(renamed_braces(alloc, names, block.get())?)),
        Stmt::TryCatch(flow, pos) => {
            Ok(Stmt::TryCatch(renamed_flow(alloc, names, flow.get())?, *pos))
        }
        Stmt::Expr(expr) => Ok(Stmt::Expr(renamed_boxed(alloc, names, expr.get())?)),
        Stmt::BreakLoop(value, flags, pos) => {
            Ok(Stmt::BreakLoop(renamed_maybe(alloc, names, value)?, *flags, *pos))
        }
        Stmt::Return(value, flags, pos) => {
            Ok(Stmt::Return(renamed_maybe(alloc, names, value)?, *flags, *pos))
        }
        Stmt::Import(parts, pos) => {
            Ok(Stmt::Import(renamed_import(alloc, names, parts.get())?, *pos))
        }
    }
}

#[cycle(renamed)]
fn renamed_boxed(alloc: Global, names: &Names, expr: &Expr) -> Result<Boxed<Expr>, OutOfMemory>
    ensures { IfOk result (λ e. expr_of e ≡ new.renamed_expr (stands names.now) (expr_of expr.now)) }
{
    Ok(Boxed::new(alloc, renamed_expr(alloc, names, expr)?)?)
}

#[cycle(renamed)]
fn renamed_maybe(
    alloc: Global,
    names: &Names,
    value: &Option<Boxed<Expr>>,
) -> Result<Option<Boxed<Expr>>, OutOfMemory>
    ensures { IfOk result (λ e. maybe_of e ≡ new.renamed_maybe (stands names.now) (maybe_of value.now)) }
{
    match value {
        Some(expr) => Ok(Some(renamed_boxed(alloc, names, expr.get())?)),
        None => Ok(None),
    }
}

#[cycle(renamed)]
fn renamed_parts(
    alloc: Global,
    names: &Names,
    flow: &FlowControl,
) -> Result<FlowControl, OutOfMemory>
    ensures expr { IfOk result (λ f. expr_of f.expr ≡ new.renamed_expr (stands names.now) (expr_of flow.now.expr)) }
    ensures body { IfOk result (λ f.
        stmts_of f.body.block ≡ new.renamed_stmts (stands names.now) (stmts_of flow.now.body.block)) }
    ensures branch { IfOk result (λ f.
        stmts_of f.branch.block ≡ new.renamed_stmts (stands names.now) (stmts_of flow.now.branch.block)) }
{
    let expr = renamed_expr(alloc, names, &flow.expr)?;
    let start = both(expr, renamed_block(alloc, names, &flow.body))?;
    let ((expr, body), branch) = both(start, renamed_block(alloc, names, &flow.branch))?;
    Ok(FlowControl { expr, body, branch })
}

#[cycle(renamed)]
fn renamed_flow(
    alloc: Global,
    names: &Names,
    flow: &FlowControl,
) -> Result<Boxed<FlowControl>, OutOfMemory>
    ensures expr { IfOk result (λ f. expr_of f.expr ≡ new.renamed_expr (stands names.now) (expr_of flow.now.expr)) }
    ensures body { IfOk result (λ f.
        stmts_of f.body.block ≡ new.renamed_stmts (stands names.now) (stmts_of flow.now.body.block)) }
    ensures branch { IfOk result (λ f.
        stmts_of f.branch.block ≡ new.renamed_stmts (stands names.now) (stmts_of flow.now.branch.block)) }
{
    Ok(Boxed::new(alloc, renamed_parts(alloc, names, flow)?)?)
}

#[cycle(renamed)]
fn renamed_for(
    alloc: Global,
    names: &Names,
    parts: &(Ident, Option<Ident>, FlowControl),
) -> Result<Boxed<(Ident, Option<Ident>, FlowControl)>, OutOfMemory>
    ensures names { IfOk result (λ p. (p.0 ≡ parts.now.0) × (p.1 ≡ parts.now.1)) }
    ensures expr { IfOk result (λ p.
        expr_of p.2.expr ≡ new.renamed_expr (stands names.now) (expr_of parts.now.2.expr)) }
    ensures body { IfOk result (λ p.
        stmts_of p.2.body.block ≡ new.renamed_stmts (stands names.now) (stmts_of parts.now.2.body.block)) }
{
    let name = parts.0.clone()?;
    let counter = parts.1.clone()?;
    let flow = renamed_parts(alloc, names, &parts.2)?;
    Ok(Boxed::new(alloc, (name, counter, flow))?)
}

#[cycle(renamed)]
fn renamed_var(
    alloc: Global,
    names: &Names,
    parts: &(Ident, Expr, Option<NonZeroUsize>),
) -> Result<Boxed<(Ident, Expr, Option<NonZeroUsize>)>, OutOfMemory>
    ensures name { IfOk result (λ p. p.0 ≡ parts.now.0) }
    ensures value { IfOk result (λ p. expr_of p.1 ≡ new.renamed_expr (stands names.now) (expr_of parts.now.1)) }
{
    let value = renamed_expr(alloc, names, &parts.1)?;
    let (value, name) = both(value, parts.0.clone())?;
    Ok(Boxed::new(alloc, (name, value, parts.2))?)
}

#[cycle(renamed)]
fn renamed_assignment(
    alloc: Global,
    names: &Names,
    parts: &(OpAssignment, BinaryExpr),
) -> Result<Boxed<(OpAssignment, BinaryExpr)>, OutOfMemory>
    ensures op { IfOk result (λ p. p.0 ≡ parts.now.0) }
    ensures lhs { IfOk result (λ p. expr_of p.1.lhs ≡ new.renamed_expr (stands names.now) (expr_of parts.now.1.lhs)) }
    ensures rhs { IfOk result (λ p. expr_of p.1.rhs ≡ new.renamed_expr (stands names.now) (expr_of parts.now.1.rhs)) }
{
    let sides = renamed_sides(alloc, names, &parts.1)?;
    Ok(Boxed::new(alloc, (parts.0, sides))?)
}

#[cycle(renamed)]
fn renamed_import(
    alloc: Global,
    names: &Names,
    parts: &(Expr, Ident),
) -> Result<Boxed<(Expr, Ident)>, OutOfMemory>
    ensures path { IfOk result (λ p. expr_of p.0 ≡ new.renamed_expr (stands names.now) (expr_of parts.now.0)) }
    ensures alias { IfOk result (λ p. p.1 ≡ parts.now.1) }
{
    let path = renamed_expr(alloc, names, &parts.0)?;
    Ok(Boxed::new(alloc, both(path, parts.1.clone())?)?)
}

#[cycle(renamed)]
fn renamed_arms(
    alloc: Global,
    names: &Names,
    arms: &[BinaryExpr],
) -> Result<Seq<BinaryExpr>, OutOfMemory>
    ensures { IfOk result (λ made. arms_of made ≡ new.renamed_arms (stands names.now) (arms_of arms.now)) }
{
    let mut copies = Seq::with_capacity(alloc, arms.len())?;
    for arm in arms {
        let (items, item) = both(copies, renamed_sides(alloc, names, arm))?;
        copies = pushed(items, item)?;
    }
    Ok(copies)
}

#[cycle(renamed)]
fn renamed_switch(
    alloc: Global,
    names: &Names,
    switch: &SwitchBlock,
) -> Result<Boxed<SwitchBlock>, OutOfMemory>
    ensures subject { IfOk result (λ s.
        expr_of (subject_of s) ≡ new.renamed_expr (stands names.now) (expr_of (subject_of switch.now))) }
    ensures arms { IfOk result (λ s.
        arms_of (expressions_of (cases_of s))
        ≡ new.renamed_arms (stands names.now) (arms_of (expressions_of (cases_of switch.now)))) }
    ensures table { IfOk result (λ s. table_of (cases_of s) ≡ table_of (cases_of switch.now)) }
{
    let expr = renamed_expr(alloc, names, &switch.expr)?;
    let arms = renamed_arms(alloc, names, switch.cases.expressions.as_slice());
    let (expr, arms) = both(expr, arms)?;
    let (expr, cases) = both(expr, table_with(&switch.cases, arms))?;
    Ok(Boxed::new(alloc, SwitchBlock { expr, cases })?)
}

/// A table with these arms in the place of its own.
fn table_with(
    table: &SwitchCasesCollection,
    arms: Seq<BinaryExpr>,
) -> Result<SwitchCasesCollection, OutOfMemory>
    ensures arms { IfOk result (λ t. expressions_of t ≡ arms) }
    ensures table { IfOk result (λ t. table_of t ≡ table_of table.now) }
{
    let (arms, cases) = both(arms, table.cases.clone())?;
    let ((arms, cases), ranges) = both((arms, cases), copy_ranges(&table.ranges))?;
    Ok(SwitchCasesCollection {
        expressions: arms,
        cases,
        ranges,
        def_case: table.def_case,
    })
}

#[tactic(auto, using(base_lists::proofs::Copies::copies))]
fn copy_ranges(ranges: &Seq<RangeCase>) -> Result<Seq<RangeCase>, OutOfMemory>
    ensures { IfOk result (λ rs. rs ≡ ranges.now) }
{
    Ok(ranges.clone()?)
}
