//! Copies of trees.
//!
//! No function here holds a copy while it makes the next one: what is dropped after a refusal is dropped by
//! `both` and `pushed`, which know no tree. A function that drops trees is dear to prove.
ghost use Rattle.std.specs.Prelude.{◌≡◌, ◌++◌, ◌∷◌, [], IfOk, Ok};

use crate::{
    BinaryExpr, Expr, FlowControl, FnCallExpr, Stmt, StmtBlock, SwitchBlock, SwitchCasesCollection,
};
use rhai_base::{
    Boxed, Dynamic, Ident, ImmutableString, Namespace, OpAssignment, RangeCase, Seq, StringMap,
};
use std::alloc::AllocError;
use std::num::NonZeroUsize;

impl Clone for Expr {
    ghost is_clone = { λ e f. f ≡ e };

    fn clone(&self) -> Result<Expr, AllocError> {
        copy_expr(self)
    }
}

impl Clone for Stmt {
    ghost is_clone = { λ s t. t ≡ s };

    fn clone(&self) -> Result<Stmt, AllocError> {
        copy_stmt(self)
    }
}

impl Clone for BinaryExpr {
    ghost is_clone = { λ a b. b ≡ a };

    fn clone(&self) -> Result<BinaryExpr, AllocError> {
        copy_sides(self)
    }
}

impl Clone for FnCallExpr {
    ghost is_clone = { λ a b. b ≡ a };

    fn clone(&self) -> Result<FnCallExpr, AllocError> {
        copy_call(self)
    }
}

impl Clone for StmtBlock {
    ghost is_clone = { λ a b. b ≡ a };

    fn clone(&self) -> Result<StmtBlock, AllocError> {
        copy_block(self)
    }
}

impl Clone for FlowControl {
    ghost is_clone = { λ a b. b ≡ a };

    fn clone(&self) -> Result<FlowControl, AllocError> {
        copy_flow(self)
    }
}

impl Clone for SwitchCasesCollection {
    ghost is_clone = { λ a b. b ≡ a };

    fn clone(&self) -> Result<SwitchCasesCollection, AllocError> {
        copy_table(self)
    }
}

impl Clone for SwitchBlock {
    ghost is_clone = { λ a b. b ≡ a };

    fn clone(&self) -> Result<SwitchBlock, AllocError> {
        copy_switch(self)
    }
}

/// What was made before beside what is made next, where that is not refused.
pub(crate) fn both<A: Drop, B>(
    first: A,
    second: Result<B, AllocError>,
) -> Result<(A, B), AllocError>
    ensures { IfOk result (λ p. (p.0 ≡ first) × (second ≡ Ok p.1)) }
{
    Ok((first, second?))
}

/// The items and one more.
fn pushed<T: Drop>(mut items: Seq<T>, item: T) -> Result<Seq<T>, AllocError>
    ensures { IfOk result (λ longer. longer ≡ items ++ item ∷ []) }
{
    items.push(item)?;
    Ok(items)
}

#[cycle(copy)]
fn copy_expr(expr: &Expr) -> Result<Expr, AllocError>
    ensures { IfOk result (λ e. e ≡ expr.now) }
{
    match expr {
        Expr::DynamicConstant(value, pos) => {
            Ok(Expr::DynamicConstant(copy_boxed_value(value)?, *pos))
        }
        Expr::BoolConstant(b, pos) => Ok(Expr::BoolConstant(*b, *pos)),
        Expr::IntegerConstant(n, pos) => Ok(Expr::IntegerConstant(*n, *pos)),
        Expr::FloatConstant(x, pos) => Ok(Expr::FloatConstant(*x, *pos)),
        Expr::CharConstant(c, pos) => Ok(Expr::CharConstant(*c, *pos)),
        Expr::StringConstant(text, pos) => Ok(Expr::StringConstant(text.clone()?, *pos)),
        Expr::InterpolatedString(parts, pos) => {
            Ok(Expr::InterpolatedString(copy_boxed_exprs(parts)?, *pos))
        }
        Expr::Array(items, pos) => Ok(Expr::Array(copy_boxed_exprs(items)?, *pos)),
        Expr::Map(map, pos) => {
            let pairs = copy_pairs(&map.get().0)?;
            Ok(Expr::Map(copy_map(pairs, map)?, *pos))
        }
        Expr::Unit(pos) => Ok(Expr::Unit(*pos)),
        Expr::Variable(parts, short, pos) => {
            Ok(Expr::Variable(copy_variable(parts)?, *short, *pos))
        }
        Expr::ThisPtr(pos) => Ok(Expr::ThisPtr(*pos)),
        Expr::Property(names, pos) => Ok(Expr::Property(copy_names(names)?, *pos)),
        Expr::MethodCall(call, pos) => Ok(Expr::MethodCall(copy_boxed_call(call)?, *pos)),
        Expr::Stmt(block) => Ok(Expr::Stmt(copy_boxed_block(block)?)),
        Expr::FnCall(call, pos) => Ok(Expr::FnCall(copy_boxed_call(call)?, *pos)),
        Expr::Dot(sides, flags, pos) => Ok(Expr::Dot(copy_boxed_sides(sides)?, *flags, *pos)),
        Expr::Index(sides, flags, pos) => Ok(Expr::Index(copy_boxed_sides(sides)?, *flags, *pos)),
        Expr::And(operands, pos) => Ok(Expr::And(copy_boxed_exprs(operands)?, *pos)),
        Expr::Or(operands, pos) => Ok(Expr::Or(copy_boxed_exprs(operands)?, *pos)),
        Expr::Coalesce(operands, pos) => Ok(Expr::Coalesce(copy_boxed_exprs(operands)?, *pos)),
    }
}

#[tactic(auto, using(base_lists::proofs::Copies::copies))]
#[inline(never)]
fn copy_boxed_value(value: &Boxed<Dynamic>) -> Result<Boxed<Dynamic>, AllocError>
    ensures { IfOk result (λ v. v ≡ value.now) }
{
    value.clone()
}

#[inline(never)]
fn copy_variable(
    parts: &Boxed<(Option<NonZeroUsize>, ImmutableString, Namespace)>,
) -> Result<Boxed<(Option<NonZeroUsize>, ImmutableString, Namespace)>, AllocError>
    ensures { IfOk result (λ p. p ≡ parts.now) }
{
    let (index, name, namespace) = parts.get();
    let name = name.clone()?;
    let namespace = namespace.clone()?;
    Boxed::new(parts.allocator(), (*index, name, namespace))
}

#[inline(never)]
fn copy_names(
    names: &Boxed<(ImmutableString, ImmutableString, ImmutableString)>,
) -> Result<Boxed<(ImmutableString, ImmutableString, ImmutableString)>, AllocError>
    ensures { IfOk result (λ n. n ≡ names.now) }
{
    let (getter, setter, name) = names.get();
    let getter = getter.clone()?;
    let setter = setter.clone()?;
    let name = name.clone()?;
    Boxed::new(names.allocator(), (getter, setter, name))
}

/// A map whose pairs were copied before, as they are what is copied by recursion.
#[inline(never)]
fn copy_map(
    pairs: Seq<(Ident, Expr)>,
    map: &Boxed<(Seq<(Ident, Expr)>, StringMap<Dynamic>)>,
) -> Result<Boxed<(Seq<(Ident, Expr)>, StringMap<Dynamic>)>, AllocError>
    ensures { IfOk result (λ m. (m.0 ≡ pairs) × (m.1 ≡ map.now.1)) }
{
    Boxed::new(map.allocator(), both(pairs, map.get().1.clone())?)
}

#[cycle(copy)]
fn copy_exprs(exprs: &Seq<Expr>) -> Result<Seq<Expr>, AllocError>
    ensures { IfOk result (λ es. es ≡ exprs.now) }
{
    let mut copies = exprs.emptied()?;
    for expr in exprs.as_slice() {
        let (items, item) = both(copies, copy_expr(expr))?;
        copies = pushed(items, item)?;
    }
    Ok(copies)
}

#[cycle(copy)]
#[inline(never)]
fn copy_boxed_exprs(exprs: &Boxed<Seq<Expr>>) -> Result<Boxed<Seq<Expr>>, AllocError>
    ensures { IfOk result (λ es. es ≡ exprs.now) }
{
    Boxed::new(exprs.allocator(), copy_exprs(exprs.get())?)
}

#[cycle(copy)]
#[inline(never)]
fn copy_pairs(pairs: &Seq<(Ident, Expr)>) -> Result<Seq<(Ident, Expr)>, AllocError>
    ensures { IfOk result (λ ps. ps ≡ pairs.now) }
{
    let mut copies = pairs.emptied()?;
    for pair in pairs.as_slice() {
        let start = both(copies, copy_expr(&pair.1))?;
        let ((items, item), name) = both(start, pair.0.clone())?;
        copies = pushed(items, (name, item))?;
    }
    Ok(copies)
}

#[cycle(copy)]
#[inline(never)]
fn copy_boxed_expr(expr: &Boxed<Expr>) -> Result<Boxed<Expr>, AllocError>
    ensures { IfOk result (λ e. e ≡ expr.now) }
{
    Boxed::new(expr.allocator(), copy_expr(expr.get())?)
}

#[cycle(copy)]
#[inline(never)]
fn copy_optional_expr(expr: &Option<Boxed<Expr>>) -> Result<Option<Boxed<Expr>>, AllocError>
    ensures { IfOk result (λ e. e ≡ expr.now) }
{
    match expr {
        Some(expr) => Ok(Some(Boxed::new(expr.allocator(), copy_expr(expr.get())?)?)),
        None => Ok(None),
    }
}

#[cycle(copy)]
fn copy_sides(sides: &BinaryExpr) -> Result<BinaryExpr, AllocError>
    ensures { IfOk result (λ s. s ≡ sides.now) }
{
    let (lhs, rhs) = both(copy_expr(&sides.lhs)?, copy_expr(&sides.rhs))?;
    Ok(BinaryExpr { lhs, rhs })
}

#[cycle(copy)]
#[inline(never)]
fn copy_boxed_sides(sides: &Boxed<BinaryExpr>) -> Result<Boxed<BinaryExpr>, AllocError>
    ensures { IfOk result (λ s. s ≡ sides.now) }
{
    Boxed::new(sides.allocator(), copy_sides(sides.get())?)
}

#[cycle(copy)]
fn copy_call(call: &FnCallExpr) -> Result<FnCallExpr, AllocError>
    ensures { IfOk result (λ c. c ≡ call.now) }
{
    let path = both(call.namespace.clone()?, call.name.clone())?;
    let ((namespace, name), args) = both(path, copy_exprs(&call.args))?;
    Ok(FnCallExpr {
        namespace,
        name,
        args,
        capture_parent_scope: call.capture_parent_scope,
        op_token: call.op_token,
    })
}

#[cycle(copy)]
#[inline(never)]
fn copy_boxed_call(call: &Boxed<FnCallExpr>) -> Result<Boxed<FnCallExpr>, AllocError>
    ensures { IfOk result (λ c. c ≡ call.now) }
{
    Boxed::new(call.allocator(), copy_call(call.get())?)
}

#[cycle(copy)]
fn copy_block(block: &StmtBlock) -> Result<StmtBlock, AllocError>
    ensures { IfOk result (λ b. b ≡ block.now) }
{
    Ok(StmtBlock {
        block: copy_stmts(&block.block)?,
        span: block.span,
    })
}

#[cycle(copy)]
#[inline(never)]
fn copy_boxed_block(block: &Boxed<StmtBlock>) -> Result<Boxed<StmtBlock>, AllocError>
    ensures { IfOk result (λ b. b ≡ block.now) }
{
    Boxed::new(block.allocator(), copy_block(block.get())?)
}

#[cycle(copy)]
fn copy_stmts(stmts: &Seq<Stmt>) -> Result<Seq<Stmt>, AllocError>
    ensures { IfOk result (λ ss. ss ≡ stmts.now) }
{
    let mut copies = stmts.emptied()?;
    for stmt in stmts.as_slice() {
        let (items, item) = both(copies, copy_stmt(stmt))?;
        copies = pushed(items, item)?;
    }
    Ok(copies)
}

#[cycle(copy)]
fn copy_stmt(stmt: &Stmt) -> Result<Stmt, AllocError>
    ensures { IfOk result (λ s. s ≡ stmt.now) }
{
    match stmt {
        Stmt::Noop(pos) => Ok(Stmt::Noop(*pos)),
        Stmt::If(flow, pos) => Ok(Stmt::If(copy_boxed_flow(flow)?, *pos)),
        Stmt::Switch(switch, pos) => Ok(Stmt::Switch(copy_boxed_switch(switch)?, *pos)),
        Stmt::While(flow, pos) => Ok(Stmt::While(copy_boxed_flow(flow)?, *pos)),
        Stmt::Do(flow, flags, pos) => Ok(Stmt::Do(copy_boxed_flow(flow)?, *flags, *pos)),
        Stmt::For(parts, pos) => Ok(Stmt::For(copy_for(parts)?, *pos)),
        Stmt::Var(parts, flags, pos) => Ok(Stmt::Var(copy_var(parts)?, *flags, *pos)),
        Stmt::Assignment(parts) => Ok(Stmt::Assignment(copy_assignment(parts)?)),
        Stmt::FnCall(call, pos) => Ok(Stmt::FnCall(copy_boxed_call(call)?, *pos)),
        Stmt::Block(block) => Ok(Stmt::Block(copy_boxed_block(block)?)),
        Stmt::TryCatch(flow, pos) => Ok(Stmt::TryCatch(copy_boxed_flow(flow)?, *pos)),
        Stmt::Expr(expr) => Ok(Stmt::Expr(copy_boxed_expr(expr)?)),
        Stmt::BreakLoop(expr, flags, pos) => {
            Ok(Stmt::BreakLoop(copy_optional_expr(expr)?, *flags, *pos))
        }
        Stmt::Return(expr, flags, pos) => {
            Ok(Stmt::Return(copy_optional_expr(expr)?, *flags, *pos))
        }
        Stmt::Import(parts, pos) => Ok(Stmt::Import(copy_import(parts)?, *pos)),
        Stmt::Export(names, pos) => Ok(Stmt::Export(copy_export(names)?, *pos)),
        Stmt::Share(names) => Ok(Stmt::Share(copy_shared(names)?)),
    }
}

#[cycle(copy)]
fn copy_flow(flow: &FlowControl) -> Result<FlowControl, AllocError>
    ensures { IfOk result (λ f. f ≡ flow.now) }
{
    let start = both(copy_expr(&flow.expr)?, copy_block(&flow.body))?;
    let ((expr, body), branch) = both(start, copy_block(&flow.branch))?;
    Ok(FlowControl { expr, body, branch })
}

#[cycle(copy)]
#[inline(never)]
fn copy_boxed_flow(flow: &Boxed<FlowControl>) -> Result<Boxed<FlowControl>, AllocError>
    ensures { IfOk result (λ f. f ≡ flow.now) }
{
    Boxed::new(flow.allocator(), copy_flow(flow.get())?)
}

#[cycle(copy)]
#[inline(never)]
fn copy_for(
    parts: &Boxed<(Ident, Option<Ident>, FlowControl)>,
) -> Result<Boxed<(Ident, Option<Ident>, FlowControl)>, AllocError>
    ensures { IfOk result (λ p. p ≡ parts.now) }
{
    let (name, counter, flow) = parts.get();
    let names = both(name.clone()?, counter.clone())?;
    let ((name, counter), flow) = both(names, copy_flow(flow))?;
    Boxed::new(parts.allocator(), (name, counter, flow))
}

#[cycle(copy)]
#[inline(never)]
fn copy_var(
    parts: &Boxed<(Ident, Expr, Option<NonZeroUsize>)>,
) -> Result<Boxed<(Ident, Expr, Option<NonZeroUsize>)>, AllocError>
    ensures { IfOk result (λ p. p ≡ parts.now) }
{
    let (name, expr, index) = parts.get();
    let (name, expr) = both(name.clone()?, copy_expr(expr))?;
    Boxed::new(parts.allocator(), (name, expr, *index))
}

#[cycle(copy)]
#[inline(never)]
fn copy_assignment(
    parts: &Boxed<(OpAssignment, BinaryExpr)>,
) -> Result<Boxed<(OpAssignment, BinaryExpr)>, AllocError>
    ensures { IfOk result (λ p. p ≡ parts.now) }
{
    let (op, sides) = parts.get();
    Boxed::new(parts.allocator(), (*op, copy_sides(sides)?))
}

#[cycle(copy)]
#[inline(never)]
fn copy_import(parts: &Boxed<(Expr, Ident)>) -> Result<Boxed<(Expr, Ident)>, AllocError>
    ensures { IfOk result (λ p. p ≡ parts.now) }
{
    let (path, alias) = parts.get();
    Boxed::new(parts.allocator(), both(copy_expr(path)?, alias.clone())?)
}

#[inline(never)]
fn copy_export(names: &Boxed<(Ident, Ident)>) -> Result<Boxed<(Ident, Ident)>, AllocError>
    ensures { IfOk result (λ n. n ≡ names.now) }
{
    let (name, alias) = names.get();
    Boxed::new(names.allocator(), both(name.clone()?, alias.clone())?)
}

#[inline(never)]
fn copy_shared(
    names: &Boxed<Seq<(Ident, Option<NonZeroUsize>)>>,
) -> Result<Boxed<Seq<(Ident, Option<NonZeroUsize>)>>, AllocError>
    ensures { IfOk result (λ n. n ≡ names.now) }
{
    let mut copies = names.get().emptied()?;
    for pair in names.get().as_slice() {
        let name = pair.0.clone()?;
        copies.push((name, pair.1))?;
    }
    Boxed::new(names.allocator(), copies)
}

#[cycle(copy)]
#[inline(never)]
fn copy_boxed_switch(switch: &Boxed<SwitchBlock>) -> Result<Boxed<SwitchBlock>, AllocError>
    ensures { IfOk result (λ s. s ≡ switch.now) }
{
    Boxed::new(switch.allocator(), copy_switch(switch.get())?)
}

#[cycle(copy)]
fn copy_switch(switch: &SwitchBlock) -> Result<SwitchBlock, AllocError>
    ensures { IfOk result (λ s. s ≡ switch.now) }
{
    let (expr, cases) = both(copy_expr(&switch.expr)?, copy_table(&switch.cases))?;
    Ok(SwitchBlock { expr, cases })
}

#[cycle(copy)]
fn copy_table(table: &SwitchCasesCollection) -> Result<SwitchCasesCollection, AllocError>
    ensures { IfOk result (λ t. t ≡ table.now) }
{
    let start = both(copy_arms(&table.expressions)?, table.cases.clone())?;
    let ((expressions, cases), ranges) = both(start, copy_ranges(&table.ranges))?;
    Ok(SwitchCasesCollection {
        expressions,
        cases,
        ranges,
        def_case: table.def_case,
    })
}

#[tactic(auto, using(base_lists::proofs::Copies::copies))]
fn copy_ranges(ranges: &Seq<RangeCase>) -> Result<Seq<RangeCase>, AllocError>
    ensures { IfOk result (λ rs. rs ≡ ranges.now) }
{
    ranges.clone()
}

#[cycle(copy)]
fn copy_arms(arms: &Seq<BinaryExpr>) -> Result<Seq<BinaryExpr>, AllocError>
    ensures { IfOk result (λ bs. bs ≡ arms.now) }
{
    let mut copies = arms.emptied()?;
    for arm in arms.as_slice() {
        let (items, item) = both(copies, copy_sides(arm))?;
        copies = pushed(items, item)?;
    }
    Ok(copies)
}
