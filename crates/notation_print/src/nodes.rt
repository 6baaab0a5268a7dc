//! Nodes in the notation.
#![tactic(auto, using(ast_types::specs::Reading::shapes, ast_types::proofs::ItemLists::steps, crate::proofs::Guards::nodes))]

ghost use Rattle.std.specs.Prelude.{◌≡◌, ◌++◌, [], OnOk, codes, string_bytes};
ghost use Rattle.rhai_base.specs.Builtin.{operator_of};
ghost use Rattle.ast_types.specs.Reading.{arms_of, breaks, callee_of, cases_of, chain_flags, counter_of, expr_of, expressions_of, exprs_of, is_const, is_exported, is_negated, maybe_of, pairs_of, shared_names, stmt_of, stmts_of, subject_of, table_of};
ghost use Rattle.theory_meaning.specs.Tree.{Assignment, Block, BreakLoop, Do, Export, FnCallStmt, For, If, Import, Return, Share, Switch, TryCatch, Var, While};
ghost use Rattle.notation_print.specs.Nodes.{after_word, arms_text, block_text, call_text, expr_text, exprs_text, flags_text, guard_text, pairs_text, stmt_text, stmts_text};

use crate::constants::{
    push_bool, push_char, push_float, push_integer, push_quoted, push_unit, push_value,
};
use crate::names::{
    push_assigning, push_callee, push_catch, push_declaration, push_flags, push_loop_names,
    push_qualified, push_shared, push_word,
};
use crate::tables::push_table;
use bitflags::Flags;
use rhai_ast::{
    BinaryExpr, Expr, ExprQueries, FlowControl, FnCallExpr, Stmt, StmtBlock, SwitchBlock,
};
use rhai_base::{ASTFlags, Boxed, Ident, OpAssignment, OutOfMemory};
use std::num::NonZeroUsize;

/// Appends an expression.
#[cycle(nodes)]
pub fn push_expr(expr: &Expr, text: &mut String) -> Result<(), OutOfMemory>
    ensures { OnOk result (string_bytes text.new ≡ string_bytes text.old ++ expr_text (expr_of expr.now)) }
{
    match expr {
        Expr::DynamicConstant(value, _) => push_value(value.get(), text),
        Expr::BoolConstant(value, _) => push_bool(*value, text),
        Expr::IntegerConstant(value, _) => push_integer(*value, text),
        Expr::FloatConstant(value, _) => push_float(*value, text),
        Expr::CharConstant(value, _) => push_char(*value, text),
        Expr::StringConstant(value, _) => push_quoted(value.as_str(), text),
        Expr::InterpolatedString(parts, _) => push_list("text(", parts.get().as_slice(), ")", text),
        Expr::Array(items, _) => push_list("[", items.get().as_slice(), "]", text),
        Expr::Map(map, _) => push_map(map.get().0.as_slice(), text),
        Expr::Unit(_) => push_unit(text),
        Expr::Variable(parts, _, _) => {
            push_qualified(&parts.get().2, parts.get().1.as_str(), text)
        }
        Expr::ThisPtr(_) => push_word("this", text),
        Expr::Property(names, _) => push_word(names.get().2.as_str(), text),
        Expr::MethodCall(call, _) | Expr::FnCall(call, _) => push_call(call.get(), text),
        Expr::Stmt(block) => push_block(block.get(), text),
        Expr::Dot(sides, options, _) => push_step("Dot", sides.get(), *options, text),
        Expr::Index(sides, options, _) => push_step("Index", sides.get(), *options, text),
        Expr::And(operands, _) => push_list("and(", operands.get().as_slice(), ")", text),
        Expr::Or(operands, _) => push_list("or(", operands.get().as_slice(), ")", text),
        Expr::Coalesce(operands, _) => {
            push_list("coalesce(", operands.get().as_slice(), ")", text)
        }
    }
}

/// Appends expressions between two marks.
#[cycle(nodes)]
fn push_list(
    before: &str,
    exprs: &[Expr],
    after: &str,
    text: &mut String,
) -> Result<(), OutOfMemory>
    ensures { OnOk result
        (string_bytes text.new
        ≡ string_bytes text.old ++ (before.now ++ exprs_text [] (exprs_of exprs.now) ++ after.now)) }
{
    text.push_str(before)?;
    push_exprs(exprs, text)?;
    push_word(after, text)
}

/// Appends an expression after a mark.
#[cycle(nodes)]
fn push_after(before: &str, expr: &Expr, text: &mut String) -> Result<(), OutOfMemory>
    ensures { OnOk result
        (string_bytes text.new ≡ string_bytes text.old ++ (before.now ++ expr_text (expr_of expr.now))) }
{
    text.push_str(before)?;
    push_expr(expr, text)
}

/// Appends expressions with commas between them.
#[cycle(nodes)]
fn push_exprs(exprs: &[Expr], text: &mut String) -> Result<(), OutOfMemory>
    ensures { OnOk result (string_bytes text.new ≡ string_bytes text.old ++ exprs_text [] (exprs_of exprs.now)) }
{
    let mut before = "";
    for expr in exprs {
        push_after(before, expr, text)?;
        before = ", ";
    }
    Ok(())
}

#[cycle(nodes)]
fn push_map(pairs: &[(Ident, Expr)], text: &mut String) -> Result<(), OutOfMemory>
    ensures { OnOk result
        (string_bytes text.new
        ≡ string_bytes text.old ++ (codes "#{" ++ pairs_text [] (pairs_of pairs.now) ++ codes "}")) }
{
    text.push_str("#{")?;
    push_pairs(pairs, text)?;
    push_word("}", text)
}

/// Appends pairs with commas between them.
#[cycle(nodes)]
fn push_pairs(pairs: &[(Ident, Expr)], text: &mut String) -> Result<(), OutOfMemory>
    ensures { OnOk result (string_bytes text.new ≡ string_bytes text.old ++ pairs_text [] (pairs_of pairs.now)) }
{
    let mut before = "";
    for pair in pairs {
        text.push_str(before)?;
        text.push_str(pair.0.as_str())?;
        push_after(": ", &pair.1, text)?;
        before = ", ";
    }
    Ok(())
}

#[cycle(nodes)]
fn push_call(call: &FnCallExpr, text: &mut String) -> Result<(), OutOfMemory>
    ensures { OnOk result
        (string_bytes text.new ≡ string_bytes text.old ++ call_text (callee_of call.now) (exprs_of call.now.args)) }
{
    push_callee(call, text)?;
    push_list("(", call.args.as_slice(), ")", text)
}

/// Appends a step of a chain.
#[cycle(nodes)]
fn push_step(
    word: &str,
    sides: &BinaryExpr,
    options: ASTFlags,
    text: &mut String,
) -> Result<(), OutOfMemory>
    ensures { OnOk result
        (string_bytes text.new
        ≡ string_bytes text.old
        ++ (word.now ++ flags_text (chain_flags options)
        ++ codes
        "(" ++ expr_text (expr_of sides.now.lhs) ++ codes ", " ++ expr_text (expr_of sides.now.rhs)
        ++ codes ")")) }
{
    text.push_str(word)?;
    push_flags(options, text)?;
    push_after("(", &sides.lhs, text)?;
    push_after(", ", &sides.rhs, text)?;
    push_word(")", text)
}

/// Appends a statement.
#[cycle(nodes)]
pub fn push_stmt(stmt: &Stmt, text: &mut String) -> Result<(), OutOfMemory>
    ensures { OnOk result (string_bytes text.new ≡ string_bytes text.old ++ stmt_text (stmt_of stmt.now)) }
{
    match stmt {
        Stmt::Noop(_) => push_word("noop", text),
        Stmt::If(flow, _) => push_if(flow.get(), text),
        Stmt::Switch(switch, _) => push_switch(switch.get(), text),
        Stmt::While(flow, _) => push_while(flow.get(), text),
        Stmt::Do(flow, options, _) => push_do(flow.get(), *options, text),
        Stmt::For(parts, _) => push_for(parts.get(), text),
        Stmt::Var(parts, options, _) => push_var(&parts.get().0, &parts.get().1, *options, text),
        Stmt::Assignment(parts) => push_assignment(parts.get(), text),
        Stmt::FnCall(call, _) => push_called(call.get(), text),
        Stmt::Block(block) => push_inner_block(block.get(), text),
        Stmt::TryCatch(flow, _) => push_try(flow.get(), text),
        Stmt::Expr(expr) => push_expr(expr.get(), text),
        Stmt::BreakLoop(value, options, _) => push_break(value, *options, text),
        Stmt::Return(value, options, _) => push_return(value, *options, text),
        Stmt::Import(parts, _) => push_import(&parts.get().0, &parts.get().1, text),
        Stmt::Export(names, _) => push_export(&names.get().0, &names.get().1, text),
        Stmt::Share(names) => push_share(names.get().as_slice(), text),
    }
}

#[cycle(nodes)]
fn push_if(flow: &FlowControl, text: &mut String) -> Result<(), OutOfMemory>
    ensures { OnOk result
        (string_bytes text.new
        ≡ string_bytes text.old
        ++ stmt_text
        (If (expr_of flow.now.expr) (stmts_of flow.now.body.block) (stmts_of flow.now.branch.block))) }
{
    push_after("if ", &flow.expr, text)?;
    push_block_after(" ", &flow.body, text)?;
    push_block_after(" else ", &flow.branch, text)
}

#[cycle(nodes)]
fn push_switch(switch: &SwitchBlock, text: &mut String) -> Result<(), OutOfMemory>
    ensures { OnOk result
        (string_bytes text.new
        ≡ string_bytes text.old
        ++ stmt_text
        (Switch (expr_of (subject_of switch.now)) (arms_of (expressions_of (cases_of switch.now)))
        (table_of (cases_of switch.now)))) }
{
    push_after("switch ", &switch.expr, text)?;
    text.push_str(" { ")?;
    push_table(&switch.cases, text)?;
    text.push_str(" | ")?;
    push_arms(switch.cases.expressions.as_slice(), text)?;
    push_word(" }", text)
}

/// Appends arms with commas between them.
#[cycle(nodes)]
fn push_arms(arms: &[BinaryExpr], text: &mut String) -> Result<(), OutOfMemory>
    ensures { OnOk result (string_bytes text.new ≡ string_bytes text.old ++ arms_text [] (arms_of arms.now)) }
{
    let mut before = "";
    for arm in arms {
        push_after(before, &arm.lhs, text)?;
        push_after(" => ", &arm.rhs, text)?;
        before = ", ";
    }
    Ok(())
}

#[cycle(nodes)]
fn push_while(flow: &FlowControl, text: &mut String) -> Result<(), OutOfMemory>
    ensures { OnOk result
        (string_bytes text.new
        ≡ string_bytes text.old ++ stmt_text (While (expr_of flow.now.expr) (stmts_of flow.now.body.block))) }
{
    push_guard(&flow.expr, text)?;
    push_block(&flow.body, text)
}

/// Appends the guard of a loop; `()` has the word `loop`.
#[cycle(nodes)]
fn push_guard(guard: &Expr, text: &mut String) -> Result<(), OutOfMemory>
    ensures { OnOk result (string_bytes text.new ≡ string_bytes text.old ++ guard_text (expr_of guard.now)) }
{
    if guard.is_unit() {
        return push_word("loop ", text);
    }
    push_after("while ", guard, text)?;
    push_word(" ", text)
}

#[cycle(nodes)]
fn push_do(flow: &FlowControl, options: ASTFlags, text: &mut String) -> Result<(), OutOfMemory>
    ensures { OnOk result
        (string_bytes text.new
        ≡ string_bytes text.old
        ++ stmt_text
        (Do (is_negated options) (is_exported options) (expr_of flow.now.expr)
        (stmts_of flow.now.body.block))) }
{
    push_block_after("do ", &flow.body, text)?;
    if options.contains(ASTFlags::NEGATED) {
        push_after(" until ", &flow.expr, text)
    } else {
        push_after(" while ", &flow.expr, text)
    }
}

#[cycle(nodes)]
fn push_for(
    parts: &(Ident, Option<Ident>, FlowControl),
    text: &mut String,
) -> Result<(), OutOfMemory>
    ensures { OnOk result
        (string_bytes text.new
        ≡ string_bytes text.old
        ++ stmt_text
        (For parts.now.0.name (counter_of parts.now.1) (expr_of parts.now.2.expr)
        (stmts_of parts.now.2.body.block))) }
{
    text.push_str("for ")?;
    push_loop_names(&parts.0, &parts.1, text)?;
    push_after(" in ", &parts.2.expr, text)?;
    push_block_after(" ", &parts.2.body, text)
}

#[cycle(nodes)]
fn push_var(
    name: &Ident,
    value: &Expr,
    options: ASTFlags,
    text: &mut String,
) -> Result<(), OutOfMemory>
    ensures { OnOk result
        (string_bytes text.new
        ≡ string_bytes text.old
        ++ stmt_text (Var (is_const options) (is_exported options) name.now.name (expr_of value.now))) }
{
    push_declaration(options, text)?;
    text.push_str(name.as_str())?;
    push_after(" = ", value, text)
}

#[cycle(nodes)]
fn push_assignment(parts: &(OpAssignment, BinaryExpr), text: &mut String) -> Result<(), OutOfMemory>
    ensures { OnOk result
        (string_bytes text.new
        ≡ string_bytes text.old
        ++ stmt_text
        (Assignment (operator_of parts.now.0.op) (expr_of parts.now.1.lhs) (expr_of parts.now.1.rhs))) }
{
    push_expr(&parts.1.lhs, text)?;
    push_assigning(&parts.0, text)?;
    push_expr(&parts.1.rhs, text)
}

/// Appends a call as a statement.
#[cycle(nodes)]
fn push_called(call: &FnCallExpr, text: &mut String) -> Result<(), OutOfMemory>
    ensures { OnOk result
        (string_bytes text.new
        ≡ string_bytes text.old ++ stmt_text (FnCallStmt (callee_of call.now) (exprs_of call.now.args))) }
{
    text.push_str("call ")?;
    push_call(call, text)
}

/// Appends a block as a statement.
#[cycle(nodes)]
fn push_inner_block(block: &StmtBlock, text: &mut String) -> Result<(), OutOfMemory>
    ensures { OnOk result
        (string_bytes text.new ≡ string_bytes text.old ++ stmt_text (Block (stmts_of block.now.block))) }
{
    push_block_after("block ", block, text)
}

#[cycle(nodes)]
fn push_try(flow: &FlowControl, text: &mut String) -> Result<(), OutOfMemory>
    ensures { OnOk result
        (string_bytes text.new
        ≡ string_bytes text.old
        ++ stmt_text
        (TryCatch (expr_of flow.now.expr) (stmts_of flow.now.body.block)
        (stmts_of flow.now.branch.block))) }
{
    push_block_after("try ", &flow.body, text)?;
    push_catch(&flow.expr, text)?;
    push_block(&flow.branch, text)
}

/// Appends a `break` or a `continue`.
#[cycle(nodes)]
fn push_break(
    value: &Option<Boxed<Expr>>,
    options: ASTFlags,
    text: &mut String,
) -> Result<(), OutOfMemory>
    ensures { OnOk result
        (string_bytes text.new
        ≡ string_bytes text.old
        ++ stmt_text (BreakLoop (breaks options) (is_exported options) (maybe_of value.now))) }
{
    if options.contains(ASTFlags::BREAK) {
        text.push_str("break")?;
    } else {
        text.push_str("continue")?;
    }
    push_after_word(value, text)
}

/// Appends a `throw` or a `return`.
#[cycle(nodes)]
fn push_return(
    value: &Option<Boxed<Expr>>,
    options: ASTFlags,
    text: &mut String,
) -> Result<(), OutOfMemory>
    ensures { OnOk result
        (string_bytes text.new
        ≡ string_bytes text.old
        ++ stmt_text (Return (breaks options) (is_exported options) (maybe_of value.now))) }
{
    if options.contains(ASTFlags::BREAK) {
        text.push_str("throw")?;
    } else {
        text.push_str("return")?;
    }
    push_after_word(value, text)
}

/// Appends an expression after a word, where there is one.
#[cycle(nodes)]
fn push_after_word(value: &Option<Boxed<Expr>>, text: &mut String) -> Result<(), OutOfMemory>
    ensures { OnOk result (string_bytes text.new ≡ string_bytes text.old ++ after_word (maybe_of value.now)) }
{
    match value {
        Some(expr) => push_after(" ", expr.get(), text),
        None => Ok(()),
    }
}

#[cycle(nodes)]
fn push_import(path: &Expr, alias: &Ident, text: &mut String) -> Result<(), OutOfMemory>
    ensures { OnOk result
        (string_bytes text.new ≡ string_bytes text.old ++ stmt_text (Import (expr_of path.now) alias.now.name)) }
{
    push_after("import ", path, text)?;
    text.push_str(" as ")?;
    push_word(alias.as_str(), text)
}

fn push_export(name: &Ident, alias: &Ident, text: &mut String) -> Result<(), OutOfMemory>
    ensures { OnOk result
        (string_bytes text.new ≡ string_bytes text.old ++ stmt_text (Export name.now.name alias.now.name)) }
{
    write!(text, "export {} as {}", name.as_str(), alias.as_str())?;
    Ok(())
}

fn push_share(names: &[(Ident, Option<NonZeroUsize>)], text: &mut String) -> Result<(), OutOfMemory>
    ensures { OnOk result
        (string_bytes text.new ≡ string_bytes text.old ++ stmt_text (Share (shared_names names.now))) }
{
    text.push_str("share ")?;
    push_shared(names, text)
}

/// Appends statements in braces.
#[cycle(nodes)]
pub fn push_block(block: &StmtBlock, text: &mut String) -> Result<(), OutOfMemory>
    ensures { OnOk result (string_bytes text.new ≡ string_bytes text.old ++ block_text (stmts_of block.now.block)) }
{
    let statements = block.statements();
    if statements.is_empty() {
        return push_word("{}", text);
    }
    text.push_str("{ ")?;
    push_stmts(statements, text)?;
    text.push_str(" }")?;
    Ok(())
}

/// Appends statements in braces after a mark.
#[cycle(nodes)]
fn push_block_after(before: &str, block: &StmtBlock, text: &mut String) -> Result<(), OutOfMemory>
    ensures { OnOk result
        (string_bytes text.new ≡ string_bytes text.old ++ (before.now ++ block_text (stmts_of block.now.block))) }
{
    text.push_str(before)?;
    push_block(block, text)
}

/// Appends statements with semicolons between them.
#[cycle(nodes)]
fn push_stmts(statements: &[Stmt], text: &mut String) -> Result<(), OutOfMemory>
    ensures { OnOk result (string_bytes text.new ≡ string_bytes text.old ++ stmts_text [] (stmts_of statements.now)) }
{
    let mut before = "";
    for statement in statements {
        text.push_str(before)?;
        push_stmt(statement, text)?;
        before = "; ";
    }
    Ok(())
}
