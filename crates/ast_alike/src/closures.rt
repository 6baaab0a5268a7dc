//! Which closure of one script stands for which of another.
#![tactic(auto, using(ast_types::specs::Reading::shapes, ast_types::proofs::ItemLists::steps))]

ghost use Rattle.std.specs.Prelude.{◌≡◌, IfOk, IfSome, IsTrue};
ghost use Rattle.theory_meaning.specs.Plain.{all_true};
ghost use Rattle.theory_meaning.specs.Tree.{expr, no_exprs};
ghost use Rattle.theory_meaning.specs.Walk.{OfExpr, OfStmt, over_stmts};
ghost use Rattle.theory_naming.specs.Alike as alike;
ghost use Rattle.theory_naming.specs.Alike.{IsPaired};
ghost use Rattle.theory_naming.specs.Renaming as renaming;
ghost use Rattle.ast_types.specs.Reading.{callee_of, expr_of, exprs_of, stmt_of, stmts_of};
ghost use Rattle.script_names.specs.Names.{listed};
ghost use Rattle.ast_alike.specs.Scripts.{ArePairs, IsPair};

use ast_types::{Expr, FnCallExpr, Stmt};
use rhai_ast::{ASTNode, NodeTest, every_statement};
use rhai_base::{FnName, ImmutableString, OutOfMemory, StringMap};
use script_names::{Names, is_anonymous};
use script_tables::FnLib;
use std::alloc::Global;

/// Names of closures in one script, and in another one those that they stand for.
#[derive(Drop)]
pub(crate) struct Closures {
    /// From the one to the other.
    pub(crate) names: Names,
    /// And back.
    pub(crate) back: StringMap<ImmutableString>,
}

/// The closures of a table, in its order, each beside a name that is written; none where there are more of the ones
/// than of the others, or a name is written twice.
pub(crate) fn closures_of(
    alloc: Global,
    table: &FnLib,
    written: &[ImmutableString],
) -> Result<Option<Closures>, OutOfMemory>
    ensures { IfOk result (λ found. IfSome found ArePairs) }
{
    let Some((names, back)) = maps_of(alloc, table, written)? else {
        return Ok(None);
    };
    if !are_pairs(&names, &back)? {
        return Ok(None);
    }
    Ok(Some(Closures {
        names: Names::Listed(names),
        back,
    }))
}

/// The maps, of which nothing is claimed.
fn maps_of(
    alloc: Global,
    table: &FnLib,
    written: &[ImmutableString],
) -> Result<Option<(StringMap<FnName>, StringMap<ImmutableString>)>, OutOfMemory> {
    let mut names = StringMap::new(alloc);
    let mut back = StringMap::new(alloc);
    let mut rest = written;
    for function in table.iter() {
        if is_anonymous(function.name.as_str()) {
            let Some((name, others)) = rest.split_first() else {
                return Ok(None);
            };
            let Some(new) = FnName::new(name.clone()?) else {
                return Ok(None);
            };
            names.insert(function.name.clone()?, new)?;
            back.insert(name.clone()?, function.name.clone()?)?;
            rest = others;
        }
    }
    Ok(Some((names, back)))
}

/// Whether from each name one comes back to the one before.
fn are_pairs(
    names: &StringMap<FnName>,
    back: &StringMap<ImmutableString>,
) -> Result<bool, OutOfMemory>
    ensures { IfOk result (λ all. IsTrue all → IsPaired (listed names.now) (listed back.now)) }
{
    for (old, new) in names.iter() {
        let new = new.clone()?.into_name();
        if !is_pair(old, &new, back) {
            return Ok(false);
        }
    }
    Ok(true)
}

fn is_pair(old: &ImmutableString, new: &ImmutableString, back: &StringMap<ImmutableString>) -> bool
    ensures { IsTrue result → IsPair back.now old.now new.now }
{
    if !is_anonymous(old.as_str()) || !is_anonymous(new.as_str()) || is_unread(new.as_str()) {
        return false;
    }
    match back.get(new) {
        Some(name) => name.as_str() == old.as_str(),
        None => false,
    }
}

/// Whether a name has the mark of those that no map has.
pub(crate) fn is_unread(name: &str) -> bool
    ensures { result ≡ alike.is_unread name.now }
{
    name.starts_with("anon$unread_")
}

// ---- calls

/// Whether calls in statements say which function by a name of its own, and `Fn` takes one that stands there.
pub(crate) fn are_by_name(statements: &[Stmt]) -> bool
    ensures { result ≡ over_stmts (all_true renaming.calls_by_name) (stmts_of statements.now) }
{
    every_statement(&ByNameTest, statements)
}

struct ByNameTest;

impl NodeTest for ByNameTest {
    ghost use Rattle.theory_naming.specs.Renaming.{calls_by_name};

    ghost holds = { λ t n. calls_by_name n };

    fn holds_at(&self, node: ASTNode) -> bool {
        match node {
            ASTNode::Expr(expr) => expr_calls_by_name(expr),
            ASTNode::Stmt(statement) => stmt_calls_by_name(statement),
        }
    }
}

fn expr_calls_by_name(expr: &Expr) -> bool
    ensures { result ≡ renaming.calls_by_name (OfExpr (expr_of expr.now)) }
{
    match expr {
        Expr::FnCall(call, _) => is_call_by_name(call.get()),
        Expr::MethodCall(call, _) => !is_anonymous(call.get().name.as_str()),
        _ => true,
    }
}

fn stmt_calls_by_name(statement: &Stmt) -> bool
    ensures { result ≡ renaming.calls_by_name (OfStmt (stmt_of statement.now)) }
{
    match statement {
        Stmt::FnCall(call, _) => is_call_by_name(call.get()),
        _ => true,
    }
}

fn is_call_by_name(call: &FnCallExpr) -> bool
    ensures { result ≡ renaming.call_by_name (callee_of call.now) (exprs_of call.now.args) }
{
    let name = call.name.as_str();
    !is_anonymous(name) && (name != "Fn" || is_one_name(call.args.as_slice()))
}

/// Whether it is one text, which is no closure's name.
fn is_one_name(args: &[Expr]) -> bool
    ensures { result ≡ renaming.names_one (exprs_of args.now) }
{
    match args {
        [arg] => is_own_name(arg),
        _ => false,
    }
}

fn is_own_name(arg: &Expr) -> bool
    ensures { result ≡ renaming.names_one (expr (expr_of arg.now) no_exprs) }
{
    match arg {
        Expr::StringConstant(name, _) => !is_anonymous(name.as_str()),
        _ => false,
    }
}
