//! The shape of a node: tests that look at it alone, and at what is right below it.

#![tactic(auto, using(ast_types::specs::Reading::shapes, rhai_base::specs::Reading::kinds))]

ghost use Rattle.std.specs.Prelude.{◌≡◌, ◌&&◌, true, false, if◌then◌else◌};
ghost use Rattle.theory_meaning.specs.Faults as faults;
ghost use Rattle.theory_meaning.specs.Shape as shape;
ghost use Rattle.base_tokens.specs.Names as names;
ghost use Rattle.ast_types.specs.Reading.{callee_of, expr_of, breaks, exprs_of, mark_of};
ghost use Rattle.theory_meaning.specs.Tree.{count_exprs};
ghost use Rattle.rhai_ast.specs.Nodes.{is_dot};

use crate::walker::ChainType;
use ast_nodes::{is_call_of, operands};
use ast_types::{BinaryExpr, Expr, FnCallExpr};
use bitflags::Flags;
use rhai_base::{ASTFlags, Token};

// ---- calls and names

/// Whether an operator's name, its token and its operands belong together, or there is no operator.
pub fn is_formed(call: &FnCallExpr) -> bool
    ensures { result ≡ shape.has_token (callee_of call.now) (count_exprs (exprs_of call.now.args))
        (mark_of call.now.op_token) }
{
    match call.op_token {
        Some(op) => is_call_of(call, op),
        None => !is_symbol(call.name.as_str()),
    }
}

/// Whether it is an operator's symbol.
fn is_symbol(name: &str) -> bool
    ensures { result ≡ names.is_among name.now names.symbols }
{
    if begins_word(name) {
        return false;
    }
    match Token::lookup_symbol_from_syntax(name) {
        Some(token) => operands(token).is_some(),
        None => false,
    }
}

/// Whether a name begins with a letter or `_`, as no symbol does.
fn begins_word(name: &str) -> bool
    ensures { result ≡ true → names.is_among name.now names.symbols ≡ false }
{
    match name.as_bytes().first() {
        Some(first) => first.is_ascii_alphabetic() || *first == b'_',
        None => false,
    }
}

/// Whether no function may have the name: the language's own, or a symbol.
pub(crate) fn is_reserved(name: &str) -> bool
    ensures { result ≡ faults.is_reserved name.now }
{
    base_tokens::is_reserved(name) || is_symbol(name)
}

// ---- chains

/// Whether the right side of a `.` or an index, and the chain from there on, has its shape.
#[cycle(rest)]
pub fn is_rest(chain: ChainType, is_last: bool, rhs: &Expr) -> bool
    ensures { result ≡ shape.is_rest (is_dot chain) is_last (expr_of rhs.now) }
{
    match rhs {
        Expr::Dot(sides, options, _) => {
            if is_last {
                !chain.is_dot()
            } else {
                is_step(chain, sides.get(), ChainType::Dotting, *options)
            }
        }
        Expr::Index(sides, options, _) => {
            if is_last {
                !chain.is_dot()
            } else {
                is_step(chain, sides.get(), ChainType::Indexing, *options)
            }
        }
        _ => is_end(chain, is_last, rhs),
    }
}

/// Whether what no chain goes on from may stand there.
fn is_end(chain: ChainType, is_last: bool, rhs: &Expr) -> bool
    ensures { result ≡ (if is_dot chain then shape.is_member (expr_of rhs.now) else is_last) }
{
    match chain {
        ChainType::Dotting => is_member(rhs),
        ChainType::Indexing => is_last,
    }
}

/// Whether a step's argument fits, and the chain from the step on has its shape.
#[cycle(rest)]
fn is_step(chain: ChainType, step: &BinaryExpr, next: ChainType, options: ASTFlags) -> bool
    ensures { result ≡ (shape.is_argument (is_dot chain) (expr_of step.now.lhs)
        && shape.is_rest (is_dot next) (breaks options) (expr_of step.now.rhs)) }
{
    (!chain.is_dot() || is_member(&step.lhs))
        && is_rest(next, options.contains(ASTFlags::BREAK), &step.rhs)
}

/// Whether it is a property or a method that is called without a namespace or capturing.
fn is_member(expr: &Expr) -> bool
    ensures { result ≡ shape.is_member (expr_of expr.now) }
{
    match expr {
        Expr::Property(_, _) => true,
        Expr::MethodCall(call, _) => {
            call.get().namespace.is_empty() && !call.get().capture_parent_scope
        }
        _ => false,
    }
}

// ---- left sides and catch names

/// Whether a value can be assigned to it.
pub(crate) fn is_left_side(expr: &Expr) -> bool
    ensures { result ≡ shape.is_left_side (expr_of expr.now) }
{
    matches!(
        expr,
        Expr::Variable(_, _, _) | Expr::ThisPtr(_) | Expr::Dot(_, _, _) | Expr::Index(_, _, _)
    )
}

/// Whether it is the name of a catch, or says that it has none.
pub(crate) fn is_catch(expr: &Expr) -> bool
    ensures { result ≡ faults.is_catch (shape.catch_name (expr_of expr.now)) }
{
    match expr {
        Expr::Unit(_) => true,
        Expr::Variable(parts, _, _) => parts.get().2.is_empty(),
        _ => false,
    }
}
