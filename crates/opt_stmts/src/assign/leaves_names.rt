//! Whether an expression leaves all names as they are.

#![tactic(auto, using(ast_types::specs::Reading::shapes))]

ghost use Rattle.std.specs.Prelude.{◌≡◌};
ghost use Rattle.theory_meaning.specs.OperatorCalls.{is_operator};
ghost use Rattle.ast_types.specs.Reading.{callee_of, expr_of, stmt_of};
ghost use Rattle.theory_rewriting.specs.SelfAssign as spec;
ghost use Rattle.opt_stmts.specs.WritingWalk as walk;

use ast_nodes::operands;
use rhai_ast::{ASTNode, Expr, FnCallExpr, NodeTest, Stmt, every_below};

/// Whether an expression has no assignment, no method call, and no call but an operator's, at any depth.
pub(crate) fn leaves_names(expr: &Expr) -> bool
    ensures { result ≡ spec.leaves_names (expr_of expr.now) }
{
    expr_writes_nothing(expr) && every_below(&WritesNothingTest, ASTNode::Expr(expr))
}

/// Whether a node itself may write no name.
struct WritesNothingTest;

impl NodeTest for WritesNothingTest {
    ghost use Rattle.theory_rewriting.specs.SelfAssign.{writes_nothing};

    ghost holds = { λ test n. writes_nothing n };

    fn holds_at(&self, node: ASTNode) -> bool {
        match node {
            ASTNode::Expr(expr) => expr_writes_nothing(expr),
            ASTNode::Stmt(statement) => stmt_writes_nothing(statement),
        }
    }
}

fn expr_writes_nothing(expr: &Expr) -> bool
    ensures { result ≡ walk.expr_writes_nothing (expr_of expr.now) }
{
    match expr {
        Expr::MethodCall(_, _) => false,
        Expr::FnCall(call, _) => calls_operator(call.get()),
        _ => true,
    }
}

fn stmt_writes_nothing(statement: &Stmt) -> bool
    ensures { result ≡ walk.stmt_writes_nothing (stmt_of statement.now) }
{
    match statement {
        Stmt::Assignment(_) => false,
        Stmt::FnCall(call, _) => calls_operator(call.get()),
        _ => true,
    }
}

/// Whether a call is one of an operator.
fn calls_operator(call: &FnCallExpr) -> bool
    ensures { result ≡ is_operator (callee_of call.now).token }
{
    match call.op_token {
        Some(op) => operands(op).is_some(),
        None => false,
    }
}
