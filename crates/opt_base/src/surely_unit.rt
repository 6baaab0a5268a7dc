//! Whether the value of a statement, if it gives one, is unit.

#![tactic(auto, using(ast_types::specs::Reading::shapes, ast_types::proofs::ItemLists::steps))]

ghost use Rattle.std.specs.Prelude.{◌≡◌};
ghost use Rattle.theory_meaning.specs.Walk.{over_stmts};
ghost use Rattle.ast_types.specs.Reading.{stmt_of, stmts_of};
ghost use Rattle.theory_rewriting.specs.SurelyUnit as spec;
ghost use Rattle.opt_base.specs.Walks.{stmt_carries_nothing, unit_walk};

use ast_types::Stmt;
use bitflags::Flags;
use rhai_ast::{ASTNode, NodeTest, every_statement};
use rhai_base::ASTFlags;

/// Is its value unit, if it gives one? That of a `Noop`, a declaration, an assignment or a `try` is; that of a loop
/// where no `break` in its body has an expression, at any depth.
pub fn is_surely_unit(statement: &Stmt) -> bool
    ensures { result ≡ spec.is_surely_unit (stmt_of statement.now) }
{
    match statement {
        Stmt::Noop(_) | Stmt::Var(_, _, _) | Stmt::Assignment(_) | Stmt::TryCatch(_, _) => true,
        Stmt::While(flow, _) | Stmt::Do(flow, _, _) => {
            breaks_carry_nothing(flow.get().body.statements())
        }
        Stmt::For(for_loop, _) => breaks_carry_nothing(for_loop.get().2.body.statements()),
        _ => false,
    }
}

/// Whether no `break` has an expression, at any depth.
fn breaks_carry_nothing(statements: &[Stmt]) -> bool
    ensures { result ≡ over_stmts unit_walk (stmts_of statements.now) }
{
    every_statement(&CarriesNothingTest, statements)
}

/// Whether a node is no `break` with an expression.
struct CarriesNothingTest;

impl NodeTest for CarriesNothingTest {
    ghost use Rattle.theory_rewriting.specs.SurelyUnit.{carries_nothing};

    ghost holds = { λ test n. carries_nothing n };

    fn holds_at(&self, node: ASTNode) -> bool {
        match node {
            ASTNode::Expr(_) => true,
            ASTNode::Stmt(statement) => is_no_carrying_break(statement),
        }
    }
}

fn is_no_carrying_break(statement: &Stmt) -> bool
    ensures { result ≡ stmt_carries_nothing (stmt_of statement.now) }
{
    match statement {
        Stmt::BreakLoop(expr, options, _) => expr.is_none() || !options.contains(ASTFlags::BREAK),
        _ => true,
    }
}
