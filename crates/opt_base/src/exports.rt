//! Whether a statement exports a name.

#![tactic(auto, using(ast_types::specs::Reading::shapes, ast_types::proofs::ItemLists::steps))]

ghost use Rattle.std.specs.Prelude.{◌≡◌};
ghost use Rattle.ast_types.specs.Reading.{stmt_of};
ghost use Rattle.theory_rewriting.specs.Exports as spec;
ghost use Rattle.opt_base.specs.Walks.{stmt_is_no_export};

use ast_types::Stmt;
use bitflags::Flags;
use rhai_ast::{ASTNode, NodeTest, every_below};
use rhai_base::ASTFlags;

/// Does it export nothing, at any depth? An `export` does, and so does a declaration that is exported.
pub fn exports_nothing(statement: &Stmt) -> bool
    ensures { result ≡ spec.stmt_exports_nothing (stmt_of statement.now) }
{
    is_no_exporting_statement(statement) && every_below(&NoExportTest, ASTNode::Stmt(statement))
}

/// Whether a node by itself exports nothing.
struct NoExportTest;

impl NodeTest for NoExportTest {
    ghost use Rattle.theory_rewriting.specs.Exports.{is_no_export};

    ghost holds = { λ test n. is_no_export n };

    fn holds_at(&self, node: ASTNode) -> bool {
        match node {
            ASTNode::Expr(_) => true,
            ASTNode::Stmt(statement) => is_no_exporting_statement(statement),
        }
    }
}

fn is_no_exporting_statement(statement: &Stmt) -> bool
    ensures { result ≡ stmt_is_no_export (stmt_of statement.now) }
{
    match statement {
        Stmt::Var(_, options, _) => !options.contains(ASTFlags::EXPORTED),
        Stmt::Export(_, _) => false,
        _ => true,
    }
}
