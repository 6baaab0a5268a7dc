//! A number of each function, which those share that are the same.

use ast_types::{Expr, FnCallExpr, ScriptFuncDef, Stmt};
use rhai_ast::{ASTNode, NodeTest, every_statement};
use std::cell::Cell;
use std::hash::{BuildHasher, BuildHasherDefault, FoldHasher, Hash};

/// What a hash is multiplied by before a node is added to it.
const FACTOR: u64 = 0x9E37_79B9_7F4A_7C15;

/// A number that functions share which are the same but for their names; most others have another one. It takes time
/// linear in the function.
pub fn function_hash(function: &ScriptFuncDef) -> u64 {
    let hashing = Hashing { hash: Cell::new(0) };
    for param in function.params.as_slice() {
        hashing.add(hash_of(0, param));
    }
    every_statement(&hashing, function.body.statements());
    hashing.hash.get()
}

/// The hash of what was met so far.
#[derive(Drop)]
struct Hashing {
    hash: Cell<u64>,
}

impl Hashing {
    fn add(&self, part: u64) {
        let before = self.hash.get();
        self.hash
            .set(before.wrapping_mul(FACTOR).wrapping_add(part));
    }
}

/// It holds at every node, which is added.
impl NodeTest for Hashing {
    ghost use Rattle.std.specs.Prelude.{true};

    ghost holds = { λ t n. true };

    fn holds_at(&self, node: ASTNode) -> bool {
        match node {
            ASTNode::Expr(expr) => self.add(expr_hash(expr)),
            ASTNode::Stmt(statement) => self.add(stmt_hash(statement)),
        }
        true
    }
}

/// The hash of something of a kind.
fn hash_of<T: Hash>(kind: u64, what: &T) -> u64 {
    let hash = BuildHasherDefault::<FoldHasher>::new().hash_one(what);
    hash.wrapping_add(kind)
}

fn call_hash(kind: u64, call: &FnCallExpr) -> u64 {
    let args = u64::try_from(call.args.len()).unwrap_or(u64::MAX);
    hash_of(kind, &call.name).wrapping_add(args.wrapping_mul(FACTOR))
}

/// The hash of an expression without its children.
fn expr_hash(expr: &Expr) -> u64 {
    match expr {
        Expr::DynamicConstant(value, _) => hash_of(1, value.get()),
        Expr::BoolConstant(value, _) => hash_of(2, value),
        Expr::IntegerConstant(value, _) => hash_of(3, value),
        Expr::CharConstant(value, _) => hash_of(4, value),
        Expr::FloatConstant(value, _) => hash_of(38, value),
        Expr::StringConstant(text, _) => hash_of(5, text),
        Expr::Variable(parts, _, _) => hash_of(6, &parts.get().1),
        Expr::Property(names, _) => hash_of(7, &names.get().2),
        Expr::MethodCall(call, _) => call_hash(8, call.get()),
        Expr::FnCall(call, _) => call_hash(9, call.get()),
        Expr::InterpolatedString(..) => 10,
        Expr::Array(..) => 11,
        Expr::Map(..) => 12,
        Expr::Unit(_) => 13,
        Expr::ThisPtr(_) => 14,
        Expr::Stmt(_) => 15,
        Expr::Dot(..) => 16,
        Expr::Index(..) => 17,
        Expr::And(..) => 18,
        Expr::Or(..) => 19,
        Expr::Coalesce(..) => 20,
    }
}

/// The hash of a statement without its children.
fn stmt_hash(statement: &Stmt) -> u64 {
    match statement {
        Stmt::Var(parts, _, _) => hash_of(21, &parts.get().0.name),
        Stmt::For(parts, _) => hash_of(22, &parts.get().0.name),
        Stmt::FnCall(call, _) => call_hash(23, call.get()),
        Stmt::Noop(_) => 24,
        Stmt::If(..) => 25,
        Stmt::Switch(..) => 26,
        Stmt::While(..) => 27,
        Stmt::Do(..) => 28,
        Stmt::Assignment(_) => 29,
        Stmt::Block(_) => 30,
        Stmt::TryCatch(..) => 31,
        Stmt::Expr(_) => 32,
        Stmt::BreakLoop(..) => 33,
        Stmt::Return(..) => 34,
        Stmt::Import(..) => 35,
        Stmt::Export(..) => 36,
        Stmt::Share(_) => 37,
    }
}
