//! Where nodes stand.

#![tactic(auto, using(ast_types::specs::Positions::places))]

ghost use Rattle.std.specs.Prelude.{◌≡◌, map};
ghost use Rattle.ast_types.specs.Defaults.{nowhere};
ghost use Rattle.ast_types.specs.Positions.{first_or, position_of, start_of, stmt_position_of};

use ast_types::{Expr, Stmt};
use rhai_base::{Ident, Position};
use std::num::NonZeroUsize;

/// Where an expression stands; a block where it begins.
pub fn position(expr: &Expr) -> Position
    ensures { result ≡ position_of expr.now }
{
    match expr {
        Expr::DynamicConstant(_, pos)
        | Expr::BoolConstant(_, pos)
        | Expr::IntegerConstant(_, pos)
        | Expr::FloatConstant(_, pos)
        | Expr::CharConstant(_, pos)
        | Expr::StringConstant(_, pos)
        | Expr::InterpolatedString(_, pos)
        | Expr::Array(_, pos)
        | Expr::Map(_, pos)
        | Expr::Unit(pos)
        | Expr::Variable(_, _, pos)
        | Expr::ThisPtr(pos)
        | Expr::Property(_, pos)
        | Expr::MethodCall(_, pos)
        | Expr::FnCall(_, pos)
        | Expr::Dot(_, _, pos)
        | Expr::Index(_, _, pos)
        | Expr::And(_, pos)
        | Expr::Or(_, pos)
        | Expr::Coalesce(_, pos) => *pos,
        Expr::Stmt(block) => block.get().position(),
    }
}

/// Where the leftmost part stands.
#[cycle(start)]
pub fn start_position(expr: &Expr) -> Position
    ensures { result ≡ start_of expr.now }
{
    match expr {
        Expr::Variable(parts, _, pos) => first_name(parts.get().2.path.as_slice(), *pos),
        Expr::Dot(sides, _, _) | Expr::Index(sides, _, _) => start_position(&sides.get().lhs),
        Expr::And(operands, pos) | Expr::Or(operands, pos) | Expr::Coalesce(operands, pos) => {
            first_operand(operands.get().as_slice(), *pos)
        }
        Expr::Stmt(block) => block.get().position(),
        Expr::DynamicConstant(_, pos)
        | Expr::BoolConstant(_, pos)
        | Expr::IntegerConstant(_, pos)
        | Expr::FloatConstant(_, pos)
        | Expr::CharConstant(_, pos)
        | Expr::StringConstant(_, pos)
        | Expr::InterpolatedString(_, pos)
        | Expr::Array(_, pos)
        | Expr::Map(_, pos)
        | Expr::Unit(pos)
        | Expr::ThisPtr(pos)
        | Expr::Property(_, pos)
        | Expr::MethodCall(_, pos)
        | Expr::FnCall(_, pos) => *pos,
    }
}

/// Where the first operand starts; the node's own place where there is none.
#[cycle(start)]
fn first_operand(operands: &[Expr], pos: Position) -> Position
    ensures { result ≡ first_or pos (map start_of operands.now) }
{
    match operands.first() {
        Some(operand) => start_position(operand),
        None => pos,
    }
}

fn first_name(path: &[Ident], pos: Position) -> Position
    ensures { result ≡ first_or pos (map (λ i. i.pos) path.now) }
{
    match path.first() {
        Some(name) => name.pos,
        None => pos,
    }
}

fn first_shared(names: &[(Ident, Option<NonZeroUsize>)]) -> Position
    ensures { result ≡ first_or nowhere (map (λ x. x.0.pos) names.now) }
{
    match names.first() {
        Some(name) => name.0.pos,
        None => Position::NONE,
    }
}

/// Where a statement stands.
pub fn stmt_position(stmt: &Stmt) -> Position
    ensures { result ≡ stmt_position_of stmt.now }
{
    match stmt {
        Stmt::Noop(pos)
        | Stmt::If(_, pos)
        | Stmt::Switch(_, pos)
        | Stmt::While(_, pos)
        | Stmt::Do(_, _, pos)
        | Stmt::For(_, pos)
        | Stmt::Var(_, _, pos)
        | Stmt::FnCall(_, pos)
        | Stmt::TryCatch(_, pos)
        | Stmt::BreakLoop(_, _, pos)
        | Stmt::Return(_, _, pos)
        | Stmt::Import(_, pos)
        | Stmt::Export(_, pos) => *pos,
        Stmt::Assignment(parts) => parts.get().0.position(),
        Stmt::Block(block) => block.get().position(),
        Stmt::Expr(expr) => start_position(expr.get()),
        Stmt::Share(names) => first_shared(names.get().as_slice()),
    }
}
