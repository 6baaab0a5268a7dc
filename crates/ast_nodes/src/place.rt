//! Where nodes stand, set anew.

#![tactic(auto, using(crate::specs::Placed::placements))]

ghost use Rattle.std.specs.Prelude.{◌≡◌, map};
ghost use Rattle.ast_nodes.specs.Placed.{name_placed, placed, stmt_placed};

use ast_types::{Expr, Stmt};
use rhai_base::{Ident, Position, Seq};
use std::num::NonZeroUsize;

/// Puts an expression there, as `SetPosition` says.
pub fn place_expr(expr: &mut Expr, pos: Position)
    ensures { expr.new ≡ placed pos expr.old }
{
    let node = std::mem::replace(expr, Expr::Unit(pos));
    *expr = placed_expr(node, pos);
}

/// Puts a statement there, as `SetPosition` says.
pub fn place_stmt(stmt: &mut Stmt, pos: Position)
    ensures { stmt.new ≡ stmt_placed pos stmt.old }
{
    let node = std::mem::replace(stmt, Stmt::Noop(pos));
    *stmt = placed_stmt(node, pos);
}

/// The expression, put there.
fn placed_expr(expr: Expr, pos: Position) -> Expr
    ensures { result ≡ placed pos expr }
{
    match expr {
        Expr::DynamicConstant(value, _) => Expr::DynamicConstant(value, pos),
        Expr::BoolConstant(b, _) => Expr::BoolConstant(b, pos),
        Expr::IntegerConstant(n, _) => Expr::IntegerConstant(n, pos),
        Expr::FloatConstant(x, _) => Expr::FloatConstant(x, pos),
        Expr::CharConstant(c, _) => Expr::CharConstant(c, pos),
        Expr::StringConstant(text, _) => Expr::StringConstant(text, pos),
        Expr::InterpolatedString(parts, _) => Expr::InterpolatedString(parts, pos),
        Expr::Array(items, _) => Expr::Array(items, pos),
        Expr::Map(map, _) => Expr::Map(map, pos),
        Expr::Unit(_) => Expr::Unit(pos),
        Expr::Variable(parts, short, _) => Expr::Variable(parts, short, pos),
        Expr::ThisPtr(_) => Expr::ThisPtr(pos),
        Expr::Property(names, _) => Expr::Property(names, pos),
        Expr::MethodCall(call, _) => Expr::MethodCall(call, pos),
        Expr::Stmt(mut block) => {
            block.get_mut().set_position(pos, Position::NONE);
            Expr::Stmt(block)
        }
        Expr::FnCall(call, _) => Expr::FnCall(call, pos),
        Expr::Dot(sides, flags, _) => Expr::Dot(sides, flags, pos),
        Expr::Index(sides, flags, _) => Expr::Index(sides, flags, pos),
        Expr::And(operands, _) => Expr::And(operands, pos),
        Expr::Or(operands, _) => Expr::Or(operands, pos),
        Expr::Coalesce(operands, _) => Expr::Coalesce(operands, pos),
    }
}

/// The statement, put there.
fn placed_stmt(stmt: Stmt, pos: Position) -> Stmt
    ensures { result ≡ stmt_placed pos stmt }
{
    match stmt {
        Stmt::Noop(_) => Stmt::Noop(pos),
        Stmt::If(flow, _) => Stmt::If(flow, pos),
        Stmt::Switch(switch, _) => Stmt::Switch(switch, pos),
        Stmt::While(flow, _) => Stmt::While(flow, pos),
        Stmt::Do(flow, flags, _) => Stmt::Do(flow, flags, pos),
        Stmt::For(parts, _) => Stmt::For(parts, pos),
        Stmt::Var(parts, flags, _) => Stmt::Var(parts, flags, pos),
        Stmt::Assignment(mut parts) => {
            parts.get_mut().0.set_position(pos);
            Stmt::Assignment(parts)
        }
        Stmt::FnCall(call, _) => Stmt::FnCall(call, pos),
        Stmt::Block(mut block) => {
            let end = block.get().end_position();
            block.get_mut().set_position(pos, end);
            Stmt::Block(block)
        }
        Stmt::TryCatch(flow, _) => Stmt::TryCatch(flow, pos),
        Stmt::Expr(mut expr) => {
            place_expr(expr.get_mut(), pos);
            Stmt::Expr(expr)
        }
        Stmt::BreakLoop(expr, flags, _) => Stmt::BreakLoop(expr, flags, pos),
        Stmt::Return(expr, flags, _) => Stmt::Return(expr, flags, pos),
        Stmt::Import(parts, _) => Stmt::Import(parts, pos),
        Stmt::Export(names, _) => Stmt::Export(names, pos),
        Stmt::Share(mut names) => {
            place_names(names.get_mut(), pos);
            Stmt::Share(names)
        }
    }
}

fn place_names(names: &mut Seq<(Ident, Option<NonZeroUsize>)>, pos: Position)
    ensures { names.new ≡ map (name_placed pos) names.old }
{
    place_each(names.as_mut_slice(), pos);
}

fn place_each(names: &mut [(Ident, Option<NonZeroUsize>)], pos: Position)
    ensures { names.new ≡ map (name_placed pos) names.old }
{
    for name in names.iter_mut() {
        name.0.pos = pos;
    }
}
