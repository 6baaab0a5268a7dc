//! A chain by its first step, and what is left of it behind that.

#![tactic(auto, using(ast_types::specs::Reading::shapes))]

ghost use Rattle.std.specs.Prelude.{◌≡◌};
ghost use Rattle.std.specs.Option.{option_map};
ghost use Rattle.ast_types.specs.Reading.{breaks, expr_of};
ghost use Rattle.theory_meaning.specs.Tree.{UnitConstant};
ghost use Rattle.opt_base.specs.Places.{place_of};
ghost use Rattle.opt_base.specs.Standing as standing;
ghost use Rattle.opt_chains.specs.Onward as onward;
ghost use Rattle.opt_chains.specs.Onward.{GoesOn};

use ast_nodes::put_expr;
use bitflags::Flags;
use opt_base::{Place, may_be_unit};
use rhai_ast::{Expr, Take};
use rhai_base::ASTFlags;

/// The argument of the first step, by the right side of its node.
pub(crate) fn argument(flags: ASTFlags, right: &Expr) -> &Expr
    ensures { expr_of result.now ≡ onward.argument (breaks flags) (expr_of right.now) }
{
    if flags.contains(ASTFlags::BREAK) {
        return right;
    }
    match right {
        Expr::Dot(sides, _, _) => &sides.get().lhs,
        Expr::Index(sides, _, _) => &sides.get().lhs,
        _ => right,
    }
}

/// Whether something is left behind the first step.
fn goes_on(flags: ASTFlags, right: &Expr) -> bool
    ensures { result ≡ onward.goes_on (breaks flags) (expr_of right.now) }
{
    if flags.contains(ASTFlags::BREAK) {
        return false;
    }
    match right {
        Expr::Dot(_, _, _) | Expr::Index(_, _, _) => true,
        _ => false,
    }
}

/// Whether the first step may answer unit.
pub(crate) fn unit_may_stand(place: Place, flags: ASTFlags, right: &Expr) -> bool
    ensures { result
        ≡ standing.may_stand (place_of place) (onward.onward (breaks flags) (expr_of right.now) UnitConstant) }
{
    goes_on(flags, right) || may_be_unit(place)
}

/// The rest of a chain goes on from what its first step answers, which is given back where nothing is left.
fn chain_goes_on(right: &mut Expr, part: Expr) -> Option<Expr>
    ensures { GoesOn (expr_of right.old) (expr_of right.new) (expr_of part) (option_map expr_of result) }
{
    match right {
        Expr::Dot(sides, _flags, _) => {
            put_expr(&mut sides.get_mut().lhs, part);
            None
        }
        Expr::Index(sides, _flags, _) => {
            put_expr(&mut sides.get_mut().lhs, part);
            None
        }
        _ => Some(part),
    }
}

/// The rest of the chain over what the first step answers, out of its place; that alone where nothing is left.
pub(crate) fn onward(flags: ASTFlags, right: &mut Expr, part: Expr) -> Expr
    ensures { expr_of result ≡ onward.onward (breaks flags) (expr_of right.old) (expr_of part) }
{
    if flags.contains(ASTFlags::BREAK) {
        return part;
    }
    match chain_goes_on(right, part) {
        Some(part) => part,
        None => right.take(),
    }
}
