//! What an expression is as a left side.

#![tactic(auto, using(ast_types::specs::Reading::shapes))]

ghost use Rattle.std.specs.Prelude.{◌≤◌, IfSome};
ghost use Rattle.ast_types.specs.Reading.{expr_of};
ghost use Rattle.theory_meaning.specs.Weight.{expr_weight};
ghost use Rattle.run_steps.specs.LeftSides as spec;

use crate::nodes::{LeftSide, Root, named_side, part_side};
use rhai_ast::{ChainType, Expr};

/// What an expression is as a left side; `None` where it cannot be one. Whether it may be written is tested last, after
/// the right side's calls.
pub fn left_side(expr: &Expr) -> Option<LeftSide<'_>>
    ensures side { spec.IsSide (expr_of expr.now) result }
    ensures weight { IfSome result (λ d. spec.side_weight d ≤ expr_weight (expr_of expr.now)) }
{
    match expr {
        Expr::Variable(variable, _, _) => {
            let (_, name, namespace) = variable.get();
            Some(named_side(name, namespace))
        }
        Expr::ThisPtr(_) => Some(LeftSide::Root(Root::This)),
        Expr::Dot(sides, options, _) => Some(part_side(sides.get(), ChainType::Dotting, *options)),
        Expr::Index(sides, options, _) => Some(part_side(
            sides.get(),
            ChainType::Indexing,
            *options,
        )),
        _ => None,
    }
}
