//! What is known of a name.

#![tactic(auto, using(ast_types::specs::Reading::shapes, rhai_base::specs::Reading::kinds))]

ghost use Rattle.std.specs.Prelude.{◌≡◌};
ghost use Rattle.std.specs.Option.{option_copied, option_map};
ghost use Rattle.rhai_base.specs.Reading.{value_of};
ghost use Rattle.ast_types.specs.Reading.{expr_of, path_of};
ghost use Rattle.opt_base.specs.State.{progress};
ghost use Rattle.theory_rewriting.specs.Clear as clear;
ghost use Rattle.theory_rewriting.specs.Known as theory;

use crate::state::OptimizerState;
use rhai_ast::Expr;
use rhai_base::{Dynamic, Namespace};

/// The value of a name that is known as a constant, or of a constant of the script's own list, lent.
pub fn known_value<'s>(state: &'s OptimizerState<'_>, expr: &Expr) -> Option<&'s Dynamic>
    ensures { option_map value_of (option_copied result)
        ≡ clear.known_value (progress state.now).known (expr_of expr.now) }
{
    match expr {
        Expr::Variable(parts, _, _) => {
            let (_, name, namespace) = parts.get();
            known_at(state, namespace, name.as_str())
        }
        _ => None,
    }
}

fn known_at<'s>(
    state: &'s OptimizerState<'_>,
    namespace: &Namespace,
    name: &str,
) -> Option<&'s Dynamic>
    ensures { option_map value_of (option_copied result)
        ≡ theory.known_at (progress state.now).known (path_of namespace.now) name.now }
{
    match namespace.path.as_slice() {
        [] => state.find_literal_constant(name),
        [module] if module.as_str() == "global" => state.find_global(name),
        _ => None,
    }
}
