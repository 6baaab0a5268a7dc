//! The name under which a thrown value is caught.

#![tactic(auto, using(ast_types::specs::Reading::shapes))]

ghost use Rattle.std.specs.Prelude.{◌≡◌};
ghost use Rattle.std.specs.Option.{option_copied, option_map};
ghost use Rattle.ast_types.specs.Reading.{expr_of};
ghost use Rattle.theory_meaning.specs.Shape as shape;

use rhai_ast::Expr;
use rhai_base::ImmutableString;

/// The catch name, if any; `None` where the expression is no catch name.
pub fn catch_name(expr: &Expr) -> Option<Option<&ImmutableString>>
    ensures { option_map option_copied result ≡ shape.catch_name (expr_of expr.now) }
{
    match expr {
        Expr::Unit(_) => Some(None),
        Expr::Variable(variable, _, _) => {
            let (_, name, namespace) = variable.get();
            if namespace.is_empty() {
                Some(Some(name))
            } else {
                None
            }
        }
        _ => None,
    }
}
