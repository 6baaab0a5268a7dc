//! Where expressions stand, and what may stand there.

#![tactic(auto, using(ast_types::specs::Reading::shapes))]

ghost use Rattle.std.specs.Prelude.{◌≡◌, is_some};
ghost use Rattle.base_text.specs.Text.{Text};
ghost use Rattle.ast_types.specs.Reading.{expr_of, path_of};
ghost use Rattle.theory_meaning.specs.Desugar.{name_root};
ghost use Rattle.theory_meaning.specs.Tree.{UnitConstant};
ghost use Rattle.opt_base.specs.Places.{place_of};
ghost use Rattle.opt_base.specs.Standing as standing;

use rhai_ast::{Expr, ExprQueries};
use rhai_base::Namespace;

/// Where an expression stands.
#[derive(Clone, Copy)]
pub enum Place {
    /// Anywhere else.
    Anywhere,
    /// The base of a chain, which stays a place or none.
    Base,
    /// The guard of a `while`, which does not become a literal unit.
    Guard,
}

/// Whether an expression stands for a place: a name, a constant of the script's own list, or `this`.
fn is_root(expr: &Expr) -> bool
    ensures { result ≡ standing.is_root (expr_of expr.now) }
{
    match expr {
        Expr::Variable(parts, _, _) => has_root(&parts.get().2),
        Expr::ThisPtr(_) => true,
        _ => false,
    }
}

/// Whether a name in this namespace stands for one.
fn has_root(namespace: &Namespace) -> bool
    ensures { (x : Text) → result ≡ is_some (name_root (path_of namespace.now) x) }
{
    match namespace.path.as_slice() {
        [] => true,
        [module] => module.as_str() == "global",
        _ => false,
    }
}

/// Whether what is neither a place nor a literal unit may become this expression there.
pub fn may_stand(place: Place, expr: &Expr) -> bool
    ensures { result ≡ standing.may_stand (place_of place) (expr_of expr.now) }
{
    match place {
        Place::Anywhere => true,
        Place::Base => !is_root(expr),
        Place::Guard => !expr.is_unit(),
    }
}

/// Whether it may become a literal unit.
pub fn may_be_unit(place: Place) -> bool
    ensures { result ≡ standing.may_stand (place_of place) UnitConstant }
{
    match place {
        Place::Anywhere | Place::Base => true,
        Place::Guard => false,
    }
}
