//! What can be assigned to.

#![tactic(auto, using(ast_types::specs::Reading::shapes))]

ghost use Rattle.std.specs.Prelude.{◌≡◌};
ghost use Rattle.ast_types.specs.Reading.{expr_of, path_of};
ghost use Rattle.theory_meaning.specs.Desugar as desugar;
ghost use Rattle.run_steps.specs.LeftSides as spec;
ghost use Rattle.rhai_ast.specs.Nodes.{is_dot};

use crate::nodes::links::Rest;
use crate::nodes::variables::Root;
use bitflags::Flags;
use rhai_ast::{BinaryExpr, ChainType, Expr};
use rhai_base::{ASTFlags, ImmutableString, Namespace};

/// The left side of an assignment.
#[derive(Clone, Copy)]
pub enum LeftSide<'a> {
    /// A name or `this`.
    Root(Root<'a>),
    /// The part that a chain leads to, by its base and what is left of it then.
    Part(&'a Expr, Rest<'a>),
    /// A name in a module.
    Nowhere,
}

/// A name as a left side.
pub fn named_side<'a>(name: &'a ImmutableString, namespace: &Namespace) -> LeftSide<'a>
    ensures side { (loop : _) → desugar.name_target (path_of namespace.now) name.now ≡ spec.side_core loop result }
    ensures weight { spec.side_weight result ≡ 0 }
{
    if namespace.is_empty() {
        LeftSide::Root(Root::Name(name))
    } else {
        LeftSide::Nowhere
    }
}

/// A chain as a left side, by its outermost node.
pub fn part_side(sides: &BinaryExpr, chain: ChainType, options: ASTFlags) -> LeftSide<'_>
    ensures { spec.IsPart sides.now (is_dot chain) options result }
{
    let rest = Rest {
        chain,
        options,
        right: &sides.rhs,
    };
    LeftSide::Part(&sides.lhs, rest)
}

/// Whether a chain ends in a method's call, by its outermost node.
#[cycle(call_end)]
pub fn ends_in_call(chain: ChainType, is_last: bool, right: &Expr) -> bool
    ensures { result ≡ desugar.ends_in_call (is_dot chain) is_last (expr_of right.now) }
{
    match right {
        Expr::MethodCall(_, _) => chain.is_dot(),
        Expr::Dot(sides, options, _) => {
            let ends = options.contains(ASTFlags::BREAK);
            !is_last && ends_in_call(ChainType::Dotting, ends, &sides.get().rhs)
        }
        Expr::Index(sides, options, _) => {
            let ends = options.contains(ASTFlags::BREAK);
            !is_last && ends_in_call(ChainType::Indexing, ends, &sides.get().rhs)
        }
        _ => false,
    }
}
