//! The nodes of a chain.

#![tactic(auto, using(ast_types::specs::Reading::shapes, rhai_base::specs::Reading::kinds))]

ghost use Rattle.std.specs.Prelude.{◌≡◌, false, ◌+◌, ◌≤◌, IfSome};
ghost use Rattle.ast_types.specs.Reading.{chain_flags, expr_of};
ghost use Rattle.theory_meaning.specs.Weight.{expr_weight};
ghost use Rattle.theory_meaning.specs.Shape as shape;
ghost use Rattle.run_steps.specs.Links as spec;
ghost use Rattle.rhai_ast.specs.Nodes.{is_dot};

use bitflags::Flags;
use rhai_ast::{BinaryExpr, ChainType, Expr, is_rest};
use rhai_base::ASTFlags;

/// What is left of a chain: the right side of a `.` or an index.
#[derive(Clone, Copy)]
pub struct Rest<'a> {
    /// The type of the step.
    pub chain: ChainType,
    /// The flags of its node.
    pub options: ASTFlags,
    /// The side.
    pub right: &'a Expr,
}

/// The first step of what is left of a chain.
#[derive(Clone, Copy)]
pub struct Link<'a> {
    /// What stands behind the `.` or in the index.
    pub argument: &'a Expr,
    /// What is left then.
    pub rest: Option<Rest<'a>>,
}

impl<'a> Rest<'a> {
    /// The first step, and what is left then.
    pub fn link(self) -> Link<'a>
        ensures steps { (loop : _) → spec.rest_steps loop self.entry ≡ spec.link_steps loop self.entry result }
        ensures argument { expr_weight (expr_of result.argument.now) ≤ expr_weight (expr_of self.entry.right.now) }
        ensures rest { IfSome result.rest (λ r.
            expr_weight (expr_of r.right.now) + 1 ≤ expr_weight (expr_of self.entry.right.now)) }
    {
        if self.options.contains(ASTFlags::BREAK) {
            return last_link(self.right);
        }
        match self.right {
            Expr::Dot(sides, options, _) => inner_link(sides.get(), ChainType::Dotting, *options),
            Expr::Index(sides, options, _) => inner_link(
                sides.get(),
                ChainType::Indexing,
                *options,
            ),
            _ => last_link(self.right),
        }
    }
}

/// Whether the outermost node of a chain has a meaning.
pub fn is_chain(chain: ChainType, options: ASTFlags, right: &Expr) -> bool
    ensures { result ≡ shape.is_chain (is_dot chain) (chain_flags options) (expr_of right.now) }
{
    is_rest(chain, options.contains(ASTFlags::BREAK), right)
}

fn last_link(argument: &Expr) -> Link<'_>
    ensures { spec.IsLast argument.now result }
{
    Link {
        argument,
        rest: None,
    }
}

/// By a node at the right side.
fn inner_link(sides: &BinaryExpr, chain: ChainType, options: ASTFlags) -> Link<'_>
    ensures { spec.IsInner sides.now (is_dot chain) options result }
{
    Link {
        argument: &sides.lhs,
        rest: Some(Rest {
            chain,
            options,
            right: &sides.rhs,
        }),
    }
}
