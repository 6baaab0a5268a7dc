//! What stands around a node.

#![tactic(auto, using(ast_types::specs::Reading::shapes))]

ghost use Rattle.std.specs.Prelude.{◌≡◌, if◌then◌else◌};
ghost use Rattle.rhai_ast.specs.Places.{around_at, around_of, role_of};
ghost use Rattle.theory_meaning.specs.Faults as faults;
ghost use Rattle.theory_meaning.specs.Walk as walk;
ghost use Rattle.ast_types.specs.Reading.{chain_flags, expr_of};
ghost use Rattle.rhai_ast.specs.Nodes.{is_dot, node_of, spot_of};

use crate::walker::{ASTNode, ChainType, Spot};
use ast_types::Expr;
use bitflags::Flags;
use rhai_base::ASTFlags;

/// As what an expression stands where it does.
#[derive(Clone, Copy)]
pub(crate) enum Role {
    /// As a whole expression.
    Whole,
    /// As the property or the method of a `.`.
    Member,
    /// As the rest of a chain, behind a step of this type.
    Rest(ChainType),
}

/// What stands around a node.
#[derive(Clone, Copy)]
pub(crate) struct Around {
    /// Whether the body of a loop does, in the same function.
    pub in_loop: bool,
    /// As what the node stands there.
    pub role: Role,
}

impl Around {
    /// Around a whole expression.
    pub(crate) fn whole(in_loop: bool) -> Around
        ensures { around_of result ≡ walk.whole in_loop }
    {
        Around {
            in_loop,
            role: Role::Whole,
        }
    }

    /// Around the children of a node: whole expressions, but for the sides of a `.` or an index.
    pub(crate) fn of_children(self, node: ASTNode) -> Around
        ensures { around_of result ≡ walk.around_parts (node_of node.entry) (around_of self) }
    {
        match node {
            ASTNode::Stmt(_) => Around::whole(self.in_loop),
            ASTNode::Expr(expr) => self.of_parts(expr),
        }
    }

    fn of_parts(self, expr: &Expr) -> Around
        ensures { around_of result ≡ walk.around_parts (walk.OfExpr (expr_of expr.now)) (around_of self) }
    {
        match expr {
            Expr::Dot(_, _, _) | Expr::Index(_, _, _) => self,
            _ => Around::whole(self.in_loop),
        }
    }

    /// Around a child that stands there.
    pub(crate) fn at(self, spot: Spot) -> Around
        ensures { around_of result ≡ around_at (spot_of spot.entry) (around_of self) }
    {
        match spot {
            Spot::Anywhere => self,
            Spot::LoopBody => Around {
                in_loop: true,
                role: self.role,
            },
            Spot::LeftSide => self.left(),
            Spot::RightSide(chain, options, rhs) => self.right(chain, options, rhs),
        }
    }

    /// Around the left side of a `.` or an index.
    fn left(self) -> Around
        ensures { around_of result ≡ walk.around_spot walk.LeftSide (around_of self) }
    {
        let role = match self.role {
            Role::Rest(ChainType::Dotting) => Role::Member,
            Role::Rest(ChainType::Indexing) | Role::Whole | Role::Member => Role::Whole,
        };
        Around {
            in_loop: self.in_loop,
            role,
        }
    }

    /// Around the right side of a `.` or an index.
    fn right(self, chain: ChainType, options: ASTFlags, rhs: &Expr) -> Around
        ensures { around_of result ≡ walk.around_spot (walk.RightSide (is_dot chain) (chain_flags options)
            (expr_of rhs.now))
            (around_of self) }
    {
        Around {
            in_loop: self.in_loop,
            role: right_role(chain, options.contains(ASTFlags::BREAK), rhs),
        }
    }

    /// Whether a `.` has it as its property or method.
    pub(crate) fn is_member(self) -> bool
        ensures { result ≡ faults.is_member_role (role_of self.role) }
    {
        matches!(self.role, Role::Member)
    }

    /// Whether its chain began before it.
    pub(crate) fn is_rest(self) -> bool
        ensures { result ≡ faults.is_inside_chain (role_of self.role) }
    {
        matches!(self.role, Role::Rest(_))
    }
}

fn right_role(chain: ChainType, is_last: bool, rhs: &Expr) -> Role
    ensures { role_of result ≡ walk.right_role (is_dot chain) is_last (expr_of rhs.now) }
{
    if is_last {
        return last_role(chain);
    }
    match rhs {
        Expr::Dot(_, _, _) | Expr::Index(_, _, _) => Role::Rest(chain),
        _ => last_role(chain),
    }
}

/// The role of what no chain goes on from.
fn last_role(chain: ChainType) -> Role
    ensures { role_of result ≡ (if is_dot chain then walk.Member else walk.Whole) }
{
    match chain {
        ChainType::Dotting => Role::Member,
        ChainType::Indexing => Role::Whole,
    }
}
