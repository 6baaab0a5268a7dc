//! What a node is made of, as far as a walk goes into it.

#![tactic(auto, using(ast_types::specs::Reading::shapes, crate::specs::Standing::nodes_below))]

ghost use Rattle.std.specs.Prelude.{◌≡◌, [], ◌∷◌, ◌++◌, MatchOption};
ghost use Rattle.rhai_ast.specs.Nodes.{is_dot};
ghost use Rattle.rhai_ast.specs.Standing.{arms_standing, body_standing, expr_below, expr_standing, exprs_standing, left_standing, listed_standing, maybe_standing, members_standing, right_standing, sides_standing, standing_child, standing_of_parts, statements_standing, stmt_below};
ghost use Rattle.rhai_ast.specs.declared.walker.parts.Parts.TheVariants as parts;
ghost use Rattle.theory_meaning.specs.Walk.{listed};
ghost use Rattle.ast_types.specs.Reading.{expressions_of, table_of};

use crate::walker::arms::ListedArms;
use crate::walker::node::{ASTNode, ChainType, Child, Spot};
use ast_types::{BinaryExpr, Expr, FlowControl, Stmt, SwitchBlock, SwitchCasesCollection};
use rhai_base::{ASTFlags, Boxed, Ident};

/// The parts of a node that are still to come.
#[derive(Clone, Copy)]
pub(crate) enum Parts<'a> {
    /// None.
    Nothing,
    /// An expression.
    Expr(&'a Expr),
    /// Two expressions, where it does not matter on which side one stands.
    Sides(&'a BinaryExpr),
    /// Both sides of a `.`.
    Dot(&'a BinaryExpr, &'a ASTFlags),
    /// The right side of a `.`.
    RightOfDot(&'a BinaryExpr, &'a ASTFlags),
    /// Both sides of an index.
    Index(&'a BinaryExpr, &'a ASTFlags),
    /// The right side of an index.
    RightOfIndex(&'a BinaryExpr, &'a ASTFlags),
    /// Expressions.
    Exprs(&'a [Expr]),
    /// The values of a map literal.
    Members(&'a [(Ident, Expr)]),
    /// Statements.
    Statements(&'a [Stmt]),
    /// A condition, the statements of a body, and those of a branch.
    Choice(&'a FlowControl),
    /// Statements of the body, and those of the branch.
    Blocks(&'a [Stmt], &'a FlowControl),
    /// A guard or an iterable, and the statements of a loop.
    Loop(&'a FlowControl),
    /// The statements of a loop.
    LoopBody(&'a [Stmt]),
    /// The subject of a `switch`, and its arms.
    Switch(&'a SwitchBlock),
    /// The conditions and answers of arms.
    Arms(ListedArms<'a>),
    /// The same without the first condition.
    Answers(ListedArms<'a>),
}

impl<'a> Parts<'a> {
    /// Those of an expression.
    #[inline(always)]
    pub(crate) fn of_expr(expr: &'a Expr) -> Parts<'a>
        ensures { standing_of_parts result ≡ expr_below expr.now }
    {
        match expr {
            Expr::DynamicConstant(_, _)
            | Expr::BoolConstant(_, _)
            | Expr::IntegerConstant(_, _)
            | Expr::FloatConstant(_, _)
            | Expr::CharConstant(_, _)
            | Expr::StringConstant(_, _)
            | Expr::Unit(_)
            | Expr::Variable(_, _, _)
            | Expr::ThisPtr(_)
            | Expr::Property(_, _) => Parts::Nothing,
            Expr::InterpolatedString(list, _)
            | Expr::Array(list, _)
            | Expr::And(list, _)
            | Expr::Or(list, _)
            | Expr::Coalesce(list, _) => Parts::Exprs(list.get().as_slice()),
            Expr::Map(map, _) => Parts::Members(map.get().0.as_slice()),
            Expr::MethodCall(call, _) | Expr::FnCall(call, _) => Parts::Exprs(
                call.get().args.as_slice(),
            ),
            Expr::Stmt(block) => Parts::Statements(block.get().statements()),
            Expr::Dot(sides, options, _) => Parts::Dot(sides.get(), options),
            Expr::Index(sides, options, _) => Parts::Index(sides.get(), options),
        }
    }

    /// Those of a statement.
    #[inline(always)]
    pub(crate) fn of_stmt(stmt: &'a Stmt) -> Parts<'a>
        ensures { standing_of_parts result ≡ stmt_below stmt.now }
    {
        match stmt {
            Stmt::Noop(_) | Stmt::Export(_, _) | Stmt::Share(_) => Parts::Nothing,
            Stmt::If(flow, _) => Parts::Choice(flow.get()),
            Stmt::Switch(switch, _) => Parts::Switch(switch.get()),
            Stmt::While(flow, _) | Stmt::Do(flow, _, _) => Parts::Loop(flow.get()),
            Stmt::For(parts, _) => Parts::Loop(&parts.get().2),
            Stmt::Var(parts, _, _) => Parts::Expr(&parts.get().1),
            Stmt::Assignment(parts) => Parts::Sides(&parts.get().1),
            Stmt::FnCall(call, _) => Parts::Exprs(call.get().args.as_slice()),
            Stmt::Block(block) => Parts::Statements(block.get().statements()),
            Stmt::TryCatch(flow, _) => Parts::of_blocks(flow.get()),
            Stmt::Expr(expr) => Parts::Expr(expr.get()),
            Stmt::BreakLoop(expr, _, _) | Stmt::Return(expr, _, _) => Parts::of_optional(expr),
            Stmt::Import(parts, _) => Parts::Expr(&parts.get().0),
        }
    }

    #[inline(always)]
    fn of_optional(expr: &'a Option<Boxed<Expr>>) -> Parts<'a>
        ensures { standing_of_parts result ≡ maybe_standing expr.now }
    {
        match expr {
            Some(expr) => Parts::Expr(expr.get()),
            None => Parts::Nothing,
        }
    }

    fn of_arms(table: &'a SwitchCasesCollection) -> Parts<'a>
        ensures { standing_of_parts result
            ≡ listed_standing (expressions_of table.now) (listed (table_of table.now)) }
    {
        Parts::Arms(ListedArms::of(table))
    }

    #[inline(always)]
    fn of_blocks(flow: &'a FlowControl) -> Parts<'a>
        ensures { standing_of_parts result
            ≡ statements_standing flow.now.body.block ++ statements_standing flow.now.branch.block }
    {
        Parts::Blocks(flow.body.statements(), flow)
    }

    /// The first child, and the parts after it.
    #[inline(always)]
    pub(crate) fn split_first(self) -> Option<(Child<'a>, Parts<'a>)>
        ensures { MatchOption result (standing_of_parts self.entry ≡ []) (λ p.
            standing_of_parts self.entry ≡ standing_child p.0 ∷ standing_of_parts p.1) }
    {
        match self {
            Parts::Nothing => None,
            Parts::Expr(expr) => Some(then(expr, Parts::Nothing)),
            Parts::Sides(sides) => Some(then(&sides.lhs, Parts::Expr(&sides.rhs))),
            Parts::Dot(sides, flags) => Some(left_side(sides, Parts::RightOfDot(sides, flags))),
            Parts::RightOfDot(sides, flags) => Some(right_side(sides, ChainType::Dotting, *flags)),
            Parts::Index(sides, flags) => Some(left_side(sides, Parts::RightOfIndex(sides, flags))),
            Parts::RightOfIndex(sides, flags) => Some(right_side(
                sides,
                ChainType::Indexing,
                *flags,
            )),
            Parts::Exprs(exprs) => first_expr(exprs),
            Parts::Members(members) => first_member(members),
            Parts::Statements(statements) => first_statement(statements),
            Parts::Choice(flow) => Some(then(&flow.expr, Parts::of_blocks(flow))),
            Parts::Blocks(body, flow) => first_of_blocks(body, flow),
            Parts::Loop(flow) => Some(then(&flow.expr, Parts::LoopBody(flow.body.statements()))),
            Parts::LoopBody(statements) => first_of_loop(statements),
            Parts::Switch(switch) => Some(then(&switch.expr, Parts::of_arms(&switch.cases))),
            Parts::Arms(arms) => {
                let (arm, _) = first_arm(arms)?;
                Some(then(&arm.lhs, Parts::Answers(arms)))
            }
            Parts::Answers(arms) => {
                let (arm, rest) = first_arm(arms)?;
                Some(then(&arm.rhs, rest))
            }
        }
    }
}

/// An expression, where it does not matter, and what comes after it.
fn then<'a>(expr: &'a Expr, rest: Parts<'a>) -> (Child<'a>, Parts<'a>)
    ensures standing { standing_child result.0 ≡ expr_standing expr.now }
    ensures rest { result.1 ≡ rest.entry }
{
    (ASTNode::Expr(expr).anywhere(), rest)
}

/// The left side of a `.` or an index, and what comes after it.
fn left_side<'a>(sides: &'a BinaryExpr, rest: Parts<'a>) -> (Child<'a>, Parts<'a>)
    ensures standing { standing_child result.0 ≡ left_standing sides.now }
    ensures rest { result.1 ≡ rest.entry }
{
    let child = Child {
        node: ASTNode::Expr(&sides.lhs),
        spot: Spot::LeftSide,
    };
    (child, rest)
}

/// The right side of a `.` or an index, after which nothing comes.
fn right_side<'a>(
    sides: &'a BinaryExpr,
    chain: ChainType,
    flags: ASTFlags,
) -> (Child<'a>, Parts<'a>)
    ensures standing { standing_child result.0 ≡ right_standing (is_dot chain) sides.now flags }
    ensures rest { result.1 ≡ parts.Nothing }
{
    let child = Child {
        node: ASTNode::Expr(&sides.rhs),
        spot: Spot::RightSide(chain, flags, &sides.rhs),
    };
    (child, Parts::Nothing)
}

fn first_expr<'a>(exprs: &'a [Expr]) -> Option<(Child<'a>, Parts<'a>)>
    ensures { MatchOption result (exprs_standing exprs.now ≡ []) (λ p.
        exprs_standing exprs.now ≡ standing_child p.0 ∷ standing_of_parts p.1) }
{
    let (first, rest) = exprs.split_first()?;
    Some(then(first, Parts::Exprs(rest)))
}

fn first_member<'a>(members: &'a [(Ident, Expr)]) -> Option<(Child<'a>, Parts<'a>)>
    ensures { MatchOption result (members_standing members.now ≡ []) (λ p.
        members_standing members.now ≡ standing_child p.0 ∷ standing_of_parts p.1) }
{
    let (first, rest) = members.split_first()?;
    Some(then(&first.1, Parts::Members(rest)))
}

fn first_statement<'a>(statements: &'a [Stmt]) -> Option<(Child<'a>, Parts<'a>)>
    ensures { MatchOption result (statements_standing statements.now ≡ []) (λ p.
        statements_standing statements.now ≡ standing_child p.0 ∷ standing_of_parts p.1) }
{
    let (first, rest) = statements.split_first()?;
    Some((ASTNode::Stmt(first).anywhere(), Parts::Statements(rest)))
}

fn first_of_blocks<'a>(body: &'a [Stmt], flow: &'a FlowControl) -> Option<(Child<'a>, Parts<'a>)>
    ensures { MatchOption result
        (statements_standing body.now ++ statements_standing flow.now.branch.block ≡ [])
        (λ p.
        statements_standing body.now ++ statements_standing flow.now.branch.block
        ≡ standing_child p.0 ∷ standing_of_parts p.1) }
{
    match body.split_first() {
        Some((first, rest)) => Some((ASTNode::Stmt(first).anywhere(), Parts::Blocks(rest, flow))),
        None => first_statement(flow.branch.statements()),
    }
}

fn first_of_loop<'a>(statements: &'a [Stmt]) -> Option<(Child<'a>, Parts<'a>)>
    ensures { MatchOption result (body_standing statements.now ≡ []) (λ p.
        body_standing statements.now ≡ standing_child p.0 ∷ standing_of_parts p.1) }
{
    let (first, rest) = statements.split_first()?;
    let child = Child {
        node: ASTNode::Stmt(first),
        spot: Spot::LoopBody,
    };
    Some((child, Parts::LoopBody(rest)))
}

/// The first arm, and what comes after it: other arms, but for the default.
fn first_arm<'a>(arms: ListedArms<'a>) -> Option<(&'a BinaryExpr, Parts<'a>)>
    ensures { MatchOption result (arms_standing arms.entry ≡ []) (λ p.
        arms_standing arms.entry ≡ sides_standing p.0.now ++ standing_of_parts p.1) }
{
    let mut arms = arms;
    match arms.next() {
        Some(arm) => Some((arm, Parts::Arms(arms))),
        None => Some((arms.default()?, Parts::Nothing)),
    }
}
