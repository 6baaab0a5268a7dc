//! What may be asked of an expression.

#![tactic(auto, using(ast_types::specs::Reading::shapes, ast_types::specs::Positions::places))]

ghost use Rattle.std.specs.Prelude.{◌≡◌};
ghost use Rattle.ast_types.specs.Reading.{expr_of};
ghost use Rattle.ast_types.specs.Positions.{options_of, position_of, start_of};
ghost use Rattle.theory_meaning.specs.Constants as constants;
ghost use Rattle.theory_meaning.specs.Laws.{PureExprLaw};
ghost use Rattle.theory_meaning.specs.Queries as queries;

use ast_types::Expr;
use rhai_base::{ASTFlags, Position, Token};

/// What may be asked of an expression.
pub trait ExprQueries {
    /// Is it a constant: unit, a bool, an integer, a character, a text, a `DynamicConstant`, or an array, a map or an
    /// interpolated text of constants?
    fn is_constant(&self) -> bool;

    /// Is it pure? Unit and constants of the other kinds are, and so is an array, a map, an interpolated text, `&&`,
    /// `||`, `??` or a block of what is pure. Nothing else is, a variable, a call or a chain never.
    ///
    /// A law holds of every tree: a run of a pure expression calls no host, throws nothing, changes nothing, and gives
    /// a value or is stuck within some bound of turns.
    fn is_pure(&self) -> bool;

    /// Is it `()` as written? A constant of another kind that holds unit is none.
    fn is_unit(&self) -> bool;

    /// May the token follow it? After any expression `.`, `?.`, `[` and `?[`; after a variable `(`, `()`, `!` and
    /// `::` too; after a property `(` too.
    fn is_valid_postfix(&self, token: &Token) -> bool;

    /// The flags of a `Dot` or an `Index`, and none of another node.
    fn options(&self) -> ASTFlags;

    /// Where it stands; a block where it begins.
    fn position(&self) -> Position;

    /// Where its leftmost part stands: of a chain its base, of `&&`, `||` and `??` the first operand, of a variable its
    /// first namespace. Of no operands, in which rhai panics, the node's own position.
    fn start_position(&self) -> Position;
}

impl ExprQueries for Expr {
    fn is_constant(&self) -> bool
        ensures { result ≡ constants.is_constant (expr_of self.now) }
    {
        ast_nodes::is_constant(self)
    }

    #[tactic(auto, using(theory_meaning::proofs::PurityLaws::pure_expr_law))]
    fn is_pure(&self) -> bool
        ensures value { result ≡ queries.is_pure_expr (expr_of self.now) }
        ensures law { PureExprLaw (expr_of self.now) }
    {
        ast_nodes::is_pure_expr(self)
    }

    fn is_unit(&self) -> bool
        ensures { result ≡ queries.is_unit (expr_of self.now) }
    {
        matches!(self, Expr::Unit(_))
    }

    fn is_valid_postfix(&self, token: &Token) -> bool
        ensures { result ≡ queries.is_valid_postfix token.now (expr_of self.now) }
    {
        goes_into(token) || may_follow(token, self)
    }

    fn options(&self) -> ASTFlags
        ensures { result ≡ options_of self.now }
    {
        match self {
            Expr::Dot(_, options, _) | Expr::Index(_, options, _) => *options,
            Expr::DynamicConstant(_, _)
            | Expr::BoolConstant(_, _)
            | Expr::IntegerConstant(_, _)
            | Expr::FloatConstant(_, _)
            | Expr::CharConstant(_, _)
            | Expr::StringConstant(_, _)
            | Expr::InterpolatedString(_, _)
            | Expr::Array(_, _)
            | Expr::Map(_, _)
            | Expr::Unit(_)
            | Expr::Variable(_, _, _)
            | Expr::ThisPtr(_)
            | Expr::Property(_, _)
            | Expr::MethodCall(_, _)
            | Expr::Stmt(_)
            | Expr::FnCall(_, _)
            | Expr::And(_, _)
            | Expr::Or(_, _)
            | Expr::Coalesce(_, _) => ASTFlags::NONE,
        }
    }

    fn position(&self) -> Position
        ensures { result ≡ position_of self.now }
    {
        ast_nodes::position(self)
    }

    fn start_position(&self) -> Position
        ensures { result ≡ start_of self.now }
    {
        ast_nodes::start_position(self)
    }
}

fn goes_into(token: &Token) -> bool
    ensures { result ≡ queries.goes_into token.now }
{
    matches!(
        token,
        Token::Period | Token::Elvis | Token::LeftBracket | Token::QuestionBracket
    )
}

fn may_follow(token: &Token, expr: &Expr) -> bool
    ensures { result ≡ queries.may_follow token.now (expr_of expr.now) }
{
    match expr {
        Expr::Variable(_, _, _) => follows_name(token),
        Expr::Property(_, _) => opens_call(token),
        _ => false,
    }
}

fn follows_name(token: &Token) -> bool
    ensures { result ≡ queries.follows_name token.now }
{
    matches!(
        token,
        Token::LeftParen | Token::Unit | Token::Bang | Token::DoubleColon
    )
}

fn opens_call(token: &Token) -> bool
    ensures { result ≡ queries.opens_call token.now }
{
    matches!(token, Token::LeftParen)
}
