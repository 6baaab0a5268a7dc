//! Expressions.

ghost use Rattle.std.specs.Prelude.{◌≡◌};
ghost use Rattle.ast_types.specs.Defaults.{nowhere};
ghost use Rattle.ast_types.specs.declared.expr.Expr.TheVariants.{Unit};

use crate::StmtBlock;
use rhai_base::{
    ASTFlags, Boxed, Dynamic, FloatWrapper, INT, Ident, ImmutableString, Namespace, Position, Seq,
    StringMap, Token,
};
use std::num::{NonZeroU8, NonZeroUsize};

/// An expression.
#[cycle(tree)]
#[derive(Drop)]
pub enum Expr {
    /// A value that no other constant stands for; never unit.
    DynamicConstant(Boxed<Dynamic>, Position),
    /// `true`, `false`
    BoolConstant(bool, Position),
    /// An integer.
    IntegerConstant(INT, Position),
    /// A float.
    FloatConstant(FloatWrapper, Position),
    /// A character.
    CharConstant(char, Position),
    /// A text.
    StringConstant(ImmutableString, Position),
    /// `` `text${ expr }..` ``
    InterpolatedString(Boxed<Seq<Expr>>, Position),
    /// `[ expr, .. ]`
    Array(Boxed<Seq<Expr>>, Position),
    /// `#{ name: expr, .. }`, and a template that has its keys.
    Map(Boxed<(Seq<(Ident, Expr)>, StringMap<Dynamic>)>, Position),
    /// `()`
    Unit(Position),
    /// A variable: its long index, name and namespace, then its short index. Nothing is claimed of the
    /// indices.
    Variable(
        Boxed<(Option<NonZeroUsize>, ImmutableString, Namespace)>,
        Option<NonZeroU8>,
        Position,
    ),
    /// `this`
    ThisPtr(Position),
    /// A property: the names of the functions that read and write it, and its own.
    Property(Boxed<(ImmutableString, ImmutableString, ImmutableString)>, Position),
    /// `method ( expr, .. )`, at the right of a `.`
    MethodCall(Boxed<FnCallExpr>, Position),
    /// `{ stmt; .. }`
    Stmt(Boxed<StmtBlock>),
    /// `func ( expr, .. )`, also an operator over its operands
    FnCall(Boxed<FnCallExpr>, Position),
    /// `expr . expr`; NEGATED is `?.`, BREAK ends the chain.
    Dot(Boxed<BinaryExpr>, ASTFlags, Position),
    /// `expr [ expr ]`; NEGATED is `?[`, BREAK ends the chain.
    Index(Boxed<BinaryExpr>, ASTFlags, Position),
    /// `expr && expr ..`
    And(Boxed<Seq<Expr>>, Position),
    /// `expr || expr ..`
    Or(Boxed<Seq<Expr>>, Position),
    /// `expr ?? expr ..`
    Coalesce(Boxed<Seq<Expr>>, Position),
}

/// Two expressions; in a `switch`, the condition of an arm and its answer.
#[cycle(tree)]
#[derive(Drop)]
pub struct BinaryExpr {
    /// The left side.
    pub lhs: Expr,
    /// The right side.
    pub rhs: Expr,
}

/// A call of a function or an operator.
#[cycle(tree)]
#[derive(Drop)]
pub struct FnCallExpr {
    /// The modules before the name.
    pub namespace: Namespace,
    /// The function's name, or the operator's symbol.
    pub name: ImmutableString,
    /// The arguments.
    pub args: Seq<Expr>,
    /// Whether the function sees the names of the caller's scope.
    pub capture_parent_scope: bool,
    /// The operator's token, where this is an operator over its operands.
    pub op_token: Option<Token>,
}

impl Default for Expr {
    ghost is_default = { λ e. e ≡ Unit nowhere };

    fn default() -> Expr {
        Expr::Unit(Position::NONE)
    }
}

impl Default for BinaryExpr {
    ghost is_default = { λ b. (b.lhs ≡ Unit nowhere) × (b.rhs ≡ Unit nowhere) };

    fn default() -> BinaryExpr {
        BinaryExpr {
            lhs: Expr::default(),
            rhs: Expr::default(),
        }
    }
}
