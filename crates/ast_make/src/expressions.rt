//! Expressions.
#![tactic(auto, using(ast_types::specs::Reading::shapes, ast_types::specs::Positions::places))]

ghost use Rattle.std.specs.Prelude.{◌≡◌, IfOk, None, Some};
ghost use Rattle.base_tokens.specs.Symbols.{token_text};
ghost use Rattle.ast_types.specs.Reading.{callee_of, expr_of, exprs_of, mark_of, stmts_of};
ghost use Rattle.ast_types.specs.Positions.{options_of, position_of};
ghost use Rattle.theory_meaning.specs.Tree.{ArrayOf, BlockExpr, FnCall, IntegerConstant, StringConstant};
ghost use Rattle.ast_make.specs.Trees as tree;

use ast_types::{BinaryExpr, Expr, FnCallExpr, StmtBlock};
use rhai_base::{
    ASTFlags, Boxed, INT, ImmutableString, Namespace, OutOfMemory, Position, Seq, Token,
};
use std::alloc::Global;

/// An integer.
pub fn integer(value: INT, pos: Position) -> Expr
    ensures means { expr_of result ≡ IntegerConstant value }
    ensures stands { position_of result ≡ pos }
{
    Expr::IntegerConstant(value, pos)
}

/// A text.
pub fn text(alloc: Global, text: &str, pos: Position) -> Result<Expr, OutOfMemory>
    ensures means { IfOk result (λ e. expr_of e ≡ StringConstant text.now) }
    ensures stands { IfOk result (λ e. position_of e ≡ pos) }
{
    let text = ImmutableString::new(alloc, text)?;
    Ok(Expr::StringConstant(text, pos))
}

/// A variable.
pub fn variable(alloc: Global, name: &str, pos: Position) -> Result<Expr, OutOfMemory>
    ensures means { IfOk result (λ e. expr_of e ≡ tree.variable name.now) }
    ensures stands { IfOk result (λ e. position_of e ≡ pos) }
{
    let name = ImmutableString::new(alloc, name)?;
    let parts = Boxed::new(alloc, (None, name, Namespace::none(alloc)))?;
    Ok(Expr::Variable(parts, None, pos))
}

/// An array.
pub fn array(alloc: Global, items: Seq<Expr>, pos: Position) -> Result<Expr, OutOfMemory>
    ensures means { IfOk result (λ e. expr_of e ≡ ArrayOf (exprs_of items)) }
    ensures stands { IfOk result (λ e. position_of e ≡ pos) }
{
    Ok(Expr::Array(Boxed::new(alloc, items)?, pos))
}

/// A block as an expression.
pub fn block_expr(alloc: Global, block: StmtBlock) -> Result<Expr, OutOfMemory>
    ensures means { IfOk result (λ e. expr_of e ≡ BlockExpr (stmts_of block.block)) }
    ensures stands { IfOk result (λ e. position_of e ≡ block.span.start) }
{
    Ok(Expr::Stmt(Boxed::new(alloc, block)?))
}

/// What stands at an index, as a chain that ends there.
pub fn index(alloc: Global, lhs: Expr, rhs: Expr, pos: Position) -> Result<Expr, OutOfMemory>
    ensures means { IfOk result (λ e. expr_of e ≡ tree.element (expr_of lhs) (expr_of rhs)) }
    ensures stands { IfOk result (λ e. position_of e ≡ pos) }
    ensures options { IfOk result (λ e. options_of e ≡ tree.ends_here) }
{
    let sides = Boxed::new(alloc, BinaryExpr { lhs, rhs })?;
    Ok(Expr::Index(sides, ASTFlags::BREAK, pos))
}

/// The call of a function.
pub fn call(alloc: Global, name: &str, args: Seq<Expr>, pos: Position) -> Result<Expr, OutOfMemory>
    ensures means { IfOk result (λ e. expr_of e ≡ FnCall (tree.called name.now (mark_of None)) (exprs_of args)) }
    ensures stands { IfOk result (λ e. position_of e ≡ pos) }
{
    let call = fn_call(alloc, name, args, None)?;
    Ok(Expr::FnCall(call, pos))
}

/// An operator over two operands.
pub fn operator(
    alloc: Global,
    token: Token,
    lhs: Expr,
    rhs: Expr,
    pos: Position,
) -> Result<Expr, OutOfMemory>
    ensures means { IfOk result (λ e.
        expr_of e ≡ tree.operation (token_text token) (mark_of (Some token)) (expr_of lhs) (expr_of rhs)) }
    ensures stands { IfOk result (λ e. position_of e ≡ pos) }
{
    let operands = Seq::from_array(alloc, [lhs, rhs])?;
    let call = fn_call(alloc, token.literal_syntax(), operands, Some(token))?;
    Ok(Expr::FnCall(call, pos))
}

/// What a call has; of an operator with its token. A method's has the same.
pub fn fn_call(
    alloc: Global,
    name: &str,
    args: Seq<Expr>,
    op_token: Option<Token>,
) -> Result<Boxed<FnCallExpr>, OutOfMemory>
    ensures callee { IfOk result (λ c. callee_of c ≡ tree.called name.now (mark_of op_token)) }
    ensures args { IfOk result (λ c. c.args ≡ args) }
{
    let call = FnCallExpr {
        namespace: Namespace::none(alloc),
        name: ImmutableString::new(alloc, name)?,
        args,
        capture_parent_scope: false,
        op_token,
    };
    Ok(Boxed::new(alloc, call)?)
}
