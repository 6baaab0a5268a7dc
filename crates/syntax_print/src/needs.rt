//! Which brackets an expression stands in.

use crate::closures::has_constants;
use crate::words::{is_anonymous, stands_before};
use rhai_ast::{Expr, ExprQueries, FnCallExpr, Stmt};
use rhai_base::{Dynamic, FloatWrapper, Position, Token};

/// What stands around an expression.
#[derive(Clone, Copy, Debug, PartialEq, Eq)]
pub(crate) enum Need {
    /// A bracket, a comma, or a word or a sign before it and an end behind it.
    Nothing,
    /// The beginning of a statement.
    Start,
    /// A word before it and a brace behind it; a literal of another kind than these stands in a block.
    Condition,
    /// The same of what a loop goes over.
    Iterable,
    /// An operator that binds so, at this side.
    Operand(u8, Side),
    /// The same of one whose operands are bools.
    BoolOperand(u8, Side),
    /// `-` or `+` before it.
    Signed,
    /// `!` before it.
    Negated,
    /// The brackets of an index around it.
    Index,
    /// A step of a chain behind it.
    Base,
    /// An index behind it that no literal of its kind has.
    BaseInBlock,
}

/// A side of an operator.
#[derive(Clone, Copy, Debug, PartialEq, Eq)]
pub(crate) enum Side {
    Left,
    Right,
}

/// How an expression is written.
#[derive(Clone, Copy, Debug, PartialEq, Eq)]
enum Shape {
    /// A word, a call, or something in brackets.
    Whole,
    /// An integer below zero.
    Negative,
    /// An operator between operands, and how tightly it binds.
    Infix(u8),
    /// A list of operands.
    List(u8),
    /// A sign over an operand.
    Sign,
    /// A chain.
    Chain,
    /// A block.
    Block,
    /// A closure.
    Closure,
}

/// What stands around an expression alone.
#[derive(Clone, Copy, Debug, PartialEq, Eq)]
pub(crate) enum Brackets {
    Nothing,
    Parentheses,
    /// A block, in which what it is no longer shows.
    Braces,
    /// The same in parentheses.
    Block,
}

/// How tightly `||` binds.
pub(crate) const OR: u8 = 30;

/// How tightly `&&` binds.
pub(crate) const AND: u8 = 60;

/// How tightly `in` and `!in` bind.
const IN: u8 = 110;

/// How tightly `??` binds.
pub(crate) const COALESCE: u8 = 135;

/// How tightly `..` and `..=` bind.
pub(crate) const RANGE: u8 = 140;

/// How tightly `**` binds, which goes to the right.
const POWER: u8 = 190;

/// How tightly the operator of a token binds between two operands; 0 where it stands between none.
fn precedence(token: Token) -> u8 {
    match token {
        Token::Pipe | Token::XOr => 30,
        Token::Ampersand => 60,
        Token::EqualsTo | Token::NotEqualsTo => 90,
        Token::LessThan
        | Token::LessThanEqualsTo
        | Token::GreaterThan
        | Token::GreaterThanEqualsTo => 130,
        Token::ExclusiveRange | Token::InclusiveRange => RANGE,
        Token::Plus | Token::Minus => 150,
        Token::Multiply | Token::Divide | Token::Modulo => 180,
        Token::PowerOf => POWER,
        Token::LeftShift | Token::RightShift => 210,
        _ => 0,
    }
}

/// An operator between two operands.
#[derive(Clone, Copy)]
pub(crate) struct Infix<'c> {
    /// How tightly it binds.
    pub(crate) binds: u8,
    /// Its letters.
    pub(crate) sign: &'static str,
    pub(crate) lhs: &'c Expr,
    pub(crate) rhs: &'c Expr,
}

/// The operator between two operands that a call which stands there is written as, if it is.
pub(crate) fn infix_of(call: &FnCallExpr, pos: Position) -> Option<Infix<'_>> {
    match (call.op_token, call.args.as_slice()) {
        (Some(token), [lhs, rhs]) if precedence(token) > 0 => Some(Infix {
            binds: precedence(token),
            sign: token.literal_syntax(),
            lhs,
            rhs,
        }),
        (Some(Token::Bang), [Expr::FnCall(contains, pos)]) => {
            contained(contains.get(), *pos, "!in")
        }
        _ => contained(call, pos, "in"),
    }
}

/// An item and what it is looked for in, if this is the call that an operator of these letters makes of them. One that
/// stands before its item was written as a call.
fn contained<'c>(call: &'c FnCallExpr, pos: Position, sign: &'static str) -> Option<Infix<'c>> {
    match call.args.as_slice() {
        [whole, item] if is_contains(call) && !stands_before(pos, item.position()) => {
            Some(Infix {
                binds: IN,
                sign,
                lhs: item,
                rhs: whole,
            })
        }
        _ => None,
    }
}

fn is_contains(call: &FnCallExpr) -> bool {
    call.op_token.is_none()
        && call.name.as_str() == "contains"
        && call.namespace.is_empty()
        && !call.capture_parent_scope
}

// ---- shapes

fn shape_of(expr: &Expr) -> Shape {
    match expr {
        Expr::IntegerConstant(value, _) if is_negative(*value) => Shape::Negative,
        Expr::FloatConstant(value, _) if has_sign(*value) => Shape::Negative,
        Expr::DynamicConstant(value, _) => shape_of_value(value.get()),
        Expr::FnCall(call, pos) => shape_of_call(call.get(), *pos),
        Expr::And(..) => Shape::List(AND),
        Expr::Or(..) => Shape::List(OR),
        Expr::Coalesce(..) => Shape::List(COALESCE),
        Expr::Dot(..) | Expr::Index(..) => Shape::Chain,
        Expr::Stmt(block) => shape_of_block(block.get().statements()),
        _ => Shape::Whole,
    }
}

/// A closure with names from around it is one, unless it stands in a block with constants.
fn shape_of_block(statements: &[Stmt]) -> Shape {
    match statements {
        [Stmt::Share(shared), curried] if !has_constants(shared.get().as_slice(), curried) => {
            Shape::Closure
        }
        _ => Shape::Block,
    }
}

fn shape_of_value(value: &Dynamic) -> Shape {
    match value {
        Dynamic::Int(value) if is_negative(*value) => Shape::Negative,
        Dynamic::Float(value) if has_sign(*value) => Shape::Negative,
        Dynamic::Range(..) | Dynamic::RangeInclusive(..) => Shape::Infix(RANGE),
        Dynamic::FnPtr(pointer) if !pointer.is_curried() && is_anonymous(pointer.fn_name()) => {
            Shape::Closure
        }
        _ => Shape::Whole,
    }
}

/// Whether an integer has a sign. The least one is written by its bits.
fn is_negative(value: i64) -> bool {
    value < 0 && value != i64::MIN
}

/// Whether a float has a sign, as a zero may.
fn has_sign(value: FloatWrapper) -> bool {
    value.bits() >= 0x8000_0000_0000_0000
}

fn shape_of_call(call: &FnCallExpr, pos: Position) -> Shape {
    if let Some(infix) = infix_of(call, pos) {
        return Shape::Infix(infix.binds);
    }
    match (call.op_token, call.args.len()) {
        (Some(Token::UnaryMinus | Token::UnaryPlus | Token::Bang), 1) => Shape::Sign,
        _ => Shape::Whole,
    }
}

// ---- brackets

/// The brackets that an expression stands in there.
pub(crate) fn brackets_of(expr: &Expr, need: Need) -> Brackets {
    let is_block = stands_in_block(expr, need);
    let shape = if is_block {
        Shape::Block
    } else {
        shape_of(expr)
    };
    match (is_block, stands_in_parentheses(shape, need)) {
        (true, true) => Brackets::Block,
        (true, false) => Brackets::Braces,
        (false, true) => Brackets::Parentheses,
        (false, false) => Brackets::Nothing,
    }
}

/// Whether an index stands in a block.
pub(crate) fn stands_in_braces(index: &Expr) -> bool {
    matches!(index, Expr::And(..) | Expr::Or(..)) || is_bool(index)
}

/// Whether what an expression is may not show, so that it is written as a block: a literal of another kind than what
/// should stand there, the number of a sign, since with the sign it is a literal, and an index that is a bool.
fn stands_in_block(expr: &Expr, need: Need) -> bool {
    match need {
        Need::Condition | Need::BoolOperand(..) => is_literal(expr) && !is_bool(expr),
        Need::Iterable => is_flat(expr),
        Need::Signed => is_number(expr),
        Need::Index => stands_in_braces(expr),
        Need::BaseInBlock => true,
        _ => false,
    }
}

fn stands_in_parentheses(shape: Shape, need: Need) -> bool {
    match (need, shape) {
        (_, Shape::Whole) => false,
        (Need::Nothing | Need::Index, _) => false,
        (Need::Start | Need::Condition | Need::Iterable, Shape::Block) => true,
        (Need::Start | Need::Condition | Need::Iterable, _) => false,
        // A brace behind a range's sign says that its end is left out.
        (Need::Operand(around, Side::Right), Shape::Block) => around == RANGE,
        (Need::BoolOperand(_, Side::Right), Shape::Block) => false,
        (Need::Signed | Need::Negated, Shape::Block) => false,
        (_, Shape::Block | Shape::Closure) => true,
        (Need::Operand(around, side) | Need::BoolOperand(around, side), Shape::Infix(own)) => {
            binds_weaker(own, around, side)
        }
        (Need::Operand(around, side) | Need::BoolOperand(around, side), Shape::List(own)) => {
            own == around && side == Side::Left || binds_weaker(own, around, side)
        }
        (Need::Operand(..) | Need::BoolOperand(..), _) => false,
        (Need::Signed | Need::Negated, Shape::Infix(_) | Shape::List(_)) => true,
        (Need::Signed | Need::Negated, _) => false,
        (Need::Base | Need::BaseInBlock, _) => true,
    }
}

/// Whether an operator within another one, at this side of it, would not be its operand.
fn binds_weaker(own: u8, around: u8, side: Side) -> bool {
    let goes_on = if around == POWER {
        Side::Right
    } else {
        Side::Left
    };
    own < around || own == around && side != goes_on
}

fn is_bool(expr: &Expr) -> bool {
    match expr {
        Expr::BoolConstant(..) => true,
        Expr::DynamicConstant(value, _) => matches!(value.get(), Dynamic::Bool(_)),
        _ => false,
    }
}

fn is_number(expr: &Expr) -> bool {
    match expr {
        Expr::IntegerConstant(..) | Expr::FloatConstant(..) => true,
        Expr::DynamicConstant(value, _) => {
            matches!(value.get(), Dynamic::Int(_) | Dynamic::Float(_))
        }
        _ => false,
    }
}

/// Whether this is a literal of a kind that a condition cannot have.
fn is_literal(expr: &Expr) -> bool {
    match expr {
        Expr::DynamicConstant(value, _) => !matches!(
            value.get(),
            Dynamic::FnPtr(_) | Dynamic::Range(..) | Dynamic::RangeInclusive(..)
        ),
        Expr::BoolConstant(..)
        | Expr::IntegerConstant(..)
        | Expr::FloatConstant(..)
        | Expr::CharConstant(..)
        | Expr::StringConstant(..)
        | Expr::InterpolatedString(..)
        | Expr::Array(..)
        | Expr::Map(..)
        | Expr::Unit(_) => true,
        _ => false,
    }
}

/// Whether an expression begins with `-` or `+` before an operand.
pub(crate) fn is_signed(expr: &Expr) -> bool {
    match expr {
        Expr::FnCall(call, _) => {
            let call = call.get();
            let is_sign = matches!(call.op_token, Some(Token::UnaryMinus | Token::UnaryPlus));
            is_sign && call.args.len() == 1
        }
        _ => false,
    }
}

/// Whether no loop goes over this literal.
fn is_flat(expr: &Expr) -> bool {
    match expr {
        Expr::DynamicConstant(value, _) => matches!(
            value.get(),
            Dynamic::Unit
                | Dynamic::Bool(_)
                | Dynamic::Int(_)
                | Dynamic::Float(_)
                | Dynamic::Char(_)
        ),
        Expr::BoolConstant(..)
        | Expr::IntegerConstant(..)
        | Expr::FloatConstant(..)
        | Expr::CharConstant(..)
        | Expr::Unit(_) => true,
        _ => false,
    }
}

// ---- runs of operators

/// What stands around an operand of a list that binds so.
pub(crate) fn need_of_list(binds: u8, side: Side) -> Need {
    if binds == COALESCE {
        Need::Operand(binds, side)
    } else {
        Need::BoolOperand(binds, side)
    }
}

/// How many operators are read in a run from the beginning of an operand on, as far as so many levels go. Each is a level
/// to those behind it.
pub(crate) fn run_of(expr: &Expr, need: Need, levels: u32) -> u32 {
    let mut operand = expr;
    let mut around = need;
    let mut run: u32 = 0;
    for _ in 0..levels {
        if brackets_of(operand, around) != Brackets::Nothing {
            break;
        }
        let Some((first, need, signs)) = first_operand(operand) else {
            break;
        };
        operand = first;
        around = need;
        run = run.saturating_add(signs);
    }
    run
}

/// The first operand of an operator, what is around it, and how many operators stand behind it.
fn first_operand(expr: &Expr) -> Option<(&Expr, Need, u32)> {
    match expr {
        Expr::FnCall(call, pos) => {
            let infix = infix_of(call.get(), *pos)?;
            Some((infix.lhs, Need::Operand(infix.binds, Side::Left), 1))
        }
        Expr::And(operands, _) => first_of_list(operands.get().as_slice(), AND),
        Expr::Or(operands, _) => first_of_list(operands.get().as_slice(), OR),
        Expr::Coalesce(operands, _) => first_of_list(operands.get().as_slice(), COALESCE),
        _ => None,
    }
}

fn first_of_list(operands: &[Expr], binds: u8) -> Option<(&Expr, Need, u32)> {
    let (first, others) = operands.split_first()?;
    let signs = u32::try_from(others.len()).unwrap_or(u32::MAX).max(1);
    Some((first, need_of_list(binds, Side::Left), signs))
}
