//! `switch`: its arms, and the table that they make.

use crate::error::ParseErrorType;
use crate::inside::Inside;
use crate::operators::Reach;
use crate::parser::Parser;
use indexmap::IndexMap;
use rhai_ast::{
    BinaryExpr, CaseBlocksList, Cases, Expr, Literals, Stmt, SwitchBlock, SwitchCasesCollection,
};
use rhai_base::{Dynamic, INT, Ident, Position, RangeCase, Seq, Token};
use std::alloc::{AllocError, Global};
use syntax_lexer::{Keyword, Mark};

/// How many integers a range has at most that becomes cases.
const SMALL_SWITCH_RANGE: INT = 16;

/// The table of a `switch` as far as it was read.
#[derive(Drop)]
struct Choices {
    arms: Vec<BinaryExpr>,
    cases: IndexMap<Dynamic, CaseBlocksList>,
    ranges: Vec<RangeCase>,
    default: Option<usize>,
}

/// What an arm is chosen by.
#[derive(Drop)]
enum Item {
    Value(Dynamic, Position),
    Range(RangeCase),
}

impl Choices {
    fn new(alloc: Global) -> Choices {
        Choices {
            arms: Vec::new(alloc),
            cases: IndexMap::new(alloc),
            ranges: Vec::new(alloc),
            default: None,
        }
    }

    /// Chooses an arm by a value too.
    fn add_case(&mut self, alloc: Global, value: Dynamic, index: usize) -> Result<(), AllocError> {
        if let Some(list) = self.cases.get_mut(&value) {
            return list.blocks.push(index);
        }
        let blocks = Seq::from_array(alloc, [index])?;
        self.cases.insert(value, CaseBlocksList { blocks })?;
        Ok(())
    }

    /// Chooses an arm by a range too: by its integers, where they are few, the arm has no condition, and no range stands
    /// yet.
    fn add_range(
        &mut self,
        alloc: Global,
        mut range: RangeCase,
        index: usize,
        is_conditional: bool,
    ) -> Result<(), AllocError> {
        let is_small = matches!(range.checked_len(), Some(0..=SMALL_SWITCH_RANGE));
        if is_small && !is_conditional && self.ranges.is_empty() {
            return self.add_integers(alloc, range, index);
        }
        if !range.is_empty() {
            range.set_index(index);
            self.ranges.push(range)?;
        }
        Ok(())
    }

    fn add_integers(
        &mut self,
        alloc: Global,
        range: RangeCase,
        index: usize,
    ) -> Result<(), AllocError> {
        for integer in range {
            self.add_case(alloc, Dynamic::Int(integer), index)?;
        }
        Ok(())
    }
}

impl<'a> Parser<'a> {
    /// A `switch`, whose word stands next.
    #[cycle(parse)]
    pub(crate) fn switch(&self, inside: Inside) -> Option<Stmt> {
        let pos = self.take();
        let subject = self.expr(inside);
        self.expect_mark(Mark::LeftBrace, "{", "to begin the arms of a `switch`");
        let mut choices = Choices::new(self.alloc);
        for _ in 0..self.most() {
            if self.is_mark(Mark::RightBrace) || self.is_at_end() {
                break;
            }
            self.arm(&mut choices, inside);
        }
        self.expect_mark(Mark::RightBrace, "}", "to end this `switch`");
        self.switch_of(subject, choices, pos)
    }

    fn switch_of(&self, subject: Option<Expr>, choices: Choices, pos: Position) -> Option<Stmt> {
        let Choices {
            arms,
            cases,
            ranges,
            default,
        } = choices;
        let table = SwitchCasesCollection {
            expressions: Seq::from_vec(arms),
            cases: Cases::from_map(cases),
            ranges: Seq::from_vec(ranges),
            def_case: default,
        };
        let expr = subject?;
        let switch = self.boxed(SwitchBlock { expr, cases: table })?;
        Some(Stmt::Switch(switch, pos))
    }

    /// An arm with what it is chosen by, which is put into the table.
    #[cycle(parse)]
    fn arm(&self, choices: &mut Choices, inside: Inside) {
        let start = self.here();
        let is_default = self.skip_mark(Mark::Underscore);
        let items = if is_default {
            Vec::new(self.alloc)
        } else {
            self.items(inside)
        };
        let condition = self.arm_condition(is_default, inside);
        self.expect_mark(Mark::DoubleArrow, "=>", "before the statement of an arm");
        let answer = self.answer(inside);
        let is_last = self.is_mark(Mark::RightBrace) || self.is_at_end();
        if is_default && !is_last {
            self.refuse(ParseErrorType::WrongSwitchDefaultCase, start);
        }
        if is_default {
            choices.default = Some(choices.arms.len());
        }
        self.choose(choices, items, is_conditional(&condition));
        let arm = self.sides(condition, answer);
        self.push(&mut choices.arms, arm);
    }

    /// What an arm is chosen by, with `|` between.
    #[cycle(parse)]
    fn items(&self, inside: Inside) -> Vec<Item> {
        let mut items = Vec::new(self.alloc);
        for _ in 0..self.most() {
            let start = self.here();
            let item = self.expr_within(Reach::Item, inside);
            self.push(&mut items, self.item(item, start));
            if !self.skip_operator(Token::Pipe) {
                break;
            }
        }
        items
    }

    /// The value or the range of a literal that begins there.
    fn item(&self, expr: Option<Expr>, start: Position) -> Option<Item> {
        let expr = expr?;
        if let Some(range) = range_of(&expr) {
            return Some(Item::Range(range));
        }
        if !is_literal(&expr) {
            self.refuse(ParseErrorType::ExprExpected("a literal"), start);
            return None;
        }
        let value = self.made(expr.get_literal_value(self.alloc))??;
        if value.holds_float() {
            self.refuse(ParseErrorType::WrongSwitchFloatCase, start);
        }
        Some(Item::Value(value, start))
    }

    /// The condition of an arm, `true` where none is written.
    #[cycle(parse)]
    fn arm_condition(&self, is_default: bool, inside: Inside) -> Option<Expr> {
        if !self.is_keyword(Keyword::If) {
            return Some(Expr::BoolConstant(true, Position::NONE));
        }
        if is_default {
            self.refuse_next(ParseErrorType::WrongSwitchCaseCondition);
        }
        self.take();
        self.condition(inside)
    }

    /// The statement of an arm as a block, whose names end with it, and goes past what should stand behind it.
    #[cycle(parse)]
    fn answer(&self, inside: Inside) -> Option<Expr> {
        let names = self.declared();
        let statement = self.statement(inside)?;
        self.shorten(names);
        let needs_comma = !crate::statements::ends_by_itself(&statement);
        let is_last = self.is_mark(Mark::RightBrace);
        if !self.skip_mark(Mark::Comma) && needs_comma && !is_last {
            self.want_comma();
        }
        self.braced(self.as_block(Some(statement)))
    }

    fn want_comma(&self) {
        if self.is_at_end() {
            self.want("}", "to end this `switch`");
        } else {
            self.want(",", "between the arms of a `switch`");
        }
    }

    /// Chooses the next arm by items.
    fn choose(&self, choices: &mut Choices, items: Vec<Item>, is_conditional: bool) {
        let index = choices.arms.len();
        for item in items {
            match item {
                Item::Range(range) => {
                    let added = choices.add_range(self.alloc, range, index, is_conditional);
                    self.made(added);
                }
                Item::Value(value, pos) => {
                    if matches!(&value, Dynamic::Int(_)) && !choices.ranges.is_empty() {
                        self.refuse(ParseErrorType::WrongSwitchIntegerCase, pos);
                    }
                    let added = choices.add_case(self.alloc, value, index);
                    self.made(added);
                }
            }
        }
    }
}

/// Whether a condition is one: not the literal `true`.
fn is_conditional(condition: &Option<Expr>) -> bool {
    !matches!(condition, Some(Expr::BoolConstant(true, _)))
}

/// The range of an operator over two integers.
fn range_of(expr: &Expr) -> Option<RangeCase> {
    let Expr::FnCall(call, _) = expr else {
        return None;
    };
    let call = call.get();
    match (call.op_token, call.args.as_slice()) {
        (
            Some(Token::ExclusiveRange),
            [
                Expr::IntegerConstant(start, _),
                Expr::IntegerConstant(end, _),
            ],
        ) => Some(RangeCase::from(*start..*end)),
        (
            Some(Token::InclusiveRange),
            [
                Expr::IntegerConstant(start, _),
                Expr::IntegerConstant(end, _),
            ],
        ) => Some(RangeCase::from(*start..=*end)),
        _ => None,
    }
}

/// Whether an expression is a literal that chooses an arm.
#[cycle(literals)]
fn is_literal(expr: &Expr) -> bool {
    match expr {
        Expr::Unit(_)
        | Expr::BoolConstant(..)
        | Expr::IntegerConstant(..)
        | Expr::FloatConstant(..)
        | Expr::CharConstant(..)
        | Expr::StringConstant(..) => true,
        Expr::Array(items, _) => are_literals(items.get().as_slice()),
        Expr::Map(map, _) => are_values_literals(map.get().0.as_slice()),
        _ => false,
    }
}

#[cycle(literals)]
fn are_literals(items: &[Expr]) -> bool {
    for item in items {
        if !is_literal(item) {
            return false;
        }
    }
    true
}

#[cycle(literals)]
fn are_values_literals(pairs: &[(Ident, Expr)]) -> bool {
    for (_, value) in pairs {
        if !is_literal(value) {
            return false;
        }
    }
    true
}
