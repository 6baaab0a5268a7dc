//! The recursion over a tree.

#![tactic(auto, using(ast_types::specs::Reading::shapes, rhai_base::specs::Reading::kinds))]

ghost use Rattle.std.specs.Prelude.{◌≡◌, ◌<◌, ◌≤◌, true, false, MatchOption};
ghost use Rattle.ast_types.specs.Reading.{expr_of, exprs_of, keys_of, maybe_of, pairs_of};
ghost use Rattle.theory_meaning.specs.Desugar.{core_expr};
ghost use Rattle.theory_meaning.specs.Tree.{MapOf};
ghost use Rattle.run_steps.specs.Setting.{setting};
ghost use Rattle.run_state.specs.Evaluating.{RunsCore, RunsExpr, RunsExprs, RunsMaybe, RunsMembers};

use rhai_ast::{ChainType, Expr};
use rhai_base::{Boxed, Dynamic, Ident, Seq, StringMap};
use run_host::{Host, Stuck};
use run_state::{Interrupt, State, constant, joined_text};
use run_steps::{Machine, Root, insert, is_map};

/// What a run is in. Its functions do what the run meaning says of trees.
#[derive(Drop)]
pub struct Evaluator<'a, H> {
    /// What its steps stand on.
    pub machine: Machine<'a, H>,
    /// Whether what is run stands in the body of a loop of its function.
    pub in_loop: bool,
    /// More calls than this do not nest, since each takes a turn.
    pub depth: u64,
}

impl<'a, H: Host> Evaluator<'a, H> {
    /// The same in the body of a loop.
    pub(crate) fn inside_loop(&self) -> Evaluator<'a, H>
        ensures { result ≡ record self.now { in_loop = true } }
    {
        Evaluator {
            machine: self.machine.again(),
            in_loop: true,
            depth: self.depth,
        }
    }

    /// The same in the body of a function that is entered with so many turns left. `None` where they are not fewer than
    /// when the body around was entered, which no run comes to.
    pub(crate) fn inside_function(&self, turns: u64) -> Option<Evaluator<'a, H>>
        ensures { MatchOption result (self.now.depth ≤ turns) (λ e.
            (e ≡ record self.now { in_loop = false; depth = turns }) × (turns < self.now.depth)) }
    {
        if turns >= self.depth {
            return None;
        }
        Some(Evaluator {
            machine: self.machine.again(),
            in_loop: false,
            depth: turns,
        })
    }

    /// The value of an expression.
    #[cycle(evaluate)]
    pub fn expr(&self, state: &mut State, expr: &Expr) -> Result<Dynamic, Interrupt>
        ensures { RunsExpr (setting H.answers H.modules self.now.machine) self.now.in_loop (expr_of expr.now) state.old
            result state.new }
    {
        match expr {
            Expr::DynamicConstant(value, _) => constant(value.get()),
            Expr::BoolConstant(b, _) => Ok(Dynamic::Bool(*b)),
            Expr::IntegerConstant(n, _) => Ok(Dynamic::Int(*n)),
            Expr::FloatConstant(x, _) => Ok(Dynamic::Float(*x)),
            Expr::CharConstant(c, _) => Ok(Dynamic::Char(*c)),
            Expr::StringConstant(text, _) => Ok(Dynamic::Str(text.clone()?)),
            Expr::Unit(_) => Ok(Dynamic::Unit),
            Expr::InterpolatedString(parts, _) => {
                Ok(joined_text(
                    self.machine.host,
                    self.machine.alloc,
                    self.exprs(state, parts.get().as_slice())?,
                )?)
            }
            Expr::Array(items, _) => Ok(Dynamic::Array(self.exprs(state, items.get().as_slice())?)),
            Expr::Map(literal, _) => self.map(state, literal.get()),
            Expr::Variable(variable, _, _) => self
                .machine
                .variable(state, &variable.get().2, &variable.get().1),
            Expr::ThisPtr(_) => self.machine.read(state, Root::This),
            Expr::Stmt(block) => self.block(state, block.get()),
            Expr::FnCall(call, _) => self.call(state, call.get()),
            Expr::And(operands, _) => self.both(state, operands.get().as_slice()),
            Expr::Or(operands, _) => self.either(state, operands.get().as_slice()),
            Expr::Coalesce(operands, _) => self.first_some(state, operands.get().as_slice()),
            Expr::Property(_, _) => Err(Interrupt::Stuck(Stuck::WrongKind)),
            Expr::MethodCall(_, _) => Err(Interrupt::Stuck(Stuck::WrongKind)),
            Expr::Dot(sides, options, _) => self.chain(
                state,
                sides.get(),
                ChainType::Dotting,
                *options,
            ),
            Expr::Index(sides, options, _) => self.chain(
                state,
                sides.get(),
                ChainType::Indexing,
                *options,
            ),
        }
    }

    /// The values of expressions, from the first to the last.
    #[cycle(evaluate)]
    pub fn exprs(&self, state: &mut State, exprs: &[Expr]) -> Result<Seq<Dynamic>, Interrupt>
        ensures { RunsExprs (setting H.answers H.modules self.now.machine) self.now.in_loop (exprs_of exprs.now)
            state.old result state.new }
    {
        let mut values = Seq::with_capacity(self.machine.alloc, exprs.len())?;
        for expr in exprs {
            let value = self.expr(state, expr)?;
            values.push(value)?;
        }
        Ok(values)
    }

    /// The value of an expression, unit for none.
    #[cycle(evaluate)]
    pub(crate) fn optional(
        &self,
        state: &mut State,
        expr: &Option<Boxed<Expr>>,
    ) -> Result<Dynamic, Interrupt>
        ensures { RunsMaybe (setting H.answers H.modules self.now.machine) self.now.in_loop (maybe_of expr.now)
            state.old result state.new }
    {
        match expr {
            Some(expr) => self.expr(state, expr.get()),
            None => Ok(Dynamic::Unit),
        }
    }

    /// A map, from its literal.
    #[cycle(evaluate)]
    #[inline(never)]
    fn map(
        &self,
        state: &mut State,
        literal: &(Seq<(Ident, Expr)>, StringMap<Dynamic>),
    ) -> Result<Dynamic, Interrupt>
        ensures { RunsCore (setting H.answers H.modules self.now.machine)
            (core_expr self.now.in_loop (MapOf (pairs_of literal.now.0) (keys_of literal.now.1))) state.old result
            state.new }
    {
        let (members, template) = literal;
        if !is_map(self.machine.alloc, members.as_slice(), template)? {
            return Err(Interrupt::Stuck(Stuck::WrongKind));
        }
        Ok(Dynamic::Map(self.members(state, members.as_slice())?))
    }

    /// The values of a map's members, from the first to the last, in a map.
    #[cycle(evaluate)]
    fn members(
        &self,
        state: &mut State,
        members: &[(Ident, Expr)],
    ) -> Result<StringMap<Dynamic>, Interrupt>
        ensures { RunsMembers (setting H.answers H.modules self.now.machine) self.now.in_loop (pairs_of members.now)
            state.old result state.new }
    {
        let mut map = StringMap::new(self.machine.alloc);
        for member in members {
            let value = self.expr(state, &member.1)?;
            insert(&mut map, &member.0, value)?;
        }
        Ok(map)
    }
}
