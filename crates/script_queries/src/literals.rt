//! The literal variables of a script.

#![tactic(auto, using(ast_types::specs::Reading::shapes))]

ghost use Rattle.std.specs.Prelude.{◌≡◌, if◌then◌else◌};
ghost use Rattle.std.specs.Iterator.{item_count};
ghost use Rattle.theory_meaning.specs.Tree.{Var};
ghost use Rattle.ast_types.specs.Reading.{expr_of, is_const, is_exported, stmt_of, stmts_of};
ghost use Rattle.script_queries.specs.Literals.{Gives, Tries, left_to, sought_at, sought_in};

use bitflags::Flags;
use rhai_ast::{Expr, Literals, Stmt};
use rhai_base::{ASTFlags, Dynamic, Ident, OutOfMemory};
use std::alloc::Global;
use std::num::NonZeroUsize;

/// A variable: its name, whether it is a constant, and its value.
type Variable<'a> = (&'a str, bool, Dynamic);

/// The top-level variables of a script that have literal values, in order: the name, whether it is a constant, and
/// the value.
///
/// An item that is refused for want of memory stands for the `Var` whose value was being sought; the next item is
/// sought after it.
#[derive(Drop)]
pub struct LiteralVariables<'a> {
    statements: &'a [Stmt],
    constants: bool,
    variables: bool,
    alloc: Global,
}

impl<'a> LiteralVariables<'a> {
    /// Those of a list of statements that are constants, where they are wanted, and those that are none.
    pub(crate) fn new(
        alloc: Global,
        statements: &'a [Stmt],
        constants: bool,
        variables: bool,
    ) -> LiteralVariables<'a>
        ensures { left_to result ≡ sought_in constants variables (stmts_of statements.now) }
    {
        LiteralVariables {
            statements,
            constants,
            variables,
            alloc,
        }
    }

    /// Whether constants are wanted, or variables that are none.
    fn wants(&self, constant: bool) -> bool
        ensures { result ≡ (if constant then self.now.constants else self.now.variables) }
    {
        if constant {
            self.constants
        } else {
            self.variables
        }
    }

    /// The variable of a `Var` of a wanted kind, where it has a literal value.
    fn literal_of(&self, stmt: &'a Stmt) -> Result<Option<Variable<'a>>, OutOfMemory>
        ensures { Tries result (sought_at self.now.constants self.now.variables (stmt_of stmt.now)) }
    {
        match stmt {
            Stmt::Var(parts, options, _) => self.declared(parts.get(), *options),
            _ => Ok(None),
        }
    }

    fn declared(
        &self,
        parts: &'a (Ident, Expr, Option<NonZeroUsize>),
        options: ASTFlags,
    ) -> Result<Option<Variable<'a>>, OutOfMemory>
        ensures { Tries result
            (sought_at self.now.constants self.now.variables
            (Var (is_const options) (is_exported options) parts.now.0.name (expr_of parts.now.1))) }
    {
        let constant = declares_constant(options);
        if !self.wants(constant) {
            return Ok(None);
        }
        match parts.1.get_literal_value(self.alloc)? {
            Some(value) => Ok(Some((parts.0.name.as_str(), constant, value))),
            None => Ok(None),
        }
    }
}

fn declares_constant(options: ASTFlags) -> bool
    ensures { result ≡ is_const options }
{
    options.contains(ASTFlags::CONSTANT)
}

impl<'a> Iterator for LiteralVariables<'a> {
    type Item = Result<(&'a str, bool, Dynamic), OutOfMemory>;

    ghost next_gives = { Gives };

    ghost remaining = { item_count left_to };

    fn next(&mut self) -> Option<Result<(&'a str, bool, Dynamic), OutOfMemory>> {
        while let Some((stmt, rest)) = self.statements.split_first() {
            self.statements = rest;
            match self.literal_of(stmt) {
                Ok(Some(variable)) => return Some(Ok(variable)),
                Ok(None) => {}
                Err(error) => return Some(Err(error)),
            }
        }
        None
    }
}
